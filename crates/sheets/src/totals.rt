// The totals at the end of a shift, and whether they balance.
ghost use Rattle.std.specs.Prelude.{◌≡◌, ◌+◌, map, ◌==◌};
ghost use Rattle.console.specs.Consoles.{answer_of};
ghost use Rattle.machine.specs.Balance.{View};
ghost use Rattle.machine.specs.Laws.{handings};
ghost use Rattle.machine.specs.Runs.{History};
ghost use Rattle.sheets.specs.Histories.{answers_in};
ghost use Rattle.sheets.specs.Totals.{totals_of, Totalled, adds_up};

use crate::pending::pending;
use crate::tallies::{both, tally};
use crate::tally::Totals;
use console::call::Answer;

/// Of the answers of a shift, and of those to the collects after it that hand out what still waits.
pub fn totals(answers: &[Answer], rest: &[Answer]) -> Totals
    ensures of_the_answers { result ≡ totals_of (map answer_of answers.now) (map answer_of rest.now) }
    ensures of_their_history { (h : History) (v : View) → answers_in h ≡ map answer_of answers.now → map answer_of rest.now ≡ handings v.events v.reports → Totalled result h v }
{
    let during = tally(answers);
    let after = tally(rest);
    let all = both(during, after);
    Totals {
        accepted: during.accepted,
        done: all.done,
        failed: all.failed,
        pending: pending(answers, rest),
        sent: all.sent,
        raised: during.raised,
        collected: during.collected,
        waiting: after.collected,
        lost: during.lost,
    }
}

fn is_sum(whole: u128, one: u128, two: u128, three: u128) -> bool
    ensures of_three_parts { result ≡ (whole == one + two + three) }
{
    one.checked_add(two).and_then(|sum| sum.checked_add(three)) == Some(whole)
}

impl Totals {
    /// accepted = done + failed + pending; events raised = collected + waiting + lost.
    pub fn balance(&self) -> bool
        ensures both_sums { result ≡ adds_up self.now }
    {
        is_sum(self.accepted, self.done, self.failed, self.pending)
            && is_sum(self.raised, self.collected, self.waiting, self.lost)
    }
}
