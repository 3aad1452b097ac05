// The sums over the answers of a shift.
ghost use Rattle.std.specs.Prelude.{◌≡◌, ◌*◌, ◌^◌, map, length};
ghost use Rattle.console.specs.Consoles.{answer_of};
ghost use Rattle.machine.specs.Runs.{History};
ghost use Rattle.sheets.specs.Histories.{answers_in};
ghost use Rattle.sheets.specs.Tallies.{stage_tally, answer_tally, both_tallies, tally_of, Tallied, Within};

use crate::tally::Tally;
use console::call::Answer;
use machine::answers::{Handed, Outcome};
use records::report::Stage;

fn stage_tally(stage: Stage) -> Tally
    ensures of_one_report { result ≡ stage_tally stage }
    ensures in_32_bits { Within result 4294967295 }
{
    match stage {
        Stage::Started => Tally::default(),
        Stage::Done { sent } => Tally {
            done: 1,
            sent: u128::from(sent),
            ..Tally::default()
        },
        Stage::Failed { sent, .. } => Tally {
            failed: 1,
            sent: u128::from(sent),
            ..Tally::default()
        },
    }
}

fn answer_tally(answer: &Answer) -> Tally
    ensures of_one_answer { result ≡ answer_tally (answer_of answer.now) }
    ensures in_32_bits { Within result 4294967295 }
{
    let counted = match answer.outcome {
        Outcome::Submitted { answer: Ok(_) } => Tally {
            accepted: 1,
            ..Tally::default()
        },
        Outcome::Collected {
            handed: Some(Handed::Event { .. }),
        } => Tally {
            collected: 1,
            ..Tally::default()
        },
        Outcome::Collected {
            handed: Some(Handed::Report { report }),
        } => stage_tally(report.stage),
        _ => Tally::default(),
    };
    Tally {
        raised: u128::from(answer.raised),
        lost: u128::from(answer.lost),
        ..counted
    }
}

// Kept: no `Add`, since a tally is public and its `+` would ask of every caller that the sums fit.
pub(crate) fn both(one: Tally, other: Tally) -> Tally
    requires { (Within one (2 ^ 126)) × (Within other (2 ^ 126)) }
    ensures each_sum { result ≡ both_tallies one other }
{
    Tally {
        accepted: one.accepted + other.accepted,
        done: one.done + other.done,
        failed: one.failed + other.failed,
        sent: one.sent + other.sent,
        raised: one.raised + other.raised,
        collected: one.collected + other.collected,
        lost: one.lost + other.lost,
    }
}

/// The sums over all of the answers.
pub fn tally(answers: &[Answer]) -> Tally
    ensures of_the_answers { result ≡ tally_of (map answer_of answers.now) }
    ensures of_their_history { (h : History) → answers_in h ≡ map answer_of answers.now → Tallied result h }
    ensures bounded { Within result (length answers.now * 4294967295) }
{
    // Kept: the bound on the sums grows with the place of the answer, which a fold's closure does not know.
    let mut sum = Tally::default();
    for answer in answers {
        sum = both(sum, answer_tally(answer));
    }
    sum
}
