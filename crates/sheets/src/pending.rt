// The accepted numbers that are pending at the end of a shift.
ghost use Rattle.std.specs.Prelude.{◌≡◌, ◌++◌, map};
ghost use Rattle.console.specs.Consoles.{answer_of};
ghost use Rattle.machine.specs.Balance.{View, pending_in};
ghost use Rattle.machine.specs.Laws.{handings};
ghost use Rattle.machine.specs.Runs.{History};
ghost use Rattle.sheets.specs.Histories.{answers_in, reports_of};
ghost use Rattle.sheets.specs.Pending.{is_open, gives_open, pending_of};

use crate::finals::final_report;
use console::call::Answer;
use machine::answers::Outcome;

fn is_pending(answers: &[Answer], rest: &[Answer], number: u32) -> bool
    ensures no_final_report { result ≡ is_open (reports_of (map answer_of answers.now) ++ reports_of (map answer_of rest.now)) number }
{
    final_report(answers, number).is_none() && final_report(rest, number).is_none()
}

/// Whether an answer gave a pending number.
fn gives_pending(answer: &Answer, answers: &[Answer], rest: &[Answer]) -> bool
    ensures given_and_pending { result ≡ gives_open (reports_of (map answer_of answers.now) ++ reports_of (map answer_of rest.now)) (answer_of answer.now) }
{
    match answer.outcome {
        Outcome::Submitted { answer: Ok(number) } => is_pending(answers, rest, number),
        _ => false,
    }
}

// Kept: two lists of answers side by side; a struct of them would be taken apart again at each use.
/// How many numbers the answers gave that have no final report, collected or waiting; the rest hands out what waits.
pub fn pending(answers: &[Answer], rest: &[Answer]) -> u128
    ensures of_the_answers { result ≡ pending_of (map answer_of answers.now) (map answer_of rest.now) }
    ensures of_their_history { (h : History) (v : View) → answers_in h ≡ map answer_of answers.now → map answer_of rest.now ≡ handings v.events v.reports → result ≡ pending_in h v }
{
    answers
        .iter()
        .filter(|answer| gives_pending(answer, answers, rest))
        .count() as u128
}
