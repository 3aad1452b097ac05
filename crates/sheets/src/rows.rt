// The line of the sheet for a submit.
ghost use Rattle.std.specs.Prelude.{◌≡◌, map, reverse};
ghost use Rattle.console.specs.Consoles.{answer_of};
ghost use Rattle.machine.specs.Runs.{History, collected_in};
ghost use Rattle.sheets.specs.Finals.{row_of};
ghost use Rattle.sheets.specs.Histories.{answers_in};

use crate::finals::final_report;
use crate::row::Accepted;
use console::call::Answer;
use records::refusal::Refusal;

/// By the answer to the submit, and the answers of the shift; a refused submit has no report to wait for.
pub fn row_of(answers: &[Answer], submitted: Result<u32, Refusal>) -> Result<Accepted, Refusal>
    ensures ticked_by_the_collected_reports { (h : History) → answers_in h ≡ map answer_of answers.now → result ≡ row_of (reverse (collected_in h)) submitted }
{
    submitted.map(|number| Accepted {
        number,
        report: final_report(answers, number),
    })
}
