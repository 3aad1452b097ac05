// The final report of an accepted number.
ghost use Rattle.std.specs.Prelude.{◌≡◌, not, map, reverse, is_some, ◌==◌};
ghost use Rattle.console.specs.Consoles.{answer_of};
ghost use Rattle.machine.specs.Balance.{finals_of};
ghost use Rattle.machine.specs.Outcomes.{told_of};
ghost use Rattle.machine.specs.Runs.{History, collected_in, reports_in};
ghost use Rattle.sheets.specs.Finals.{final_stage, first_final};
ghost use Rattle.sheets.specs.Histories.{answers_in, reports_of};

use console::call::Answer;
use machine::answers::{Handed, Outcome};
use records::report::Stage;

fn final_stage(stage: Stage) -> Option<Stage>
    ensures done_or_failed { result ≡ final_stage stage }
{
    match stage {
        Stage::Started => None,
        Stage::Done { .. } => Some(stage),
        Stage::Failed { .. } => Some(stage),
    }
}

fn final_in(answer: &Answer, number: u32) -> Option<Stage>
    ensures in_a_report_of_the_number { result ≡ first_final number (reports_in (told_of answer.now.outcome)) }
{
    let Outcome::Collected {
        handed: Some(Handed::Report { report }),
    } = answer.outcome
    else {
        return None;
    };
    if report.number != number {
        return None;
    }
    final_stage(report.stage)
}

/// The first final report of a number among those that answers handed out.
pub fn final_report(answers: &[Answer], number: u32) -> Option<Stage>
    ensures first_handed_out { result ≡ first_final number (reports_of (map answer_of answers.now)) }
    ensures first_collected { (h : History) → answers_in h ≡ map answer_of answers.now → result ≡ first_final number (reverse (collected_in h)) }
    ensures some_if_any_collected { (h : History) → answers_in h ≡ map answer_of answers.now → is_some result ≡ not (finals_of number (collected_in h) == 0) }
{
    answers.iter().find_map(|answer| final_in(answer, number))
}
