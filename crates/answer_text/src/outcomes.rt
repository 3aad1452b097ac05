// The answers to the five calls, in words.
ghost use Rattle.machine.specs.Outcomes.{handing_of, told_of};
ghost use Rattle.answer_text.specs.Added.{Added};
ghost use Rattle.answer_text.specs.Answers.{handed_text, outcome_text};

use machine::answers::{Handed, Outcome};
use std::alloc::AllocError;

fn write_handed(line: &mut String, handed: Option<Handed>) -> Result<(), AllocError>
    ensures event_report_or_nothing { Added result (handed_text (handing_of handed)) line.old line.new }
{
    match handed {
        Some(Handed::Event { event }) => write!(line, "{event}"),
        Some(Handed::Report { report }) => write!(line, "{report}"),
        None => write!(line, "nothing"),
    }
}

/// The answer to a call, without its counts.
pub fn write_outcome(line: &mut String, outcome: Outcome) -> Result<(), AllocError>
    ensures by_the_call { Added result (outcome_text (told_of outcome)) line.old line.new }
{
    match outcome {
        Outcome::Submitted { answer: Ok(number) } => write!(line, "accepted {number}"),
        Outcome::Delivered {
            answer: Ok(receipt),
        } => write!(line, "{receipt}"),
        Outcome::Ticked => write!(line, "ticked"),
        Outcome::Sampled { answer: Ok(true) } => write!(line, "trouble"),
        Outcome::Sampled { answer: Ok(false) } => write!(line, "good"),
        Outcome::Collected { handed } => write_handed(line, handed),
        Outcome::Submitted {
            answer: Err(refusal),
        }
        | Outcome::Delivered {
            answer: Err(refusal),
        }
        | Outcome::Sampled {
            answer: Err(refusal),
        } => write!(line, "{refusal}"),
    }
}
