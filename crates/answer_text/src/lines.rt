// The answer lines: place, answer, the counts of events raised and lost.
ghost use Rattle.machine.specs.Outcomes.{told_of};
ghost use Rattle.answer_text.specs.Added.{Added};
ghost use Rattle.answer_text.specs.Answers.{message_text};
ghost use Rattle.answer_text.specs.Lines.{counts_text, answer_line, message_line, unreadable_line};

use crate::hex::write_hex;
use crate::outcomes::write_outcome;
use machine::answers::{Answer, Outcome};
use std::alloc::AllocError;

/// The end of every line.
fn write_counts(line: &mut String, raised: u32, lost: u32) -> Result<(), AllocError>
    ensures raised_then_lost { Added result (counts_text raised lost) line.old line.new }
{
    writeln!(line, " raised {raised} lost {lost}")
}

fn write_message_text(line: &mut String, bytes: &[u8]) -> Result<(), AllocError>
    ensures how_many_and_which { Added result (message_text bytes.now) line.old line.new }
{
    if bytes.is_empty() {
        return write!(line, "message 0");
    }
    write!(line, "message {} ", bytes.len())?;
    write_hex(line, bytes)
}

/// The answer to a call.
pub fn write_answer(
    line: &mut String,
    place: u64,
    answer: Answer<Outcome>,
) -> Result<(), AllocError>
    ensures place_answer_and_counts { Added result (answer_line place (told_of answer.outcome) answer.raised answer.lost) line.old line.new }
{
    write!(line, "{place} ")?;
    write_outcome(line, answer.outcome)?;
    write_counts(line, answer.raised, answer.lost)
}

/// The answer to the question what a link would send now.
pub fn write_message(line: &mut String, place: u64, bytes: &[u8]) -> Result<(), AllocError>
    ensures place_message_and_no_counts { Added result (message_line place bytes.now) line.old line.new }
{
    write!(line, "{place} ")?;
    write_message_text(line, bytes)?;
    write_counts(line, 0, 0)
}

/// The answer to a line that makes no call.
pub fn write_unreadable(line: &mut String, place: u64) -> Result<(), AllocError>
    ensures place_and_no_counts { Added result (unreadable_line place) line.old line.new }
{
    write!(line, "{place} unreadable")?;
    write_counts(line, 0, 0)
}
