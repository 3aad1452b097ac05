// One line of a session: the call it makes, and the line that answers it.
ghost use Rattle.std.specs.Prelude.{◌≡◌, ◌++◌, IfOk, string_bytes, OnOk};
ghost use Rattle.bench_text.specs.Lines.{said_by};
ghost use Rattle.machine.specs.Machine.{message_of};
ghost use Rattle.bench.specs.Sessions.{place_after, after_line, printed};

use answer_text::lines::{write_answer, write_message, write_unreadable};
use bench_text::line::Line;
use console::live::BenchConsole;
use std::alloc::{AllocError, Global};

/// The place of a line, after the place of the last that counts.
pub fn next_place(last: u64, line: &Line) -> u64
    ensures one_more_if_it_counts { result ≡ place_after last (said_by line.now) }
{
    match line {
        Line::Skipped => last,
        _ => last.saturating_add(1),
    }
}

/// What a link would send now.
fn message(heap: Global, console: &BenchConsole, link: u32) -> Result<Vec<u8>, AllocError>
    ensures all_its_bytes { IfOk result (λ bytes. bytes.items ≡ message_of console.now link) }
{
    (0..console.message_length(link))
        .map(|at| console.message_byte(link, at))
        .collect(heap)
}

/// Makes the call that a line asks for, and adds the line that answers it.
pub fn respond(
    heap: Global,
    console: &mut BenchConsole,
    line: Line,
    place: u64,
    text: &mut String,
) -> anyhow::Result<()>
    ensures machine_goes_on { console.new ≡ after_line console.old (said_by line) }
    ensures answer_added { OnOk result (string_bytes text.new ≡ string_bytes text.old ++ printed console.old place (said_by line)) }
{
    match line {
        Line::Skipped => {}
        Line::Unreadable => write_unreadable(text, place)?,
        Line::Message { link } => {
            let bytes = message(heap, console, link)?;
            write_message(text, place, bytes.as_slice())?;
        }
        Line::Call(call) => {
            let answer = console.work(&call);
            write_answer(text, place, answer)?;
        }
    }
    Ok(())
}
