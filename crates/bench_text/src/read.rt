// Reading a line of a call list.
ghost use Rattle.std.specs.Prelude.{◌≡◌, not, length, IfOk, ◌==◌};
ghost use Rattle.bench_text.specs.Lines.{said_by, is_skipped, alone, submitted, delivered, sampled, asked, line_of, read_line};
ghost use Rattle.bench_text.specs.Numbers.{number_of, bytes_of};
ghost use Rattle.bench_text.specs.Words.{first_word, after_word};

use crate::line::Line;
use crate::numbers::{bytes, number};
use crate::words::{is_word, split_word};
use records::call::Call;
use std::alloc::{AllocError, Global};

fn is_skipped(word: &[u8]) -> bool
    ensures no_word_or_comment { result ≡ is_skipped word.now }
{
    match word {
        [] => true,
        [first, ..] => *first == b'#',
    }
}

fn has_word(text: &[u8]) -> bool
    ensures a_word_follows { result ≡ not (length (first_word text.now) == 0) }
{
    let (word, _) = split_word(text);
    !word.is_empty()
}

/// A line, if no further word follows.
fn alone(line: Line, rest: &[u8]) -> Line
    ensures unless_a_word_follows { said_by result ≡ alone (said_by line) rest.now }
{
    if has_word(rest) {
        Line::Unreadable
    } else {
        line
    }
}

fn read_submit(heap: Global, rest: &[u8]) -> Result<Line, AllocError>
    ensures bytes_follow { IfOk result (λ line. said_by line ≡ submitted (bytes_of rest.now)) }
{
    match bytes(heap, rest)? {
        Some(packet) => Ok(Line::Call(Call::Submit { packet })),
        None => Ok(Line::Unreadable),
    }
}

fn read_deliver(heap: Global, rest: &[u8]) -> Result<Line, AllocError>
    ensures link_and_bytes_follow { IfOk result (λ line. said_by line ≡ delivered (number_of (first_word rest.now)) (bytes_of (after_word rest.now))) }
{
    let (word, rest) = split_word(rest);
    let Some(link) = number(word) else {
        return Ok(Line::Unreadable);
    };
    match bytes(heap, rest)? {
        Some(bytes) => Ok(Line::Call(Call::Deliver { link, bytes })),
        None => Ok(Line::Unreadable),
    }
}

// A word too many is found first, so that the numbers of such a line, which may be long, are not read.
fn read_sample(rest: &[u8]) -> Line
    ensures function_and_value_follow { said_by result ≡ alone (sampled (number_of (first_word rest.now)) (number_of (first_word (after_word rest.now)))) (after_word (after_word rest.now)) }
{
    let (function, rest) = split_word(rest);
    let (value, rest) = split_word(rest);
    if has_word(rest) {
        return Line::Unreadable;
    }
    match (number(function), number(value)) {
        (Some(function), Some(value)) => Line::Call(Call::Sample { function, value }),
        _ => Line::Unreadable,
    }
}

fn read_message(rest: &[u8]) -> Line
    ensures link_follows { said_by result ≡ alone (asked (number_of (first_word rest.now))) (after_word rest.now) }
{
    let (link, rest) = split_word(rest);
    if has_word(rest) {
        return Line::Unreadable;
    }
    match number(link) {
        Some(link) => Line::Message { link },
        None => Line::Unreadable,
    }
}

/// What a line says, without its newline.
// Kept: tests of whole words; a match over the words has a path for each of their letters, and its proof did not close.
pub fn read_line(heap: Global, text: &[u8]) -> Result<Line, AllocError>
    ensures by_its_words { IfOk result (λ line. said_by line ≡ read_line text.now) }
{
    let (word, rest) = split_word(text);
    if is_skipped(word) {
        return Ok(Line::Skipped);
    }
    if is_word(word, b"submit") {
        return read_submit(heap, rest);
    }
    if is_word(word, b"deliver") {
        return read_deliver(heap, rest);
    }
    if is_word(word, b"tick") {
        return Ok(alone(Line::Call(Call::Tick), rest));
    }
    if is_word(word, b"sample") {
        return Ok(read_sample(rest));
    }
    if is_word(word, b"collect") {
        return Ok(alone(Line::Call(Call::Collect), rest));
    }
    if is_word(word, b"message") {
        return Ok(read_message(rest));
    }
    Ok(Line::Unreadable)
}
