// The call that a line of text asks for.
ghost use Rattle.std.specs.Prelude.{◌≡◌};
ghost use Rattle.bench_text.specs.Lines.{said_by};
ghost use Rattle.sheets.specs.Lists.{called_by, made_of};

use bench_text::line::Line;
use console::call::Call;

/// None for a line that asks for no call.
pub fn call_of(line: Line) -> Option<Call>
    ensures as_the_line_says { made_of result ≡ called_by (said_by line) }
{
    match line {
        Line::Call(call) => Some(call),
        Line::Skipped | Line::Unreadable | Line::Message { .. } => None,
    }
}
