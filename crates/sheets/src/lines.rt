// Taking a call list in, line by line.
ghost use Rattle.std.specs.Prelude.{◌≡◌, [], ◌++◌, map, OnOk};
ghost use Rattle.bench_text.specs.Lines.{said_by};
ghost use Rattle.console.specs.Consoles.{call_of};
ghost use Rattle.sheets.specs.Lists.{calls_in, marks_in, mark_of};

use crate::calls::call_of;
use crate::list::{CallList, Mark};
use bench_text::line::Line;
use std::alloc::{AllocError, Global};

// Kept: no `From`, since a line that does not count has no mark.
/// None for a line that does not count.
fn mark_of(line: &Line) -> Option<Mark>
    ensures if_counted { result ≡ mark_of (said_by line.now) }
{
    match line {
        Line::Skipped => None,
        Line::Unreadable => Some(Mark::Unreadable),
        Line::Message { .. } => Some(Mark::Question),
        Line::Call(_) => Some(Mark::Call),
    }
}

impl CallList {
    pub fn new(heap: Global) -> CallList
        ensures empty { (result.calls.items ≡ []) × (result.marks.items ≡ []) }
    {
        CallList {
            calls: Vec::new(heap),
            marks: Vec::new(heap),
        }
    }

    pub fn add(&mut self, line: Line) -> Result<(), AllocError>
        ensures its_call { OnOk result (map call_of self.new.calls.items ≡ map call_of self.old.calls.items ++ calls_in (said_by line)) }
        ensures its_mark { OnOk result (self.new.marks.items ≡ self.old.marks.items ++ marks_in (said_by line)) }
    {
        if let Some(mark) = mark_of(&line) {
            self.marks.push(mark)?;
        }
        if let Some(call) = call_of(line) {
            self.calls.push(call)?;
        }
        Ok(())
    }
}
