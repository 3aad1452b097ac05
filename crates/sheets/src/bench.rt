// A shift on the bench's links and watch, balanced with no condition.
ghost use Rattle.std.specs.Prelude.{◌≡◌, map, IfOk};
ghost use Rattle.console.specs.Consoles.{call_of, answer_of};
ghost use Rattle.console.specs.Lists.{history_of};
ghost use Rattle.links.specs.Processors.{processor_kind};
ghost use Rattle.links.specs.Wires.{wire_kind};
ghost use Rattle.machine.specs.Calls.{answers_to};
ghost use Rattle.machine.specs.Cases.{bench as bench_machine, bench_watch};
ghost use Rattle.sheets.specs.Shifts.{Closed};

use crate::shift::{Shift, work_shift};
use console::call::Call;
use machine::equipment::bench;
use std::alloc::{AllocError, Global};

/// Works the calls of a shift on a wire, two processors of delay 0; Still, Moving, and Band 100 to 200.
#[tactic(auto, unfolding(machine::specs::Calls::answers_to))]
pub fn work_bench(heap: Global, calls: &[Call]) -> Result<Shift, AllocError>
    ensures answers_of_the_bench { IfOk result (λ s. map answer_of s.answers.items ≡ answers_to bench_machine (map call_of calls.now)) }
    ensures balanced { IfOk result (λ s. Closed wire_kind processor_kind processor_kind bench_watch (history_of (map call_of calls.now) (map answer_of s.answers.items)) s.totals) }
{
    work_shift(heap, bench(), calls)
}
