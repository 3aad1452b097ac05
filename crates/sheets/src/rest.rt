// What still waits at the end of a shift.
ghost use Rattle.std.specs.Prelude.{◌≡◌, map, IfOk};
ghost use Rattle.console.specs.Consoles.{answer_of, machine_of};
ghost use Rattle.machine.specs.Laws.{handings};
ghost use Rattle.machine.specs.Outcomes.{told_of};
ghost use Rattle.sheets.specs.Rest.{hands_nothing, emptied, events_waiting, reports_waiting};

use console::call::{Answer, Call};
use console::console::Console;
use links::link::Link;
use machine::answers::Outcome;
use std::alloc::{AllocError, Global};
use watches::watch::Watch;

fn hands_nothing(answer: &Answer) -> bool
    ensures of_a_collect { result ≡ hands_nothing (told_of answer.now.outcome) }
{
    matches!(answer.outcome, Outcome::Collected { handed: None })
}

/// Collects until nothing is handed out.
pub fn collect_rest<A: Link, B: Link, C: Link, W: Watch>(
    heap: Global,
    console: &mut Console<A, B, C, W>,
) -> Result<Vec<Answer>, AllocError>
    ensures all_that_waits { IfOk result (λ rest. map answer_of rest.items ≡ handings (events_waiting (machine_of A.Link B.Link C.Link W.Watch console.old)) (reports_waiting (machine_of A.Link B.Link C.Link W.Watch console.old))) }
    ensures all_else_as_it_was { IfOk result (λ rest. machine_of A.Link B.Link C.Link W.Watch console.new ≡ emptied (machine_of A.Link B.Link C.Link W.Watch console.old)) }
{
    let mut rest = Vec::new(heap);
    loop {
        let answer = console.work(&Call::Collect);
        if hands_nothing(&answer) {
            return Ok(rest);
        }
        rest.push(answer)?;
    }
}
