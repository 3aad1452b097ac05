// A console worked through a list of calls.
ghost use Rattle.std.specs.Prelude.{◌≡◌, false, map, is_ok, IfOk};
ghost use Rattle.machine.specs.Calls.{answers_to, after_all};
ghost use Rattle.machine.specs.Equipments.{made_of, FreshOf};
ghost use Rattle.machine.specs.Outcomes.{answer_of};
ghost use Rattle.console.specs.Consoles.{call_of, machine_of, BalancedThroughout};
ghost use Rattle.console.specs.Lists.{history_of};

use crate::call::{Answer, Call};
use crate::console::Console;
use links::link::Link;
use machine::equipment::Equipment;
use std::alloc::{AllocError, Global};
use watches::watch::Watch;

/// Makes the calls in turn.
pub fn work_all<A: Link, B: Link, C: Link, W: Watch>(
    heap: Global,
    console: &mut Console<A, B, C, W>,
    calls: &[Call],
) -> Result<Vec<Answer>, AllocError>
    ensures answers_of_the_machine { IfOk result (λ answers. map answer_of answers.items ≡ answers_to (machine_of A.Link B.Link C.Link W.Watch console.old) (map call_of calls.now)) }
    ensures error_changes_nothing { is_ok result ≡ false → machine_of A.Link B.Link C.Link W.Watch console.new ≡ machine_of A.Link B.Link C.Link W.Watch console.old }
    ensures left_by_all_calls { IfOk result (λ answers. machine_of A.Link B.Link C.Link W.Watch console.new ≡ after_all (machine_of A.Link B.Link C.Link W.Watch console.old) (map call_of calls.now)) }
{
    let mut answers = Vec::with_capacity(heap, calls.len())?;
    for call in calls {
        answers.push_reserved(console.work(call));
    }
    Ok(answers)
}

/// Makes a console of its equipment, and works it through a list of calls.
pub fn run_list<A: Link + Drop, B: Link + Drop, C: Link + Drop, W: Watch + Drop>(
    heap: Global,
    equipment: Equipment<A, B, C, W>,
    calls: &[Call],
) -> Result<(Console<A, B, C, W>, Vec<Answer>), AllocError>
    ensures answers_of_the_machine { IfOk result (λ s. map answer_of s.1.items ≡ answers_to (made_of A.Link B.Link C.Link W.Watch equipment) (map call_of calls.now)) }
    ensures left_by_all_calls { IfOk result (λ s. machine_of A.Link B.Link C.Link W.Watch s.0 ≡ after_all (made_of A.Link B.Link C.Link W.Watch equipment) (map call_of calls.now)) }
    ensures balanced_after_each_call { IfOk result (λ s. FreshOf A.Link B.Link C.Link W.Watch equipment → BalancedThroughout (history_of (map call_of calls.now) (map answer_of s.1.items)) (machine_of A.Link B.Link C.Link W.Watch s.0)) }
{
    let mut console = Console::new(equipment);
    let answers = work_all(heap, &mut console, calls)?;
    Ok((console, answers))
}
