// A list of calls worked on the bench's links and watch.
ghost use Rattle.std.specs.Prelude.{◌≡◌, map, IfOk};
ghost use Rattle.machine.specs.Calls.{answers_to};
ghost use Rattle.machine.specs.Cases.{bench};
ghost use Rattle.machine.specs.Outcomes.{answer_of};
ghost use Rattle.console.specs.Cases.{AnsweredSo};
ghost use Rattle.console.specs.Consoles.{call_of};

use crate::call::{Answer, Call};
use crate::list::run_list;
use machine::equipment::bench;
use std::alloc::{AllocError, Global};

/// A wire, two processors of delay 0; Still, Moving, and Band 100 to 200.
#[tactic(auto, unfolding(machine::specs::Calls::answers_to))]
pub fn work_the_bench(heap: Global, calls: &[Call]) -> Result<Vec<Answer>, AllocError>
    ensures answers_of_the_machine { IfOk result (λ answers. map answer_of answers.items ≡ answers_to bench (map call_of calls.now)) }
    ensures worked_cases { IfOk result (λ answers. AnsweredSo (map call_of calls.now) (map answer_of answers.items)) }
{
    let (_, answers) = run_list(heap, bench(), calls)?;
    Ok(answers)
}
