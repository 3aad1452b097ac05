// The steps of a procedure, judged when it is loaded.
ghost use Rattle.std.specs.Prelude.{◌≡◌, ◌+◌, ◌<◌, ◌≤◌, not, length, replicate, is_some};
ghost use Rattle.std.specs.List.{position};
ghost use Rattle.records.specs.declared.fault.FaultKind.TheVariants.{InvalidStep};
ghost use Rattle.records.specs.Faults.{fault_of};
ghost use Rattle.machine.specs.Procedures.{action_of};
ghost use Rattle.machine.specs.declared.state.Action.TheVariants.{Wait};
ghost use Rattle.procedures.specs.Judging.{action_at, actions_from, judged_steps};

use machine::state::{Action, Procedure};
use records::fault::{Fault, FaultKind};
use records::fixed_list::FixedList;
use records::step::{Operation, Step};
use telecommands::packet::Steps;
use watches::watch::has_function;

/// What the steps of a procedure may name: the functions of a watch of this width, and so many parameters.
#[derive(Clone, Copy)]
struct Limits {
    width: u32,
    nop: u16,
}

impl Limits {
    /// What a step does, if it is good.
    fn action(&self, step: &Step) -> Option<Action>
        ensures by_its_operation { result ≡ action_of self.now.width self.now.nop step.now }
    {
        let Step { b, w, u, v, .. } = *step;
        match step.operation()? {
            Operation::Send if b <= 2 && v <= self.nop => Some(Action::Send {
                link: b,
                id: w,
                sid: u,
                parameter: v,
            }),
            Operation::Wait if b == 0 && u == 0 && v == 0 => Some(Action::Wait { ticks: w }),
            Operation::Expect
                if has_function(self.width, u32::from(b)) && w == 0 && u == 0 && v == 0 => {
                Some(Action::Expect { function: b })
            }
            _ => None,
        }
    }

    /// The place of the first bad step.
    fn first_bad(&self, steps: &[Step]) -> Option<usize>
        ensures first_without_an_action { result ≡ position (λ step. not (is_some (action_of self.now.width self.now.nop step))) steps.now }
    {
        steps.iter().position(|step| self.action(step).is_none())
    }

    /// What the step at a place does, if there is one and it is good; else it would be a wait.
    fn action_at(&self, steps: &[Step], place: usize) -> Action
        ensures of_a_good_step { result ≡ action_at self.now.width self.now.nop steps.now place }
    {
        steps
            .get(place)
            .and_then(|step| self.action(step))
            .unwrap_or(Action::Wait { ticks: 0 })
    }

    /// What each step does; the places behind them wait for no tick.
    // Kept: a loop over the steps; a closure for each of the 28 places took longer where there are few.
    fn actions(&self, steps: &[Step]) -> [Action; 28]
        requires { length steps.now ≤ 28 }
        ensures one_for_each_step { result ≡ actions_from self.now.width self.now.nop steps.now (replicate 28 (Wait 0)) }
    {
        let mut actions = [Action::Wait { ticks: 0 }; 28];
        for place in 0..steps.len() {
            actions[place] = self.action_at(steps, place);
        }
        actions
    }
}

/// The fault of the first bad step; steps are numbered from 1.
fn bad_step(place: usize) -> Fault
    requires { place < 28 }
    ensures numbered_from_1 { result ≡ fault_of InvalidStep (place + 1) }
{
    FaultKind::InvalidStep.fault(place as u32 + 1)
}

/// The procedure that good steps make, or a fault with the number of the first bad one.
pub fn procedure_of(width: u32, nop: u16, steps: &Steps) -> Result<Procedure, Fault>
    ensures all_good_or_the_first_bad { result ≡ judged_steps width nop steps.now }
{
    let limits = Limits { width, nop };
    let count = steps.count;
    let steps = steps.as_slice();
    if let Some(place) = limits.first_bad(steps) {
        return Err(bad_step(place));
    }
    let items = limits.actions(steps);
    Ok(Procedure {
        nop,
        parameters: [0; 25],
        actions: FixedList { items, count },
    })
}
