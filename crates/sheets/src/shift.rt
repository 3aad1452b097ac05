// A shift: a list of calls worked from the making on, and its totals.
ghost use Rattle.std.specs.Prelude.{◌≡◌, map, IfOk};
ghost use Rattle.console.specs.Consoles.{call_of, answer_of, machine_of};
ghost use Rattle.console.specs.Lists.{history_of};
ghost use Rattle.machine.specs.Balance.{view_of};
ghost use Rattle.machine.specs.Calls.{answers_to};
ghost use Rattle.machine.specs.Equipments.{made_of, FreshOf};
ghost use Rattle.machine.specs.Runs.{History};
ghost use Rattle.sheets.specs.Histories.{answers_in};
ghost use Rattle.sheets.specs.Rest.{emptied};
ghost use Rattle.sheets.specs.Shifts.{Closed};
ghost use Rattle.sheets.specs.Totals.{Totalled};

use crate::rest::collect_rest;
use crate::tally::Totals;
use crate::totals::totals;
use console::call::{Answer, Call};
use console::console::Console;
use console::list::run_list;
use links::link::Link;
use machine::equipment::Equipment;
use std::alloc::{AllocError, Global};
use watches::watch::Watch;

/// The answers to the calls of the shift, and its totals.
#[derive(Drop)]
pub struct Shift {
    pub answers: Vec<Answer>,
    pub totals: Totals,
}

/// The totals of a shift with these answers; what still waits is handed out.
pub fn close_shift<A: Link, B: Link, C: Link, W: Watch>(
    heap: Global,
    console: &mut Console<A, B, C, W>,
    answers: &[Answer],
) -> Result<Totals, AllocError>
    ensures totals_of_the_machine { IfOk result (λ t. (h : History) → answers_in h ≡ map answer_of answers.now → Totalled t h (view_of (machine_of A.Link B.Link C.Link W.Watch console.old))) }
    ensures stores_emptied { IfOk result (λ t. machine_of A.Link B.Link C.Link W.Watch console.new ≡ emptied (machine_of A.Link B.Link C.Link W.Watch console.old)) }
{
    let rest = collect_rest(heap, console)?;
    Ok(totals(answers, rest.as_slice()))
}

/// Makes a console of its equipment, and works it through the calls of a shift.
pub fn work_shift<A: Link + Drop, B: Link + Drop, C: Link + Drop, W: Watch + Drop>(
    heap: Global,
    equipment: Equipment<A, B, C, W>,
    calls: &[Call],
) -> Result<Shift, AllocError>
    ensures answers_of_the_machine { IfOk result (λ s. map answer_of s.answers.items ≡ answers_to (made_of A.Link B.Link C.Link W.Watch equipment) (map call_of calls.now)) }
    ensures balanced_if_fresh { IfOk result (λ s. FreshOf A.Link B.Link C.Link W.Watch equipment → Closed A.Link.kind B.Link.kind C.Link.kind W.Watch.kind (history_of (map call_of calls.now) (map answer_of s.answers.items)) s.totals) }
{
    let (mut console, answers) = run_list(heap, equipment, calls)?;
    let totals = close_shift(heap, &mut console, answers.as_slice())?;
    Ok(Shift { answers, totals })
}
