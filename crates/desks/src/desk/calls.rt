// What is read from a desk, and how a run there goes on or ends.
ghost use Rattle.std.specs.Prelude.{◌≡◌, ◌-◌, option_copied};
ghost use Rattle.machine.specs.Desks.{new_desk, with_status, status_at, is_blocked, is_on, procedure_at, runs as runs_on, steps_of, passed};
ghost use Rattle.machine.specs.Parts.{action_at, parameter_of};
ghost use Rattle.desks.specs.Desked.{run_ended};

use super::Desk;
use crate::items::set_item;
use crate::log::Log;
use machine::state::{Action, LinkStatus, Procedure, Run, RunState};
use records::report::Stage;

/// Where the procedure of an ID stands.
fn place_of(id: u16) -> usize
    ensures one_before { result ≡ id - 1 }
{
    usize::from(id.saturating_sub(1))
}

impl Desk {
    pub fn new() -> Desk
        ensures as_at_the_making { result ≡ new_desk }
    {
        Desk {
            statuses: [LinkStatus::Off; 3],
            switches: [true; 23],
            procedures: [None; 16],
            run: None,
            log: Log::new(),
        }
    }

    /// A link's status; off above link 2.
    pub fn status(&self, link: u32) -> LinkStatus
        ensures of_the_link { result ≡ status_at self.now link }
    {
        self.statuses
            .get(link as usize)
            .copied()
            .unwrap_or(LinkStatus::Off)
    }

    /// Whether no command may be offered to a link.
    pub fn is_blocked(&self, link: u8) -> bool
        ensures off_or_any_stopped { result ≡ is_blocked self.now link }
    {
        self.status(u32::from(link)) == LinkStatus::Off
            || self.statuses.contains(&LinkStatus::Stopped)
    }

    /// Sets a link's status; nothing above link 2.
    pub fn set_status(&mut self, link: u16, status: LinkStatus)
        ensures of_this_link { self.new ≡ with_status self.old link status }
    {
        set_item(&mut self.statuses, usize::from(link), status);
    }

    /// Whether a function is switched on; from function 24 on none is.
    pub fn is_on(&self, function: u32) -> bool
        ensures its_switch { result ≡ is_on self.now function }
    {
        self.switches
            .get(function.saturating_sub(1) as usize)
            .copied()
            .unwrap_or(false)
    }

    /// Whether the procedure of this ID runs.
    pub fn runs(&self, id: u16) -> bool
        ensures by_its_id { result ≡ runs_on self.now id }
    {
        self.run.map_or(0, |run| run.id) == id
    }

    fn procedure(&self, id: u16) -> Option<&Procedure>
        ensures at_its_place { option_copied result ≡ procedure_at self.now id }
    {
        self.procedures.get(place_of(id))?.as_ref()
    }

    /// What the procedure of this ID does at a step, with so many steps before it.
    pub fn action(&self, id: u16, step: usize) -> Action
        ensures of_the_procedure { result ≡ action_at (procedure_at self.now id) step }
    {
        self.procedure(id)
            .and_then(|procedure| procedure.actions.items.get(step).copied())
            .unwrap_or(Action::Wait { ticks: 0 })
    }

    /// The value of a parameter of the procedure of this ID.
    pub fn parameter(&self, id: u16, number: u16) -> u32
        ensures of_the_procedure { result ≡ parameter_of (procedure_at self.now id) number }
    {
        self.procedure(id).map_or(0, |procedure| match number {
            0 => 0,
            _ => procedure
                .parameters
                .get(usize::from(number) - 1)
                .copied()
                .unwrap_or(0),
        })
    }

    fn steps(&self, id: u16) -> usize
        ensures of_the_procedure { result ≡ steps_of (procedure_at self.now id) }
    {
        self.procedure(id)
            .map_or(0, |procedure| procedure.actions.count)
    }

    /// Ends the run with its final report.
    pub fn end_run(&mut self, run: Run, stage: Stage)
        ensures no_run_and_its_report { self.new ≡ run_ended run stage self.old }
    {
        self.run = None;
        self.log.file(run.number, stage);
    }

    /// The run has passed the step where it stood.
    pub fn pass(&mut self, run: Run)
        ensures next_step_or_done { self.new ≡ passed run self.old }
    {
        let next = run.step.saturating_add(1);
        if next < self.steps(run.id) {
            self.run = Some(Run {
                step: next,
                state: RunState::Ready { spent: 0 },
                ..run
            });
        } else {
            self.end_run(run, Stage::Done { sent: run.sent });
        }
    }
}
