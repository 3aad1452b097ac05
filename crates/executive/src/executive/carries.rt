// What each telecommand does, under its ticket.
ghost use Rattle.std.specs.Prelude.{◌≡◌, ◌≤◌};
ghost use Rattle.machine.specs.Machine.{triggered, performed, stopped_run, stopped, carried_out};
ghost use Rattle.machine.specs.Sizes.{Few};
ghost use Rattle.telecommands.specs.declared.packet.Telecommand.TheVariants.{Start};
ghost use Rattle.executive.specs.Meaning.{meaning};

use super::Executive;
use desks::chain::standing;
use desks::ticket::Ticket;
use links::link::Link;
use machine::state::{Owner, Run, RunState};
use procedures::switches::set;
use procedures::table::{delete, load, prepare, set_parameters};
use records::command::Command;
use records::fault::{Fault, FaultKind};
use telecommands::packet::{Settings, Telecommand};
use watches::watch::Watch;

impl<A: Link, B: Link, C: Link, W: Watch> Executive<A, B, C, W> {
    /// A trigger: one command, offered at once.
    fn trigger(&mut self, ticket: Ticket, link: u8, command: Command)
        ensures pending_or_failed { meaning A.Link B.Link C.Link W.Watch self.new ≡ triggered (meaning A.Link B.Link C.Link W.Watch self.old) ticket.number link command }
    {
        let owner = Owner::Telecommand {
            number: ticket.number(),
        };
        match self.send(link, command, owner) {
            Ok(()) => ticket.park(&mut self.desk.log),
            Err(fault) => ticket.settle(Err(Fault::from(fault)), &mut self.desk.log),
        }
    }

    fn perform(&mut self, ticket: Ticket, function: u8, activity: u8, sid: u16, value: u32)
        ensures by_the_function { meaning A.Link B.Link C.Link W.Watch self.new ≡ performed (meaning A.Link B.Link C.Link W.Watch self.old) ticket.number function activity sid value }
    {
        if 1 <= function && function <= 3 {
            let command = Command {
                id: u16::from(activity),
                sid,
                parameter: value,
            };
            self.trigger(ticket, function - 1, command);
        } else if function == 100 {
            let width = self.watch.width();
            let outcome = set(&mut self.desk, width, activity, sid, value);
            ticket.settle(outcome, &mut self.desk.log);
        } else {
            let fault = FaultKind::InvalidFunction.fault(u32::from(function));
            ticket.settle(Err(fault), &mut self.desk.log);
        }
    }

    /// A start that is judged good begins its run.
    fn start(&mut self, ticket: Ticket, id: u16, settings: &Settings)
        requires { settings.now.count ≤ 38 }
        ensures runs_or_failed { meaning A.Link B.Link C.Link W.Watch self.new ≡ carried_out (Start id settings.now) ticket.number (meaning A.Link B.Link C.Link W.Watch self.old) }
    {
        match prepare(&mut self.desk, id, settings) {
            Ok(()) => {
                self.desk.run = Some(Run {
                    id,
                    number: ticket.number(),
                    step: 0,
                    sent: 0,
                    state: RunState::Ready { spent: 0 },
                });
                ticket.park(&mut self.desk.log);
            }
            Err(fault) => ticket.settle(Err(fault), &mut self.desk.log),
        }
    }

    /// The run's command, if a link holds one, is abandoned; then the run ends.
    fn stop_run(&mut self, run: Run)
        ensures abandoned_and_ended { meaning A.Link B.Link C.Link W.Watch self.new ≡ stopped_run run (meaning A.Link B.Link C.Link W.Watch self.old) }
    {
        if let RunState::Sent { link } = run.state {
            self.abandon_at(link);
        }
        let fault = FaultKind::ProcedureStopped
            .fault(u32::from(run.id))
            .at_step(standing(run));
        self.desk.fail_run(run, fault);
    }

    fn stop(&mut self, ticket: Ticket, id: u16)
        ensures run_first_then_itself { meaning A.Link B.Link C.Link W.Watch self.new ≡ stopped (meaning A.Link B.Link C.Link W.Watch self.old) ticket.number id }
    {
        if id > 16 {
            let fault = FaultKind::InvalidProcedure.fault(u32::from(id));
            ticket.settle(Err(fault), &mut self.desk.log);
            return;
        }
        match self.desk.run {
            Some(run) if id == 0 || id == run.id => self.stop_run(run),
            _ => {}
        }
        ticket.settle(Ok(()), &mut self.desk.log);
    }

    pub(crate) fn carry_out(&mut self, ticket: Ticket, telecommand: Telecommand)
        requires { Few telecommand }
        ensures as_its_type_says { meaning A.Link B.Link C.Link W.Watch self.new ≡ carried_out telecommand ticket.number (meaning A.Link B.Link C.Link W.Watch self.old) }
    {
        match telecommand {
            Telecommand::Test => ticket.settle(Ok(()), &mut self.desk.log),
            Telecommand::Perform {
                function,
                activity,
                sid,
                value,
            } => self.perform(ticket, function, activity, sid, value),
            Telecommand::Load { id, nop, steps } => {
                let width = self.watch.width();
                let outcome = load(&mut self.desk, width, id, nop, &steps);
                ticket.settle(outcome, &mut self.desk.log);
            }
            Telecommand::Delete { id } => {
                let outcome = delete(&mut self.desk, id);
                ticket.settle(outcome, &mut self.desk.log);
            }
            Telecommand::Start { id, settings } => self.start(ticket, id, &settings),
            Telecommand::Stop { id } => self.stop(ticket, id),
            Telecommand::Set { id, settings } => {
                let outcome = set_parameters(&mut self.desk, id, &settings);
                ticket.settle(outcome, &mut self.desk.log);
            }
        }
    }
}
