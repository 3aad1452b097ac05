// The tick: the links in turn, then one step of the run.
ghost use Rattle.std.specs.Prelude.{◌≡◌};
ghost use Rattle.machine.specs.Desks.{procedure_at};
ghost use Rattle.machine.specs.Machine.{action_at, waited, sending, stepped, stepped_run, tick_answer, after_tick, with_desk};
ghost use Rattle.machine.specs.Outcomes.{answer_in};
ghost use Rattle.executive.specs.Meaning.{meaning};
ghost use Rattle.executive.specs.Sends.{finished_step, finished, turned, expecting};

use super::Executive;
use desks::chain::{StepFault, in_step, standing};
use links::link::Link;
use machine::answers::Answer;
use machine::state::{Action, Owner, Run, RunState};
use records::command::Command;
use records::fault::Fault;
use turns::turn::turn;
use watches::watch::Watch;

impl<A: Link, B: Link, C: Link, W: Watch> Executive<A, B, C, W> {
    /// The three links in turn.
    fn turn_links(&mut self) -> Answer<()>
        ensures raised_and_lost { answer_in result ≡ tick_answer (meaning A.Link B.Link C.Link W.Watch self.old) }
        ensures each_on_what_the_last_left { meaning A.Link B.Link C.Link W.Watch self.new ≡ turned (meaning A.Link B.Link C.Link W.Watch self.old) }
    {
        let event0 = turn(0, &mut self.seat0, &mut self.desk);
        let event1 = turn(1, &mut self.seat1, &mut self.desk);
        let event2 = turn(2, &mut self.seat2, &mut self.desk);
        Answer::quiet(()).and(event0).and(event1).and(event2)
    }

    /// A SEND: if its command is taken, the run waits for the reply.
    fn send_step(&mut self, run: Run, link: u8, command: Command) -> Result<(), StepFault>
        ensures sent_or_its_fault { finished_step result run (meaning A.Link B.Link C.Link W.Watch self.new) ≡ sending (meaning A.Link B.Link C.Link W.Watch self.old) run link command }
    {
        let answer = self.send(link, command, Owner::Procedure);
        in_step(standing(run), answer)?;
        self.desk.run = Some(Run {
            sent: run.sent.saturating_add(1),
            state: RunState::Sent { link },
            ..run
        });
        Ok(())
    }

    /// A WAIT, after so many ticks spent on it.
    fn wait_step(&mut self, run: Run, spent: u16, ticks: u16)
        ensures spent_or_passed { meaning A.Link B.Link C.Link W.Watch self.new ≡ with_desk (meaning A.Link B.Link C.Link W.Watch self.old) (waited run spent ticks (meaning A.Link B.Link C.Link W.Watch self.old).desk) }
    {
        if spent < ticks {
            self.desk.run = Some(Run {
                state: RunState::Ready { spent: spent + 1 },
                ..run
            });
        } else {
            self.desk.pass(run);
        }
    }

    /// An EXPECT: passes while the function is good.
    fn expect_step(&mut self, run: Run, function: u8) -> Result<(), StepFault>
        ensures passed_or_its_fault { finished_step result run (meaning A.Link B.Link C.Link W.Watch self.new) ≡ expecting (meaning A.Link B.Link C.Link W.Watch self.old) run function }
    {
        if self.watch.in_trouble(u32::from(function)) {
            return Err(StepFault::Expect {
                step: standing(run),
                function,
            });
        }
        self.desk.pass(run);
        Ok(())
    }

    /// One step of a run; an error is the fault that is to end it.
    fn take_step(&mut self, run: Run, spent: u16) -> Result<(), Fault>
        ensures stepped_or_its_fault { finished result run (meaning A.Link B.Link C.Link W.Watch self.new) ≡ stepped (action_at (procedure_at (meaning A.Link B.Link C.Link W.Watch self.old).desk run.id) run.step) run spent (meaning A.Link B.Link C.Link W.Watch self.old) }
    {
        match self.desk.action(run.id, run.step) {
            Action::Wait { ticks } => self.wait_step(run, spent, ticks),
            Action::Send {
                link,
                id,
                sid,
                parameter,
            } => {
                let parameter = self.desk.parameter(run.id, parameter);
                self.send_step(run, link, Command { id, sid, parameter })?;
            }
            Action::Expect { function } => {
                self.expect_step(run, function)?;
            }
        }
        Ok(())
    }

    /// One step of the run, unless it waits for a reply.
    fn step(&mut self)
        ensures of_the_run { meaning A.Link B.Link C.Link W.Watch self.new ≡ stepped_run (meaning A.Link B.Link C.Link W.Watch self.old).desk.run (meaning A.Link B.Link C.Link W.Watch self.old) }
    {
        let Some(run) = self.desk.run else {
            return;
        };
        let RunState::Ready { spent } = run.state else {
            return;
        };
        if let Err(fault) = self.take_step(run, spent) {
            self.desk.fail_run(run, fault);
        }
    }

    /// 10 ms have passed.
    pub fn tick(&mut self) -> Answer<()>
        ensures answer { answer_in result ≡ tick_answer (meaning A.Link B.Link C.Link W.Watch self.old) }
        ensures after { meaning A.Link B.Link C.Link W.Watch self.new ≡ after_tick (meaning A.Link B.Link C.Link W.Watch self.old) }
    {
        let answer = self.turn_links();
        self.step();
        answer
    }
}
