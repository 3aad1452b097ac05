// Submit, and how many places are free.
ghost use Rattle.std.specs.Prelude.{◌≡◌};
ghost use Rattle.machine.specs.Machine.{free as free_in, submit_answer, after_submit};
ghost use Rattle.machine.specs.Outcomes.{answer_in};
ghost use Rattle.executive.specs.Meaning.{meaning};

use super::Executive;
use links::link::Link;
use machine::answers::Answer;
use records::refusal::Refusal;
use telecommands::read::read_packet;
use turns::seat::is_pending;
use watches::watch::Watch;

/// How many reports can wait.
const PLACES: u32 = 400;

impl<A: Link, B: Link, C: Link, W: Watch> Executive<A, B, C, W> {
    /// Places of the report store that are neither taken nor owed.
    pub fn free(&self) -> u32
        ensures not_taken_or_owed { result ≡ free_in (meaning A.Link B.Link C.Link W.Watch self.now) }
    {
        let held = u32::from(is_pending(self.seat0.hold))
            + u32::from(is_pending(self.seat1.hold))
            + u32::from(is_pending(self.seat2.hold));
        let running = u32::from(self.desk.run.is_some());
        PLACES.saturating_sub(self.desk.log.waiting_reports() + held + running)
    }

    fn take(&mut self, packet: &[u8]) -> Result<u32, Refusal>
        ensures accepted_or_refused { result ≡ (submit_answer (meaning A.Link B.Link C.Link W.Watch self.old) packet.now).outcome }
        ensures after { meaning A.Link B.Link C.Link W.Watch self.new ≡ after_submit (meaning A.Link B.Link C.Link W.Watch self.old) packet.now }
    {
        let packet = read_packet(packet)?;
        let free = self.free();
        let ticket = self.desk.log.accept(free)?;
        let number = ticket.number();
        self.carry_out(ticket, packet.telecommand);
        Ok(number)
    }

    /// Takes a telecommand packet: its accepted number, or why it is refused.
    pub fn submit(&mut self, packet: &[u8]) -> Answer<Result<u32, Refusal>>
        ensures answer { answer_in result ≡ submit_answer (meaning A.Link B.Link C.Link W.Watch self.old) packet.now }
        ensures after { meaning A.Link B.Link C.Link W.Watch self.new ≡ after_submit (meaning A.Link B.Link C.Link W.Watch self.old) packet.now }
    {
        Answer::quiet(self.take(packet))
    }
}
