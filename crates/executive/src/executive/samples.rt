// Deliver, sample and collect.
ghost use Rattle.std.specs.Prelude.{◌≡◌, is_some};
ghost use Rattle.machine.specs.Machine.{means_at, received_at, deliver_answer, after_deliver, sample_refusal, sample_answer, after_sample, collect_answer, after_collect};
ghost use Rattle.machine.specs.Outcomes.{answer_in, handed_answer};
ghost use Rattle.links.specs.Meaning.{receipt};
ghost use Rattle.executive.specs.Meaning.{meaning};
ghost use Rattle.executive.specs.Samples.{judged, counted};

use super::Executive;
use links::answers::Receipt;
use links::link::Link;
use machine::answers::{Answer, Handed, Raised};
use records::event::{Event, EventKind};
use records::refusal::Refusal;
use records::refusals::MOST;
use watches::watch::{Watch, has_function};

impl<A: Link, B: Link, C: Link, W: Watch> Executive<A, B, C, W> {
    fn is_held_at(&self, link: u32) -> bool
        ensures a_command_is_held { result ≡ is_some (means_at (meaning A.Link B.Link C.Link W.Watch self.now) link).held }
    {
        at_link!(self, link, link.is_held())
    }

    fn receive_at(&mut self, link: u32, bytes: &[u8]) -> Receipt
        ensures as_the_link_answers { result ≡ receipt (means_at (meaning A.Link B.Link C.Link W.Watch self.old) link) (means_at (received_at (meaning A.Link B.Link C.Link W.Watch self.old) link bytes.now) link) }
        ensures that_link_only { meaning A.Link B.Link C.Link W.Watch self.new ≡ received_at (meaning A.Link B.Link C.Link W.Watch self.old) link bytes.now }
    {
        at_link!(self, link, receive(bytes))
    }

    fn hand_over(&mut self, link: u32, bytes: &[u8]) -> Result<Receipt, Refusal>
        ensures received_or_refused { result ≡ (deliver_answer (meaning A.Link B.Link C.Link W.Watch self.old) link bytes.now).outcome }
        ensures after { meaning A.Link B.Link C.Link W.Watch self.new ≡ after_deliver (meaning A.Link B.Link C.Link W.Watch self.old) link bytes.now }
    {
        if link > 2 {
            return Err(Refusal::NoLink { link });
        }
        if !self.is_held_at(link) {
            return Err(Refusal::NobodyWaits { link });
        }
        Ok(self.receive_at(link, bytes))
    }

    /// Hands bytes to a link that waits for a reply.
    pub fn deliver(&mut self, link: u32, bytes: &[u8]) -> Answer<Result<Receipt, Refusal>>
        ensures answer { answer_in result ≡ deliver_answer (meaning A.Link B.Link C.Link W.Watch self.old) link bytes.now }
        ensures after { meaning A.Link B.Link C.Link W.Watch self.new ≡ after_deliver (meaning A.Link B.Link C.Link W.Watch self.old) link bytes.now }
    {
        Answer::quiet(self.hand_over(link, bytes))
    }

    fn judge_sample(&self, function: u32) -> Result<(), Refusal>
        ensures first_refusal_that_applies { result ≡ judged (sample_refusal (meaning A.Link B.Link C.Link W.Watch self.now) function) }
    {
        if self.desk.log.raised() >= MOST {
            return Err(Refusal::Worn);
        }
        if !has_function(self.watch.width(), function) {
            return Err(Refusal::NoFunction { function });
        }
        if !self.desk.is_on(function) {
            return Err(Refusal::FunctionOff { function });
        }
        Ok(())
    }

    /// The state of a function after it saw a value, and the event where that is another one.
    fn see(&mut self, function: u32, value: u32) -> Result<(bool, Option<Raised>), Refusal>
        ensures answer { counted result ≡ sample_answer (meaning A.Link B.Link C.Link W.Watch self.old) function value }
        ensures after { meaning A.Link B.Link C.Link W.Watch self.new ≡ after_sample (meaning A.Link B.Link C.Link W.Watch self.old) function value }
    {
        self.judge_sample(function)?;
        let before = self.watch.in_trouble(function);
        self.watch.see(function, value);
        let trouble = self.watch.in_trouble(function);
        if trouble == before {
            return Ok((trouble, None));
        }
        let kind = if trouble {
            EventKind::Trouble
        } else {
            EventKind::Clear
        };
        let event = Event {
            kind,
            place: function,
            value,
        };
        Ok((trouble, Some(self.desk.log.raise(event))))
    }

    /// Shows the watch a value of a function: whether it is in trouble now.
    pub fn sample(&mut self, function: u32, value: u32) -> Answer<Result<bool, Refusal>>
        ensures answer { answer_in result ≡ sample_answer (meaning A.Link B.Link C.Link W.Watch self.old) function value }
        ensures after { meaning A.Link B.Link C.Link W.Watch self.new ≡ after_sample (meaning A.Link B.Link C.Link W.Watch self.old) function value }
    {
        match self.see(function, value) {
            Ok((trouble, event)) => Answer::quiet(Ok(trouble)).and(event),
            Err(refusal) => Answer::quiet(Err(refusal)),
        }
    }

    /// Hands out the oldest event, else the oldest report.
    pub fn collect(&mut self) -> Answer<Option<Handed>>
        ensures answer { handed_answer result ≡ collect_answer (meaning A.Link B.Link C.Link W.Watch self.old) }
        ensures after { meaning A.Link B.Link C.Link W.Watch self.new ≡ after_collect (meaning A.Link B.Link C.Link W.Watch self.old) }
    {
        Answer::quiet(self.desk.log.take())
    }
}
