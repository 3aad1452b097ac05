// A console: the calls on an executive, each with what it adds to any run.
ghost use Rattle.std.specs.Prelude.{◌≡◌, length, slice_index};
ghost use Rattle.machine.specs.Calls.{told, submitted, delivered, ticked, sampled, collected, submit as submit_call, deliver as deliver_call, tick as tick_call, sample as sample_call, collect as collect_call};
ghost use Rattle.machine.specs.Equipments.{made_of, FreshOf};
ghost use Rattle.machine.specs.Machine.{message_of};
ghost use Rattle.machine.specs.Outcomes.{answer_in, answer_of, handed_answer};
ghost use Rattle.machine.specs.Runs.{New};
ghost use Rattle.console.specs.Consoles.{call_of, machine_of, Steps, GoesOn};

use crate::call::{Answer, Call};
use executive::executive::Executive;
use links::answers::Receipt;
use links::link::Link;
use machine::answers;
use machine::answers::{Handed, Outcome};
use machine::equipment::Equipment;
use records::refusal::Refusal;
use watches::watch::Watch;

// Kept: no `impl Model`, since its `Value` would be the machine over the kinds of `A`, `B`, `C` and `W`, and a `Value` can't name what a bound brings.
#[derive(Drop)]
pub struct Console<A: Link, B: Link, C: Link, W: Watch> {
    executive: Executive<A, B, C, W>,
}

impl<A: Link, B: Link, C: Link, W: Watch> Console<A, B, C, W> {
    pub fn new(equipment: Equipment<A, B, C, W>) -> Console<A, B, C, W>
        ensures as_the_machine_is_made { machine_of A.Link B.Link C.Link W.Watch result ≡ made_of A.Link B.Link C.Link W.Watch equipment }
        ensures runs_begin_if_fresh { FreshOf A.Link B.Link C.Link W.Watch equipment → New (machine_of A.Link B.Link C.Link W.Watch result) }
    {
        Console {
            executive: Executive::new(equipment),
        }
    }

    pub fn submit(&mut self, packet: &[u8]) -> answers::Answer<Result<u32, Refusal>>
        ensures as_the_machine_does { Steps (machine_of A.Link B.Link C.Link W.Watch self.old) (submit_call packet.now) (told submitted (answer_in result)) (machine_of A.Link B.Link C.Link W.Watch self.new) }
        ensures goes_on_balanced { GoesOn (machine_of A.Link B.Link C.Link W.Watch self.old) (submit_call packet.now) (told submitted (answer_in result)) (machine_of A.Link B.Link C.Link W.Watch self.new) }
    {
        self.executive.submit(packet)
    }

    pub fn deliver(&mut self, link: u32, bytes: &[u8]) -> answers::Answer<Result<Receipt, Refusal>>
        ensures as_the_machine_does { Steps (machine_of A.Link B.Link C.Link W.Watch self.old) (deliver_call link bytes.now) (told delivered (answer_in result)) (machine_of A.Link B.Link C.Link W.Watch self.new) }
        ensures goes_on_balanced { GoesOn (machine_of A.Link B.Link C.Link W.Watch self.old) (deliver_call link bytes.now) (told delivered (answer_in result)) (machine_of A.Link B.Link C.Link W.Watch self.new) }
    {
        self.executive.deliver(link, bytes)
    }

    pub fn tick(&mut self) -> answers::Answer<()>
        ensures as_the_machine_does { Steps (machine_of A.Link B.Link C.Link W.Watch self.old) tick_call (told (λ _. ticked) (answer_in result)) (machine_of A.Link B.Link C.Link W.Watch self.new) }
        ensures goes_on_balanced { GoesOn (machine_of A.Link B.Link C.Link W.Watch self.old) tick_call (told (λ _. ticked) (answer_in result)) (machine_of A.Link B.Link C.Link W.Watch self.new) }
    {
        self.executive.tick()
    }

    pub fn sample(&mut self, function: u32, value: u32) -> answers::Answer<Result<bool, Refusal>>
        ensures as_the_machine_does { Steps (machine_of A.Link B.Link C.Link W.Watch self.old) (sample_call function value) (told sampled (answer_in result)) (machine_of A.Link B.Link C.Link W.Watch self.new) }
        ensures goes_on_balanced { GoesOn (machine_of A.Link B.Link C.Link W.Watch self.old) (sample_call function value) (told sampled (answer_in result)) (machine_of A.Link B.Link C.Link W.Watch self.new) }
    {
        self.executive.sample(function, value)
    }

    pub fn collect(&mut self) -> answers::Answer<Option<Handed>>
        ensures as_the_machine_does { Steps (machine_of A.Link B.Link C.Link W.Watch self.old) collect_call (told collected (handed_answer result)) (machine_of A.Link B.Link C.Link W.Watch self.new) }
        ensures goes_on_balanced { GoesOn (machine_of A.Link B.Link C.Link W.Watch self.old) collect_call (told collected (handed_answer result)) (machine_of A.Link B.Link C.Link W.Watch self.new) }
    {
        self.executive.collect()
    }

    fn make_call(&mut self, call: &Call) -> Answer
        ensures as_the_machine_does { Steps (machine_of A.Link B.Link C.Link W.Watch self.old) (call_of call.now) (answer_of result) (machine_of A.Link B.Link C.Link W.Watch self.new) }
    {
        match call {
            Call::Submit { packet } => self
                .executive
                .submit(packet.as_slice())
                .map(|answer| Outcome::Submitted { answer }),
            Call::Deliver { link, bytes } => self
                .executive
                .deliver(*link, bytes.as_slice())
                .map(|answer| Outcome::Delivered { answer }),
            Call::Tick => self.executive.tick().map(|()| Outcome::Ticked),
            Call::Sample { function, value } => self
                .executive
                .sample(*function, *value)
                .map(|answer| Outcome::Sampled { answer }),
            Call::Collect => self
                .executive
                .collect()
                .map(|handed| Outcome::Collected { handed }),
        }
    }

    /// Any of the five calls.
    pub fn work(&mut self, call: &Call) -> Answer
        ensures as_the_machine_does { Steps (machine_of A.Link B.Link C.Link W.Watch self.old) (call_of call.now) (answer_of result) (machine_of A.Link B.Link C.Link W.Watch self.new) }
        ensures goes_on_balanced { GoesOn (machine_of A.Link B.Link C.Link W.Watch self.old) (call_of call.now) (answer_of result) (machine_of A.Link B.Link C.Link W.Watch self.new) }
    {
        self.make_call(call)
    }

    /// How many bytes a link would send now.
    pub fn message_length(&self, link: u32) -> usize
        ensures of_the_message { result ≡ length (message_of (machine_of A.Link B.Link C.Link W.Watch self.now) link) }
    {
        self.executive.message_length(link)
    }

    pub fn message_byte(&self, link: u32, at: usize) -> u8
        ensures byte_or_zero { result ≡ slice_index (message_of (machine_of A.Link B.Link C.Link W.Watch self.now) link) at }
    {
        self.executive.message_byte(link, at)
    }
}
