// What a processor does.
ghost use Rattle.std.specs.Prelude.{◌≡◌, refl, None};
ghost use Rattle.links.specs.Processors.{reply_to, processor_state, processor_kind};
ghost use Rattle.std.proofs.Common.{rules, arith};

use crate::answers::{OfferRefusal, Receipt};
use crate::intake::Intake;
use crate::link::Link;
use crate::processor::Processor;
use records::command::{Command, Reply};

/// The reply of the unit that this stands in for.
fn reply_to(command: Command) -> Reply
    ensures first_wrong_part { result ≡ reply_to command }
{
    let Command { id, sid, parameter } = command;
    if !(0x07..=0x0B).contains(&id) {
        return Reply::Nack {
            code: 0x77,
            detail: u32::from(id),
        };
    }
    if sid != 0 {
        return Reply::Nack {
            code: 0x78,
            detail: u32::from(sid),
        };
    }
    if parameter != 0 {
        return Reply::Nack {
            code: 0x79,
            detail: parameter,
        };
    }
    Reply::Ack
}

impl Processor {
    pub fn new(delay: u8) -> Self
        ensures idle_with_nothing_taken { processor_state result ≡ record { delay = delay; taken = 0; held = None; polls = 0 } }
    {
        Processor {
            delay,
            intake: Intake::new(),
            polls: 0,
        }
    }
}

impl Link for Processor {
    ghost kind = { processor_kind };

    ghost state = { processor_state };

    ghost WAIT_LIMIT = { 20 };

    const WAIT_LIMIT: u32 = 20;

    ghost the_kinds_limit = { refl };

    ghost lawful = { first_of (Prim.search rules, Prim.grind (arith, Self.row.coded.inj)) };

    ghost ok = { first_of (Prim.search rules, Prim.grind (arith, Self.row.coded.inj)) };

    fn offer(&mut self, command: Command) -> Result<(), OfferRefusal> {
        self.intake.offer(command)?;
        self.polls = 0;
        Ok(())
    }

    fn poll(&mut self) -> Option<Reply> {
        let command = self.intake.held()?;
        if self.polls < self.delay {
            self.polls += 1;
            return None;
        }
        self.abandon();
        Some(reply_to(command))
    }

    fn receive(&mut self, _bytes: &[u8]) -> Receipt {
        Receipt::Ignored
    }

    fn abandon(&mut self) {
        self.intake.release();
        self.polls = 0;
    }

    fn is_held(&self) -> bool {
        self.intake.is_held()
    }

    // Kept: as the trait's own bodies these two would have to be right for the wire too.
    fn message_length(&self) -> usize {
        0
    }

    fn message_byte(&self, _at: usize) -> u8 {
        0
    }
}
