// What a wire does.
ghost use Rattle.std.specs.Prelude.{◌≡◌, refl, slice_index};
ghost use Rattle.links.specs.Meaning.{idle};
ghost use Rattle.links.specs.Wires.{command_bytes, reply_in, wire_state, wire_kind};
ghost use Rattle.std.proofs.Common.{rules, arith};

use crate::answers::{OfferRefusal, Receipt};
use crate::intake::Intake;
use crate::link::Link;
use crate::wire::Wire;
use octets::words::{byte_at, long_at, word_at};
use records::command::{Command, Reply};

/// The message that carries a command.
fn command_bytes(command: Command) -> [u8; 12]
    ensures field_after_field { result ≡ command_bytes command }
{
    // Kept: without the heap arrays join only by copies to places counted by hand.
    let id = command.id.to_be_bytes();
    let sid = command.sid.to_be_bytes();
    let parameter = command.parameter.to_be_bytes();
    [
        0,
        4,
        0,
        0,
        id[0],
        id[1],
        sid[0],
        sid[1],
        parameter[0],
        parameter[1],
        parameter[2],
        parameter[3],
    ]
}

/// Byte `at` of that message, 0 past its end.
fn command_byte(command: Command, at: usize) -> u8
    ensures byte_or_zero { result ≡ slice_index (command_bytes command) at }
{
    byte_at(&command_bytes(command), at)
}

/// The reply that received bytes are read as.
fn reply_in(bytes: &[u8]) -> Reply
    ensures by_length_and_head { result ≡ reply_in bytes.now }
{
    let head = word_at(bytes, 0);
    if bytes.len() == 2 && head == 0x0084 {
        return Reply::Ack;
    }
    if bytes.len() == 8 && (head == 0x00F4 || head == 0x01FF) {
        return Reply::Nack {
            code: word_at(bytes, 2),
            detail: long_at(bytes, 4),
        };
    }
    Reply::Odd
}

impl Wire {
    pub fn new() -> Self
        ensures idle_with_nothing_taken { wire_state result ≡ idle 0 }
    {
        Wire {
            intake: Intake::new(),
            due: None,
        }
    }
}

impl Link for Wire {
    ghost kind = { wire_kind };

    ghost state = { wire_state };

    ghost WAIT_LIMIT = { 20 };

    const WAIT_LIMIT: u32 = 20;

    ghost the_kinds_limit = { refl };

    ghost lawful = { first_of (Prim.search rules, Prim.grind (arith, Self.row.coded.inj)) };

    ghost ok = { first_of (Prim.search rules, Prim.grind (arith, Self.row.coded.inj)) };

    fn offer(&mut self, command: Command) -> Result<(), OfferRefusal> {
        self.intake.offer(command)
    }

    fn poll(&mut self) -> Option<Reply> {
        let reply = self.due?;
        self.abandon();
        Some(reply)
    }

    fn receive(&mut self, bytes: &[u8]) -> Receipt {
        if !self.intake.is_held() || self.due.is_some() {
            return Receipt::Ignored;
        }
        self.due = Some(reply_in(bytes));
        Receipt::Kept
    }

    fn abandon(&mut self) {
        self.intake.release();
        self.due = None;
    }

    fn is_held(&self) -> bool {
        self.intake.is_held()
    }

    fn message_length(&self) -> usize {
        if self.intake.is_held() { 12 } else { 0 }
    }

    fn message_byte(&self, at: usize) -> u8 {
        match self.intake.held() {
            Some(command) => command_byte(command, at),
            None => 0,
        }
    }
}
