// What a scripted link does.
ghost use Rattle.std.specs.Prelude.{◌≡◌, None, refl};
ghost use Rattle.stand_ins.specs.Plays.{PlaysAnyReplies};
ghost use Rattle.stand_ins.specs.Scripted.{scripted_state};
ghost use Rattle.stand_ins.specs.Scripts.{nearest_limit, scripted_kind};
ghost use Rattle.std.proofs.Common.{rules, arith};

use crate::script::Cue;
use crate::scripted::Scripted;
use links::answers::{OfferRefusal, Receipt};
use links::intake::Intake;
use links::link::Link;
use records::command::{Command, Reply};

// Kept: a constant may not call the library's `clamp`.
const fn nearest_limit(ticks: u32) -> u32
    ensures from_1_to_50 { result ≡ nearest_limit ticks }
{
    match ticks {
        0 => 1,
        1..=50 => ticks,
        _ => 50,
    }
}

impl<const TICKS: u32> Scripted<TICKS> {
    pub fn new(script: [Cue; 8]) -> Self
        ensures idle_at_the_scripts_start { scripted_state result ≡ record { script = script; at = 0; taken = 0; held = None; cue = None; polls = 0 } }
        ensures any_replies_in_any_order { PlaysAnyReplies (nearest_limit TICKS) script }
    {
        Scripted {
            script,
            at: 0,
            intake: Intake::new(),
            cue: None,
            polls: 0,
        }
    }
}

impl<const TICKS: u32> Link for Scripted<TICKS> {
    ghost kind = { scripted_kind (nearest_limit TICKS) };

    ghost state = { scripted_state };

    ghost WAIT_LIMIT = { nearest_limit TICKS };

    const WAIT_LIMIT: u32 = nearest_limit(TICKS);

    ghost the_kinds_limit = { refl };

    ghost lawful = { first_of (Prim.search rules, Prim.grind (arith, Self.row.coded.inj)) };

    ghost ok = { first_of (Prim.search rules, Prim.grind (arith, Self.row.coded.inj)) };

    fn offer(&mut self, command: Command) -> Result<(), OfferRefusal> {
        self.intake.offer(command)?;
        self.polls = 0;
        self.cue = self.script.get(self.at).copied();
        if self.cue.is_some() {
            self.at += 1;
        }
        Ok(())
    }

    fn poll(&mut self) -> Option<Reply> {
        if !self.intake.is_held() {
            return None;
        }
        let cue = self.cue?;
        if self.polls < cue.polls {
            self.polls += 1;
            return None;
        }
        self.abandon();
        Some(cue.reply)
    }

    fn receive(&mut self, _bytes: &[u8]) -> Receipt {
        Receipt::Ignored
    }

    fn abandon(&mut self) {
        self.intake.release();
        self.cue = None;
        self.polls = 0;
    }

    fn is_held(&self) -> bool {
        self.intake.is_held()
    }

    // Kept: as the trait's own bodies these two would have to be right for the wire too.
    fn message_length(&self) -> usize {
        0
    }

    fn message_byte(&self, _at: usize) -> u8 {
        0
    }
}
