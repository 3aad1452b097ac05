// What a link of any kind has taken, and holds.
ghost use Rattle.std.specs.Prelude.{◌≡◌, ◌≤◌, None, is_some};

use crate::answers::OfferRefusal;
use crate::link::MOST_TAKEN;
use records::command::Command;

/// How many commands were taken, and the one that is neither answered nor abandoned.
#[derive(Clone, Copy)]
pub struct Intake {
    taken: u32,
    held: Option<Command>,
    ghost count: { taken ≤ 1000000 },
}

impl Intake {
    ghost use Rattle.links.specs.Intakes.{intake_means};
    ghost use Rattle.links.specs.Meaning.{idle, offer_answer, after_offer};

    pub fn new() -> Self
        ensures idle_with_nothing_taken { intake_means result ≡ idle 0 }
    {
        Intake {
            taken: 0,
            held: None,
        }
    }

    /// Takes a command, unless one is held or too many were taken.
    pub fn offer(&mut self, command: Command) -> Result<(), OfferRefusal>
        ensures answer { result ≡ offer_answer (intake_means self.old) }
        ensures after { intake_means self.new ≡ after_offer (offer_answer (intake_means self.old)) (intake_means self.old) command None }
    {
        if self.held.is_some() {
            return Err(OfferRefusal::Busy);
        }
        if self.taken >= MOST_TAKEN {
            return Err(OfferRefusal::Spent);
        }
        self.taken += 1;
        self.held = Some(command);
        Ok(())
    }

    /// Lets go of the held command, which is answered or abandoned.
    pub fn release(&mut self)
        ensures after { intake_means self.new ≡ idle self.old.taken }
    {
        self.held = None;
    }

    pub fn held(&self) -> Option<Command>
        ensures the_command { result ≡ self.now.held }
    {
        self.held
    }

    pub fn is_held(&self) -> bool
        ensures a_command_is_held { result ≡ is_some self.now.held }
    {
        self.held.is_some()
    }
}
