// A link, and for whom it holds its command.
ghost use Rattle.std.specs.Prelude.{◌≡◌, cond};
ghost use Rattle.links.specs.Meaning.{offer_answer, receipt};
ghost use Rattle.machine.specs.Parts.{pending_in};
ghost use Rattle.machine.specs.Seats.{seat_offered, seat_abandoned, seat_received};
ghost use Rattle.turns.specs.Seated.{seat_of};

use links::answers::{OfferRefusal, Receipt};
use links::link::Link;
use machine::state::{Hold, Owner};
use records::command::Command;

// Kept: no `impl Model`, since its `Value` would be the machine's seat of `L.kind`, and a `Value` can't name what a bound brings.
#[derive(Drop)]
pub struct Seat<L: Link> {
    pub link: L,
    pub hold: Option<Hold>,
}

/// Whether a link holds a telecommand's command, which is a pending number.
pub fn is_pending(hold: Option<Hold>) -> bool
    ensures for_a_telecommand { cond result 1 0 ≡ pending_in hold }
{
    matches!(
        hold,
        Some(Hold {
            owner: Owner::Telecommand { .. },
            ..
        })
    )
}

impl<L: Link> Seat<L> {
    /// Offers a command for an owner; if it is taken, its age is 0.
    pub fn offer(&mut self, command: Command, owner: Owner) -> Result<(), OfferRefusal>
        ensures as_the_link_answers { result ≡ offer_answer (L.kind.means (L.state self.old.link)) }
        ensures noted_if_taken { seat_of L.Link self.new ≡ seat_offered command owner (seat_of L.Link self.old) }
    {
        let answer = self.link.offer(command);
        if let Ok(()) = answer {
            self.hold = Some(Hold { owner, age: 0 });
        }
        answer
    }

    pub fn abandon(&mut self)
        ensures idle_for_nobody { seat_of L.Link self.new ≡ seat_abandoned (seat_of L.Link self.old) }
    {
        self.link.abandon();
        self.hold = None;
    }

    pub fn receive(&mut self, bytes: &[u8]) -> Receipt
        ensures as_the_link_answers { result ≡ receipt (L.kind.means (L.state self.old.link)) (L.kind.means (L.kind.received (L.state self.old.link) bytes.now)) }
        ensures only_the_link { seat_of L.Link self.new ≡ seat_received bytes.now (seat_of L.Link self.old) }
    {
        self.link.receive(bytes)
    }
}
