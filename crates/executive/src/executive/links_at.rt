// The links by their number.
ghost use Rattle.std.specs.Prelude.{◌≡◌};
ghost use Rattle.links.specs.Meaning.{offer_answer};
ghost use Rattle.machine.specs.Machine.{means_at, offered_at, abandoned_at};
ghost use Rattle.executive.specs.Meaning.{meaning};
ghost use Rattle.executive.specs.Sends.{send_answer, after_send};

use super::Executive;
use desks::chain::LinkFault;
use links::answers::OfferRefusal;
use links::link::Link;
use machine::state::Owner;
use records::command::Command;
use watches::watch::Watch;

impl<A: Link, B: Link, C: Link, W: Watch> Executive<A, B, C, W> {
    fn offer_at(&mut self, link: u8, command: Command, owner: Owner) -> Result<(), OfferRefusal>
        ensures as_the_link_answers { result ≡ offer_answer (means_at (meaning A.Link B.Link C.Link W.Watch self.old) link) }
        ensures that_link_only { meaning A.Link B.Link C.Link W.Watch self.new ≡ offered_at (meaning A.Link B.Link C.Link W.Watch self.old) link command owner }
    {
        at_link!(self, link, offer(command, owner))
    }

    pub(crate) fn abandon_at(&mut self, link: u8)
        ensures that_link_only { meaning A.Link B.Link C.Link W.Watch self.new ≡ abandoned_at (meaning A.Link B.Link C.Link W.Watch self.old) link }
    {
        at_link!(self, link, abandon())
    }

    /// Offers a command to a link, unless it is blocked.
    pub(crate) fn send(&mut self, link: u8, command: Command, owner: Owner) -> Result<(), LinkFault>
        ensures blocked_before_offered { result ≡ send_answer (meaning A.Link B.Link C.Link W.Watch self.old) link }
        ensures that_link_only { meaning A.Link B.Link C.Link W.Watch self.new ≡ after_send (meaning A.Link B.Link C.Link W.Watch self.old) link command owner }
    {
        if self.desk.is_blocked(link) {
            return Err(LinkFault::Stopped { link });
        }
        self.offer_at(link, command, owner)
            .map_err(|refusal| match refusal {
                OfferRefusal::Busy => LinkFault::Used { link },
                OfferRefusal::Spent => LinkFault::Worn { link },
            })
    }
}
