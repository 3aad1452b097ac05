// The making of an executive.
ghost use Rattle.std.specs.Prelude.{◌≡◌, None};
ghost use Rattle.machine.specs.Equipments.{made_of};
ghost use Rattle.machine.specs.Seats.{seat_abandoned};
ghost use Rattle.turns.specs.Seated.{seat_of};
ghost use Rattle.executive.specs.Meaning.{meaning};

use super::Executive;
use desks::desk::Desk;
use links::link::Link;
use machine::equipment::Equipment;
use turns::seat::Seat;
use watches::watch::Watch;

fn seated<L: Link>(link: L) -> Seat<L>
    ensures nothing_held { seat_of L.Link result ≡ seat_abandoned (record { link = L.state link; hold = None }) }
{
    let mut link = link;
    link.abandon();
    Seat { link, hold: None }
}

impl<A: Link, B: Link, C: Link, W: Watch> Executive<A, B, C, W> {
    /// Held commands are abandoned; all links are off, all functions on, nothing is loaded and nothing waits.
    pub fn new(equipment: Equipment<A, B, C, W>) -> Executive<A, B, C, W>
        ensures as_the_machine_is_made { meaning A.Link B.Link C.Link W.Watch result ≡ made_of A.Link B.Link C.Link W.Watch equipment }
    {
        Executive {
            seat0: seated(equipment.link0),
            seat1: seated(equipment.link1),
            seat2: seated(equipment.link2),
            watch: equipment.watch,
            desk: Desk::new(),
        }
    }
}
