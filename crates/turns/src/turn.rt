// A link's turn in a tick.
ghost use Rattle.std.specs.Prelude.{◌≡◌, ◌+◌, ◌<◌, true, nat_lt};
ghost use Rattle.machine.specs.Seats.{age_of, older as older_by, turn as turn_of};
ghost use Rattle.turns.specs.Ends.{turn_after, unanswered as unanswered_in};
ghost use Rattle.turns.specs.Seated.{seat_of};

use crate::ends::{fail, reply};
use crate::seat::Seat;
use desks::chain::LinkFault;
use desks::desk::Desk;
use links::link::Link;
use machine::answers::Raised;
use machine::state::Hold;
use records::event::{Event, EventKind};

fn age(hold: Option<Hold>) -> u32
    ensures of_the_command { result ≡ age_of hold }
{
    hold.map_or(0, |hold| hold.age)
}

/// The same note, one tick older.
fn older(hold: Option<Hold>) -> Option<Hold>
    requires { age_of hold < 4294967295 }
    ensures one_more_tick { result ≡ older_by hold }
{
    hold.map(|hold| Hold {
        age: hold.age + 1,
        ..hold
    })
}

/// Whether a command that has just been polled in vain stays held.
fn may_wait<L: Link>(hold: Option<Hold>) -> bool
    ensures younger_than_the_limit { result ≡ nat_lt (age_of hold + 1) L.kind.limit }
    ensures can_grow_older { result ≡ true → age_of hold < 4294967295 }
{
    age(hold) < L::WAIT_LIMIT.saturating_sub(1)
}

/// Nothing was due: the command grows older, or is abandoned at the wait limit.
fn wait<L: Link>(place: u8, seat: &mut Seat<L>, desk: &mut Desk) -> Option<Raised>
    ensures older_or_abandoned { turn_after (seat_of L.Link seat.new) desk.new result ≡ unanswered_in place (seat_of L.Link seat.old) desk.old }
{
    let hold = seat.hold;
    if may_wait::<L>(hold) {
        seat.hold = older(hold);
        return None;
    }
    seat.abandon();
    let event = Event {
        kind: EventKind::NoAck,
        place: u32::from(place),
        value: 0,
    };
    Some(fail(hold, event, LinkFault::NoAck { link: place }, desk))
}

/// One link's turn: an idle one has none. Answers the event that was raised, if any.
pub fn turn<L: Link>(place: u8, seat: &mut Seat<L>, desk: &mut Desk) -> Option<Raised>
    ensures by_what_was_due { turn_after (seat_of L.Link seat.new) desk.new result ≡ turn_of place (seat_of L.Link seat.old) desk.old }
{
    if !seat.link.is_held() {
        return None;
    }
    match seat.link.poll() {
        Some(answer) => {
            let hold = seat.hold.take();
            reply(place, hold, answer, desk)
        }
        None => wait(place, seat, desk),
    }
}
