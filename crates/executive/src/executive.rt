// The executive: three links, a watch and a desk.
use desks::desk::Desk;
use links::link::Link;
use turns::seat::Seat;
use watches::watch::Watch;

/// Asks the seat of a link by its number; a number above 2 is never asked, and would be the last one's.
// Kept a match, once: the seats have three types, and a link has a constant, so that it can't be a `dyn`.
macro_rules! at_link {
    ($executive:ident, $link:expr, $($asked:tt)+) => {
        match $link {
            0 => $executive.seat0.$($asked)+,
            1 => $executive.seat1.$($asked)+,
            _ => $executive.seat2.$($asked)+,
        }
    };
}

mod carries;
mod links_at;
pub mod makes;
pub mod questions;
pub mod samples;
pub mod submits;
pub mod ticks;

// Kept: no `impl Model`, since its `Value` would be the machine over the kinds of `A`, `B`, `C` and `W`, and a `Value` can't name what a bound brings.
#[derive(Drop)]
pub struct Executive<A: Link, B: Link, C: Link, W: Watch> {
    seat0: Seat<A>,
    seat1: Seat<B>,
    seat2: Seat<C>,
    watch: W,
    desk: Desk,
}
