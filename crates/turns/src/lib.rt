// A link with the note on its held command: offers, and its turn in a tick.
#![tactic(auto)]

pub mod ends;
pub mod seat;
pub mod turn;
