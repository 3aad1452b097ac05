// Watches over housekeeping values: what a watch is, and four kinds.
#![tactic(auto)]

pub mod band;
pub mod bench;
pub mod comparing;
pub mod examples;
mod last_seen;
pub mod moving;
pub mod pair;
mod part;
pub mod still;
pub mod watch;
