// What the executive holds beside its links and its watch.
#![tactic(auto)]

pub mod chain;
pub mod desk;
pub mod items;
pub mod log;
pub mod ticket;
