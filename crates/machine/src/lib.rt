// The machine: what the executive holds, and what it answers, as definitions.
#![tactic(auto)]

pub mod answers;
pub mod cases;
pub mod equipment;
pub mod laws;
pub mod state;
pub mod statuses;
