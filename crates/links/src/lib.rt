// Links to the units: what a link means, and the kinds wire and processor.
#![tactic(auto)]

pub mod answers;
pub mod examples;
pub mod intake;
pub mod link;
pub mod processor;
pub mod wire;
mod words;
