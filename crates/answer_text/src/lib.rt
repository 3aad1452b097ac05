// The answer lines of the bench program.
#![tactic(auto)]

pub mod cases;
mod hex;
pub mod lines;
mod outcomes;
