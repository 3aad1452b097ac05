// The text form of calls: one line of text to a call.
#![tactic(auto)]

pub mod input;
#[cfg(test)]
mod input_tests;
pub mod line;
pub mod numbers;
pub mod read;
pub mod words;
