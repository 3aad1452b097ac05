// Telecommands in words.
#![tactic(auto)]

pub mod words;
