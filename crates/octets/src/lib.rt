// Words, longs and check words in runs of bytes.
#![tactic(auto)]

pub mod check;
pub mod words;
