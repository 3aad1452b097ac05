// Kinds for tests: a link that replies as a script says, and a watch as wide as can be.
#![tactic(auto)]

#[cfg(test)]
mod link_tests;
pub mod script;
pub mod scripted;
#[cfg(test)]
mod watch_tests;
pub mod wide;
