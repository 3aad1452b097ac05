// The executive's calls, under the balance over every run.
#![tactic(auto)]

pub mod call;
pub mod cases;
pub mod console;
pub mod list;
pub mod live;
