// The plain records that all layers share.
#![tactic(auto)]

pub mod call;
pub mod command;
pub mod event;
pub mod events;
pub mod fault;
pub mod faults;
pub mod fixed_list;
pub mod refusal;
pub mod refusals;
pub mod report;
pub mod step;
mod texts;
