// Telecommands about settings and procedures.
#![tactic(auto)]

pub mod settings;
pub mod steps;
pub mod switches;
pub mod table;
