// The hand-over sheet of a shift: which telecommands are ticked, and the totals.
#![tactic(auto)]

pub mod bench;
pub mod calls;
pub mod finals;
pub mod lines;
pub mod list;
pub mod pending;
pub mod rest;
pub mod row;
pub mod rows;
pub mod shift;
pub mod tallies;
pub mod tally;
pub mod totals;
