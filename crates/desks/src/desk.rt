// Statuses, switches, procedures, the run and the log.
use crate::log::Log;
use machine::state::{LinkStatus, Procedure, Run};
use std::marker::Model;

pub mod calls;
pub mod fails;

#[derive(Drop)]
pub struct Desk {
    pub statuses: [LinkStatus; 3],
    pub switches: [bool; 23],
    pub procedures: [Option<Procedure>; 16],
    pub run: Option<Run>,
    pub log: Log,
}

// Clauses see the machine's own desk.
impl Model for Desk {
    ghost use Rattle.machine.specs.Desks as machine;

    ghost Value = { machine.Desk };

    ghost view = { λ d. record { statuses = d.statuses; switches = d.switches; procedures = d.procedures; run = d.run; log = d.log } };
}
