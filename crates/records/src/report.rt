// What is reported of an accepted telecommand.
use crate::fault::Fault;

/// Sent counts the commands that links took for the telecommand. Done and failed are final.
#[derive(Clone, Copy, Default)]
pub enum Stage {
    #[default]
    Started,
    Done { sent: u32 },
    Failed { sent: u32, fault: Fault },
}

#[derive(Clone, Copy, Default)]
pub struct Report {
    pub number: u32,
    pub stage: Stage,
}
