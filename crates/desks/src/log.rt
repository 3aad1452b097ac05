// Waiting events and reports, and how many were accepted and raised.
use std::marker::Model;
use stores::{EventStore, ReportStore};

pub mod calls;

/// Raised counts up to a million, which is all that its refusal reads.
#[derive(Drop)]
pub struct Log {
    events: EventStore,
    reports: ReportStore,
    accepted: u32,
    raised: u32,
}

// Clauses see the machine's own log.
impl Model for Log {
    ghost use Rattle.machine.specs.Desks as machine;

    ghost Value = { machine.Log };

    ghost view = { λ l. record { events = l.events; reports = l.reports; accepted = l.accepted; raised = l.raised } };
}
