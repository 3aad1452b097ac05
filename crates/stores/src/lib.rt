// Stores of records that wait to be collected, oldest first.
#![tactic(auto)]

use records::event::Event;
use records::report::Report;
use store::Store;

pub mod example;
pub mod queue;
pub mod span;
pub mod store;

/// At most 32 events that wait to be collected.
pub type EventStore = Store<Event, 32>;

/// At most 400 reports that wait to be collected.
pub type ReportStore = Store<Report, 400>;
