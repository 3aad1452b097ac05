// What the log takes and hands out.
ghost use Rattle.std.specs.Prelude.{◌≡◌, ◌≤◌, length};
ghost use Rattle.machine.specs.Desks.{empty_log, filed, raised_in, lost_in};
ghost use Rattle.machine.specs.Outcomes.{handing_of, lost_of};
ghost use Rattle.machine.specs.Parts.{collected_from, handed};
ghost use Rattle.desks.specs.Logs.{judged, issued, after_judged};

use super::Log;
use crate::ticket::Ticket;
use machine::answers::{Handed, Raised};
use records::event::Event;
use records::refusal::Refusal;
use records::refusals::MOST;
use records::report::{Report, Stage};
use stores::{EventStore, ReportStore};

impl Log {
    pub fn new() -> Log
        ensures nothing_waits_or_was_counted { result ≡ empty_log }
    {
        Log {
            events: EventStore::new(),
            reports: ReportStore::new(),
            accepted: 0,
            raised: 0,
        }
    }

    /// Judges the two refusals of a good packet; if none applies, one more is accepted.
    pub fn accept(&mut self, free: u32) -> Result<Ticket, Refusal>
        ensures answer { result ≡ issued (judged self.old free) }
        ensures after { self.new ≡ after_judged (judged self.old free) self.old }
    {
        if self.accepted >= MOST {
            return Err(Refusal::Worn);
        }
        if free < 2 {
            return Err(Refusal::Full { free });
        }
        self.accepted += 1;
        Ok(Ticket::of(self.accepted))
    }

    /// Files a report behind the others.
    pub fn file(&mut self, number: u32, stage: Stage)
        ensures behind_the_others { self.new ≡ filed self.old number stage }
    {
        self.reports.put(Report { number, stage });
    }

    /// Raises an event: it waits behind the others, or it is lost.
    pub fn raise(&mut self, event: Event) -> Raised
        ensures lost { lost_of result ≡ lost_in self.old }
        ensures after { self.new ≡ raised_in self.old event }
    {
        self.raised = self.raised.saturating_add(1).min(MOST);
        Raised {
            lost: !self.events.put(event),
        }
    }

    /// Hands out the oldest event, else the oldest report.
    pub fn take(&mut self) -> Option<Handed>
        ensures events_first { handing_of result ≡ handed self.old.events self.old.reports }
        ensures after { self.new ≡ collected_from self.old.events self.old.reports self.old }
    {
        if let Some(event) = self.events.take() {
            return Some(Handed::Event { event });
        }
        self.reports.take().map(|report| Handed::Report { report })
    }

    pub fn waiting_reports(&self) -> u32
        ensures all_that_wait { result ≡ length self.now.reports }
        ensures at_most_400 { result ≤ 400 }
    {
        self.reports.len() as u32
    }

    /// Events raised in all, up to a million.
    pub fn raised(&self) -> u32
        ensures as_counted { result ≡ self.now.raised }
    {
        self.raised
    }
}
