// Refusals, events, faults and reports in words.
ghost use Rattle.std.specs.Prelude.{Some, decimal};
ghost use Rattle.records.specs.Faults.{class_number};
ghost use Rattle.records.specs.Texts.{refused_text, event_text, fault_text, stage_text, report_text};

use crate::event::Event;
use crate::fault::{FailureClass, Fault};
use crate::refusal::Refusal;
use crate::report::{Report, Stage};
use std::fmt;

/// With the word `refused`.
impl fmt::Display for Refusal {
    ghost output = { λ refusal. Some (refused_text refusal) };

    fn fmt<W: fmt::Write>(&self, f: &mut fmt::Formatter<W>) -> fmt::Result {
        let number = self.number();
        let name = self.name();
        let parameter = self.parameter();
        write!(f, "refused {number} {name} parameter {parameter}")
    }
}

impl fmt::Display for Event {
    ghost output = { λ event. Some (event_text event) };

    fn fmt<W: fmt::Write>(&self, f: &mut fmt::Formatter<W>) -> fmt::Result {
        let Event { kind, place, value } = *self;
        let number = kind.number();
        let name = kind.name();
        write!(f, "event {number} {name} place {place} value {value}")
    }
}

/// By its number.
impl fmt::Display for FailureClass {
    ghost output = { λ class. Some (decimal (class_number class)) };

    fn fmt<W: fmt::Write>(&self, f: &mut fmt::Formatter<W>) -> fmt::Result {
        let number = self.number();
        write!(f, "{number}")
    }
}

impl fmt::Display for Fault {
    ghost output = { λ fault. Some (fault_text fault) };

    fn fmt<W: fmt::Write>(&self, f: &mut fmt::Formatter<W>) -> fmt::Result {
        let Fault {
            kind,
            class,
            parameter,
            step,
            code,
            detail,
        } = *self;
        let number = kind.number();
        let name = kind.name();
        write!(
            f,
            "fault {number} {name} class {class} parameter {parameter}"
        )?;
        write!(f, " step {step} code {code} detail {detail}")
    }
}

impl fmt::Display for Stage {
    ghost output = { λ stage. Some (stage_text stage) };

    fn fmt<W: fmt::Write>(&self, f: &mut fmt::Formatter<W>) -> fmt::Result {
        match self {
            Stage::Started => write!(f, "STARTED"),
            Stage::Done { sent } => write!(f, "DONE sent {sent}"),
            Stage::Failed { sent, fault } => write!(f, "FAILED sent {sent} {fault}"),
        }
    }
}

impl fmt::Display for Report {
    ghost output = { λ report. Some (report_text report) };

    fn fmt<W: fmt::Write>(&self, f: &mut fmt::Formatter<W>) -> fmt::Result {
        let Report { number, stage } = *self;
        write!(f, "report {number} {stage}")
    }
}
