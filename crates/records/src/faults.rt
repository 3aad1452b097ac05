// Number, name and failure class of each fault; every fault takes its class from the one table here.
ghost use Rattle.std.specs.Prelude.{◌≡◌};
ghost use Rattle.records.specs.Faults.{fault_number, fault_name, class_of, class_number, fault_of, at_step, nack_fault};

use crate::fault::FailureClass::{InvalidData, LinkFailed, NoClass, WrongState};
use crate::fault::{FailureClass, Fault, FaultKind};

/// The failure class of each number.
const CLASSES: [FailureClass; 34] = [
    NoClass,
    NoClass,
    NoClass,
    NoClass,
    NoClass,
    NoClass,
    NoClass,
    NoClass,
    NoClass,
    NoClass,
    NoClass,
    NoClass,
    NoClass,
    NoClass,
    InvalidData,
    InvalidData,
    InvalidData,
    InvalidData,
    InvalidData,
    WrongState,
    WrongState,
    LinkFailed,
    InvalidData,
    WrongState,
    InvalidData,
    InvalidData,
    WrongState,
    WrongState,
    InvalidData,
    WrongState,
    WrongState,
    LinkFailed,
    LinkFailed,
    LinkFailed,
];

/// The failure class of a number; past the table there is none.
pub fn class_of(number: u8) -> FailureClass
    ensures by_the_table { result ≡ class_of number }
{
    CLASSES.get(usize::from(number)).copied().unwrap_or(NoClass)
}

impl FailureClass {
    pub fn number(self) -> u8
        ensures by_its_case { result ≡ class_number self }
    {
        match self {
            FailureClass::NoClass => 0,
            FailureClass::InvalidData => 5,
            FailureClass::WrongState => 16,
            FailureClass::LinkFailed => 17,
            FailureClass::Other { number } => number,
        }
    }
}

/// The class of a number, whatever byte it is.
impl From<u8> for FailureClass {
    ghost from_gives = { λ number class. class_number class ≡ number };

    fn from(number: u8) -> FailureClass {
        match number {
            0 => FailureClass::NoClass,
            5 => FailureClass::InvalidData,
            16 => FailureClass::WrongState,
            17 => FailureClass::LinkFailed,
            number => FailureClass::Other { number },
        }
    }
}

impl FaultKind {
    pub fn number(self) -> u8
        ensures by_its_case { result ≡ fault_number self }
    {
        self as u8
    }

    pub fn name(self) -> &'static str
        ensures by_its_case { result.now ≡ fault_name self }
    {
        match self {
            FaultKind::InvalidFunction => "INVALID FUN-ID",
            FaultKind::InvalidActivity => "INVALID ACT-ID",
            FaultKind::InvalidSid => "INVALID SID",
            FaultKind::InvalidParameter => "INVALID PARAM",
            FaultKind::InvalidWatched => "INVALID AF",
            FaultKind::UnitStopped => "UNIT STOPPED",
            FaultKind::LinkUsed => "LINK USED",
            FaultKind::LinkWorn => "LINK WORN",
            FaultKind::InvalidProcedure => "INVALID PROCID",
            FaultKind::IllegalLoad => "ILLEGAL LOAD",
            FaultKind::TooManyParameters => "TOO MUCH PARAM",
            FaultKind::InvalidStep => "INVALID DATUM",
            FaultKind::EmptyProcedure => "START DEL OBCP",
            FaultKind::RunningProcedure => "RUNNING OBCP",
            FaultKind::IllegalParameterId => "ILLEGAL PAR-ID",
            FaultKind::ExpectFailed => "EXPECT FAILED",
            FaultKind::ProcedureStopped => "OBCP STOPPED",
            FaultKind::Nack => "NACK",
            FaultKind::Odd => "ODD",
            FaultKind::NoAck => "NO ACK",
        }
    }

    /// A fault with no step and no NACK's data.
    pub fn fault(self, parameter: u32) -> Fault
        ensures class_from_the_table { result ≡ fault_of self parameter }
    {
        Fault {
            kind: self,
            class: class_of(self.number()),
            parameter,
            step: 0,
            code: 0,
            detail: 0,
        }
    }
}

impl Fault {
    /// The fault that a link's NACK brings.
    pub fn nack(link: u32, code: u16, detail: u32) -> Fault
        ensures with_the_links_data { result ≡ nack_fault link code detail }
    {
        let fault = FaultKind::Nack.fault(link);
        Fault {
            code,
            detail,
            ..fault
        }
    }

    /// The same fault, met at a step of a run.
    pub fn at_step(self, step: u8) -> Fault
        ensures all_else_kept { result ≡ at_step step self }
    {
        Fault { step, ..self }
    }
}
