// Why an accepted telecommand failed.

/// The number of each fault is its discriminant.
#[derive(Clone, Copy)]
pub enum FaultKind {
    InvalidFunction = 14,
    InvalidActivity = 15,
    InvalidSid = 16,
    InvalidParameter = 17,
    InvalidWatched = 18,
    UnitStopped = 19,
    LinkUsed = 20,
    LinkWorn = 21,
    InvalidProcedure = 22,
    IllegalLoad = 23,
    TooManyParameters = 24,
    InvalidStep = 25,
    EmptyProcedure = 26,
    RunningProcedure = 27,
    IllegalParameterId = 28,
    ExpectFailed = 29,
    ProcedureStopped = 30,
    Nack = 31,
    Odd = 32,
    NoAck = 33,
}

/// What kind of failure a fault is.
#[derive(Clone, Copy)]
pub enum FailureClass {
    /// The number has no class. Kept a case: the table has an entry for every number, those of no fault too.
    NoClass,
    /// A value of the telecommand is not allowed.
    InvalidData,
    /// The state of the executive, a link or a procedure forbids it, or the run was ended.
    WrongState,
    /// A link is worn, or its unit did not acknowledge.
    LinkFailed,
    /// A number that the table gives to no fault. A fault that is not made from the table may hold any byte.
    Other { number: u8 },
}

/// The step is 0 outside a run; code and detail are those of a NACK, else 0.
// Kept: numbers that are 0 in place of options, since a report gives all six fields of every fault, zeros too.
#[derive(Clone, Copy)]
pub struct Fault {
    pub kind: FaultKind,
    pub class: FailureClass,
    pub parameter: u32,
    pub step: u8,
    pub code: u16,
    pub detail: u32,
}
