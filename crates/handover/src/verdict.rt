// The verdict on one line of a telecommand sheet.
use records::refusal::Refusal;
use telecommands::packet::Packet;

/// What a line can ask for besides a submit.
#[derive(Clone, Copy)]
pub enum OtherCall {
    Deliver,
    Tick,
    Sample,
    Collect,
    Message,
}

#[derive(Clone, Copy)]
pub enum Verdict {
    /// The packet would be taken, or refused.
    Judged(Result<Packet, Refusal>),
    /// Another call than a submit.
    NotJudged(OtherCall),
    /// No call at all.
    Unreadable,
}

/// How many lines got which verdict.
#[derive(Clone, Copy, Default)]
pub struct Totals {
    pub taken: u64,
    pub refused: u64,
    pub not_judged: u64,
    pub unreadable: u64,
}
