// What the answers of a shift add up to. No list of answers is long enough to overflow 128 bits.

/// The sums over some answers.
#[derive(Clone, Copy, Default)]
pub struct Tally {
    pub accepted: u128,
    pub done: u128,
    pub failed: u128,
    /// Commands counted in final reports.
    pub sent: u128,
    /// Events.
    pub raised: u128,
    pub collected: u128,
    pub lost: u128,
}

/// The totals at the end of a shift.
#[derive(Clone, Copy)]
pub struct Totals {
    pub accepted: u128,
    /// Final reports, collected or waiting.
    pub done: u128,
    pub failed: u128,
    /// Accepted numbers without a final report.
    pub pending: u128,
    /// Commands counted in final reports.
    pub sent: u128,
    /// Events.
    pub raised: u128,
    pub collected: u128,
    pub waiting: u128,
    pub lost: u128,
}
