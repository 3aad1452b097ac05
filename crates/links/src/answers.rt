// What a link answers.

/// Why a link refuses a command.
#[derive(Clone, Copy)]
pub enum OfferRefusal {
    /// It holds one already.
    Busy,
    /// It has taken as many as it ever takes.
    Spent,
}

/// What became of received bytes.
#[derive(Clone, Copy)]
pub enum Receipt {
    /// They made a reply due.
    Kept,
    /// They changed nothing.
    Ignored,
}
