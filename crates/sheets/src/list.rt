// A shift's call list, as it is read.
use console::call::Call;

/// What a counted line of the list is.
#[derive(Clone, Copy)]
pub enum Mark {
    Call,
    /// The question about a message.
    Question,
    Unreadable,
}

/// The calls in order, and a mark for each counted line.
// Kept: two lists, since a shift is worked from a slice of calls; a mark stands for its call.
#[derive(Drop)]
pub struct CallList {
    pub calls: Vec<Call>,
    pub marks: Vec<Mark>,
}
