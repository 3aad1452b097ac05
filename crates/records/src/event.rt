// What the executive tells of links and watched functions while it works.

/// The number of each kind is its discriminant.
#[derive(Clone, Copy, Default)]
pub enum EventKind {
    /// A function came into trouble.
    #[default]
    Trouble = 1,
    /// A function is good again.
    Clear = 2,
    /// A link's unit turned its command down.
    Nack = 3,
    /// A link's command was not answered in time.
    NoAck = 4,
    /// A link's unit answered with something odd.
    Odd = 5,
}

/// The place is a function or a link; the value is the sample, a NACK's code, or 0.
#[derive(Clone, Copy, Default)]
pub struct Event {
    pub kind: EventKind,
    pub place: u32,
    pub value: u32,
}
