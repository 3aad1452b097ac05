// What passes over a link: a command one way, a reply the other.

#[derive(Clone, Copy)]
pub struct Command {
    pub id: u16,
    pub sid: u16,
    pub parameter: u32,
}

#[derive(Clone, Copy, PartialEq, Eq, Debug)]
pub enum Reply {
    /// The unit took the command.
    Ack,
    /// The unit turned the command down.
    Nack { code: u16, detail: u32 },
    /// Something that is neither.
    Odd,
}
