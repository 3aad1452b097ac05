// The five calls of the executive, with what each carries.

/// One call; `B` holds the bytes of a packet or of what came over a link.
#[derive(Clone, Copy, Drop)]
pub enum Call<B> {
    /// A telecommand packet from the console.
    Submit { packet: B },
    /// Bytes received on a link.
    Deliver { link: u32, bytes: B },
    /// 10 ms have passed.
    Tick,
    /// One housekeeping value of a watched function.
    Sample { function: u32, value: u32 },
    /// Hands out the oldest event, else the oldest report.
    Collect,
}
