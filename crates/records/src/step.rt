// One step of a stored procedure, as its eight bytes say it.
ghost use Rattle.std.specs.Prelude.{◌≡◌};
ghost use Rattle.records.specs.Steps.{operation_of};

/// What a step asks for.
#[derive(Clone, Copy)]
pub enum Operation {
    /// A command on a link.
    Send,
    /// So many ticks.
    Wait,
    /// That a watched function is good.
    Expect,
}

/// The operation and its operands; which of them a step uses, its operation says.
#[derive(Clone, Copy)]
pub struct Step {
    /// The operation's number. Kept a byte: a packet may hold any here, and one that is no operation's is shown as it stands.
    pub op: u8,
    pub b: u8,
    pub w: u16,
    pub u: u16,
    pub v: u16,
}

impl Step {
    /// What the step asks for, if its number is that of an operation.
    pub fn operation(&self) -> Option<Operation>
        ensures of_its_number { result ≡ operation_of self.now.op }
    {
        match self.op {
            1 => Some(Operation::Send),
            2 => Some(Operation::Wait),
            3 => Some(Operation::Expect),
            _ => None,
        }
    }
}
