// What the executive holds beside its links, its watch and its stores.
use records::fixed_list::FixedList;

#[derive(Clone, Copy, PartialEq, Eq)]
pub enum LinkStatus {
    Off = 0,
    On = 1,
    Stopped = 2,
}

/// For whom a link took the command that it holds.
#[derive(Clone, Copy)]
pub enum Owner {
    Telecommand { number: u32 },
    Procedure,
}

/// The note on a held command; the age counts the ticks that found nothing due.
#[derive(Clone, Copy)]
pub struct Hold {
    pub owner: Owner,
    pub age: u32,
}

/// What a good step does.
#[derive(Clone, Copy)]
pub enum Action {
    Wait {
        ticks: u16,
    },
    Send {
        link: u8,
        id: u16,
        sid: u16,
        parameter: u16,
    },
    Expect {
        function: u8,
    },
}

/// A loaded procedure: an action for each of its steps; the first `nop` parameters are its own.
#[derive(Clone, Copy)]
pub struct Procedure {
    pub nop: u16,
    // Kept beside `nop` and no list of that length: a telecommand gives it, and a value is read by its number in all 25.
    pub parameters: [u32; 25],
    pub actions: FixedList<Action, 28>,
}

#[derive(Clone, Copy)]
pub enum RunState {
    /// Before a step, with so many ticks spent on it.
    Ready { spent: u16 },
    /// A link holds its command.
    Sent { link: u8 },
}

/// The procedure that runs; `step` counts the steps passed.
#[derive(Clone, Copy)]
pub struct Run {
    pub id: u16,
    pub number: u32,
    pub step: usize,
    pub sent: u32,
    pub state: RunState,
}
