// What a telecommand packet says.
use records::fixed_list::FixedList;
use records::step::Step;

/// The steps of a procedure, 28 at most, then blank ones.
pub type Steps = FixedList<Step, 28>;

/// A value for one parameter of a procedure.
#[derive(Clone, Copy)]
pub struct Setting {
    pub id: u16,
    pub value: u32,
}

/// Values for parameters in the order of the packet, which has room for 38, then blank ones.
pub type Settings = FixedList<Setting, 38>;

#[derive(Clone, Copy)]
pub enum Telecommand {
    /// Service 17, subtype 1: tests the connection.
    Test,
    /// Service 8, subtype 4: performs an activity of a function.
    Perform {
        function: u8,
        activity: u8,
        sid: u16,
        value: u32,
    },
    /// Service 18, subtype 1: loads a procedure with NoP parameters.
    Load {
        id: u16,
        nop: u16,
        steps: Steps,
    },
    /// Service 18, subtype 2: deletes a procedure.
    Delete {
        id: u16,
    },
    /// Service 18, subtype 3: starts a procedure with values for its parameters.
    Start {
        id: u16,
        settings: Settings,
    },
    /// Service 18, subtype 4: stops a procedure.
    Stop {
        id: u16,
    },
    /// Service 18, subtype 7: sets parameters of a procedure.
    Set {
        id: u16,
        settings: Settings,
    },
}

/// A telecommand with its packet's counter, 14 bits.
#[derive(Clone, Copy)]
pub struct Packet {
    pub counter: u16,
    pub telecommand: Telecommand,
}
