// Number and name of each kind of event.
ghost use Rattle.std.specs.Prelude.{◌≡◌};
ghost use Rattle.records.specs.Events.{event_number, event_name};

use crate::event::EventKind;

impl EventKind {
    pub fn number(self) -> u8
        ensures by_its_case { result ≡ event_number self }
    {
        self as u8
    }

    pub fn name(self) -> &'static str
        ensures by_its_case { result.now ≡ event_name self }
    {
        match self {
            EventKind::Trouble => "TROUBLE",
            EventKind::Clear => "CLEAR",
            EventKind::Nack => "NACK",
            EventKind::NoAck => "NO ACK",
            EventKind::Odd => "ODD",
        }
    }
}
