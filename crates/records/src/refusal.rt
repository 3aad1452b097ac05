// Why a call is refused. A refused call changes nothing.

#[derive(Clone, Copy)]
pub enum Refusal {
    /// Too few bytes for a packet.
    Short { length: u32 },
    /// Too many bytes for a packet; a length above the largest long counts as that.
    Long { length: u32 },
    /// The packet's own length word is wrong.
    Length { word: u16 },
    /// The place of the first header byte with a wrong value.
    Header { place: u8 },
    /// The check word is not the one computed.
    Crc { computed: u16 },
    /// No telecommand has this service and subtype.
    UnknownType { service: u8, subtype: u8 },
    /// The data does not fit its telecommand.
    Shape { bytes: u8 },
    /// A million telecommands were accepted, or a million events raised.
    Worn,
    /// Fewer than two places of the report store are free.
    Full { free: u32 },
    /// There is no such link.
    NoLink { link: u32 },
    /// The link holds no command.
    NobodyWaits { link: u32 },
    /// The watch has no such function.
    NoFunction { function: u32 },
    /// The function is set off.
    FunctionOff { function: u32 },
}
