// Number, name and parameter of each refusal, in the order in which they are judged.
ghost use Rattle.std.specs.Prelude.{◌≡◌};
ghost use Rattle.records.specs.Refusals.{refusal_number, refusal_name, refusal_parameter};

use crate::refusal::Refusal;

/// How many telecommands are accepted, and how many events may be raised before samples are refused.
pub const MOST: u32 = 1_000_000;

impl Refusal {
    // Kept a match: a refusal carries its data, so that no cast gives its number.
    pub fn number(self) -> u8
        ensures by_its_case { result ≡ refusal_number self }
    {
        match self {
            Refusal::Short { .. } => 1,
            Refusal::Long { .. } => 2,
            Refusal::Length { .. } => 3,
            Refusal::Header { .. } => 4,
            Refusal::Crc { .. } => 5,
            Refusal::UnknownType { .. } => 6,
            Refusal::Shape { .. } => 7,
            Refusal::Worn => 8,
            Refusal::Full { .. } => 9,
            Refusal::NoLink { .. } => 10,
            Refusal::NobodyWaits { .. } => 11,
            Refusal::NoFunction { .. } => 12,
            Refusal::FunctionOff { .. } => 13,
        }
    }

    pub fn name(self) -> &'static str
        ensures by_its_case { result.now ≡ refusal_name self }
    {
        match self {
            Refusal::Short { .. } => "SHORT",
            Refusal::Long { .. } => "LONG",
            Refusal::Length { .. } => "LENGTH",
            Refusal::Header { .. } => "HEADER",
            Refusal::Crc { .. } => "CRC",
            Refusal::UnknownType { .. } => "TYPE",
            Refusal::Shape { .. } => "SHAPE",
            Refusal::Worn => "WORN",
            Refusal::Full { .. } => "FULL",
            Refusal::NoLink { .. } => "NO LINK",
            Refusal::NobodyWaits { .. } => "NOBODY WAITS",
            Refusal::NoFunction { .. } => "NO FUNCTION",
            Refusal::FunctionOff { .. } => "FUNCTION OFF",
        }
    }

    pub fn parameter(self) -> u32
        ensures by_its_case { result ≡ refusal_parameter self }
    {
        match self {
            Refusal::Short { length } => length,
            Refusal::Long { length } => length,
            Refusal::Length { word } => u32::from(word),
            Refusal::Header { place } => u32::from(place),
            Refusal::Crc { computed } => u32::from(computed),
            Refusal::UnknownType { service, subtype } => u32::from(service) * 256
                + u32::from(subtype),
            Refusal::Shape { bytes } => u32::from(bytes),
            Refusal::Worn => MOST,
            Refusal::Full { free } => free,
            Refusal::NoLink { link } => link,
            Refusal::NobodyWaits { link } => link,
            Refusal::NoFunction { function } => function,
            Refusal::FunctionOff { function } => function,
        }
    }
}
