// What a packet of a known type says, field by field.
ghost use Rattle.std.specs.Prelude.{◌≡◌, ◌+◌, ◌*◌, ◌%◌, ◌≤◌, true, length};
ghost use Rattle.octets.specs.Words.{word_at};
ghost use Rattle.telecommands.specs.Packets.{steps_in, settings_in, telecommand_in};
ghost use Rattle.telecommands.specs.Types.{data_fits};

use crate::fields::read_fields;
use crate::frame::Frame;
use crate::packet::{Settings, Steps, Telecommand};
use crate::packet_type::PacketType;
use octets::words::{byte_at, long_at, word_at};

impl<'a> Frame<'a> {
    /// The packet's counter.
    pub fn counter(&self) -> u16
        ensures lower_14_bits { result ≡ word_at self.now.bytes.now 2 % 0x4000 }
    {
        word_at(self.bytes, 2) % 0x4000
    }

    #[inline(always)]
    fn steps(&self) -> Steps
        requires { (16 ≤ length self.now.bytes.now) × (length self.now.bytes.now ≤ 240) }
        ensures from_byte_14 { result ≡ steps_in self.now.bytes.now }
    {
        read_fields(self.bytes, 14, (self.bytes.len() - 16) / 8)
    }

    #[inline(always)]
    fn settings(&self) -> Settings
        requires { 16 + 6 * word_at self.now.bytes.now 12 ≤ 248 }
        ensures from_byte_14 { result ≡ settings_in self.now.bytes.now }
    {
        read_fields(self.bytes, 14, usize::from(word_at(self.bytes, 12)))
    }

    /// What data that fits its type says.
    #[inline(always)]
    pub fn telecommand(&self, packet_type: PacketType) -> Telecommand
        requires { data_fits packet_type self.now.bytes.now ≡ true }
        ensures by_type { result ≡ telecommand_in packet_type self.now.bytes.now }
    {
        let id = word_at(self.bytes, 10);
        match packet_type {
            PacketType::ConnectionTest => Telecommand::Test,
            PacketType::FunctionActivity => Telecommand::Perform {
                function: byte_at(self.bytes, 10),
                activity: byte_at(self.bytes, 11),
                sid: word_at(self.bytes, 12),
                value: long_at(self.bytes, 14),
            },
            PacketType::ProcedureLoad => Telecommand::Load {
                id,
                nop: word_at(self.bytes, 12),
                steps: self.steps(),
            },
            PacketType::ProcedureDelete => Telecommand::Delete { id },
            PacketType::ProcedureStart => Telecommand::Start {
                id,
                settings: self.settings(),
            },
            PacketType::ProcedureStop => Telecommand::Stop { id },
            PacketType::ProcedureSettings => Telecommand::Set {
                id,
                settings: self.settings(),
            },
        }
    }
}
