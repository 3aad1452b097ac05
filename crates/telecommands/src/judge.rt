// What is wrong with a packet: its header, its check word, its type, the shape of its data.
ghost use Rattle.std.specs.Prelude.{◌≡◌};
ghost use Rattle.std.specs.Option.{option_map};
ghost use Rattle.std.specs.Result.{result_err};
ghost use Rattle.records.specs.declared.refusal.Refusal.TheVariants.{Header};
ghost use Rattle.telecommands.specs.Frames.{check_word_refusal, known, shape_refusal};
ghost use Rattle.telecommands.specs.Headers.{wrong_place, computed_word};
ghost use Rattle.telecommands.specs.Types.{data_fits};

use crate::frame::{Frame, LEAST_BYTES};
use crate::packet_type::PacketType;
use octets::check::check_word;
use octets::words::{byte_at, word_at};
use records::refusal::Refusal;

impl<'a> Frame<'a> {
    /// The first place where the header is wrong.
    fn wrong_place(&self) -> Option<u8>
        ensures first_wrong { result ≡ wrong_place self.now.bytes.now }
    {
        if word_at(self.bytes, 0) != 0x1C80 {
            return Some(0);
        }
        if byte_at(self.bytes, 2) < 0xC0 {
            return Some(2);
        }
        if byte_at(self.bytes, 6) != 1 {
            return Some(6);
        }
        if byte_at(self.bytes, 9) != 0 {
            return Some(9);
        }
        None
    }

    pub fn judge_header(&self) -> Result<(), Refusal>
        ensures at_the_first_wrong_place { result_err result ≡ option_map Header (wrong_place self.now.bytes.now) }
    {
        match self.wrong_place() {
            Some(place) => Err(Refusal::Header { place }),
            None => Ok(()),
        }
    }

    /// The check word over all bytes but the last two.
    fn computed_word(&self) -> u16
        ensures of_earlier_bytes { result ≡ computed_word self.now.bytes.now }
    {
        check_word(&self.bytes[0..self.bytes.len() - 2])
    }

    pub fn judge_check_word(&self) -> Result<(), Refusal>
        ensures unless_as_computed { result_err result ≡ check_word_refusal self.now.bytes.now }
    {
        let computed = self.computed_word();
        if computed != word_at(self.bytes, self.bytes.len() - 2) {
            return Err(Refusal::Crc { computed });
        }
        Ok(())
    }

    pub fn packet_type(&self) -> Result<PacketType, Refusal>
        ensures one_of_seven { result ≡ known self.now.bytes.now }
    {
        PacketType::try_from((byte_at(self.bytes, 7), byte_at(self.bytes, 8)))
    }

    /// Whether the data has the length that its type asks for.
    fn data_fits(&self, packet_type: PacketType) -> bool
        ensures by_type { result ≡ data_fits packet_type self.now.bytes.now }
    {
        let bytes = self.bytes.len() - LEAST_BYTES;
        match packet_type {
            PacketType::ConnectionTest => bytes == 0,
            PacketType::FunctionActivity => bytes == 8,
            PacketType::ProcedureLoad => bytes >= 12 && bytes <= 228 && bytes % 8 == 4,
            PacketType::ProcedureDelete | PacketType::ProcedureStop => bytes == 2,
            PacketType::ProcedureStart | PacketType::ProcedureSettings => {
                bytes == 4 + 6 * usize::from(word_at(self.bytes, 12))
            }
        }
    }

    pub fn judge_shape(&self, packet_type: PacketType) -> Result<(), Refusal>
        ensures unless_data_fits { result_err result ≡ shape_refusal packet_type self.now.bytes.now }
    {
        if !self.data_fits(packet_type) {
            return Err(Refusal::Shape {
                bytes: (self.bytes.len() - LEAST_BYTES) as u8,
            });
        }
        Ok(())
    }
}
