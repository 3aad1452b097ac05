// Reading a packet: what it says, or the first refusal that applies.
ghost use Rattle.std.specs.Prelude.{◌≡◌};
ghost use Rattle.telecommands.specs.Cases.{LengthCases};
ghost use Rattle.telecommands.specs.Judgements.{checks, FirstFailing, FieldsInPlace};
ghost use Rattle.telecommands.specs.Packets.{read_packet};

use crate::frame::Frame;
use crate::packet::Packet;
use records::refusal::Refusal;

/// The first of the refusals 1 to 7 that applies, or what the packet says.
fn judge_packet(packet: &[u8]) -> Result<Packet, Refusal>
    ensures first_that_applies { result ≡ read_packet packet.now }
{
    let frame = Frame::of(packet)?;
    frame.judge_header()?;
    frame.judge_check_word()?;
    let packet_type = frame.packet_type()?;
    frame.judge_shape(packet_type)?;
    Ok(Packet {
        counter: frame.counter(),
        telecommand: frame.telecommand(packet_type),
    })
}

/// Judges a packet of any content and any length.
pub fn read_packet(packet: &[u8]) -> Result<Packet, Refusal>
    ensures answer { result ≡ read_packet packet.now }
    ensures refused_by_first_failing_check { FirstFailing (checks packet.now) result }
    ensures fields_in_place { FieldsInPlace packet.now result }
    ensures length_cases { LengthCases packet.now result }
{
    judge_packet(packet)
}
