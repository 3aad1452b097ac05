// The lines of the telecommand sheet.
ghost use Rattle.std.specs.Prelude.{Some};
ghost use Rattle.std.specs.Fmt.{WritesOnOk};
ghost use Rattle.sheet.specs.Lines.{packet_text, line_text};

use records::refusal::Refusal;
use sheets::row::Accepted;
use std::fmt;
use telecommand_text::words::write_telecommand;
use telecommands::packet::Packet;

/// A submit, with what its packet says where it can be read.
#[derive(Clone, Copy)]
pub struct SheetLine {
    pub row: Result<Accepted, Refusal>,
    pub packet: Option<Packet>,
}

fn write_packet<W: fmt::Write>(packet: &Option<Packet>, f: &mut fmt::Formatter<W>) -> fmt::Result
    ensures where_it_can_be_read { WritesOnOk W.write_str_gives f.old result (packet_text packet.now) f.new }
{
    match packet {
        Some(packet) => {
            write!(f, ": ")?;
            write_telecommand(&packet.telecommand, f)
        }
        None => Ok(()),
    }
}

impl fmt::Display for SheetLine {
    ghost output = { λ line. Some (line_text line) };

    fn fmt<W: fmt::Write>(&self, f: &mut fmt::Formatter<W>) -> fmt::Result {
        match &self.row {
            Err(refusal) => {
                write!(f, "{refusal}")?;
                write_packet(&self.packet, f)
            }
            Ok(
                Accepted {
                    number,
                    report: Some(stage),
                },
            ) => {
                write!(f, "[x] accepted {number}")?;
                write_packet(&self.packet, f)?;
                write!(f, " -> {stage}")
            }
            Ok(
                Accepted {
                    number,
                    report: None,
                },
            ) => {
                write!(f, "[ ] accepted {number}")?;
                write_packet(&self.packet, f)
            }
        }
    }
}
