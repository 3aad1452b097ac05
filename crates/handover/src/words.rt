// Verdicts in words.
ghost use Rattle.std.specs.Prelude.{Some};
ghost use Rattle.handover.specs.Sheets.{call_word, verdict_text};

use crate::verdict::{OtherCall, Verdict};
use std::fmt;
use telecommand_text::words::write_telecommand;
use telecommands::packet::Packet;

/// As a line asks for it.
impl fmt::Display for OtherCall {
    ghost output = { λ call. Some (call_word call) };

    fn fmt<W: fmt::Write>(&self, f: &mut fmt::Formatter<W>) -> fmt::Result {
        match self {
            OtherCall::Deliver => write!(f, "deliver"),
            OtherCall::Tick => write!(f, "tick"),
            OtherCall::Sample => write!(f, "sample"),
            OtherCall::Collect => write!(f, "collect"),
            OtherCall::Message => write!(f, "message"),
        }
    }
}

impl fmt::Display for Verdict {
    ghost output = { λ verdict. Some (verdict_text verdict) };

    fn fmt<W: fmt::Write>(&self, f: &mut fmt::Formatter<W>) -> fmt::Result {
        match self {
            Verdict::Judged(
                Ok(
                    Packet {
                        counter,
                        telecommand,
                    },
                ),
            ) => {
                write!(f, "taken, counter {counter}: ")?;
                write_telecommand(telecommand, f)
            }
            Verdict::Judged(Err(refusal)) => write!(f, "{refusal}"),
            Verdict::NotJudged(call) => write!(f, "not judged here: {call}"),
            Verdict::Unreadable => write!(f, "unreadable"),
        }
    }
}
