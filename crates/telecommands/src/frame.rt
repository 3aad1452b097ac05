// A packet whose length has been judged.
ghost use Rattle.std.specs.Prelude.{◌≡◌, ◌≤◌, length, IfOk};
ghost use Rattle.std.specs.Result.{result_err};
ghost use Rattle.telecommands.specs.Frames.{length_refusal};

use octets::words::word_at;
use records::refusal::Refusal;

pub const LEAST_BYTES: usize = 12;

const MOST_BYTES: usize = 248;

/// A packet whose length was judged: it is neither too short nor too long.
#[derive(Clone, Copy)]
pub struct Frame<'a> {
    pub bytes: &'a [u8],
    ghost at_least: { 12 ≤ length bytes.now },
    ghost at_most: { length bytes.now ≤ 248 },
}

impl<'a> Frame<'a> {
    /// The packet as a frame, or what is wrong with its length.
    pub fn of(packet: &'a [u8]) -> Result<Frame<'a>, Refusal>
        ensures same_bytes { IfOk result (λ frame. frame.bytes.now ≡ packet.now) }
        ensures first_that_applies { result_err result ≡ length_refusal packet.now }
    {
        let length = packet.len();
        if length < LEAST_BYTES {
            return Err(Refusal::Short {
                length: length as u32,
            });
        }
        if length > MOST_BYTES {
            return Err(Refusal::Long {
                length: length.min(4_294_967_295) as u32,
            });
        }
        let word = word_at(packet, 4);
        if usize::from(word) + 7 != length {
            return Err(Refusal::Length { word });
        }
        Ok(Frame { bytes: packet })
    }
}
