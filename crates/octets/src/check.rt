// The check word that closes a packet.
ghost use Rattle.std.specs.Prelude.{◌≡◌};
ghost use Rattle.octets.specs.Check.{bit_step, byte_step, check_word, OwnWordLeavesZero, WrongByteShows};

const GENERATOR: u16 = 0x1021;

const START: u16 = 0xFFFF;

fn bit_step(word: u16) -> u16
    ensures next_word { result ≡ bit_step word }
{
    if word >= 0x8000 {
        (word << 1) ^ GENERATOR
    } else {
        word << 1
    }
}

fn byte_step(word: u16, byte: u8) -> u16
    ensures next_word { result ≡ byte_step word byte }
{
    let mut next = word ^ (u16::from(byte) << 8);
    for _ in 0..8u8 {
        next = bit_step(next);
    }
    next
}

pub fn check_word(bytes: &[u8]) -> u16
    ensures over_each_byte_in_turn { result ≡ check_word bytes.now }
    ensures own_word_leaves_zero { OwnWordLeavesZero bytes.now result }
    ensures wrong_byte_shows { WrongByteShows bytes.now }
{
    let mut word = START;
    for byte in bytes {
        word = byte_step(word, *byte);
    }
    word
}
