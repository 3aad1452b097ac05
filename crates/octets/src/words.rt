// Words and longs in a run of bytes, high byte first. A byte past the end reads as 0.
ghost use Rattle.std.specs.Prelude.{◌≡◌, ◌+◌, ◌*◌, slice_index};
ghost use Rattle.octets.specs.Words.{word_at, long_at};

fn word(high: u8, low: u8) -> u16
    ensures high_byte_first { result ≡ high * 256 + low }
{
    u16::from_be_bytes([high, low])
}

fn long(high: u16, low: u16) -> u32
    ensures high_word_first { result ≡ high * 65536 + low }
{
    u32::from(high) * 65536 + u32::from(low)
}

pub fn byte_at(bytes: &[u8], at: usize) -> u8
    ensures byte_or_zero { result ≡ slice_index bytes.now at }
{
    bytes.get(at).copied().unwrap_or(0)
}

pub fn word_at(bytes: &[u8], at: usize) -> u16
    ensures two_bytes { result ≡ word_at bytes.now at }
{
    word(byte_at(bytes, at), byte_at(bytes, at.saturating_add(1)))
}

pub fn long_at(bytes: &[u8], at: usize) -> u32
    ensures two_words { result ≡ long_at bytes.now at }
{
    long(word_at(bytes, at), word_at(bytes, at.saturating_add(2)))
}
