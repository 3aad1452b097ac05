// Decimal numbers and runs of bytes in hexadecimal.
ghost use Rattle.std.specs.Prelude.{◌≡◌, ◌<◌, IfSome, IfOk};
ghost use Rattle.bench_text.specs.Numbers.{digit_step, number_of, hex_digit, hex_pair, bytes_of, run_of};

use crate::words::is_blank;
use std::alloc::{AllocError, Global};

/// One more decimal digit; nothing past the largest long.
// Kept: the bound by a comparison; with `checked_mul` or `u32::try_from` each digit took half as long again.
fn digit_step(value: Option<u32>, byte: u8) -> Option<u32>
    ensures one_more_digit { result ≡ digit_step value byte }
{
    let value = value?;
    if !byte.is_ascii_digit() {
        return None;
    }
    let next = u64::from(value) * 10 + u64::from(byte - b'0');
    if next > 4_294_967_295 {
        return None;
    }
    Some(next as u32)
}

/// A word of decimal digits; leading zeros are fine, signs are not.
pub fn number(word: &[u8]) -> Option<u32>
    ensures decimal { result ≡ number_of word.now }
{
    if word.is_empty() {
        return None;
    }
    word.iter()
        .fold(Some(0), |value, byte| digit_step(value, *byte))
}

/// A hexadecimal digit of either case.
fn hex_digit(byte: u8) -> Option<u8>
    ensures either_case { result ≡ hex_digit byte }
    ensures below_16 { IfSome result (λ digit. digit < 16) }
{
    match byte {
        b'0'..=b'9' => Some(byte - b'0'),
        b'A'..=b'F' => Some(byte - b'A' + 10),
        b'a'..=b'f' => Some(byte - b'a' + 10),
        _ => None,
    }
}

/// Two digits, the high half first.
fn hex_pair(high: u8, low: u8) -> Option<u8>
    ensures high_half_first { result ≡ hex_pair (hex_digit high) (hex_digit low) }
{
    Some(hex_digit(high)? * 16 + hex_digit(low)?)
}

/// Words of hexadecimal digits, each of an even number, as one run of bytes.
pub fn bytes(heap: Global, text: &[u8]) -> Result<Option<Vec<u8>>, AllocError>
    ensures pairs_of_digits { IfOk result (λ v. run_of v ≡ bytes_of text.now) }
{
    let mut run = Vec::new(heap);
    let mut rest = text;
    'pairs: loop {
        match rest {
            [] => return Ok(Some(run)),
            [blank, more @ ..] if is_blank(*blank) => rest = more,
            [_] => return Ok(None),
            [high, low, more @ ..] => {
                let Some(byte) = hex_pair(*high, *low) else {
                    return Ok(None);
                };
                run.push(byte)?;
                rest = more;
            }
        }
    }
}
