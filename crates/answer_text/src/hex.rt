// Bytes in lower-case hexadecimal.
ghost use Rattle.answer_text.specs.Added.{Added};
ghost use Rattle.answer_text.specs.Hex.{hex_of};

use std::alloc::AllocError;

/// Two digits to a byte, the high half first.
pub fn write_hex(line: &mut String, bytes: &[u8]) -> Result<(), AllocError>
    ensures two_digits_to_a_byte { Added result (hex_of bytes.now) line.old line.new }
{
    for byte in bytes {
        write!(line, "{byte:02x}")?;
    }
    Ok(())
}
