// Worked lines, and what the digits mean, each a theorem.
ghost use Rattle.answer_text.specs.Cases.{WorkedLines, WorkedNumbers, NumbersMeanThemselves, BytesMeanThemselves};

/// A line for each form of an answer.
pub fn worked_lines()
    ensures as_printed { WorkedLines }
{}

/// Numbers are decimal, without leading zeros.
pub fn numbers()
    ensures as_printed { WorkedNumbers }
    ensures mean_themselves { NumbersMeanThemselves }
{}

/// Bytes are two hexadecimal digits each.
pub fn bytes()
    ensures mean_themselves { BytesMeanThemselves }
{}
