// Words of a line, separated by blanks.
ghost use Rattle.std.specs.Prelude.{◌≡◌};
ghost use Rattle.std.specs.List.{prefix_len};
ghost use Rattle.std.specs.Str.{bytes_eq};
ghost use Rattle.bench_text.specs.Words.{is_blank, blanks_are, first_word, after_word, line_in};

/// Space, tab and carriage return.
pub fn is_blank(byte: u8) -> bool
    ensures three_of_them { result ≡ is_blank byte }
{
    byte == b' ' || byte == b'\t' || byte == b'\r'
}

/// How many bytes at the start are all blanks, or all no blanks.
fn leading_bytes(text: &[u8], blanks: bool) -> usize
    ensures longest_run { result ≡ prefix_len (blanks_are blanks) text.now }
{
    text.iter()
        .take_while(|byte| is_blank(**byte) == blanks)
        .count()
}

/// The first word, empty where there is none, and what stands after it.
pub fn split_word(text: &[u8]) -> (&[u8], &[u8])
    ensures first { result.0.now ≡ first_word text.now }
    ensures rest { result.1.now ≡ after_word text.now }
{
    let trimmed = &text[leading_bytes(text, true)..];
    trimmed.split_at(leading_bytes(trimmed, false))
}

/// The bytes of a line without the newline that ends it.
pub fn without_newline(text: &[u8]) -> &[u8]
    ensures last_newline_cut { result.now ≡ line_in text.now }
{
    match text {
        [line @ .., b'\n'] => line,
        _ => text,
    }
}

// Kept: the library's equality, by a clause that speaks of the bytes behind both references.
pub fn is_word(word: &[u8], name: &[u8]) -> bool
    ensures same_bytes { result ≡ bytes_eq word.now name.now }
{
    word == name
}
