// The lines of an input, as they are read.
ghost use Rattle.std.specs.Prelude.{◌≡◌, ◌-◌, ◌<◌};
ghost use Rattle.std.specs.Iterator.{at_most};
ghost use Rattle.std.specs.IoError.{error_kind};
ghost use Rattle.bench_text.specs.Inputs.{ComesFrom};

use crate::line::Line;
use crate::read::read_line;
use crate::words::without_newline;
use std::alloc::{AllocError, Global};
use std::io::{self, BufRead, ErrorKind};

/// No memory for what a line says, as an error of the reading, in the words of the allocator.
fn without_memory(_error: AllocError) -> io::Error
    ensures out_of_memory { error_kind result ≡ ErrorKind.OutOfMemory }
{
    io::Error::new(ErrorKind::OutOfMemory, "memory allocation failed")
}

/// The next line, and what it says; none at the end of the input. `text` is room for its bytes.
fn next_line<R: BufRead>(
    heap: Global,
    reader: &mut R,
    text: &mut Vec<u8>,
) -> Option<io::Result<Line>>
    ensures from_the_input { ComesFrom (R.remaining reader.old) result (R.remaining reader.new) }
{
    text.clear();
    match reader.read_until(b'\n', text) {
        Ok(0) => None,
        Ok(_) => match read_line(heap, without_newline(text.as_slice())) {
            Ok(line) => Some(Ok(line)),
            Err(error) => Some(Err(without_memory(error))),
        },
        Err(error) => Some(Err(error)),
    }
}

/// The lines of an input, each with what it says.
#[derive(Drop)]
pub struct Lines<R> {
    heap: Global,
    reader: R,
    /// Room for the bytes of a line, kept from one line to the next.
    text: Vec<u8>,
    /// How many more are read at most; no input has so many.
    left: u64,
}

impl<R: BufRead + Drop> Iterator for Lines<R> {
    type Item = io::Result<Line>;

    ghost next_gives = { λ s r t. 0 < s.left → ComesFrom (R.remaining s.reader) r (R.remaining t.reader) × (t.left ≡ s.left - 1) };

    ghost remaining = { λ s. at_most s.left };

    fn next(&mut self) -> Option<io::Result<Line>> {
        self.left = self.left.checked_sub(1)?;
        next_line(self.heap, &mut self.reader, &mut self.text)
    }
}

impl<R: BufRead> Lines<R> {
    /// All the lines of an input.
    pub fn of(heap: Global, reader: R) -> Lines<R>
        ensures from_its_start { result.reader ≡ reader }
        ensures to_its_end { result.left ≡ 18446744073709551615 }
    {
        Lines {
            heap,
            reader,
            text: Vec::new(heap),
            left: u64::MAX,
        }
    }
}
