// The lines of an input, read to its end.
use crate::input::Lines;
use crate::line::Line;
use std::io;

/// How many lines of a text are calls, skipped, unreadable and questions.
fn kinds(rt: &HostRuntime, text: &[u8]) -> io::Result<[u32; 4]> {
    let mut counts = [0u32; 4];
    for line in Lines::of(rt.alloc(), text) {
        let kind = match line? {
            Line::Call(_) => 0,
            Line::Skipped => 1,
            Line::Unreadable => 2,
            Line::Message { .. } => 3,
        };
        counts[kind] = counts[kind].saturating_add(1);
    }
    Ok(counts)
}

#[test]
fn lines_are_read_to_the_end(rt: HostRuntime) -> io::Result<()> {
    assert_eq!(rt; kinds(&rt, b"")?, [0, 0, 0, 0]);
    assert_eq!(rt; kinds(&rt, b"\n# note\r\n\n")?, [0, 3, 0, 0]);
    assert_eq!(rt;
        kinds(
            &rt,
            b"tick\nno call\nsubmit 00 FF\r\n\nmessage 3\nsample 1 2"
        )?,
        [3, 1, 1, 1]
    );
    Ok(())
}
