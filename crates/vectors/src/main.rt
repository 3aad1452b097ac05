// Runs the published vectors of the check word and prints each with the word computed for it.
#![tactic(auto)]

use octets::check::check_word;
use std::io;

fn show(rt: &HostRuntime, bytes: &[u8]) -> io::Result<()> {
    for byte in bytes {
        print!(rt; "{byte:02X} ")?;
    }
    let word = check_word(bytes);
    println!(rt; "-> {word:04X}")
}

fn main(rt: HostRuntime) -> io::Result<()> {
    let vectors: [&[u8]; 7] = [
        &[0x00, 0x00],
        &[0x00, 0x00, 0x00],
        &[0xAB, 0xCD, 0xEF, 0x01],
        &[0x14, 0x56, 0xF8, 0x9A, 0x00, 0x01],
        b"123456789",
        &[0x12, 0x34, 0x56, 0x78],
        &[0x12, 0x34, 0x56, 0x78, 0x9A, 0xBC],
    ];
    for bytes in vectors {
        show(&rt, bytes)?;
    }
    Ok(())
}
