// Runs the table of vectors that tests/packing_vectors.py writes: each line is a letter and bytes in hexadecimal, and what the bytes
// unpack to is printed, with a word on whether it packs to the same bytes again.
#![tactic(auto)]

mod text;
mod values;

use std::io;
use test_reading::input::read_full;

// One line: its letter, and the bytes behind it.
fn tell(rt: &impl Print, letter: u8, part: &[u8]) -> io::Result<()> {
    match letter {
        b's' => values::setup(rt, part)?,
        b'm' => values::message(rt, part)?,
        b'u' => values::in_run(rt, part)?,
        b'r' => values::report(rt, part)?,
        b'o' => values::in_room(rt, part)?,
        b'w' => values::widths(rt, part)?,
        _ => rt.print("?")?,
    }
    rt.print("\n")
}

fn tell_all(rt: &impl Print, table: &[u8]) -> io::Result<()> {
    let mut bytes = [0u8; 64];
    for line in table.split_inclusive(|b| *b == b'\n') {
        let Some((letter, rest)) = line.split_first() else {
            continue;
        };
        let digits = rest.strip_suffix(b"\n").unwrap_or(rest);
        let n = text::gather(digits, &mut bytes);
        tell(rt, *letter, &bytes[..n])?;
    }
    Ok(())
}

fn main(rt: HostRuntime) -> io::Result<()> {
    let mut table = [0u8; 131072];
    let n = read_full(&mut rt.stdin(), &mut table)?;
    tell_all(&rt, &table[..n])
}
