// Text: lines, digits and what is printed.
ghost use Rattle.std.specs.Prelude.{◌<◌, ◌≤◌, length};

use std::io;

// Each number with a space in front.
pub(crate) fn print_all(rt: &impl Print, ns: &[u32]) -> io::Result<()> {
    for n in ns {
        print!(rt; " {n}")?;
    }
    Ok(())
}

pub(crate) fn print_bytes(rt: &impl Print, bytes: &[u8]) -> io::Result<()> {
    for byte in bytes {
        print!(rt; "{byte:02x}")?;
    }
    Ok(())
}

// What a hexadecimal digit stands for; 0 for any other letter.
fn digit(b: u8) -> u8
    ensures { result < 16 }
{
    match b {
        b'0'..=b'9' => b - b'0',
        b'A'..=b'F' => b - b'A' + 10,
        _ => 0,
    }
}

// Puts the bytes that the digits spell at the start of out, as far as they fit, and answers how many there are.
pub(crate) fn gather(digits: &[u8], out: &mut [u8]) -> usize
    ensures { result ≤ length out.new }
{
    let (pairs, _) = digits.as_chunks::<2>();
    for (byte, [high, low]) in out.iter_mut().zip(pairs) {
        *byte = digit(*high) * 16 + digit(*low);
    }
    pairs.len().min(out.len())
}

// Whether the run has these bytes at a place.
pub(crate) fn stands(bytes: &[u8], run: &[u8], at: usize) -> bool {
    run.get(at..).is_some_and(|rest| rest.starts_with(bytes))
}
