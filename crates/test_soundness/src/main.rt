// Puts the books that tests/soundness_vectors.py writes to the soundness test, and prints the verdict and the summary of each on a line.
//
// A book comes in 1,548 bytes: the MPV and the last number given in 4 bytes each, and then the book's own (crate test_book_bytes).
#![tactic(auto)]

use soundness::Check;
use soundness::figures::has_quote;
use std::io;
use test_book_bytes::book_of;
use test_reading::input::next_record;
use test_reading::number_at;

const BOOK: usize = 1548;

// The makers 1 to 16: 1 for each that has a quote on the side.
fn print_makers(rt: &impl Print, check: Check, sell: bool) -> io::Result<()> {
    for party in 1..17u8 {
        rt.print(u32::from(has_quote(check, party, sell)))?;
    }
    Ok(())
}

// Of an unsound book there is nothing to say: zeros.
fn tell(rt: &impl Print, answer: Option<Check>) -> io::Result<()> {
    let Some(check) = answer else {
        return rt.print("unsound 0 0 0 0 0 0000000000000000 0000000000000000\n");
    };
    let Check {
        bid,
        offer,
        shownbid,
        shownoffer,
        ..
    } = check;
    let quoted = u32::from(check.quoted);
    print!(rt; "sound {bid} {offer} {shownbid} {shownoffer} {quoted} ")?;
    print_makers(rt, check, false)?;
    rt.print(" ")?;
    print_makers(rt, check, true)?;
    rt.print("\n")
}

// As many books as there are, and 1,000 at most.
fn main(rt: HostRuntime) -> io::Result<()> {
    let mut input = rt.stdin();
    for _ in 0..1000u32 {
        let Some(bytes) = next_record::<BOOK, _>(&mut input)? else {
            break;
        };
        let m = number_at(&bytes, 0);
        let given = number_at(&bytes, 4);
        tell(&rt, soundness::check_book(book_of(&bytes[8..]), m, given))?;
    }
    Ok(())
}
