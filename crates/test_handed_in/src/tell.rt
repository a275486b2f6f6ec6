// A series, whole: a line for its numbers, and a line for each place of its book that is in use, oldest rank first.
ghost use Rattle.std.specs.Prelude.{◌≡◌};
ghost use Rattle.test_handed_in.specs.Case.{blank};

use book::entries::{display_of, kind_of, party_of, pricing_number, zero_entry};
use book::{Book, Entry};
use series::Series;
use std::io;
use terms::Terms;

// Whether all that is told of it is 0.
fn is_blank(e: Entry) -> bool
    ensures { result ≡ blank e }
{
    e == zero_entry()
}

fn tell_terms(rt: &impl Print, t: Terms) -> io::Result<()> {
    let Terms {
        m,
        k,
        strike,
        phase,
        bid,
        offer,
        underlying,
        given,
        ..
    } = t;
    print!(rt; " {} {}", u32::from(t.put), u32::from(t.exempt))?;
    print!(rt; " {m} {k} {strike} {phase} {bid} {offer} {underlying} {given}")
}

// Makers 1 to 16: 1 is blocked.
fn tell_blocked(rt: &impl Print, blocked: [bool; 16]) -> io::Result<()> {
    rt.print(" ")?;
    for is_blocked in blocked {
        rt.print(u32::from(is_blocked))?;
    }
    Ok(())
}

// Number, party, kind, side, limit, quantity, display (0 for none) and working price; and how it is priced.
fn tell_entry(rt: &impl Print, e: Entry) -> io::Result<()> {
    let Entry {
        number,
        limit,
        quantity,
        working,
        ..
    } = e;
    print!(rt;
        " {number} {} {} {}",
        party_of(e),
        kind_of(e),
        u32::from(e.sell)
    )?;
    println!(rt;
        " {limit} {quantity} {} {working} {}",
        display_of(e),
        pricing_number(e.pricing)
    )
}

// Something at rest; and what stands in a place that ought to be unused, if there is anything.
fn tell_place(rt: &impl Print, e: Entry, resting: bool) -> io::Result<()> {
    if resting {
        rt.print("rests")?;
        return tell_entry(rt, e);
    }
    if is_blank(e) {
        return Ok(());
    }
    rt.print("left over")?;
    tell_entry(rt, e)
}

fn tell_book(rt: &impl Print, b: Book) -> io::Result<()> {
    for (i, e) in b.entries.iter().enumerate() {
        tell_place(rt, *e, i < b.count)?;
    }
    Ok(())
}

pub(crate) fn tell_series(rt: &impl Print, s: Series) -> io::Result<()> {
    let terms = s.terms;
    let blocked = s.blocked;
    let book = s.book;
    let count = book.count;
    rt.print("series")?;
    tell_terms(rt, terms)?;
    tell_blocked(rt, blocked)?;
    println!(rt; " {count}")?;
    tell_book(rt, book)
}
