// A book in 1,540 bytes, for the test programs: the count in 4 bytes, and then 64 entries of 24. An entry has its number, limit, quantity, working
// price and display in 4 bytes each, and then a byte each for party, kind, side (1 sells) and pricing (0 fixed, 1 dark, else sliding).
// Numbers have their most significant byte first. Nothing is judged: every picture is read, however damaged its book.
#![tactic(auto)]

ghost use Rattle.std.specs.Prelude.{◌≡◌, ◌≤◌};
ghost use Rattle.test_book_bytes.specs.Layout.{pricing_read, entry_at, book_in};

use book::{Book, Entry, Pricing};
use test_reading::{byte_at, number_at};

fn pricing_of(sort: u8, display: u32) -> Pricing
    ensures { result ≡ pricing_read sort display }
{
    if sort == 0 {
        return Pricing::Fixed;
    }
    if sort == 1 {
        return Pricing::Dark;
    }
    Pricing::Sliding(display)
}

fn entry_at(bytes: &[u8], at: usize) -> Entry
    requires { at ≤ 1540 }
    ensures { result ≡ entry_at bytes.now at }
{
    let pricing = pricing_of(byte_at(bytes, at + 23), number_at(bytes, at + 16));
    Entry {
        number: number_at(bytes, at),
        party: byte_at(bytes, at + 20),
        kind: byte_at(bytes, at + 21),
        sell: byte_at(bytes, at + 22) == 1,
        limit: number_at(bytes, at + 4),
        quantity: number_at(bytes, at + 8),
        working: number_at(bytes, at + 12),
        pricing,
    }
}

// The book that these bytes picture; bytes beyond their end are read as 0.
pub fn book_of(bytes: &[u8]) -> Book
    ensures { result ≡ book_in bytes.now }
{
    let mut b = book::change::empty();
    b.count = number_at(bytes, 0) as usize;
    for i in 0..64usize {
        b.entries[i] = entry_at(bytes, 4 + 24 * i);
    }
    b
}
