// One entry.
ghost use Rattle.std.specs.Prelude.{◌≡◌};
ghost use Rattle.book.specs.Entries.{display, pricing_number, displayed, quote, against, own_entry, quote_of, priced, interest_of};
ghost use Rattle.book.specs.Shape.{zero_entry};

use crate::{Entry, Pricing};
use kinds::is_quoting;
use prices::Interest;

// The last entry number that is given.
pub const LAST_NUMBER: u32 = 1000000;

// What stands in an unused place.
pub fn zero_entry() -> Entry
    ensures { result ≡ zero_entry }
{
    Entry {
        number: 0,
        party: 0,
        kind: 0,
        sell: false,
        limit: 0,
        quantity: 0,
        working: 0,
        pricing: Pricing::Fixed,
    }
}

// The kind and the party, as the price rules and reports have them.
pub fn kind_of(e: Entry) -> u32
    ensures { result ≡ e.kind }
{
    u32::from(e.kind)
}

pub fn party_of(e: Entry) -> u32
    ensures { result ≡ e.party }
{
    u32::from(e.party)
}

// What it asks, as the price rules have it.
pub fn interest_of(e: Entry) -> Interest
    ensures { result ≡ interest_of e }
{
    Interest {
        kind: kind_of(e),
        sell: e.sell,
        limit: e.limit,
    }
}

// The price it shows, 0 for none.
pub fn display_of(e: Entry) -> u32
    ensures { result ≡ display e }
{
    let p = e.pricing;
    match p {
        Pricing::Fixed => e.limit,
        Pricing::Dark => 0,
        Pricing::Sliding(d) => d,
    }
}

// How it is priced, by number: 0 fixed, 1 dark, 2 sliding.
pub fn pricing_number(p: Pricing) -> u32
    ensures { result ≡ pricing_number p }
{
    match p {
        Pricing::Fixed => 0,
        Pricing::Dark => 1,
        Pricing::Sliding(_) => 2,
    }
}

pub fn is_displayed(e: Entry) -> bool
    ensures { result ≡ displayed e }
{
    display_of(e) == e.working
}

pub fn is_quote(e: Entry) -> bool
    ensures { result ≡ quote e }
{
    is_quoting(kind_of(e))
}

// Whether it stands on the side that a taker trades with.
pub fn is_against(sell: bool, e: Entry) -> bool
    ensures { result ≡ against sell e }
{
    e.sell == !sell
}

pub fn is_own(party: u8, number: u32, e: Entry) -> bool
    ensures { result ≡ own_entry party number e }
{
    (e.number == number) & (e.party == party)
}

pub fn is_quote_of(party: u8, sell: bool, e: Entry) -> bool
    ensures { result ≡ quote_of party sell e }
{
    is_quote(e) & ((e.party == party) & (e.sell == sell))
}

// The entry at other prices.
pub fn repriced(e: Entry, display: u32, working: u32) -> Entry
    ensures { result ≡ priced (record { display = display; working = working }) e }
{
    Entry {
        working,
        pricing: Pricing::Sliding(display),
        ..e
    }
}
