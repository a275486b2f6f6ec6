// What is kept of the entries read so far: the best prices, the highest number, and who has a quote.
ghost use Rattle.std.specs.Prelude.{◌≡◌, ◌≤◌, false, not, ◌||◌, length, take, get_or, eqb, ltb};
ghost use Rattle.lists.specs.Tests.{any};
ghost use Rattle.soundness.specs.Summary.{seat, seat_of, buys_at, sells_at, offer_key};
ghost use Rattle.soundness.specs.Summary.{offer_of, better, best_apart, faced, faced_shown};

use crate::{Best, Check};
use book::Entry;
use book::entries::{display_of, is_quote};

// Above all prices: while the entries are read, it stands for no offer.
pub const NO_OFFER: u32 = 1000000;

// What an entry at this price adds to the highest buy, and to the lowest sell: one of the other side adds nothing.
fn buys_at(e: Entry, p: u32) -> u32
    ensures { result ≡ buys_at e.sell p }
{
    if e.sell { 0 } else { p }
}

fn sells_at(e: Entry, p: u32) -> u32
    ensures { result ≡ sells_at e.sell p }
{
    if e.sell { p } else { NO_OFFER }
}

// A dark entry shows no price, and so no lower one than any other.
fn held_of(p: u32) -> u32
    ensures { result ≡ offer_key p }
{
    if p == 0 { NO_OFFER } else { p }
}

// The lowest price, 0 for none.
pub fn lowest_of(p: u32) -> u32
    ensures { result ≡ offer_of p }
{
    if p == NO_OFFER { 0 } else { p }
}

// One more entry. By minima and maxima, which cost no branch: the sides of a book come in no order.
pub fn bettered(best: Best, e: Entry) -> Best
    ensures { result ≡ better best e }
{
    let display = display_of(e);
    let shown = held_of(display);
    Best {
        top: best.top.max(e.number),
        bid: best.bid.max(buys_at(e, e.working)),
        offer: best.offer.min(sells_at(e, e.working)),
        shownbid: best.shownbid.max(buys_at(e, display)),
        shownoffer: best.shownoffer.min(sells_at(e, shown)),
        quoted: best.quoted | is_quote(e),
    }
}

// Whether the highest buy is below the lowest sell, if there is one.
pub fn is_apart(bid: u32, offer: u32) -> bool
    ensures { result ≡ best_apart bid offer }
{
    (offer == 0) | (bid < offer)
}

// The seat of a maker and a side.
fn seat_at(party: u8, sell: bool) -> usize
    ensures { result ≡ seat party sell }
{
    let place = party as usize;
    if sell { place + 16 } else { place }
}

// The seat that an entry takes, 0 for none.
pub fn seat_of(e: Entry) -> usize
    ensures { result ≡ seat_of e }
{
    if is_quote(e) {
        return seat_at(e.party, e.sell);
    }
    0
}

// The best price that a side faces, and the best that it is shown; 0 for none.
pub fn price_faced(check: Check, sell: bool) -> u32
    ensures { result ≡ faced check sell }
{
    if sell { check.bid } else { check.offer }
}

pub fn price_shown(check: Check, sell: bool) -> u32
    ensures { result ≡ faced_shown check sell }
{
    if sell {
        check.shownbid
    } else {
        check.shownoffer
    }
}

// Whether a maker has a quote on a side.
pub fn has_quote(check: Check, party: u8, sell: bool) -> bool
    requires { party ≤ 16 }
    ensures { result ≡ get_or check.seats (seat party sell) false }
{
    check.seats[seat_at(party, sell)]
}

// Whether the number stands among the first n.
fn is_listed(numbers: &[u32; 64], n: usize, number: u32) -> bool
    requires { (n ≤ 64) × (length numbers.now ≡ 64) }
    ensures { result ≡ any (eqb number) (take n numbers.now) }
{
    numbers[..n].contains(&number)
}

// Whether it is none of them, of which `top` is the highest. Entries post in the order of their numbers, so only one that has been moved
// has to be looked for.
pub fn is_new(numbers: &[u32; 64], n: usize, top: u32, number: u32) -> bool
    requires { (n ≤ 64) × (length numbers.now ≡ 64) }
    ensures { result ≡ (ltb top number || not (any (eqb number) (take n numbers.now))) }
{
    if top < number {
        return true;
    }
    !is_listed(numbers, n, number)
}
