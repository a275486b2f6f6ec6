// The two passes over a book.
ghost use Rattle.std.specs.Prelude.{◌≡◌, ◌≤◌, drop, length};
ghost use Rattle.std.specs.List.{list_all};
ghost use Rattle.lists.specs.Tests.{all};
ghost use Rattle.book.specs.Shape.{entries_of};
ghost use Rattle.soundness_theory.specs.Sound.{unused_entry};
ghost use Rattle.soundness.specs.Summary.{Passed, Few, finding};

use crate::clauses::{is_sound_entry, is_unused};
use crate::figures::{NO_OFFER, bettered, is_apart, is_new, lowest_of, seat_of};
use crate::{Best, Check};
use book::{Book, Entry};

fn are_unused(places: &[Entry]) -> bool
    ensures { result ≡ list_all unused_entry places.now }
{
    places.iter().all(|e| is_unused(*e))
}

// Whether the places behind the entries that rest are all unused.
pub fn is_rest_unused(b: Book) -> bool
    requires { b.count ≤ 64 }
    ensures { (result ≡ all unused_entry (drop b.count b.entries)) × (length b.entries ≡ 64) }
{
    are_unused(&b.entries[b.count..])
}

// The entries that rest. An early return is rare, and the figures come for nothing on the way.
pub fn check_resting(b: Book, m: u32, given: u32) -> Option<Check>
    requires { Few m b }
    ensures { Passed m given (entries_of b) result }
{
    let mut best = Best {
        top: 0,
        bid: 0,
        offer: NO_OFFER,
        shownbid: 0,
        shownoffer: NO_OFFER,
        quoted: false,
    };
    let mut numbers = [0u32; 64];
    let mut seats = [false; 33];
    for i in 0..b.count {
        let e = b.entries[i];
        if !is_sound_entry(m, given, e) {
            return None;
        }
        if !is_new(&numbers, i, best.top, e.number) {
            return None;
        }
        let seat = seat_of(e);
        if seats[seat] {
            return None;
        }
        seats[seat] = seat != 0;
        numbers[i] = e.number;
        best = bettered(best, e);
    }
    passed(best, seats)
}

// The answer once every entry has been read.
fn passed(best: Best, seats: [bool; 33]) -> Option<Check>
    ensures { result ≡ finding best seats }
{
    let offer = lowest_of(best.offer);
    if !is_apart(best.bid, offer) {
        return None;
    }
    Some(Check {
        bid: best.bid,
        offer,
        shownbid: best.shownbid,
        shownoffer: lowest_of(best.shownoffer),
        quoted: best.quoted,
        seats,
    })
}
