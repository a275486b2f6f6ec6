// Trades on arrival.
ghost use Rattle.std.specs.Prelude.{◌≡◌};
ghost use Rattle.book.specs.Shape.{WellFormed};
ghost use Rattle.telling.specs.Lent.{SameRoom};
ghost use Rattle.arrival.specs.Take.{bound, shown_only, offered, taken};
ghost use Rattle.arrival.specs.Asks.{Takes, TookAs, taking_of, next_trade};

use book::change::taken as hit_at;
use book::entries::kind_of;
use book::look::best_contra;
use book::{Book, Entry};
use kinds::is_light;
use prices::Market;
use prices::aims::held_to;
use prices::side::{away_of, is_reaching};
use telling::room::Reports;
use telling::tell::tell_traded;

// The lesser of the limit and the away price: no trade goes beyond it.
pub fn bound_of(market: Market, e: Entry) -> u32
    ensures { result ≡ bound market e }
{
    held_to(e.sell, away_of(market, e.sell), e.limit)
}

pub fn is_shown_only(e: Entry) -> bool
    ensures { result ≡ shown_only e }
{
    is_light(kind_of(e))
}

// Whether there is anything at this price, 0 for none, and within the bound.
pub fn is_offered(sell: bool, cap: u32, price: u32) -> bool
    ensures { result ≡ offered sell cap price }
{
    (price != 0) & is_reaching(sell, cap, price)
}

// A trade to come: with the entry at a place, for so many contracts.
#[derive(Clone, Copy, PartialEq, Eq, Debug)]
pub struct Trade {
    pub at: usize,
    pub entry: Entry,
    pub quantity: u32,
}

// The next trade of a taker with so much left.
pub fn next_trade(b: Book, e: Entry, cap: u32, left: u32) -> Option<Trade>
    requires { WellFormed b }
    ensures { result ≡ next_trade cap e (taking_of left b) }
{
    let at = best_contra(b, e.sell, is_shown_only(e))?;
    let entry = b.entries[at];
    if (left == 0) | !is_reaching(e.sell, cap, entry.working) {
        return None;
    }
    let quantity = left.min(entry.quantity);
    Some(Trade {
        at,
        entry,
        quantity,
    })
}

// Takes the best, again and again, as far as the bound reaches and something is left.
pub fn take_all(b: Book, e: Entry, cap: u32, left: &mut u32, reports: &mut Reports) -> Book
    requires { Takes (taken cap e (taking_of left.old b)) b reports.old.room.now reports.old.count }
    ensures told { TookAs (taken cap e (taking_of left.old b)) reports.old.room.now reports.old.count result left.new reports.new.room.now reports.new.count }
    ensures same_room { SameRoom reports.old reports.new }
{
    let mut c = b;
    while let Some(next) = next_trade(c, e, cap, *left) {
        let y = next.entry;
        reports.tell(tell_traded(e, y, next.quantity));
        c = hit_at(c, next.at, next.quantity);
        *left -= next.quantity;
    }
    c
}
