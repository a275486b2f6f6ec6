// Easing: quotes that work beyond the away price drop back to it, or to what they show, in entry order.
ghost use Rattle.std.specs.Prelude.{◌≡◌, [], ◌∷◌};
ghost use Rattle.lists.specs.Choose.{found};
ghost use Rattle.lists.specs.Places.{requeue};
ghost use Rattle.lists.specs.Run.{go};
ghost use Rattle.book.specs.Entries.{priced};
ghost use Rattle.book.specs.Shape.{entries_of, WellFormed};
ghost use Rattle.book.specs.Look.{lowest, rank_of};
ghost use Rattle.telling.specs.Tell.{repriced as Tell·repriced};
ghost use Rattle.telling.specs.Stage.{alone};
ghost use Rattle.telling.specs.Lent.{Told, SameRoom};
ghost use Rattle.settling_theory.specs.Settle.{easing, eased_prices, ease_at, eased};
ghost use Rattle.settling.specs.Turns.{entry_in, Turn, EaseTurn, Easeable};

use book::change::requeued;
use book::entries::{display_of, repriced};
use book::look::lowest;
use book::{Book, Entry, Pricing};
use prices::Market;
use prices::ease::{eased_to, is_easing};
use prices::side::away_of;
use telling::room::Reports;
use telling::tell::tell_repriced;

fn is_entry_easing(market: Market, e: Entry) -> bool
    ensures { result ≡ easing market e }
{
    let p = e.pricing;
    match p {
        Pricing::Fixed => false,
        Pricing::Dark => false,
        Pricing::Sliding(d) => is_easing(e.sell, away_of(market, e.sell), d, e.working),
    }
}

// The first by entry number that easing changes.
fn first_easing(b: Book, market: Market) -> Option<usize>
    requires { WellFormed b }
    ensures { result ≡ rank_of (lowest (easing market) (entries_of b)) }
{
    lowest(b, |e| is_entry_easing(market, e))
}

// An entry with new prices takes the place of what stands there: it goes last in rank, and is reported.
pub fn move_to(b: Book, i: usize, e: Entry, reports: &mut Reports) -> Book
    requires { Turn b i reports.old.room.now reports.old.count (Tell·repriced e ∷ []) }
    ensures told { Told (alone (entries_of b) (go (Tell·repriced e) (requeue i e (entries_of b)))) reports.old result reports.new }
    ensures same_room { SameRoom reports.old reports.new }
{
    reports.tell(tell_repriced(e));
    requeued(b, i, e)
}

// The entry drops to the away price or to what it shows, which stays where it is.
fn eased_entry(market: Market, e: Entry) -> Entry
    ensures { result ≡ priced (eased_prices market e) e }
{
    let display = display_of(e);
    let working = eased_to(e.sell, away_of(market, e.sell), display, e.working);
    repriced(e, display, working)
}

// The entry at a place is eased.
fn ease_at(b: Book, market: Market, i: usize, reports: &mut Reports) -> Book
    requires { EaseTurn market b i reports.old.room.now reports.old.count }
    ensures told { Told (alone (entries_of b) (ease_at market (entries_of b) (found i (entry_in b i)))) reports.old result reports.new }
    ensures same_room { SameRoom reports.old reports.new }
{
    let e = eased_entry(market, b.entries[i]);
    move_to(b, i, e, reports)
}

// All that are to be eased, in entry order.
pub fn ease(b: Book, market: Market, reports: &mut Reports) -> Book
    requires { Easeable market b reports.old.room.now reports.old.count }
    ensures told { Told (eased market (entries_of b)) reports.old result reports.new }
    ensures same_room { SameRoom reports.old reports.new }
{
    let mut book = b;
    while let Some(i) = first_easing(book, market) {
        book = ease_at(book, market, i, reports);
    }
    book
}
