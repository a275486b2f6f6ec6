// Who trades first, and which prices a side faces.
ghost use Rattle.std.specs.Prelude.{◌≡◌, cond, ◌<◌};
ghost use Rattle.prices.specs.Side.{nearer};
ghost use Rattle.book.specs.Shape.{entries_of, WellFormed};
ghost use Rattle.book.specs.Look.{no_key, cost, priority, eligible, best_contra, rank_of, lower_key, LeastBy, LowestBy};
ghost use Rattle.book.specs.Look.{contra_in, front_of, front_turn, hidden_price, best_hidden};
ghost use Rattle.book.specs.Entries.{against};
ghost use Rattle.lists.specs.Choose.{keyed};

use crate::entries::{is_against, is_displayed};
use crate::find::resting;
use crate::{Book, Entry, Front, Least};
use prices::side::nearer_of;

// What a price costs a taker: less is better.
pub fn cost_of(sell: bool, p: u32) -> u32
    ensures { result ≡ cost sell p }
{
    if sell { 200000u32.saturating_sub(p) } else { p }
}

// Who trades first: the least. At one price displayed interest goes before undisplayed.
pub fn priority_of(sell: bool, e: Entry) -> u64
    ensures { (result ≡ priority sell e) × (result < no_key) }
{
    2 * u64::from(cost_of(sell, e.working)) + u64::from(!is_displayed(e))
}

pub fn is_eligible(sell: bool, shown: bool, e: Entry) -> bool
    ensures { result ≡ eligible sell shown e }
{
    is_against(sell, e) & (!shown | is_displayed(e))
}

// A turn of a scan for the least key. Of equal keys the first stays, which is the older rank.
fn lower_of(held: Option<Least>, at: usize, key: u64) -> Option<Least>
    ensures { result ≡ lower_key held at key }
{
    match held {
        Some(least) if least.key <= key => held,
        _ => Some(Least { key, at }),
    }
}

// Where the least key stands, of those entries that have one.
pub fn least_of<F: Fn(Entry) -> Option<u64>>(b: Book, key_of: F) -> Option<usize>
    requires well { WellFormed b }
    requires callable { F.IsAlwaysCallable key_of }
    ensures { LeastBy (F.post key_of) (entries_of b) result }
{
    let mut held: Option<Least> = None;
    for (i, e) in resting(&b).iter().enumerate() {
        if let Some(key) = key_of(*e) {
            held = lower_of(held, i, key);
        }
    }
    held.map(|least| least.at)
}

// The first by entry number of those that pass.
pub fn lowest<F: Fn(Entry) -> bool>(b: Book, passes: F) -> Option<usize>
    requires well { WellFormed b }
    requires callable { F.IsAlwaysCallable passes }
    ensures { LowestBy (F.post passes) (entries_of b) result }
{
    least_of(b, |e| passes(e).then_some(u64::from(e.number)))
}

fn contra_key(sell: bool, shown: bool, e: Entry) -> Option<u64>
    ensures { result ≡ keyed (eligible sell shown) (priority sell) e }
{
    is_eligible(sell, shown, e).then_some(priority_of(sell, e))
}

// The one best contra entry for a taker.
pub fn best_contra(b: Book, sell: bool, shown: bool) -> Option<usize>
    requires { WellFormed b }
    ensures { result ≡ rank_of (best_contra sell shown (entries_of b)) }
{
    least_of(b, |e| contra_key(sell, shown, e))
}

// A turn of a scan for the best price that a side faces: this is the entry's. Dark interest counts.
fn facing_turn(sell: bool, q: u32, e: Entry, price: u32) -> u32
    ensures { result ≡ cond (against sell e) (nearer sell q price) q }
{
    if is_eligible(sell, false, e) {
        return nearer_of(sell, q, price);
    }
    q
}

// One more entry: the better of what it offers either side and what was seen so far.
fn front_turn(front: Front, e: Entry) -> Front
    ensures { result ≡ front_turn front e }
{
    Front {
        bid: facing_turn(true, front.bid, e, e.working),
        offer: facing_turn(false, front.offer, e, e.working),
    }
}

// The best working prices that rest. Both in one pass, since settling asks at every step.
pub fn front_of(b: Book) -> Front
    requires { WellFormed b }
    ensures { result ≡ front_of (entries_of b) }
{
    resting(&b).iter().fold(Front { bid: 0, offer: 0 }, |front, e| front_turn(front, *e))
}

// C of a side.
pub fn contra_of(front: Front, sell: bool) -> u32
    ensures { result ≡ contra_in front sell }
{
    if sell { front.bid } else { front.offer }
}

// The price at which it works undisplayed, 0 for none.
fn hidden_price(e: Entry) -> u32
    ensures { result ≡ hidden_price e }
{
    if is_displayed(e) { 0 } else { e.working }
}

// The best price at which undisplayed interest works against a side, 0 for none.
pub fn best_hidden(b: Book, sell: bool) -> u32
    requires { WellFormed b }
    ensures { result ≡ best_hidden sell (entries_of b) }
{
    resting(&b)
        .iter()
        .fold(0, |best, e| facing_turn(sell, best, *e, hidden_price(*e)))
}
