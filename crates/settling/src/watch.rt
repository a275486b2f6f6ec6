// Who stirs.
ghost use Rattle.std.specs.Prelude.{◌≡◌};
ghost use Rattle.book.specs.Shape.{entries_of};
ghost use Rattle.book.specs.Look.{lowest, rank_of};
ghost use Rattle.settling_theory.specs.Settle.{any_stirs};
ghost use Rattle.settling.specs.Turns.{against_of, stirring_by, Judged, Judgeable, Watched, Askable};

use book::entries::interest_of;
use book::find::resting;
use book::look::{contra_of, front_of, lowest};
use book::{Book, Entry, Front, Pricing};
use prices::rest::is_stirring_at;
use prices::side::away_of;
use prices::{Against, Market, Prices};

// What a quote of a side faces.
pub fn against_of(market: Market, front: Front, sell: bool) -> Against
    ensures { result ≡ against_of market front sell }
{
    Against {
        m: market.m,
        away: away_of(market, sell),
        contra: contra_of(front, sell),
    }
}

// Whether an entry has a trade to make or a price to move.
pub fn is_entry_stirring(market: Market, front: Front, e: Entry) -> bool
    requires { Judged market front }
    ensures { result ≡ stirring_by market front e }
{
    let p = e.pricing;
    match p {
        Pricing::Fixed => false,
        Pricing::Dark => false,
        Pricing::Sliding(d) => {
            let now = Prices {
                display: d,
                working: e.working,
            };
            is_stirring_at(interest_of(e), against_of(market, front, e.sell), now)
        }
    }
}

// The first by entry number that does.
pub fn first_stirring(b: Book, market: Market, front: Front) -> Option<usize>
    requires { Judgeable market front b }
    ensures { result ≡ rank_of (lowest (stirring_by market front) (entries_of b)) }
{
    lowest(b, |e| is_entry_stirring(market, front, e))
}

// Whether anything does, where the book's best working prices are known.
pub fn is_stirring_by(b: Book, market: Market, front: Front) -> bool
    requires { Watched market front b }
    ensures { result ≡ any_stirs market (entries_of b) }
{
    resting(&b)
        .iter()
        .any(|e| is_entry_stirring(market, front, *e))
}

// Whether there is anything to settle.
pub fn is_stirring(b: Book, market: Market) -> bool
    requires { Askable market b }
    ensures { result ≡ any_stirs market (entries_of b) }
{
    let front = front_of(b);
    is_stirring_by(b, market, front)
}
