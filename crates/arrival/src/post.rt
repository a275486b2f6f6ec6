// Whether and how what is left of an arriving entry rests.
ghost use Rattle.std.specs.Prelude.{◌≡◌};
ghost use Rattle.prices.specs.Side.{away};
ghost use Rattle.prices.specs.Aims.{Bounds};
ghost use Rattle.prices.specs.Reasons.{reason_number};
ghost use Rattle.book.specs.Shape.{entries_of, WellFormed};
ghost use Rattle.terms.specs.Terms.{market_of};
ghost use Rattle.arrival.specs.Post.{prices_before, pricing_of, as_posted, hidden_for, posting_of, stop_for, Posts};

use book::entries::{interest_of, kind_of};
use book::look::best_hidden;
use book::{Book, Entry, Pricing};
use kinds::{is_dark, is_light, is_sliding};
use prices::aims::aims_of;
use prices::post::stop_of;
use prices::reason::Reason;
use prices::side::away_of;
use prices::{Against, Posting, Prices};
use terms::{Terms, market_of};

// The prices at which it would rest, before this contra price.
pub fn prices_of(t: Terms, e: Entry, contra: u32) -> Prices
    requires { Bounds t.m (away (market_of t) e.sell) contra }
    ensures { result ≡ prices_before t e contra }
{
    let quote = interest_of(e);
    if is_sliding(quote.kind) {
        let against = Against {
            m: t.m,
            away: away_of(market_of(t), e.sell),
            contra,
        };
        return aims_of(quote, against);
    }
    Prices {
        display: e.limit,
        working: e.limit,
    }
}

fn pricing_of(kind: u32, display: u32) -> Pricing
    ensures { result ≡ pricing_of kind display }
{
    if is_sliding(kind) {
        return Pricing::Sliding(display);
    }
    if is_dark(kind) {
        return Pricing::Dark;
    }
    Pricing::Fixed
}

// The entry as it rests, with what is left.
pub fn rest_of(e: Entry, left: u32, p: Prices) -> Entry
    ensures { result ≡ as_posted e left p }
{
    let pricing = pricing_of(kind_of(e), p.display);
    Entry {
        quantity: left,
        working: p.working,
        pricing,
        ..e
    }
}

// The best price at which undisplayed interest works against it, 0 for none: an MMLO alone asks for it.
pub fn hidden_for(b: Book, e: Entry) -> u32
    requires { WellFormed b }
    ensures { result ≡ hidden_for e (entries_of b) }
{
    if is_light(kind_of(e)) {
        return best_hidden(b, e.sell);
    }
    0
}

// What is left of it, as it would rest with this display.
pub fn posting_of(b: Book, t: Terms, e: Entry, display: u32) -> Posting
    requires { WellFormed b }
    ensures { result ≡ posting_of t e (entries_of b) display }
{
    Posting {
        m: t.m,
        k: t.k,
        away: away_of(market_of(t), e.sell),
        hidden: hidden_for(b, e),
        display,
    }
}

// The reason why it may not rest, if there is one.
pub fn stop_for(b: Book, t: Terms, e: Entry, contra: u32) -> Option<Reason>
    requires { Posts t e b contra }
    ensures { reason_number result ≡ stop_for t e (entries_of b) }
{
    let p = prices_of(t, e, contra);
    stop_of(interest_of(e), posting_of(b, t, e, p.display))
}
