// The numbers of a series, and what the price rules read off them.
#![tactic(auto)]

ghost use Rattle.std.specs.Prelude.{◌≡◌};
ghost use Rattle.terms.specs.Terms.{market_of, guard_of};

use prices::{Guard, Market};

// The numbers of a series.
#[derive(Clone, Copy)]
pub struct Terms {
    pub put: bool,
    pub exempt: bool,
    pub m: u32,
    pub k: u32,
    pub strike: u32,
    pub phase: u32,
    pub bid: u32,
    pub offer: u32,
    pub underlying: u32,
    pub given: u32,
}

// The highest underlying price.
pub const TOP_UNDERLYING: u32 = 100000;

pub fn market_of(t: Terms) -> Market
    ensures { result ≡ market_of t }
{
    Market {
        m: t.m,
        bid: t.bid,
        offer: t.offer,
    }
}

pub fn guard_of(t: Terms) -> Guard
    ensures { result ≡ guard_of t }
{
    Guard {
        put: t.put,
        exempt: t.exempt,
        strike: t.strike,
        underlying: t.underlying,
    }
}
