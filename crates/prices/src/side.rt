// Prices as a side sees them.
ghost use Rattle.std.specs.Prelude.{◌≡◌};
ghost use Rattle.prices.specs.Side.{keen, meek, reaches, nearer, away};

use crate::Market;

// The more aggressive of two prices.
#[tactic(auto, unfolding(crate::specs::Side::keen))]
pub fn keener(sell: bool, p: u32, q: u32) -> u32
    ensures { result ≡ keen sell p q }
{
    if sell { p.min(q) } else { p.max(q) }
}

// The less aggressive of two prices.
#[tactic(auto, unfolding(crate::specs::Side::keen, crate::specs::Side::meek))]
pub fn meeker(sell: bool, p: u32, q: u32) -> u32
    ensures { result ≡ meek sell p q }
{
    keener(!sell, p, q)
}

// Whether p is as aggressive as x, or more.
#[tactic(auto, unfolding(crate::specs::Side::reaches))]
pub fn is_reaching(sell: bool, p: u32, x: u32) -> bool
    ensures { result ≡ reaches sell p x }
{
    if sell { p <= x } else { x <= p }
}

// Of two contra prices that may be missing, the one that is met first.
#[tactic(auto, unfolding(crate::specs::Side::nearer))]
pub fn nearer_of(sell: bool, p: u32, q: u32) -> u32
    ensures { result ≡ nearer sell p q }
{
    if p == 0 {
        return q;
    }
    if q == 0 {
        return p;
    }
    meeker(sell, p, q)
}

// The away price that a side faces.
pub fn away_of(market: Market, sell: bool) -> u32
    ensures { result ≡ away market sell }
{
    if sell { market.bid } else { market.offer }
}
