// Price protection: the tests put to a quote before all else.
ghost use Rattle.std.specs.Prelude.{◌≡◌};
ghost use Rattle.prices.specs.Test.{holds, figures_of};
ghost use Rattle.prices.specs.Reasons.{reason_number};
ghost use Rattle.prices.specs.Protect.{test25, test26, figures24, limited24, test24, bars, protection, Cents};

use crate::reason::Reason;
use crate::{Figures, Guard};

pub fn figures(first: u32, second: u32) -> Figures
    ensures { result ≡ record { first = first; second = second } }
{
    Figures { first, second }
}

// 25: a call's bid at or above the underlying price.
pub fn is_above_underlying(guard: Guard, sell: bool, limit: u32) -> bool
    ensures { result ≡ holds sell (test25 guard sell limit) }
{
    (!sell & (!guard.put & (!guard.exempt & (guard.underlying != 0)))) & (guard.underlying <= limit)
}

// 26: a put's bid at or above the strike.
pub fn is_above_strike(guard: Guard, sell: bool, limit: u32) -> bool
    ensures { result ≡ holds sell (test26 guard sell limit) }
{
    (!sell & (guard.put & !guard.exempt)) & (guard.strike <= limit)
}

// What a limit is measured by against the best price of the other side.
#[tactic(auto, unfolding(crate::specs::Protect::figures24))]
pub fn far_figures(sell: bool, best: u32, limit: u32) -> Figures
    requires { Cents best limit }
    ensures { result ≡ figures24 sell best limit }
{
    if sell {
        return Figures {
            first: 2 * best.saturating_sub(limit),
            second: best,
        };
    }
    if best <= 100 {
        return Figures {
            first: limit,
            second: best + 100,
        };
    }
    Figures {
        first: 2 * limit.saturating_sub(best),
        second: best,
    }
}

// Whether there is a best price that sets a limit. Bids and offers are no mirror images here.
#[tactic(auto, unfolding(crate::specs::Protect::limited24))]
fn is_limited(sell: bool, best: u32) -> bool
    ensures { result ≡ limited24 sell best }
{
    if sell { 100 < best } else { best != 0 }
}

// 24: too far through the best price of the other side.
pub fn is_too_far(sell: bool, best: u32, limit: u32) -> bool
    requires { Cents best limit }
    ensures { result ≡ holds sell (test24 sell best limit) }
{
    let figures = far_figures(sell, best, limit);
    is_limited(sell, best) & (figures.second <= figures.first)
}

// The reason to reject a quote at once, if there is one.
#[tactic(auto, unfolding(crate::specs::Protect::protection))]
pub fn protection_of(guard: Guard, sell: bool, best: u32, limit: u32) -> Option<Reason>
    requires { Cents best limit }
    ensures { reason_number result ≡ protection guard sell best limit }
{
    if is_above_underlying(guard, sell, limit) {
        return Some(Reason::AboveUnderlying);
    }
    if is_above_strike(guard, sell, limit) {
        return Some(Reason::AboveStrike);
    }
    if is_too_far(sell, best, limit) {
        return Some(Reason::TooFar);
    }
    None
}

// The two figures that a rule's test of price protection compares; two zeros for a rule that is none of these.
#[tactic(auto, unfolding(crate::specs::Test::figures_of))]
pub fn bar_figures(rule: u32, guard: Guard, sell: bool, best: u32, limit: u32) -> Figures
    requires { Cents best limit }
    ensures { result ≡ figures_of rule (bars guard sell best limit) }
{
    if rule == 25 {
        return figures(limit, guard.underlying);
    }
    if rule == 26 {
        return figures(limit, guard.strike);
    }
    if rule == 24 {
        return far_figures(sell, best, limit);
    }
    figures(0, 0)
}
