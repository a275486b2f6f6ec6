// The aims of a quote that slides.
ghost use Rattle.std.specs.Prelude.{◌≡◌, true};
ghost use Rattle.prices.specs.Step.{mpv, none_or_legal};
ghost use Rattle.prices.specs.Aims.{minded, up_to, short_of, aims, Bounds};

use crate::side::meeker;
use crate::step::one_back;
use crate::{Against, Interest, Prices};
use kinds::is_minding;

#[tactic(auto, unfolding(crate::specs::Aims::minded))]
fn contra_minded(quote: Interest, against: Against) -> u32
    ensures { result ≡ minded quote.kind against.contra }
{
    if is_minding(quote.kind) {
        against.contra
    } else {
        0
    }
}

// The price p, held to x.
#[tactic(auto, unfolding(crate::specs::Aims::up_to))]
pub fn held_to(sell: bool, x: u32, p: u32) -> u32
    ensures { result ≡ up_to sell x p }
{
    if x == 0 {
        return p;
    }
    meeker(sell, p, x)
}

// The price p, held to one step short of x.
#[tactic(auto, unfolding(crate::specs::Aims::short_of))]
fn held_short(m: u32, sell: bool, x: u32, p: u32) -> u32
    requires { (mpv m ≡ true) × (none_or_legal m x ≡ true) }
    ensures { result ≡ short_of m sell x p }
{
    if x == 0 {
        return p;
    }
    meeker(sell, p, one_back(m, sell, x))
}

#[tactic(auto, unfolding(crate::specs::Aims::aim_display, crate::specs::Aims::aim_working))]
pub fn aims_of(quote: Interest, against: Against) -> Prices
    requires { Bounds against.m against.away against.contra }
    ensures { result ≡ aims against.m quote.kind quote.sell quote.limit against.away against.contra }
{
    let Interest { sell, limit, .. } = quote;
    let Against { m, away, .. } = against;
    let c = contra_minded(quote, against);
    let display = held_short(m, sell, c, held_short(m, sell, away, limit));
    let working = held_short(m, sell, c, held_to(sell, away, limit));
    Prices { display, working }
}
