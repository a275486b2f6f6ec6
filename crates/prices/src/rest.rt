// Resting quotes that slide: where they belong, and which have something to do.
ghost use Rattle.std.specs.Prelude.{◌≡◌, true};
ghost use Rattle.prices.specs.Step.{mpv, legal};
ghost use Rattle.prices.specs.Aims.{Bounds};
ghost use Rattle.prices.specs.Rest.{marketable, resting_prices, at_rest, stirs_at, shown_near, slides};

use crate::aims::aims_of;
use crate::side::{is_reaching, keener};
use crate::step::{is_legal, last_price, one_back};
use crate::{Against, Interest, Prices};
use kinds::is_minding;

// Whether a quote has a trade to make: it takes, and aims at the contra price or beyond.
#[tactic(auto, unfolding(crate::specs::Rest::marketable))]
pub fn is_marketable(quote: Interest, contra: u32, aim: Prices) -> bool
    ensures { result ≡ marketable quote.kind quote.sell contra aim }
{
    !is_minding(quote.kind) & ((contra != 0) & is_reaching(quote.sell, aim.working, contra))
}

// Where a resting quote with this display belongs.
#[tactic(auto, unfolding(crate::specs::Rest::resting_prices))]
pub fn resting_of(sell: bool, display: u32, aim: Prices) -> Prices
    ensures { result ≡ resting_prices sell display aim }
{
    let shown = keener(sell, display, aim.display);
    let working = keener(sell, shown, aim.working);
    Prices {
        display: shown,
        working,
    }
}

#[tactic(auto, unfolding(crate::specs::Rest::at_rest))]
pub fn is_at_rest(sell: bool, now: Prices, aim: Prices) -> bool
    ensures { result ≡ at_rest sell now.display now.working aim }
{
    let there = resting_of(sell, now.display, aim);
    (now.display == there.display) & (now.working == there.working)
}

// Whether a quote has a trade to make or a price to move.
#[tactic(auto, unfolding(crate::specs::Rest::stirs_at))]
pub fn is_stirring_at(quote: Interest, against: Against, now: Prices) -> bool
    requires { Bounds against.m against.away against.contra }
    ensures { result
        ≡ stirs_at against.m quote.kind quote.sell quote.limit against.away against.contra now.display now.working }
{
    let aim = aims_of(quote, against);
    is_marketable(quote, against.contra, aim) | !is_at_rest(quote.sell, now, aim)
}

// Whether a display is legal and at most one step behind a working price that is legal. It then is that price or the next one, so that no grid is asked.
fn is_shown_near(m: u32, sell: bool, display: u32, working: u32) -> bool
    requires { (mpv m ≡ true) × (legal m working ≡ true) }
    ensures { result ≡ shown_near m sell display working }
{
    if display == working {
        return true;
    }
    let step = one_back(m, sell, working);
    (display == step) & is_reaching(sell, display, last_price(m, sell))
}

// Whether the prices are sound ones of a sliding quote.
#[tactic(auto, unfolding(crate::specs::Rest::slides))]
pub fn is_slide(m: u32, sell: bool, limit: u32, display: u32, working: u32) -> bool
    requires { mpv m ≡ true }
    ensures { result ≡ slides m sell limit display working }
{
    if !is_legal(m, working) {
        return false;
    }
    is_shown_near(m, sell, display, working) & is_reaching(sell, limit, working)
}
