// Easing: a quote must not work beyond the away price, unless it is shown there.
ghost use Rattle.std.specs.Prelude.{◌≡◌};
ghost use Rattle.prices.specs.Ease.{beyond, eased_to, eases};

use crate::side::{is_reaching, keener};

fn is_beyond(sell: bool, away: u32, working: u32) -> bool
    ensures { result ≡ beyond sell away working }
{
    (away != 0) & !is_reaching(sell, away, working)
}

// The working price after easing.
#[tactic(auto, unfolding(crate::specs::Ease::eased_to))]
pub fn eased_to(sell: bool, away: u32, display: u32, working: u32) -> u32
    ensures { result ≡ eased_to sell away display working }
{
    if is_beyond(sell, away, working) {
        return keener(sell, display, away);
    }
    working
}

// Whether easing changes the working price.
#[tactic(auto, unfolding(crate::specs::Ease::eases))]
pub fn is_easing(sell: bool, away: u32, display: u32, working: u32) -> bool
    ensures { result ≡ eases sell away display working }
{
    working != eased_to(sell, away, display, working)
}
