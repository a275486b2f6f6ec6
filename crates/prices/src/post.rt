// Whether what is left of an entry may rest.
ghost use Rattle.std.specs.Prelude.{◌≡◌, true, [], ◌∷◌, ℕ};
ghost use Rattle.lists.specs.Tests.{first_holding};
ghost use Rattle.prices.specs.Step.{mpv};
ghost use Rattle.prices.specs.Test.{holds, figures_of};
ghost use Rattle.prices.specs.Reasons.{reason_number};
ghost use Rattle.prices.specs.Post.{test20, test21, test23, test22, stops, stopped};

use crate::protect::figures;
use crate::reason::Reason;
use crate::side::is_reaching;
use crate::step::{distance, last_price};
use crate::{Figures, Interest, Posting};
use kinds::{is_light, is_sliding};

// 20: it would lock or cross the away price.
pub fn is_locking(entry: Interest, posting: Posting) -> bool
    ensures { result ≡ holds entry.sell (test20 entry.kind entry.limit posting.away) }
{
    (!is_sliding(entry.kind) & (posting.away != 0))
        & is_reaching(entry.sell, entry.limit, posting.away)
}

// 21: undisplayed interest, which it has passed over, stands in its way.
pub fn is_obstructed(entry: Interest, posting: Posting) -> bool
    ensures { result ≡ holds entry.sell (test21 entry.kind entry.limit posting.hidden) }
{
    (is_light(entry.kind) & (posting.hidden != 0))
        & is_reaching(entry.sell, entry.limit, posting.hidden)
}

// 23: there is no legal price to show it at.
pub fn is_unshowable(entry: Interest, posting: Posting) -> bool
    ensures { result ≡ holds entry.sell (test23 posting.m entry.kind entry.sell posting.display) }
{
    let last = last_price(posting.m, entry.sell);
    is_sliding(entry.kind) & !is_reaching(entry.sell, posting.display, last)
}

// 22: it would be shown too far from its limit.
pub fn is_too_distant(entry: Interest, posting: Posting) -> bool
    requires { mpv posting.m ≡ true }
    ensures { result
        ≡ holds entry.sell (test22 posting.m posting.k entry.kind entry.sell entry.limit posting.display) }
{
    let steps = distance(posting.m, entry.sell, entry.limit, posting.display);
    is_sliding(entry.kind) & (posting.k < steps)
}

// The reason of the first that applies, if one does.
fn first_stop(locking: bool, obstructed: bool, unshowable: bool, distant: bool) -> Option<Reason>
    ensures { reason_number result
        ≡ first_holding ((20, locking) ∷ (21, obstructed) ∷ (23, unshowable) ∷ (22, distant) ∷ []) }
{
    if locking {
        return Some(Reason::Locking);
    }
    if obstructed {
        return Some(Reason::Obstructed);
    }
    if unshowable {
        return Some(Reason::Unshowable);
    }
    if distant {
        return Some(Reason::TooDistant);
    }
    None
}

// The reason why what is left may not rest, if there is one.
#[tactic(auto, unfolding(crate::specs::Post::stopped))]
pub fn stop_of(entry: Interest, posting: Posting) -> Option<Reason>
    requires { mpv posting.m ≡ true }
    ensures { reason_number result
        ≡ stopped posting.m posting.k entry.kind entry.sell entry.limit posting.away posting.hidden posting.display }
{
    let locking = is_locking(entry, posting);
    let obstructed = is_obstructed(entry, posting);
    let unshowable = is_unshowable(entry, posting);
    let distant = is_too_distant(entry, posting);
    first_stop(locking, obstructed, unshowable, distant)
}

// The two figures that a rule's test of what is left compares, of whatever kind it is; two zeros for a rule that is none of these.
#[tactic(auto, unfolding(crate::specs::Test::figures_of))]
pub fn stop_figures(rule: u32, entry: Interest, posting: Posting) -> Figures
    requires { mpv posting.m ≡ true }
    ensures { (kind : ℕ) → result
        ≡ figures_of rule
        (stops posting.m posting.k kind entry.sell entry.limit posting.away posting.hidden posting.display) }
{
    let Interest { sell, limit, .. } = entry;
    let Posting {
        m,
        k,
        away,
        hidden,
        display,
    } = posting;
    if rule == 20 {
        return figures(limit, away);
    }
    if rule == 21 {
        return figures(limit, hidden);
    }
    if rule == 23 {
        return figures(display, last_price(m, sell));
    }
    if rule == 22 {
        return figures(distance(m, sell, limit, display), k);
    }
    figures(0, 0)
}
