// The figures behind a reason.
ghost use Rattle.std.specs.Prelude.{◌≡◌};
ghost use Rattle.prices.specs.Test.{figures_of};
ghost use Rattle.book.specs.Shape.{entries_of};
ghost use Rattle.arrival.specs.Arrive.{tests_against};
ghost use Rattle.arrival.specs.Asks.{Measures};

use crate::Facing;
use crate::post::{posting_of, prices_of};
use book::entries::interest_of;
use book::{Book, Entry};
use prices::Figures;
use prices::post::stop_figures;
use prices::protect::bar_figures;
use terms::{Terms, guard_of};

// The two figures that a rule's test of an arriving entry compares, where it would post in this book; two zeros for a rule that is no test.
pub fn figures_for(rule: u32, b: Book, t: Terms, e: Entry, f: Facing) -> Figures
    requires { Measures t e f b }
    ensures { result ≡ figures_of rule (tests_against t e f.national (entries_of b)) }
{
    if 24 <= rule {
        return bar_figures(rule, guard_of(t), e.sell, f.national, e.limit);
    }
    let p = prices_of(t, e, f.contra);
    stop_figures(rule, interest_of(e), posting_of(b, t, e, p.display))
}
