// The reason of a report of an accepted message.
ghost use Rattle.std.specs.Prelude.{◌≡◌, true};
ghost use Rattle.prices.specs.Test.{figures_of};
ghost use Rattle.series.specs.Series.{sound_series};
ghost use Rattle.handler.specs.Acts.{Accepted};
ghost use Rattle.why.specs.Why.{FacedIn, given, found_tests, left_tests, reason_for};

use crate::Reason;
use arrival::Facing;
use arrival::arrive::book_left;
use arrival::reason::figures_for;
use book::Entry;
use handler::Ask;
use handler::asking::comer_of;
use handler::handle::facing_of;
use kinds::is_entering;
use packing::report::Report;
use prices::Figures;
use prices::protect::figures;
use series::Series;
use series::sound::check_series;

// What an entry faces in the book of a sound series.
fn facing_in(s: Series, e: Entry) -> Facing
    requires { sound_series s ≡ true }
    ensures { FacedIn s e result }
{
    let check = check_series(s).unwrap();
    facing_of(check, s.terms, e.sell)
}

// The figures of a rule that rejected what the message entered: in the book that it found.
fn found_figures(s: Series, a: Ask, rule: u32) -> Figures
    requires { Accepted s a }
    ensures { result ≡ figures_of rule (found_tests s a) }
{
    if !is_entering(a.kind) {
        return figures(0, 0);
    }
    let t = s.terms;
    let e = comer_of(t.given, a);
    let f = facing_in(s, e);
    figures_for(rule, s.book, t, e, f)
}

// The figures of a rule that cancelled its rest: in the book in which that would have posted.
fn left_figures(s: Series, a: Ask, rule: u32) -> Figures
    requires { Accepted s a }
    ensures { result ≡ figures_of rule (left_tests s a) }
{
    if !is_entering(a.kind) {
        return figures(0, 0);
    }
    let t = s.terms;
    let e = comer_of(t.given, a);
    let f = facing_in(s, e);
    let left = book_left(s.book, t, e, f);
    figures_for(rule, left, t, e, f)
}

fn given_with(rule: u32, figures: Figures) -> Option<Reason>
    ensures { result ≡ given rule figures }
{
    Some(Reason {
        rule,
        first: figures.first,
        second: figures.second,
    })
}

// Why a report of a message that is accepted says what it says.
pub fn reason_of(s: Series, a: Ask, report: Report) -> Option<Reason>
    requires { Accepted s a }
    ensures { result ≡ reason_for s a report }
{
    match report {
        Report::Noted => None,
        Report::Rejected { reason, .. } => given_with(reason, found_figures(s, a, reason)),
        Report::Traded { .. } => None,
        Report::Rested { .. } => None,
        Report::Repriced { .. } => None,
        Report::Cancelled { reason, .. } => given_with(reason, left_figures(s, a, reason)),
    }
}
