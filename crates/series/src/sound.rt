// Whether a series handed in is sound, however damaged.
ghost use Rattle.std.specs.Prelude.{◌≡◌};
ghost use Rattle.series.specs.Series.{sound_terms};
ghost use Rattle.soundness_theory.specs.Sound.{between};
ghost use Rattle.series.specs.Checks.{phase_with, Tested};

use crate::Series;
use book::entries::LAST_NUMBER;
use packing::setup::TOP_STRIKE;
use prices::step::{is_mpv, is_none_or_legal};
use soundness::{Check, check_book};
use terms::{TOP_UNDERLYING, Terms};

// From low to high, ends included.
pub fn is_between(low: u32, high: u32, x: u32) -> bool
    ensures { result ≡ between low high x }
{
    (low <= x) & (x <= high)
}

// Setup, phase and prices are legal, and so is the number given last.
fn are_terms_sound(t: Terms) -> bool
    ensures { result ≡ sound_terms t }
{
    if !is_mpv(t.m) {
        return false;
    }
    (t.k <= 100)
        & (is_between(1, TOP_STRIKE, t.strike)
            & ((t.phase <= 2)
                & (is_none_or_legal(t.m, t.bid)
                    & (is_none_or_legal(t.m, t.offer)
                        & ((t.underlying <= TOP_UNDERLYING) & (t.given <= LAST_NUMBER))))))
}

// Closed means nothing rests, halted means no quote rests.
fn is_phase_sound(phase: u32, count: usize, quoted: bool) -> bool
    ensures { result ≡ phase_with phase count quoted }
{
    if phase == 0 {
        return count == 0;
    }
    if phase == 2 {
        return !quoted;
    }
    true
}

// The test, for every series: of a sound one it answers what the pass over the book has seen, and none of any other.
pub fn check_series(s: Series) -> Option<Check>
    ensures { Tested s result }
{
    let t = s.terms;
    if !are_terms_sound(t) {
        return None;
    }
    let b = s.book;
    let check = check_book(b, t.m, t.given)?;
    if !is_phase_sound(t.phase, b.count, check.quoted) {
        return None;
    }
    Some(check)
}
