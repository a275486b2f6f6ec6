// The clauses on a single entry, in document 01's order. Most entries pass them all, so each failure returns at once.
ghost use Rattle.std.specs.Prelude.{◌≡◌, true};
ghost use Rattle.prices.specs.Step.{mpv};
ghost use Rattle.soundness_theory.specs.Sound.{numbered, kinded, partied, sized, priced_well, sound_entry, unused_entry};

use book::entries::{is_quote, kind_of, zero_entry};
use book::{Entry, Pricing};
use kinds::{is_dark, is_entering, is_sliding};
use prices::rest::is_slide;
use prices::step::is_legal;

fn is_numbered(given: u32, e: Entry) -> bool
    ensures { result ≡ numbered given e }
{
    (1 <= e.number) & (e.number <= given)
}

fn is_kinded(e: Entry) -> bool
    ensures { result ≡ kinded e }
{
    is_entering(kind_of(e))
}

// Quotes are makers'.
fn is_partied(e: Entry) -> bool
    ensures { result ≡ partied e }
{
    ((1 <= e.party) & (e.party <= 99)) & (!is_quote(e) | (e.party <= 16))
}

fn is_sized(m: u32, e: Entry) -> bool
    requires { mpv m ≡ true }
    ensures { result ≡ sized m e }
{
    is_legal(m, e.limit) & ((1 <= e.quantity) & (e.quantity <= 99999))
}

fn is_priced_well(m: u32, e: Entry) -> bool
    requires { mpv m ≡ true }
    ensures { result ≡ priced_well m e }
{
    let kind = kind_of(e);
    let p = e.pricing;
    match p {
        Pricing::Fixed => (!is_sliding(kind) & !is_dark(kind)) & (e.working == e.limit),
        Pricing::Dark => is_dark(kind) & (e.working == e.limit),
        Pricing::Sliding(d) => is_sliding(kind) & is_slide(m, e.sell, e.limit, d, e.working),
    }
}

pub fn is_sound_entry(m: u32, given: u32, e: Entry) -> bool
    requires { mpv m ≡ true }
    ensures { result ≡ sound_entry m given e }
{
    if !is_numbered(given, e) {
        return false;
    }
    if !is_kinded(e) {
        return false;
    }
    if !is_partied(e) {
        return false;
    }
    if !is_sized(m, e) {
        return false;
    }
    is_priced_well(m, e)
}

// Whether it is what stands in an unused place.
pub fn is_unused(e: Entry) -> bool
    ensures { result ≡ unused_entry e }
{
    e == zero_entry()
}
