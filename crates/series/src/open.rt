// A series from its setup.
ghost use Rattle.std.specs.Prelude.{◌≡◌};
ghost use Rattle.packing.specs.Codec.{unpack_of};
ghost use Rattle.packing.specs.Setup.{setups};
ghost use Rattle.series.specs.Series.{new_series, opened};

use crate::Series;
use book::change::empty;
use kinds::refusal::Refusal;
use packing::setup::{Setup, unpack};
use terms::Terms;

fn new_terms(s: Setup) -> Terms
    ensures { result ≡ (new_series s).terms }
{
    Terms {
        put: s.put,
        exempt: s.exempt,
        m: s.m,
        k: s.k,
        strike: s.strike,
        phase: 0,
        bid: 0,
        offer: 0,
        underlying: 0,
        given: 0,
    }
}

// Closed, empty, unblocked, with no away or underlying price.
pub fn new_series(s: Setup) -> Series
    ensures { result ≡ new_series s }
{
    let terms = new_terms(s);
    let blocked = [false; 16];
    let book = empty();
    Series {
        terms,
        blocked,
        book,
    }
}

// The series that these bytes set up; none is refused as no setup.
pub fn open_series(setup: &[u8]) -> Result<Series, Refusal>
    ensures { result ≡ opened (unpack_of setups setup.now) }
{
    let Some(s) = unpack(setup) else {
        return Err(Refusal::Nothing);
    };
    let series = new_series(s);
    Ok(series)
}
