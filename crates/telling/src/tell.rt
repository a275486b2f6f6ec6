// The reports of what happens to an entry.
ghost use Rattle.std.specs.Prelude.{◌≡◌};
ghost use Rattle.telling.specs.Tell.{rejected, traded, rested, repriced, cancelled};

use book::Entry;
use book::entries::{display_of, party_of};
use packing::report::Report;

pub fn tell_rejected(why: u32, e: Entry) -> Report
    ensures { result ≡ rejected why e }
{
    let party = party_of(e);
    Report::Rejected {
        reason: why,
        sell: e.sell,
        party,
        entry: e.number,
        limit: e.limit,
        quantity: e.quantity,
    }
}

// A trade is at the resting entry's price.
pub fn tell_traded(taker: Entry, resting: Entry, quantity: u32) -> Report
    ensures { result ≡ traded taker resting quantity }
{
    let party = party_of(taker);
    Report::Traded {
        sell: taker.sell,
        party,
        entry: taker.number,
        other: resting.number,
        price: resting.working,
        quantity,
    }
}

pub fn tell_rested(e: Entry) -> Report
    ensures { result ≡ rested e }
{
    let party = party_of(e);
    let display = display_of(e);
    Report::Rested {
        sell: e.sell,
        party,
        entry: e.number,
        display,
        working: e.working,
        quantity: e.quantity,
    }
}

pub fn tell_repriced(e: Entry) -> Report
    ensures { result ≡ repriced e }
{
    let party = party_of(e);
    let display = display_of(e);
    Report::Repriced {
        sell: e.sell,
        party,
        entry: e.number,
        display,
        working: e.working,
        quantity: e.quantity,
    }
}

pub fn tell_cancelled(why: u32, e: Entry) -> Report
    ensures { result ≡ cancelled why e }
{
    let party = party_of(e);
    Report::Cancelled {
        reason: why,
        sell: e.sell,
        party,
        entry: e.number,
        limit: e.limit,
        quantity: e.quantity,
    }
}
