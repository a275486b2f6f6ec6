// What an event asks, in one shape, and the entry that arrives by it.
ghost use Rattle.std.specs.Prelude.{◌≡◌, ◌≤◌};
ghost use Rattle.book.specs.Entries.{last_number};
ghost use Rattle.handler.specs.Asked.{ask_to_enter, ask_of};
ghost use Rattle.handler.specs.Accept.{comer};

use crate::Ask;
use book::{Entry, Pricing};
use packing::message::{Entering, Event};

// No field is named.
const NONE: Ask = Ask {
    kind: 0,
    party: 0,
    sell: false,
    price: 0,
    quantity: 0,
    second: 0,
    entry: 0,
};

// Kinds 1 to 6.
fn ask_to_enter(kind: u32, t: Entering) -> Ask
    ensures { result ≡ ask_to_enter kind t }
{
    Ask {
        kind,
        party: t.party,
        sell: t.sell,
        price: t.price,
        quantity: t.quantity,
        ..NONE
    }
}

// Document 01's number and fields for each case.
pub fn ask_of(event: Event) -> Ask
    ensures { result ≡ ask_of event }
{
    match event {
        Event::Plain(t) => ask_to_enter(1, t),
        Event::Mmlo(t) => ask_to_enter(2, t),
        Event::Mmalo(t) => ask_to_enter(3, t),
        Event::Mmrp(t) => ask_to_enter(4, t),
        Event::Displayed(t) => ask_to_enter(5, t),
        Event::Dark(t) => ask_to_enter(6, t),
        Event::CancelEntry { party, entry } => Ask {
            kind: 7,
            party,
            entry,
            ..NONE
        },
        Event::CancelQuote { party, sell } => Ask {
            kind: 8,
            party,
            sell,
            ..NONE
        },
        Event::Away { bid, offer } => Ask {
            kind: 9,
            price: bid,
            second: offer,
            ..NONE
        },
        Event::Underlying { price } => Ask {
            kind: 10,
            price,
            ..NONE
        },
        Event::Phase { phase } => Ask {
            kind: 11,
            quantity: phase,
            ..NONE
        },
        Event::Enable { party } => Ask {
            kind: 12,
            party,
            ..NONE
        },
    }
}

// The quote or order that arrives, with the next entry number.
pub fn comer_of(given: u32, ask: Ask) -> Entry
    requires given_le_last_number { given ≤ last_number }
    requires party_bound { ask.party ≤ 99 }
    requires kind_bound { ask.kind ≤ 15 }
    ensures { result ≡ comer given ask }
{
    let number = given + 1;
    let party = ask.party as u8;
    let kind = ask.kind as u8;
    Entry {
        number,
        party,
        kind,
        sell: ask.sell,
        limit: ask.price,
        quantity: ask.quantity,
        working: ask.price,
        pricing: Pricing::Fixed,
    }
}
