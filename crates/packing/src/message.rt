// Messages: 11 bytes each.
ghost use Rattle.std.specs.Prelude.{◌≡◌};
ghost use Rattle.packing.specs.Codec.{unpack_of, pack_of, answer_of};
ghost use Rattle.packing.specs.Message.{messages, widths, entering_code, claimed_by, message_at, said_by, tabled};

use crate::codec::{self, Packs};

// What a quote or an order says.
#[derive(Clone, Copy)]
pub struct Entering {
    pub party: u32,
    pub sell: bool,
    pub price: u32,
    pub quantity: u32,
}

// What a message says: one case for each kind, in the order of the kinds' numbers 1 to 12. The numbers are as the message holds
// them: whether they are in range is not asked here.
#[derive(Clone, Copy)]
pub enum Event {
    Plain(Entering),
    Mmlo(Entering),
    Mmalo(Entering),
    Mmrp(Entering),
    Displayed(Entering),
    Dark(Entering),
    CancelEntry { party: u32, entry: u32 },
    CancelQuote { party: u32, sell: bool },
    Away { bid: u32, offer: u32 },
    Underlying { price: u32 },
    Phase { phase: u32 },
    Enable { party: u32 },
}

// How many bytes one has.
pub const SIZE: usize = 11;

fn entering_code(kind: u32, t: Entering) -> [u32; 8]
    ensures { result ≡ entering_code kind t }
{
    [
        kind,
        t.party,
        u32::from(t.sell),
        t.price,
        t.quantity,
        0,
        0,
        0,
    ]
}

impl Packs<8, SIZE> for Event {
    ghost codec = { messages };

    ghost WIDTHS = { widths };

    // Kind, party, side, price, quantity, second price, entry, zero bits.
    const WIDTHS: [u8; 8] = [4, 7, 1, 17, 17, 17, 20, 5];

    fn code(self) -> [u32; 8] {
        match self {
            Event::Plain(t) => entering_code(1, t),
            Event::Mmlo(t) => entering_code(2, t),
            Event::Mmalo(t) => entering_code(3, t),
            Event::Mmrp(t) => entering_code(4, t),
            Event::Displayed(t) => entering_code(5, t),
            Event::Dark(t) => entering_code(6, t),
            Event::CancelEntry { party, entry } => [7, party, 0, 0, 0, 0, entry, 0],
            Event::CancelQuote { party, sell } => [8, party, u32::from(sell), 0, 0, 0, 0, 0],
            Event::Away { bid, offer } => [9, 0, 0, bid, 0, offer, 0, 0],
            Event::Underlying { price } => [10, 0, 0, price, 0, 0, 0, 0],
            Event::Phase { phase } => [11, 0, 0, 0, phase, 0, 0, 0],
            Event::Enable { party } => [12, party, 0, 0, 0, 0, 0, 0],
        }
    }

    #[tactic(auto, unfolding(crate::specs::Message::by_kind))]
    fn claimed(xs: [u32; 8]) -> Option<Event>
        ensures { result ≡ claimed_by xs }
    {
        let party = xs[1];
        let sell = xs[2] == 1;
        let price = xs[3];
        let quantity = xs[4];
        let t = Entering {
            party,
            sell,
            price,
            quantity,
        };
        match xs[0] {
            1 => Some(Event::Plain(t)),
            2 => Some(Event::Mmlo(t)),
            3 => Some(Event::Mmalo(t)),
            4 => Some(Event::Mmrp(t)),
            5 => Some(Event::Displayed(t)),
            6 => Some(Event::Dark(t)),
            7 => Some(Event::CancelEntry {
                party,
                entry: xs[6],
            }),
            8 => Some(Event::CancelQuote { party, sell }),
            9 => Some(Event::Away {
                bid: price,
                offer: xs[5],
            }),
            10 => Some(Event::Underlying { price }),
            11 => Some(Event::Phase { phase: quantity }),
            12 => Some(Event::Enable { party }),
            _ => None,
        }
    }

    // Whether values are in range is not asked here: that is refusal 2, 3 or 4.
    fn is_admitted(self) -> bool {
        true
    }

    ghost tabled = { tabled };
}

// The event of 11 bytes; nothing for bytes that are no message.
pub fn unpack(bytes: &[u8]) -> Option<Event>
    ensures value { result ≡ unpack_of messages bytes.now }
    ensures result_value { said_by result ≡ answer_of messages (unpack_of messages bytes.now) }
{
    codec::unpack(bytes)
}

// The event of the message that stands at a place of a run. That part of the run is handed on, and nothing is copied out.
pub fn unpack_at(run: &[u8], at: usize) -> Option<Event>
    ensures value { result ≡ unpack_of messages (message_at run.now at) }
    ensures result_value { said_by result ≡ answer_of messages (unpack_of messages (message_at run.now at)) }
{
    if run.len() < SIZE {
        return None;
    }
    if run.len() - SIZE < at {
        return None;
    }
    let end = at + SIZE;
    unpack(&run[at..end])
}

// The 11 bytes of an event; no bytes for one of which a field does not fit.
pub fn pack(event: Event) -> Option<[u8; SIZE]>
    ensures { result ≡ pack_of messages event }
{
    codec::pack(event)
}
