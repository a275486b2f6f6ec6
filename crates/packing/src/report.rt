// Reports: 14 bytes each.
ghost use Rattle.std.specs.Prelude.{◌≡◌};
ghost use Rattle.packing.specs.Codec.{unpack_of, pack_of, answer_of};
ghost use Rattle.packing.specs.Report.{reports, widths, fields_of, claimed_by, said_by, nine_fields, tabled};

use crate::codec::{self, Packs};

// What happened to an entry: one case for each kind, in the order of the kinds' numbers 1 to 6.
#[derive(Clone, Copy)]
pub enum Report {
    Noted,
    Rejected {
        reason: u32,
        sell: bool,
        party: u32,
        entry: u32,
        limit: u32,
        quantity: u32,
    },
    Traded {
        sell: bool,
        party: u32,
        entry: u32,
        other: u32,
        price: u32,
        quantity: u32,
    },
    Rested {
        sell: bool,
        party: u32,
        entry: u32,
        display: u32,
        working: u32,
        quantity: u32,
    },
    Repriced {
        sell: bool,
        party: u32,
        entry: u32,
        display: u32,
        working: u32,
        quantity: u32,
    },
    Cancelled {
        reason: u32,
        sell: bool,
        party: u32,
        entry: u32,
        limit: u32,
        quantity: u32,
    },
}

// How many bytes one has.
pub const SIZE: usize = 14;

fn row(
    kind: u32,
    reason: u32,
    sell: bool,
    party: u32,
    entry: u32,
    other: u32,
    price: u32,
    second: u32,
    quantity: u32,
) -> [u32; 9]
    ensures { result ≡ nine_fields kind reason sell party entry other price second quantity }
{
    [
        kind,
        reason,
        u32::from(sell),
        party,
        entry,
        other,
        price,
        second,
        quantity,
    ]
}

// The nine fields of a report in their order, 0 for each that its kind does not name: what a program prints of it.
pub fn fields_of(report: Report) -> [u32; 9]
    ensures { result ≡ fields_of report }
{
    match report {
        Report::Noted => row(1, 0, false, 0, 0, 0, 0, 0, 0),
        Report::Rejected {
            reason,
            sell,
            party,
            entry,
            limit,
            quantity,
        } => row(2, reason, sell, party, entry, 0, limit, 0, quantity),
        Report::Traded {
            sell,
            party,
            entry,
            other,
            price,
            quantity,
        } => row(3, 0, sell, party, entry, other, price, 0, quantity),
        Report::Rested {
            sell,
            party,
            entry,
            display,
            working,
            quantity,
        } => row(4, 0, sell, party, entry, 0, display, working, quantity),
        Report::Repriced {
            sell,
            party,
            entry,
            display,
            working,
            quantity,
        } => row(5, 0, sell, party, entry, 0, display, working, quantity),
        Report::Cancelled {
            reason,
            sell,
            party,
            entry,
            limit,
            quantity,
        } => row(6, reason, sell, party, entry, 0, limit, 0, quantity),
    }
}

impl Packs<10, SIZE> for Report {
    ghost codec = { reports };

    ghost WIDTHS = { widths };

    // Kind, reason, side, party, entry, other entry, price, second, quantity, zero bits.
    const WIDTHS: [u8; 10] = [3, 5, 1, 7, 20, 20, 17, 17, 17, 5];

    // The nine fields and the zero bits behind them.
    fn code(self) -> [u32; 10] {
        let f = fields_of(self);
        [f[0], f[1], f[2], f[3], f[4], f[5], f[6], f[7], f[8], 0]
    }

    #[tactic(auto, unfolding(crate::specs::Report::by_kind))]
    fn claimed(xs: [u32; 10]) -> Option<Report>
        ensures { result ≡ claimed_by xs }
    {
        let reason = xs[1];
        let sell = xs[2] == 1;
        let party = xs[3];
        let entry = xs[4];
        let price = xs[6];
        let quantity = xs[8];
        match xs[0] {
            1 => Some(Report::Noted),
            2 => Some(Report::Rejected {
                reason,
                sell,
                party,
                entry,
                limit: price,
                quantity,
            }),
            3 => Some(Report::Traded {
                sell,
                party,
                entry,
                other: xs[5],
                price,
                quantity,
            }),
            4 => Some(Report::Rested {
                sell,
                party,
                entry,
                display: price,
                working: xs[7],
                quantity,
            }),
            5 => Some(Report::Repriced {
                sell,
                party,
                entry,
                display: price,
                working: xs[7],
                quantity,
            }),
            6 => Some(Report::Cancelled {
                reason,
                sell,
                party,
                entry,
                limit: price,
                quantity,
            }),
            _ => None,
        }
    }

    fn is_admitted(self) -> bool {
        true
    }

    ghost tabled = { tabled };
}

// The report of 14 bytes; nothing for bytes that are none.
pub fn unpack(bytes: &[u8]) -> Option<Report>
    ensures value { result ≡ unpack_of reports bytes.now }
    ensures result_value { said_by result ≡ answer_of reports (unpack_of reports bytes.now) }
{
    codec::unpack(bytes)
}

// The 14 bytes of a report; no bytes for one of which a field does not fit.
pub fn pack(report: Report) -> Option<[u8; SIZE]>
    ensures { result ≡ pack_of reports report }
{
    codec::pack(report)
}
