// The header: 28 bytes.
ghost use Rattle.std.specs.Prelude.{◌≡◌, map, ◌≤◌, length, take, drop, Some};
ghost use Rattle.packing.specs.Codec.{bytes_of, packs, unpack_of};
ghost use Rattle.series_buffer.specs.Header.{headers, widths, code_of, is_set, header_by, tabled};

use crate::Header;
use packing::codec::{self, Packs};
use terms::Terms;

// How many bytes it has.
pub const SIZE: usize = 28;

fn flags(xs: [u32; 27]) -> [bool; 16]
    ensures { result ≡ map is_set (drop 11 xs) }
{
    [
        xs[11] == 1,
        xs[12] == 1,
        xs[13] == 1,
        xs[14] == 1,
        xs[15] == 1,
        xs[16] == 1,
        xs[17] == 1,
        xs[18] == 1,
        xs[19] == 1,
        xs[20] == 1,
        xs[21] == 1,
        xs[22] == 1,
        xs[23] == 1,
        xs[24] == 1,
        xs[25] == 1,
        xs[26] == 1,
    ]
}

fn terms_by(xs: [u32; 27]) -> Terms
    ensures { result ≡ (header_by xs).terms }
{
    Terms {
        put: xs[8] == 1,
        exempt: xs[9] == 1,
        m: xs[0],
        k: xs[1],
        strike: xs[2],
        phase: xs[3],
        bid: xs[4],
        offer: xs[5],
        underlying: xs[6],
        given: xs[7],
    }
}

fn header_by(xs: [u32; 27]) -> Header
    ensures { result ≡ header_by xs }
{
    let terms = terms_by(xs);
    let count = xs[10];
    let blocked = flags(xs);
    Header {
        terms,
        count,
        blocked,
    }
}

impl Packs<27, SIZE> for Header {
    ghost codec = { headers };

    ghost WIDTHS = { widths };

    // M, K, strike, phase, away bid, away offer, underlying, given, put, exempt, count, then 16 makers.
    const WIDTHS: [u8; 27] = [
        8, 8, 32, 8, 32, 32, 32, 32, 8, 8, 8, 1, 1, 1, 1, 1, 1, 1, 1, 1, 1, 1, 1, 1, 1, 1, 1,
    ];

    fn code(self) -> [u32; 27] {
        let t = self.terms;
        let numbers = [
            t.m,
            t.k,
            t.strike,
            t.phase,
            t.bid,
            t.offer,
            t.underlying,
            t.given,
            u32::from(t.put),
            u32::from(t.exempt),
            self.count,
        ];
        let mut xs = [0; 27];
        xs[..11].copy_from_slice(&numbers);
        xs[11..].copy_from_slice(&self.blocked.map(u32::from));
        xs
    }

    fn claimed(xs: [u32; 27]) -> Option<Header>
        ensures { result ≡ Some (header_by xs) }
    {
        Some(header_by(xs))
    }

    // Whether the numbers are legal is not asked here: that is soundness.
    fn is_admitted(self) -> bool {
        true
    }

    ghost tabled = { tabled };
}

// The header of the first 28 bytes, if they are just its own.
pub fn unpack(s: &[u8]) -> Option<Header>
    requires { headers.size ≤ length s.now }
    ensures { result ≡ unpack_of headers (take headers.size s.now) }
{
    codec::unpack(&s[..SIZE])
}

// Whether each of its numbers fits its width.
pub fn fits(header: Header) -> bool
    ensures { result ≡ packs headers header }
{
    codec::fits(header)
}

// Writes the 28 bytes.
pub fn write(out: &mut [u8], header: Header)
    requires { length out.old ≡ headers.size }
    ensures { out.new ≡ bytes_of headers (code_of header) }
{
    codec::write_over(out, header)
}
