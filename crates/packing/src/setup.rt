// Setup: 4 bytes that say what series it is.
ghost use Rattle.std.specs.Prelude.{◌≡◌};
ghost use Rattle.packing.specs.Codec.{unpack_of, pack_of, answer_of};
ghost use Rattle.packing.specs.Setup.{setups, widths, claimed_by, legal_setup, said_by, tabled};

use crate::codec::{self, Packs};

#[derive(Clone, Copy)]
pub struct Setup {
    pub put: bool,
    pub exempt: bool,
    pub m: u32,
    pub k: u32,
    pub strike: u32,
}

// How many bytes one has.
pub const SIZE: usize = 4;

// The largest strike.
pub const TOP_STRIKE: u32 = 100000;

fn is_legal(s: Setup) -> bool
    ensures { result ≡ legal_setup s }
{
    ((s.m == 1) | (s.m == 5)) & ((s.k <= 100) & ((1 <= s.strike) & (s.strike <= TOP_STRIKE)))
}

impl Packs<6, SIZE> for Setup {
    ghost codec = { setups };

    ghost WIDTHS = { widths };

    // Put, exempt, M, K, strike, zero bits.
    const WIDTHS: [u8; 6] = [1, 1, 4, 7, 17, 2];

    fn code(self) -> [u32; 6] {
        [
            u32::from(self.put),
            u32::from(self.exempt),
            self.m,
            self.k,
            self.strike,
            0,
        ]
    }

    fn claimed(xs: [u32; 6]) -> Option<Setup>
        ensures { result ≡ claimed_by xs }
    {
        Some(Setup {
            put: xs[0] == 1,
            exempt: xs[1] == 1,
            m: xs[2],
            k: xs[3],
            strike: xs[4],
        })
    }

    fn is_admitted(self) -> bool {
        is_legal(self)
    }

    ghost tabled = { tabled };
}

// The setup of 4 bytes; nothing for bytes that are none, or whose values are not legal.
pub fn unpack(bytes: &[u8]) -> Option<Setup>
    ensures value { result ≡ unpack_of setups bytes.now }
    ensures result_value { said_by result ≡ answer_of setups (unpack_of setups bytes.now) }
{
    codec::unpack(bytes)
}

// The 4 bytes of a setup; no bytes for one that is not legal.
pub fn pack(setup: Setup) -> Option<[u8; SIZE]>
    ensures { result ≡ pack_of setups setup }
{
    codec::pack(setup)
}
