// Numbers that stand in bytes, for the test programs: most significant byte first.
#![tactic(auto)]

pub mod input;

ghost use Rattle.std.specs.Prelude.{◌≡◌};
ghost use Rattle.test_reading.specs.Number.{byte_at, number_at};

// The byte at a place, 0 beyond the end.
pub fn byte_at(bytes: &[u8], at: usize) -> u8
    ensures { result ≡ byte_at bytes.now at }
{
    bytes.get(at).copied().unwrap_or(0)
}

// The number that the four bytes at a place make, 0 where fewer than four are left.
pub fn number_at(bytes: &[u8], at: usize) -> u32
    ensures { result ≡ number_at bytes.now at }
{
    let Some([a, b, c, d, ..]) = bytes.get(at..) else {
        return 0;
    };
    u32::from_be_bytes([*a, *b, *c, *d])
}
