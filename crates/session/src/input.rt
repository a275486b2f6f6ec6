// Standard input, read as it comes: what is at hand is used before more is waited for.
ghost use Rattle.std.specs.Prelude.{◌-◌, ◌≤◌, ◌≡◌, length, take, drop, IfOk};

use std::io;
use std::io::Read;

// Reads on until at least `wanted` bytes are held or the input ends, and answers how many are held. What was held stays in front.
pub(crate) fn fill(
    from: &mut impl Read,
    bytes: &mut [u8],
    count: usize,
    wanted: usize,
) -> io::Result<usize>
    requires { (count ≤ length bytes.old) × (length bytes.old ≤ 65536) }
    ensures held { IfOk result (λ held. (count ≤ held) × (held ≤ length bytes.new)) }
    ensures front { take count bytes.new ≡ take count bytes.old }
{
    let mut held = count;
    while held < wanted {
        let came = from.read(&mut bytes[held..])?;
        if came == 0 {
            break;
        }
        held += came;
    }
    Ok(held)
}

// Moves the bytes from `at` to `held` to the front, and answers how many they are.
pub(crate) fn keep(bytes: &mut [u8], at: usize, held: usize) -> usize
    requires { (at ≤ held) × (held ≤ length bytes.old) }
    ensures { (result ≡ held - at) × (take (held - at) bytes.new ≡ take (held - at) (drop at bytes.old)) }
{
    bytes.copy_within(at..held, 0);
    held - at
}
