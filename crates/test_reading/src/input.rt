// Input that is read until a part of it is whole.
ghost use Rattle.std.specs.Prelude.{◌<◌, length, take, IfOk, IfSome, IsNone};
ghost use Rattle.std.specs.Io.{ReadsAtMost};
ghost use Rattle.std.specs.Io.KnownBytes.{Consumes, IsAtEnd};

use std::io;
use std::io::Read;

// Reads until the bytes are full or the input ends, and answers how many came; these are the next ones of the input, and fewer than asked for
// only where no more are left.
pub fn read_full<R: Read>(input: &mut R, bytes: &mut [u8]) -> io::Result<usize>
    ensures in_bounds { ReadsAtMost result bytes.new }
    ensures next { IfOk result (λ n. Consumes (R.remaining input.old) (R.remaining input.new) (take n bytes.new)) }
    ensures whole { IfOk result (λ n. n < length bytes.new → IsAtEnd (R.remaining input.new)) }
{
    let mut done = 0usize;
    while done < bytes.len() {
        let came = input.read(&mut bytes[done..])?;
        if came == 0 {
            break;
        }
        done += came;
    }
    Ok(done)
}

// The next record of the input, whole; none where fewer bytes than that are left.
pub fn next_record<const N: usize, R: Read>(input: &mut R) -> io::Result<Option<[u8; N]>>
    ensures whole { IfOk result
        (λ next. IfSome next (λ bytes. Consumes (R.remaining input.old) (R.remaining input.new) bytes)) }
    ensures over { IfOk result (λ next. IsNone next → IsAtEnd (R.remaining input.new)) }
{
    let mut bytes = [0u8; N];
    let came = read_full(input, &mut bytes)?;
    if came < N {
        return Ok(None);
    }
    Ok(Some(bytes))
}
