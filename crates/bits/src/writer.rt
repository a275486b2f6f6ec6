// Fields into bytes. The bytes of a slice are one number, and a field is put at its end.
ghost use Rattle.std.specs.Prelude.{◌≡◌, ◌≤◌, ◌+◌, ◌*◌, ◌%◌, ◌^◌, length};
ghost use Rattle.bits.specs.Fields.{total, join, split, bytes, Bytes, value, Narrow};

// Moves the number that out's bytes make up by w bits and adds x. What no longer fits falls off at the front.
fn put(out: &mut [u8], w: usize, x: u32)
    requires { w ≤ 32 }
    ensures { (value out.new ≡ (value out.old * 2 ^ w + x) % 2 ^ (8 * length out.old)) × Bytes out.new }
{
    let m: u64 = 1 << w;
    let mut carry = u64::from(x);
    for i in (0..out.len()).rev() {
        let t = u64::from(out[i]) * m + carry;
        out[i] = (t % 256) as u8;
        carry = t / 256;
    }
}

// Writes the fields xs of the widths ws over all of out. What stood there before falls off at the front.
pub fn write_all(out: &mut [u8], ws: &[u8], xs: &[u32])
    requires { (total ws.now ≡ 8 * length out.old) × Narrow ws.now × (length xs.now ≡ length ws.now) }
    ensures { out.new ≡ split (bytes (length out.old)) (join ws.now xs.now) }
{
    for (w, x) in ws.iter().zip(xs) {
        put(out, usize::from(*w), *x);
    }
}
