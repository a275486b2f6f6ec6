// Fields out of bytes.
ghost use Rattle.std.specs.Prelude.{◌≡◌, ◌≤◌, ◌<◌, ◌+◌, ◌-◌, ◌*◌, ◌/◌, ◌%◌, ◌^◌, length};
ghost use Rattle.bits.specs.Fields.{total, join, split, bytes, value, Narrow};

// The number that bytes make, most significant first.
fn load(part: &[u8]) -> u64
    requires { length part.now ≤ 8 }
    ensures { result ≡ value part.now }
{
    let mut acc: u64 = 0;
    for byte in part {
        acc = acc * 256 + u64::from(*byte);
    }
    acc
}

// Where the five bytes that end before `end` start, or 0. Five bytes hold any field of 32 bits, wherever in a byte it starts.
fn back(end: usize) -> usize
    ensures { result ≡ end - 5 }
{
    end.saturating_sub(5)
}

// The field of w bits that has `after` bits behind it in the first n bytes.
fn field(s: &[u8], n: usize, after: usize, w: usize) -> u32
    requires { (n ≤ length s.now) × (after + w ≤ 8 * n) × (w ≤ 32) }
    ensures { (result ≡ join (bytes n) s.now / 2 ^ after % 2 ^ w) × (result < 2 ^ w) }
{
    let end = n - after / 8;
    let start = back(end);
    let v = load(&s[start..end]);
    ((v >> (after % 8)) % (1 << w)) as u32
}

// Reads the fields of the widths ws out of the first n bytes of s. What stands behind those bytes is not looked at.
pub fn read_all(s: &[u8], n: usize, ws: &[u8], xs: &mut [u32])
    requires { (n ≤ 64) × (n ≤ length s.now) × (total ws.now ≡ 8 * n) × Narrow ws.now × (length xs.old ≡ length ws.now) }
    ensures { xs.new ≡ split ws.now (join (bytes n) s.now) }
{
    let mut after = 8 * n;
    for (j, width) in ws.iter().enumerate() {
        let w = usize::from(*width);
        after -= w;
        xs[j] = field(s, n, after, w);
    }
}
