// Tests of rows of fields.
ghost use Rattle.std.specs.Prelude.{◌≡◌, length};
ghost use Rattle.bits.specs.Fields.{Narrow, all_fit, equal};

// Whether two rows of fields are the same. Not by `==`, which calls a function for each field.
pub fn same(a: &[u32], b: &[u32]) -> bool
    requires { length a.now ≡ length b.now }
    ensures { result ≡ equal a.now b.now }
{
    for (x, y) in a.iter().zip(b) {
        if *x != *y {
            return false;
        }
    }
    true
}

// Whether each field fits its width.
pub fn fits(ws: &[u8], xs: &[u32]) -> bool
    requires { Narrow ws.now × (length xs.now ≡ length ws.now) }
    ensures { result ≡ all_fit ws.now xs.now }
{
    for (w, x) in ws.iter().zip(xs) {
        let bound: u64 = 1 << *w;
        if bound <= u64::from(*x) {
            return false;
        }
    }
    true
}
