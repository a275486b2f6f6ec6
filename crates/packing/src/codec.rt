// What packing has in common, whatever is packed: fields in bytes. What differs is a table: the widths, and which fields a thing has.
ghost use Rattle.std.specs.Prelude.{◌≡◌, length, ℕ, List};
ghost use Rattle.bits.specs.Fields.{Fit};
ghost use Rattle.packing.specs.Codec.{Codec, Layout, Tabled, FieldsRead, FieldsWritten, fields_read, fields_written};
ghost use Rattle.packing.specs.Codec.{thing_of, unpack_of, packs, bytes_of, pack_of};

// A sort of packed thing: N fields in SIZE bytes.
pub trait Packs<const N: usize, const SIZE: usize>: Sized + Copy {
    ghost codec: { Codec Self };

    // The widths of the fields, in bits.
    ghost WIDTHS: { List ℕ };

    const WIDTHS: [u8; N];

    // The fields of a thing: its case's number, the values that the case names, and 0 in the others.
    fn code(self) -> [u32; N]
        ensures { result ≡ codec.code self };

    // The thing that the case's number and the fields which it names say, of fields that fit their widths.
    fn claimed(xs: [u32; N]) -> Option<Self>
        requires { Fit WIDTHS xs }
        ensures { result ≡ codec.claimed xs.entry };

    // Whether its values are such as may be packed at all.
    fn is_admitted(self) -> bool
        ensures { result ≡ codec.admitted self };

    ghost tabled: { Tabled codec WIDTHS N SIZE };
}

// Reads the fields of the widths ws out of n bytes. Answers false, and leaves xs as it was, for bytes of another length.
pub fn read(s: &[u8], n: usize, ws: &[u8], xs: &mut [u32]) -> bool
    requires { Layout ws.now (length xs.old) n }
    ensures { FieldsRead s.now n ws.now xs.old result xs.new }
{
    if s.len() == n {
        bits::reader::read_all(s, n, ws, xs);
        true
    } else {
        false
    }
}

// The fields of the widths ws that n bytes hold, as a row of their own; none for bytes of another length.
pub fn read_row<const N: usize>(s: &[u8], n: usize, ws: [u8; N]) -> Option<[u32; N]>
    requires { Layout ws N n }
    ensures { result ≡ fields_read s.now n ws.entry }
{
    let mut xs = [0; N];
    if read(s, n, &ws, &mut xs) {
        Some(xs)
    } else {
        None
    }
}

// Writes the fields xs of the widths ws over all of out, if each fits its width and the thing that they say is admitted. Answers false,
// and leaves out as it was, otherwise.
pub fn write(out: &mut [u8], ws: &[u8], xs: &[u32], admitted: bool) -> bool
    requires { Layout ws.now (length xs.now) (length out.old) }
    ensures { FieldsWritten out.old ws.now xs.now admitted result out.new }
{
    let fits = bits::tests::fits(ws, xs);
    if fits & admitted {
        bits::writer::write_all(out, ws, xs);
        true
    } else {
        false
    }
}

// The bytes of the fields xs of the widths ws; none if one does not fit its width, or the thing that they say is not admitted.
pub fn write_row<const SIZE: usize>(ws: &[u8], xs: &[u32], admitted: bool) -> Option<[u8; SIZE]>
    requires { Layout ws.now (length xs.now) SIZE }
    ensures { result ≡ fields_written SIZE ws.now xs.now admitted }
{
    let mut out = [0; SIZE];
    if write(&mut out, ws, xs, admitted) {
        Some(out)
    } else {
        None
    }
}

// The thing that the fields say, if they are just its fields and it is admitted.
fn thing_of<T: Packs<N, SIZE>, const N: usize, const SIZE: usize>(xs: [u32; N]) -> Option<T>
    requires { Fit T.WIDTHS xs }
    ensures { result ≡ thing_of T.codec xs.entry }
{
    let thing = T::claimed(xs)?;
    let ys = thing.code();
    if bits::tests::same(&ys, &xs) & thing.is_admitted() {
        Some(thing)
    } else {
        None
    }
}

// The thing of SIZE bytes; none for bytes that are none.
pub fn unpack<T: Packs<N, SIZE>, const N: usize, const SIZE: usize>(bytes: &[u8]) -> Option<T>
    ensures { result ≡ unpack_of T.codec bytes.now }
{
    thing_of(read_row(bytes, SIZE, T::WIDTHS)?)
}

// The bytes of a thing; none for one of which a field does not fit, or that is not admitted.
pub fn pack<T: Packs<N, SIZE>, const N: usize, const SIZE: usize>(thing: T) -> Option<[u8; SIZE]>
    ensures { result ≡ pack_of T.codec thing }
{
    let xs = thing.code();
    write_row(&T::WIDTHS, &xs, thing.is_admitted())
}

// Whether a thing packs: whether each of its fields fits its width, and it is admitted.
pub fn fits<T: Packs<N, SIZE>, const N: usize, const SIZE: usize>(thing: T) -> bool
    ensures { result ≡ packs T.codec thing }
{
    let xs = thing.code();
    bits::tests::fits(&T::WIDTHS, &xs) & thing.is_admitted()
}

// Writes a thing over SIZE bytes. Whether it packs is not asked: the upper bits of a field that does not fit go to the field before it.
pub fn write_over<T: Packs<N, SIZE>, const N: usize, const SIZE: usize>(out: &mut [u8], thing: T)
    requires { length out.old ≡ SIZE }
    ensures { out.new ≡ bytes_of T.codec (T.codec.code thing) }
{
    let xs = thing.code();
    bits::writer::write_all(out, &T::WIDTHS, &xs)
}
