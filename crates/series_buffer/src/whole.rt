// A whole series.
ghost use Rattle.std.specs.Prelude.{◌≡◌, ◌<◌, length};
ghost use Rattle.series_buffer.specs.State.{state_size, header_of, series_of, unpack_series, series_bytes, is_stored, buffer_after};

use crate::{Header, head, places};
use book::{Book, Entry};
use series::Series;

// How many bytes a series has.
pub const SIZE: usize = head::SIZE + places::ALL;

fn series_of(h: Header, entries: [Entry; 64]) -> Series
    ensures { result ≡ series_of h entries }
{
    let terms = h.terms;
    let blocked = h.blocked;
    let count = h.count as usize;
    let book = Book { entries, count };
    Series {
        terms,
        blocked,
        book,
    }
}

// The series that a buffer holds, or none.
pub fn unpack_series(bytes: &[u8]) -> Option<Series>
    ensures { result ≡ unpack_series bytes.now }
{
    if bytes.len() != SIZE {
        return None;
    }
    let h = head::unpack(bytes)?;
    let entries = places::unpack_all(&bytes[head::SIZE..])?;
    let series = series_of(h, entries);
    Some(series)
}

fn header_of(s: Series) -> Header
    requires { s.book.count < 4294967296 }
    ensures { result ≡ header_of s }
{
    let terms = s.terms;
    let blocked = s.blocked;
    let book = s.book;
    let count = book.count as u32;
    Header {
        terms,
        count,
        blocked,
    }
}

// Writes the 1,564 bytes of a series.
fn write(out: &mut [u8], h: Header, entries: [Entry; 64])
    requires { length out.old ≡ state_size }
    ensures { out.new ≡ series_bytes (series_of h entries) }
{
    head::write(&mut out[..head::SIZE], h);
    places::write_all(&mut out[head::SIZE..], entries);
}

// Puts a series into a buffer. Answers false, and leaves the buffer as it was, where that is of another length or a number does not fit.
pub fn pack_series(series: Series, out: &mut [u8]) -> bool
    ensures { (result ≡ is_stored out.old series) × (out.new ≡ buffer_after out.old series) }
{
    if out.len() != SIZE {
        return false;
    }
    let book = series.book;
    if 255 < book.count {
        return false;
    }
    let h = header_of(series);
    if !head::fits(h) {
        return false;
    }
    let entries = book.entries;
    if !places::all_fit(entries) {
        return false;
    }
    write(out, h, entries);
    true
}
