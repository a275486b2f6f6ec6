// A series in 1,590 bytes, for the test programs: M, K, strike, phase, away bid, away offer, underlying price and the last number given in 4
// bytes each, a byte each for put and exempt (1 is yes), 16 bytes for the makers (1 is blocked), and then the book (crate test_book_bytes).
// Nothing is judged: every picture is read, however damaged its series.
#![tactic(auto)]

ghost use Rattle.std.specs.Prelude.{◌≡◌, ◌≤◌, length};
ghost use Rattle.test_series_bytes.specs.Layout.{terms_in, blocked_in, series_in};

use series::Series;
use terms::Terms;
use test_book_bytes::book_of;
use test_reading::{byte_at, number_at};

fn terms_of(bytes: &[u8]) -> Terms
    ensures { result ≡ terms_in bytes.now }
{
    Terms {
        put: byte_at(bytes, 32) == 1,
        exempt: byte_at(bytes, 33) == 1,
        m: number_at(bytes, 0),
        k: number_at(bytes, 4),
        strike: number_at(bytes, 8),
        phase: number_at(bytes, 12),
        bid: number_at(bytes, 16),
        offer: number_at(bytes, 20),
        underlying: number_at(bytes, 24),
        given: number_at(bytes, 28),
    }
}

fn blocked_of(bytes: &[u8]) -> [bool; 16]
    ensures { result ≡ blocked_in bytes.now }
{
    let mut blocked = [false; 16];
    for i in 0..16usize {
        blocked[i] = byte_at(bytes, 34 + i) == 1;
    }
    blocked
}

// The series that these bytes picture.
pub fn series_of(bytes: &[u8]) -> Series
    requires { 50 ≤ length bytes.now }
    ensures { result ≡ series_in bytes.now }
{
    let terms = terms_of(bytes);
    let blocked = blocked_of(bytes);
    let book = book_of(&bytes[50..]);
    Series {
        terms,
        blocked,
        book,
    }
}
