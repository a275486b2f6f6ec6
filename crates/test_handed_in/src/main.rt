// Hands the handler states that no recorded session reaches: sound and not settled, or unsound, with too little room or with the entry
// numbers used up. Prints for each the answer, whether the lent room is as it was behind the reports, and the series afterwards.
//
// tests/handed_in.py writes the cases, and what must be printed. A case is 1,614 bytes: the series (crate test_series_bytes), the lengths of
// the room and of the message in 4 bytes each, and 16 bytes that hold the message from the front.
#![tactic(auto)]

mod room;
mod tell;

ghost use Rattle.std.specs.Prelude.{◌≤◌, ◌≡◌, length};
ghost use Rattle.test_handed_in.specs.Case.{length_at};

use handler::handle::handle;
use lines::line::{LONGEST_ANSWER, answer_lines};
use std::io;
use test_reading::input::next_record;
use test_reading::number_at;
use test_series_bytes::series_of;

const CASE: usize = 1614;

// The length that stands at a place, and `most` for a longer one.
fn length_at(bytes: &[u8], at: usize, most: usize) -> usize
    ensures { (result ≡ length_at bytes.now at most) × (result ≤ most) }
{
    (number_at(bytes, at) as usize).min(most)
}

// What the session program prints for this answer to message `number`.
fn tell_answer(
    rt: &impl Print,
    out: &mut [u8],
    number: u64,
    refusal: u32,
    count: usize,
    room: &[u8],
) -> io::Result<()> {
    let end = answer_lines(out, 0, number, refusal, count, room);
    rt.write_all(&out[..end])
}

// A case, with its room.
fn try_with(
    rt: &impl Print,
    bytes: &[u8],
    number: u64,
    room: &mut [u8],
    out: &mut [u8],
) -> io::Result<()>
    requires { length bytes.now ≡ 1614 }
{
    let end = 1598 + length_at(bytes, 1594, 16);
    let before = series_of(bytes);
    let (refusal, count, after) = match handle(before, &bytes[1598..end], room) {
        Ok(answer) => (0, answer.count, answer.series),
        Err(why) => (u32::from(why), 0, before),
    };
    tell_answer(rt, out, number, refusal, count, room)?;
    room::tell_room(rt, room, count)?;
    tell::tell_series(rt, after)
}

// Before it is handed to the handler, the room holds nothing but the filling.
fn try_case(rt: &impl Print, bytes: &[u8], number: u64, out: &mut [u8]) -> io::Result<()>
    requires { length bytes.now ≡ 1614 }
{
    let mut room = [165u8; 40000];
    let size = length_at(bytes, 1590, 40000);
    try_with(rt, bytes, number, &mut room[..size], out)
}

// As many cases as there are, and 1,000 at most.
fn main(rt: HostRuntime) -> io::Result<()> {
    let mut input = rt.stdin();
    let mut out = [0u8; LONGEST_ANSWER];
    for number in 1..1001u64 {
        let Some(bytes) = next_record::<CASE, _>(&mut input)? else {
            break;
        };
        try_case(&rt, &bytes, number, &mut out)?;
    }
    Ok(())
}
