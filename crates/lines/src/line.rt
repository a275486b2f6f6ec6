// What is printed for a message, put into a buffer where that has room for it.
ghost use Rattle.io.specs.Counts.{IsPrefixLen};
ghost use Rattle.std.specs.Prelude.{◌≡◌};
ghost use Rattle.lines.specs.Lines.{lines_of};
ghost use Rattle.lines.specs.Buffer.{roomy, answer_printed};

use crate::text::Text;
use packing::room::MOST_REPORTS;

// The most bytes that a line has, and a message's lines together.
const LINE: usize = 120;

pub const LONGEST_ANSWER: usize = MOST_REPORTS * LINE;

// Whether a buffer of so many bytes has room for so many lines from `at` on.
pub fn is_roomy(size: usize, at: usize, lines: usize) -> bool
    ensures { result ≡ roomy size at lines }
{
    if size < at {
        return false;
    }
    lines <= (size - at) / LINE
}

// How many lines a message's answer has at the most.
fn lines_of(refusal: u32, count: usize) -> usize
    ensures { result ≡ lines_of refusal count }
{
    if refusal == 0 { count } else { 1 }
}

// What is printed for message `number`: its refusal, or a line for each of the first `count` reports of the room. Answers where it ends;
// where the buffer may be too short for it, the buffer stays as it was, and the answer is 0.
pub fn answer_lines(
    out: &mut [u8],
    at: usize,
    number: u64,
    refusal: u32,
    count: usize,
    room: &[u8],
) -> usize
    ensures value { result ≡ (answer_printed out.old at number refusal count room.now).0 }
    ensures out_after { out.new ≡ (answer_printed out.old at number refusal count room.now).1 }
    ensures prefix_len { IsPrefixLen result out.new }
{
    if !is_roomy(out.len(), at, lines_of(refusal, count)) {
        return 0;
    }
    let mut text = Text { out, end: at };
    text.answer(number, refusal, count, room);
    text.end
}
