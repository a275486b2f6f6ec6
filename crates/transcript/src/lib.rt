// From the bytes that are held of a session's input to the lines that they give. Reading and writing are left to the programs.
#![tactic(auto)]

mod why_lines;

ghost use Rattle.std.specs.Prelude.{◌≡◌, length, ◌+◌, ◌≤◌, ◌<◌, min};
ghost use Rattle.std.proofs.lemmas.List.Edits.{sets};
ghost use Rattle.io.specs.Counts.{IsPrefixLen};
ghost use Rattle.packing.specs.Room.{room_size, most_reports};
ghost use Rattle.packing.specs.Message.{message_size};
ghost use Rattle.handler.specs.Handle.{answer_of, in_room};
ghost use Rattle.lines.specs.Lines.{answer_text};
ghost use Rattle.lines.specs.Buffer.{TextPut, longest_answer};
ghost use Rattle.transcript.specs.WhyLines.{Answers};
ghost use Rattle.transcript.specs.Transcript.{text_of};
ghost use Rattle.transcript.specs.Held.{setup_printed, refusal_told, begun, most_messages, holds_next, goes_on, Turned, held_told, told_by};

use board::board_lines;
use handler::Answer;
use handler::handle::handle_read;
use kinds::refusal::Refusal;
use lines::line::{LONGEST_ANSWER, answer_lines};
use packing::message::{Event, SIZE as MESSAGE, unpack_at};
use packing::report::SIZE as REPORT;
use packing::room::ROOM;
use packing::setup::SIZE as SETUP;
use series::Series;
use series::open::open_series;
use why_lines::why_lines;

// Numbers are given to fewer messages than this: no input is as long.
pub const MOST_MESSAGES: u64 = 1000000000000000000;

// What is told of each message: its reports, the book that it leaves, or why each report says what it says.
#[derive(Clone, Copy)]
pub enum View {
    Reports,
    Book,
    Why,
}

// What a setup gave: the series or the refusal, where the first message stands, and how much was printed.
#[derive(Clone, Copy)]
pub struct Begun {
    pub series: Result<Series, Refusal>,
    pub at: usize,
    pub used: usize,
}

// How far an input is told: the series, the next message's number and where it stands, and how much was printed.
#[derive(Clone, Copy)]
pub struct Told {
    pub series: Series,
    pub number: u64,
    pub at: usize,
    pub used: usize,
}

// The number to print for a setup's refusal, 0 for none.
fn refusal_told(made: Result<Series, Refusal>) -> u32
    ensures { result ≡ refusal_told made }
{
    match made {
        Ok(_) => 0,
        Err(why) => u32::from(why),
    }
}

// "a refused setup prints `0 refused 1`"; any other prints nothing.
pub fn tell_setup(held: &[u8], out: &mut [u8]) -> Begun
    ensures value { result ≡ begun held.now out.old }
    ensures out_after { out.new ≡ (setup_printed held.now out.old).1 }
    ensures at_in_bounds { (result.at ≤ length held.now) × IsPrefixLen result.used out.new }
{
    let room = [0u8; REPORT];
    let at = held.len().min(SETUP);
    let series = open_series(&held[..at]);
    let why = refusal_told(series);
    let used = answer_lines(out, 0, 0, why, 0, &room);
    Begun { series, at, used }
}

// Whether so many bytes hold a message that can be answered now: a short one only where the input has ended.
fn is_held(ended: bool, left: usize) -> bool
    ensures { result ≡ holds_next ended left }
{
    let needed = if ended { 1 } else { MESSAGE };
    needed <= left
}

// Whether a message is held, with room behind `used` for the longest answer, and has a number.
fn is_next(ended: bool, left: usize, size: usize, used: usize, number: u64) -> bool
    requires { used ≤ size }
    ensures { result ≡ goes_on ended left size used number }
{
    is_held(ended, left) && LONGEST_ANSWER <= size - used && number < MOST_MESSAGES
}

// Where the message behind the one at `at` stands; the end, behind a short one.
fn place_behind(at: usize, long: usize) -> usize
    requires { at ≤ long }
    ensures { result ≡ min (at + message_size) long }
{
    if long - at < MESSAGE {
        return long;
    }
    at + MESSAGE
}

// The lines of a message's reports, or of its refusal.
fn tell_reports(told: Told, answer: Result<Answer, Refusal>, room: &[u8], out: &mut [u8]) -> usize
    requires { ((answer_of told.series answer).count ≤ most_reports) × (told.used + longest_answer ≤ length out.old) }
    ensures text_put { TextPut out.old told.used
        (answer_text told.number (answer_of told.series answer).refusal (answer_of told.series answer).count room.now) out.new result }
    ensures upper_bound { result ≤ length out.new }
{
    match answer {
        Ok(answer) => answer_lines(out, told.used, told.number, 0, answer.count, room),
        Err(why) => answer_lines(out, told.used, told.number, u32::from(why), 0, room),
    }
}

// The series that a message leaves: as it was, where that is refused.
fn series_left(before: Series, answer: Result<Answer, Refusal>) -> Series
    ensures { result ≡ (answer_of before answer).series }
{
    match answer {
        Ok(answer) => answer.series,
        Err(_) => before,
    }
}

// What a view tells of a message's answer, with its reports in the room: its lines from `used` on. The message was put to the series of
// before, which `told` still has.
fn tell_answer(
    view: View,
    told: Told,
    read: Option<Event>,
    answer: Result<Answer, Refusal>,
    room: &[u8],
    out: &mut [u8],
) -> usize
    requires { Answers told.series read (answer_of told.series answer) × (told.used + longest_answer ≤ length out.old) }
    ensures text_put { TextPut out.old told.used
        (text_of view told.number told.series read (in_room (answer_of told.series answer) room.now)) out.new result }
    ensures upper_bound { result ≤ length out.new }
{
    match view {
        View::Reports => tell_reports(told, answer, room, out),
        View::Book => {
            let series = series_left(told.series, answer);
            board_lines(out, told.used, told.number, series.book)
        }
        View::Why => why_lines(out, told.used, told.number, told.series, read, answer, room),
    }
}

// One message: its lines from `used` on.
fn tell_next(view: View, told: Told, held: &[u8], room: &mut [u8], out: &mut [u8]) -> Told
    requires at_in_bounds { (told.at ≤ length held.now) × (told.number < most_messages) }
    requires room_size_in_bounds { (room_size ≤ length room.old) × (told.used + longest_answer ≤ length out.old) }
    ensures { Turned view held.now told out.old result out.new }
{
    let read = unpack_at(held, told.at);
    let answer = handle_read(told.series, read, room);
    let used = tell_answer(view, told, read, answer, room, out);
    let series = series_left(told.series, answer);
    Told {
        series,
        number: told.number + 1,
        at: place_behind(told.at, held.len()),
        used,
    }
}

// Answers the messages that are held from the first byte on, each once and in order, as long as the buffer has room for the longest answer,
// and tells of each what the view tells.
pub fn tell_held(
    view: View,
    start: Series,
    number: u64,
    held: &[u8],
    ended: bool,
    out: &mut [u8],
) -> Told
    ensures value { result ≡ told_by (held_told view start number held.now ended (length out.old)) }
    ensures out_after { out.new ≡ sets out.old 0 (held_told view start number held.now ended (length out.old)).text }
    ensures at_in_bounds { (result.at ≤ length held.now) × IsPrefixLen result.used out.new }
{
    let mut room = [0u8; ROOM];
    let mut told = Told {
        series: start,
        number,
        at: 0,
        used: 0,
    };
    while is_next(
        ended,
        held.len() - told.at,
        out.len(),
        told.used,
        told.number,
    ) {
        told = tell_next(view, told, held, &mut room, out);
    }
    told
}
