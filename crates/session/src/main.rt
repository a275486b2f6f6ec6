// The session program: a setup and then messages on standard input, each message's reports on standard output, in decimal; or, where its
// argument is `book`, the book that each leaves, or, where it is `why`, why each report says what it says. What is printed for the bytes that
// are held is crate `transcript`'s; here they are read, and the lines are written.
#![tactic(auto)]

mod input;

ghost use Rattle.std.specs.Prelude.{◌-◌, ◌≤◌, ◌≡◌, length, take, drop, IfOk};
ghost use Rattle.io.specs.Counts.{IsPrefixLen};
ghost use Rattle.lines.specs.Buffer.{longest_answer};

use input::{fill, keep};
use lines::line::LONGEST_ANSWER;
use packing::message::SIZE as MESSAGE;
use packing::setup::SIZE as SETUP;
use series::Series;
use std::env::{Env, FillError};
use std::io::Read;
use std::{fmt, io};
use transcript::{MOST_MESSAGES, View, tell_held, tell_setup};

// What ended a session before its input was over.
#[derive(Debug, Drop)]
enum Broken {
    Input(io::Error),
    Output(io::Error),
}

impl fmt::Display for Broken {
    fn fmt<W: fmt::Write>(&self, f: &mut fmt::Formatter<W>) -> fmt::Result {
        match self {
            Broken::Input(why) => write!(f, "standard input: {why}"),
            Broken::Output(why) => write!(f, "standard output: {why}"),
        }
    }
}

// Reads on until so many bytes are held, or the input is over.
fn read_on(
    from: &mut impl Read,
    input: &mut [u8],
    held: usize,
    wanted: usize,
) -> Result<usize, Broken>
    requires { (held ≤ length input.old) × (length input.old ≤ 65536) }
    ensures held { IfOk result (λ now. IsPrefixLen now input.new) }
    ensures front { take held input.new ≡ take held input.old }
{
    fill(from, input, held, wanted).map_err(Broken::Input)
}

// Writes what is held of the output.
fn write_out(rt: &impl Print, out: &[u8], used: usize) -> Result<(), Broken>
    requires { used ≤ length out.now }
{
    rt.write_all(&out[..used]).map_err(Broken::Output)
}

// Keeps what is not yet answered, from `at` to `held`, and reads on for the next message. Answers how many bytes are held: none where the
// input is over.
fn ready(from: &mut impl Read, input: &mut [u8], at: usize, held: usize) -> Result<usize, Broken>
    requires { (at ≤ held) × (held ≤ length input.old) × (length input.old ≤ 65536) }
    ensures held { IfOk result (λ now. IsPrefixLen now input.new) }
    ensures front { take (held - at) input.new ≡ take (held - at) (drop at input.old) }
{
    let left = keep(input, at, held);
    read_on(from, input, left, MESSAGE)
}

// Tells what is held, as far as there is room, and writes it out before more input is waited for, until the input is over and all is told.
// The first message stands at `first`, and `count` bytes are held.
fn run(
    rt: &impl Print,
    from: &mut impl Read,
    view: View,
    start: Series,
    input: &mut [u8],
    first: usize,
    count: usize,
    out: &mut [u8],
) -> Result<(), Broken>
    requires { (first ≤ count) × (count ≤ length input.old) × (length input.old ≤ 65536) × (longest_answer ≤ length out.old) }
{
    let mut series = start;
    let mut number: u64 = 1;
    let mut at = first;
    let mut held = count;
    while number < MOST_MESSAGES {
        held = ready(from, input, at, held)?;
        if held == 0 {
            break;
        }
        let told = tell_held(view, series, number, &input[..held], held < MESSAGE, out);
        write_out(rt, out, told.used)?;
        series = told.series;
        number = told.number;
        at = told.at;
    }
    Ok(())
}

// The setup, and then the messages.
fn play(
    rt: &impl Print,
    from: &mut impl Read,
    view: View,
    input: &mut [u8],
    out: &mut [u8],
) -> Result<(), Broken>
    requires { (length input.old ≤ 65536) × (longest_answer ≤ length out.old) }
{
    let count = read_on(from, input, 0, SETUP)?;
    let begun = tell_setup(&input[..count], out);
    let Ok(series) = begun.series else {
        return write_out(rt, out, begun.used);
    };
    run(rt, from, view, series, input, begun.at, count, out)
}

fn begin(rt: &impl Print, from: &mut impl Read, view: View) -> Result<(), Broken> {
    let mut input = [0u8; 65536];
    let mut out = [0u8; 2 * LONGEST_ANSWER];
    play(rt, from, view, &mut input, &mut out)
}

// `book` asks for the book, and `why` for the reasons.
fn asked_by(word: &[u8]) -> Option<View> {
    match word {
        b"book" => Some(View::Book),
        b"why" => Some(View::Why),
        _ => None,
    }
}

// What the program's argument asks to see; no argument asks for the reports.
fn view_asked(rt: &impl Env) -> Option<View> {
    let mut word = [0u8; 16];
    match rt.arg(1, &mut word) {
        Ok(long) => asked_by(&word[..long]),
        Err(FillError::NotPresent) => Some(View::Reports),
        Err(FillError::TooLong) => None,
    }
}

// Where a read or a write fails, it says so, and what was printed is not passed off as whole.
fn main(rt: HostRuntime) -> io::Result<()> {
    let Some(view) = view_asked(&rt) else {
        return eprintln!(rt;
            "session: what can be asked for is the book, by `book`, the reasons, by `why`, and the reports, by nothing"
        );
    };
    if let Err(why) = begin(&rt, &mut rt.stdin(), view) {
        let _ = eprintln!(rt; "session: {why}");
    }
    Ok(())
}
