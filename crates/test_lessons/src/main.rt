// Plays every lesson of a bundle, one after the other, and prints under each one's name what the session program prints for it. The bundle
// is what tests/bundle.py writes: of each lesson the length of its name and the name, a byte for what is to be seen (1 for the book, 2 for the
// reasons, else the reports), the length of its bytes and the bytes. A length is four bytes, most significant first.
#![tactic(auto)]

ghost use Rattle.std.specs.Prelude.{◌-◌, ◌≤◌, length};

use lines::line::LONGEST_ANSWER;
use series::Series;
use std::io;
use test_reading::input::read_full;
use transcript::{View, tell_held, tell_setup};

// Tells the messages, as far as there is room for their lines, and writes these out, until all are told.
fn tell_messages(
    rt: &impl Print,
    view: View,
    start: Series,
    run: &[u8],
    out: &mut [u8],
) -> io::Result<()> {
    let mut series = start;
    let mut number: u64 = 1;
    let mut left = run;
    while !left.is_empty() {
        let told = tell_held(view, series, number, left, true, out);
        rt.write_all(&out[..told.used])?;
        if told.at == 0 {
            break;
        }
        series = told.series;
        number = told.number;
        left = &left[told.at..];
    }
    Ok(())
}

fn play(rt: &impl Print, view: View, run: &[u8], out: &mut [u8]) -> io::Result<()> {
    let begun = tell_setup(run, out);
    rt.write_all(&out[..begun.used])?;
    let Ok(series) = begun.series else {
        return Ok(());
    };
    tell_messages(rt, view, series, &run[begun.at..], out)
}

// The part whose length stands in front, and what is behind it. Neither goes beyond the bundle's end.
fn next_part(bundle: &[u8]) -> (&[u8], &[u8])
    ensures { length result.1.now ≤ length bundle.now - 1 }
{
    let Some((long, rest)) = bundle.split_first_chunk::<4>() else {
        return (&[], &[]);
    };
    let long = u32::from_be_bytes(*long) as usize;
    rest.split_at(long.min(rest.len()))
}

fn print_name(rt: &impl Print, name: &[u8]) -> io::Result<()> {
    rt.print("== ")?;
    rt.write_all(name)?;
    rt.print("\n")
}

// What a byte asks to see.
fn view_of(byte: u8) -> View {
    match byte {
        1 => View::Book,
        2 => View::Why,
        _ => View::Reports,
    }
}

// What the byte in front asks to see, and what is behind it.
fn next_view(bundle: &[u8]) -> (View, &[u8])
    ensures { length result.1.now ≤ length bundle.now }
{
    match bundle.split_first() {
        Some((byte, rest)) => (view_of(*byte), rest),
        None => (View::Reports, bundle),
    }
}

fn play_all(rt: &impl Print, bundle: &[u8], out: &mut [u8]) -> io::Result<()> {
    let mut left = bundle;
    while !left.is_empty() {
        let (name, rest) = next_part(left);
        print_name(rt, name)?;
        let (view, rest) = next_view(rest);
        let (lesson, rest) = next_part(rest);
        play(rt, view, lesson, out)?;
        left = rest;
    }
    Ok(())
}

fn main(rt: HostRuntime) -> io::Result<()> {
    let mut bundle = [0u8; 262144];
    let mut out = [0u8; 2 * LONGEST_ANSWER];
    let n = read_full(&mut rt.stdin(), &mut bundle)?;
    play_all(&rt, &bundle[..n], &mut out)
}
