// What bytes unpack to, and whether that packs to the same bytes again.
use crate::text::{print_all, print_bytes, stands};
use packing::message::{Entering, Event};
use packing::report::Report;
use packing::setup::Setup;
use std::io;
use test_reading::number_at;

fn print_same(rt: &impl Print, same: bool) -> io::Result<()> {
    rt.print(if same { " same" } else { " other" })
}

fn of_entering(kind: u32, t: Entering) -> [u32; 5] {
    [kind, t.party, u32::from(t.sell), t.price, t.quantity]
}

// An event's kind and values.
fn numbers(e: Event) -> [u32; 5] {
    match e {
        Event::Plain(t) => of_entering(1, t),
        Event::Mmlo(t) => of_entering(2, t),
        Event::Mmalo(t) => of_entering(3, t),
        Event::Mmrp(t) => of_entering(4, t),
        Event::Displayed(t) => of_entering(5, t),
        Event::Dark(t) => of_entering(6, t),
        Event::CancelEntry { party, entry } => [7, party, entry, 0, 0],
        Event::CancelQuote { party, sell } => [8, party, u32::from(sell), 0, 0],
        Event::Away { bid, offer } => [9, bid, offer, 0, 0],
        Event::Underlying { price } => [10, price, 0, 0, 0],
        Event::Phase { phase } => [11, phase, 0, 0, 0],
        Event::Enable { party } => [12, party, 0, 0, 0],
    }
}

// What a message that stands at a place of a run unpacked to.
fn tell_message(rt: &impl Print, u: Option<Event>, run: &[u8], at: usize) -> io::Result<()> {
    let Some(e) = u else {
        return rt.print(" nothing");
    };
    print_all(rt, &numbers(e))?;
    print_same(
        rt,
        packing::message::pack(e).is_some_and(|bytes| stands(&bytes, run, at)),
    )
}

pub(crate) fn message(rt: &impl Print, part: &[u8]) -> io::Result<()> {
    rt.print("message")?;
    let u = packing::message::unpack(part);
    tell_message(rt, u, part, 0)
}

// The first byte is the place, and the others are the run.
pub(crate) fn in_run(rt: &impl Print, part: &[u8]) -> io::Result<()> {
    rt.print("run")?;
    if part.is_empty() {
        return Ok(());
    }
    let at = usize::from(part[0]);
    let run = &part[1..];
    let u = packing::message::unpack_at(run, at);
    tell_message(rt, u, run, at)
}

pub(crate) fn report(rt: &impl Print, part: &[u8]) -> io::Result<()> {
    rt.print("report")?;
    let Some(r) = packing::report::unpack(part) else {
        return rt.print(" nothing");
    };
    print_all(rt, &packing::report::fields_of(r))?;
    print_same(
        rt,
        packing::report::pack(r).is_some_and(|bytes| stands(&bytes, part, 0)),
    )
}

pub(crate) fn setup(rt: &impl Print, part: &[u8]) -> io::Result<()> {
    rt.print("setup")?;
    let Some(s) = packing::setup::unpack(part) else {
        return rt.print(" nothing");
    };
    print_all(
        rt,
        &[u32::from(s.put), u32::from(s.exempt), s.m, s.k, s.strike],
    )?;
    print_same(
        rt,
        packing::setup::pack(s).is_some_and(|bytes| stands(&bytes, part, 0)),
    )
}

// Writes a report at a place of a room, and prints what the room then holds.
fn print_put(rt: &impl Print, room: &mut [u8], at: usize, r: Report) -> io::Result<()> {
    if packing::room::put_report(room, at, r) {
        rt.print(" put ")?;
    } else {
        rt.print(" left ")?;
    }
    print_bytes(rt, room)
}

// The same, with a room of n bytes.
fn print_put_first(
    rt: &impl Print,
    room: &mut [u8],
    n: usize,
    at: usize,
    r: Report,
) -> io::Result<()> {
    if n <= room.len() {
        print_put(rt, &mut room[..n], at, r)?;
    }
    Ok(())
}

// The first byte is the room's length, the second the place, and the others are the report.
pub(crate) fn in_room(rt: &impl Print, part: &[u8]) -> io::Result<()> {
    rt.print("room")?;
    if part.len() < 2 {
        return Ok(());
    }
    let n = usize::from(part[0]);
    let at = usize::from(part[1]);
    let Some(r) = packing::report::unpack(&part[2..]) else {
        return rt.print(" nothing");
    };
    let mut room = [238u8; 64];
    print_put_first(rt, &mut room, n, at, r)
}

fn packs(e: Event) -> u32 {
    u32::from(packing::message::pack(e).is_some())
}

fn report_packs(r: Report) -> u32 {
    u32::from(packing::report::pack(r).is_some())
}

fn setup_packs(m: u32, k: u32, strike: u32) -> u32 {
    let packed = packing::setup::pack(Setup {
        put: false,
        exempt: true,
        m,
        k,
        strike,
    });
    u32::from(packed.is_some())
}

fn cancelled(reason: u32, limit: u32) -> Report {
    Report::Cancelled {
        reason,
        sell: true,
        party: 1,
        entry: 1,
        limit,
        quantity: 1,
    }
}

fn traded(other: u32) -> Report {
    Report::Traded {
        sell: true,
        party: 1,
        entry: 1,
        other,
        price: 1,
        quantity: 1,
    }
}

fn rested(working: u32) -> Report {
    Report::Rested {
        sell: true,
        party: 1,
        entry: 1,
        display: 1,
        working,
        quantity: 1,
    }
}

fn message_widths(n: u32) -> [u32; 5] {
    let a = packs(Event::Enable { party: n });
    let b = packs(Event::Underlying { price: n });
    let c = packs(Event::Phase { phase: n });
    let d = packs(Event::Away { bid: 1, offer: n });
    let e = packs(Event::CancelEntry { party: 1, entry: n });
    [a, b, c, d, e]
}

fn report_widths(n: u32) -> [u32; 4] {
    let a = report_packs(cancelled(n, 1));
    let b = report_packs(cancelled(1, n));
    let c = report_packs(traded(n));
    let d = report_packs(rested(n));
    [a, b, c, d]
}

fn setup_widths(n: u32) -> [u32; 3] {
    let a = setup_packs(n, 10, 100);
    let b = setup_packs(1, n, 100);
    let c = setup_packs(1, 10, n);
    [a, b, c]
}

// Which values pack that have this number in one field, and small ones in the others.
pub(crate) fn widths(rt: &impl Print, part: &[u8]) -> io::Result<()> {
    rt.print("widths")?;
    let n = number_at(part, 0);
    print_all(rt, &message_widths(n))?;
    print_all(rt, &report_widths(n))?;
    print_all(rt, &setup_widths(n))
}
