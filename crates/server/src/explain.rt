// Why a report says what it says, for a caller who keeps the series in a buffer of 1,564 bytes: only read here, and a report room lent as to the handler.
ghost use Rattle.std.specs.Prelude.{◌≡◌};
ghost use Rattle.packing.specs.Message.{message_at};
ghost use Rattle.why.specs.Why.{Numbers, numbers_of, told, in_lent};
ghost use Rattle.server.specs.Explain.{replied, explain_held, explain_as, explain};

use kinds::refusal::{Refusal, refuse_if};
use packing::message::{Event, unpack, unpack_at};
use packing::room::ROOM;
use series_buffer::whole::unpack_series;
use why::Reason;
use why::explain::why_read;

// What is told of what a message unpacks to, put to the series in a buffer: 10 and 11 come before all else.
fn why_held(
    state: &[u8],
    read: Option<Event>,
    place: usize,
    room: &mut [u8],
) -> Result<Option<Reason>, Refusal>
    ensures { in_lent (told result) room.new ≡ explain_held state.now read place room.old }
{
    refuse_if(room.len() < ROOM, Refusal::ShortRoom)?;
    let series = unpack_series(state).ok_or(Refusal::Unsound)?;
    why_read(series, read, place, room)
}

// The same as a number, with three numbers written: "no reason to give" is rule 0.
fn tell_numbers(
    answer: Result<Option<Reason>, Refusal>,
    rule: &mut u32,
    first: &mut u32,
    second: &mut u32,
) -> u32
    ensures { ◌≡◌ {A = Numbers} (record { refusal = result; rule = rule.new; first = first.new; second = second.new })
        (numbers_of (told answer)) }
{
    *rule = 0;
    *first = 0;
    *second = 0;
    match answer {
        Ok(Some(reason)) => {
            *rule = reason.rule;
            *first = reason.first;
            *second = reason.second;
            0
        }
        Ok(None) => 0,
        Err(why) => u32::from(why),
    }
}

// Answers what a message unpacks to.
fn explain_read(
    state: &[u8],
    read: Option<Event>,
    place: usize,
    room: &mut [u8],
    rule: &mut u32,
    first: &mut u32,
    second: &mut u32,
) -> u32
    ensures { replied result rule.new first.new second.new room.new
        ≡ explain_as state.now read place room.old }
{
    let answer = why_held(state, read, place, room);
    tell_numbers(answer, rule, first, second)
}

// Why the report at a place, counted from 0, of those that a message would give says what it says.
#[unsafe(no_mangle)]
pub extern "C" fn waxglimmer_why(
    state: &[u8],
    message: &[u8],
    place: usize,
    room: &mut [u8],
    rule: &mut u32,
    first: &mut u32,
    second: &mut u32,
) -> u32
    ensures { replied result rule.new first.new second.new room.new
        ≡ explain state.now message.now place room.old }
{
    let read = unpack(message);
    explain_read(state, read, place, room, rule, first, second)
}

// The same of a message where it stands in a run.
#[unsafe(no_mangle)]
pub extern "C" fn waxglimmer_why_at(
    state: &[u8],
    run: &[u8],
    at: usize,
    place: usize,
    room: &mut [u8],
    rule: &mut u32,
    first: &mut u32,
    second: &mut u32,
) -> u32
    ensures { replied result rule.new first.new second.new room.new
        ≡ explain state.now (message_at run.now at) place room.old }
{
    let read = unpack_at(run, at);
    explain_read(state, read, place, room, rule, first, second)
}
