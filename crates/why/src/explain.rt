// The tool: the series before, the message and one report's place.
ghost use Rattle.std.specs.Prelude.{◌≡◌, ◌*◌, ◌≤◌, length, take};
ghost use Rattle.packing.specs.Message.{message_at};
ghost use Rattle.std.proofs.lemmas.List.Edits.{sets};
ghost use Rattle.packing.specs.Report.{report_size};
ghost use Rattle.packing.specs.Room.{report_at, room_size};
ghost use Rattle.handler.specs.Asked.{ask_of};
ghost use Rattle.handler.specs.Acts.{Accepted};
ghost use Rattle.why.specs.Why.{why_of, told, in_lent, explained_as, explained};

use crate::Reason;
use crate::figures::reason_of;
use handler::asking::ask_of;
use handler::handle::handle_read;
use kinds::refusal::{Refusal, refuse_if};
use packing::message::{Event, unpack, unpack_at};
use packing::report::SIZE;
use packing::room::{ROOM, read_report, store};
use series::Series;

// Why the report at a place of the room says what it says.
pub fn why_at_place(series: Series, event: Event, room: &[u8], place: usize) -> Option<Reason>
    requires { Accepted series (ask_of event) }
    ensures { result ≡ why_of series (Some event) (report_at room.now place) }
{
    let Some(report) = read_report(room, place) else {
        return None;
    };
    reason_of(series, ask_of(event), report)
}

// So many reports that stand in another room, stored at the front of the one that is lent; and why the one at a place says what it says.
fn told_in(
    series: Series,
    event: Event,
    count: usize,
    place: usize,
    held: &[u8],
    room: &mut [u8],
) -> Option<Reason>
    requires accepted { Accepted series (ask_of event) }
    requires count_in_bounds { (report_size * count ≤ length held.now) × (report_size * count ≤ length room.old) }
    ensures value { result ≡ why_of series (Some event) (report_at room.new place) }
    ensures room_after { room.new ≡ sets room.old 0 (take (report_size * count) held.now) }
{
    let told = SIZE * count;
    store(room, 0, &held[..told]);
    why_at_place(series, event, room, place)
}

// What is told of what a message unpacks to, with another room to handle it in: the one that is lent is written once nothing refuses.
fn why_held(
    series: Series,
    read: Option<Event>,
    place: usize,
    room: &mut [u8],
    held: &mut [u8],
) -> Result<Option<Reason>, Refusal>
    requires { (room_size ≤ length room.old) × (room_size ≤ length held.old) }
    ensures { in_lent (told result) room.new ≡ explained_as series read place room.old }
{
    let answer = match handle_read(series, read, held) {
        Ok(answer) if place < answer.count => answer,
        Ok(_) => return Err(Refusal::NoReport),
        Err(why) => return Err(why),
    };
    // What unpacks to nothing was refused with 1.
    let Some(event) = read else {
        return Ok(None);
    };
    Ok(told_in(series, event, answer.count, place, held, room))
}

// What is told of what a message unpacks to.
pub fn why_read(
    series: Series,
    read: Option<Event>,
    place: usize,
    room: &mut [u8],
) -> Result<Option<Reason>, Refusal>
    ensures { in_lent (told result) room.new ≡ explained_as series read place room.old }
{
    refuse_if(room.len() < ROOM, Refusal::ShortRoom)?;
    let mut held = [0u8; ROOM];
    why_held(series, read, place, room, &mut held)
}

// Why the report at a place, counted from 0, of those that a message gives says what it says. The series is not changed.
pub fn why(
    series: Series,
    message: &[u8],
    place: usize,
    room: &mut [u8],
) -> Result<Option<Reason>, Refusal>
    ensures { in_lent (told result) room.new ≡ explained series message.now place room.old }
{
    why_read(series, unpack(message), place, room)
}

// The same of a message where it stands in a run.
pub fn why_at(
    series: Series,
    run: &[u8],
    at: usize,
    place: usize,
    room: &mut [u8],
) -> Result<Option<Reason>, Refusal>
    ensures { in_lent (told result) room.new ≡ explained series (message_at run.now at) place room.old }
{
    why_read(series, unpack_at(run, at), place, room)
}
