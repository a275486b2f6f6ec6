// The whole handler for a caller who keeps the series in a buffer of 1,564 bytes (crate series_buffer has its layout) and lends a report room.
ghost use Rattle.std.specs.Prelude.{◌≡◌};
ghost use Rattle.packing.specs.Codec.{unpack_of};
ghost use Rattle.packing.specs.Setup.{setups};
ghost use Rattle.packing.specs.Message.{message_at};
ghost use Rattle.server.specs.Serve.{SetUp, set_up, served, serve_as, serve};

use handler::handle::handle_read;
use packing::message::{Event, unpack, unpack_at};
use packing::room::ROOM;
use series::open::open_series;
use series_buffer::whole::{pack_series, unpack_series};

// Sets up a new series in the buffer and answers 0; 1 or 11, and the buffer as it was.
#[unsafe(no_mangle)]
pub extern "C" fn waxglimmer_setup(setup: &[u8], state: &mut [u8]) -> u32
    ensures { ◌≡◌ {A = SetUp} (record { refusal = result; state = state.new }) (set_up state.old (unpack_of setups setup.now)) }
{
    let series = match open_series(setup) {
        Ok(series) => series,
        Err(refusal) => return u32::from(refusal),
    };
    if pack_series(series, state) {
        return 0;
    }
    11
}

// Answers what a message unpacks to: the refusal's number with every lent byte as it was and count 0; or 0, the series afterwards in the buffer, and
// its counted reports at the front of the room.
fn serve_read(state: &mut [u8], read: Option<Event>, room: &mut [u8], count: &mut usize) -> u32
    ensures { served result count.new state.new room.new ≡ serve_as state.old read room.old }
{
    *count = 0;
    if room.len() < ROOM {
        return 10;
    }
    let Some(series) = unpack_series(state) else {
        return 11;
    };
    let answer = match handle_read(series, read, room) {
        Ok(answer) => answer,
        Err(why) => return u32::from(why),
    };
    let after = answer.series;
    pack_series(after, state);
    *count = answer.count;
    0
}

// Answers a message.
#[unsafe(no_mangle)]
pub extern "C" fn waxglimmer_handle(
    state: &mut [u8],
    message: &[u8],
    room: &mut [u8],
    count: &mut usize,
) -> u32
    ensures { served result count.new state.new room.new ≡ serve state.old message.now room.old }
{
    let read = unpack(message);
    serve_read(state, read, room, count)
}

// The same of a message where it stands in a run.
#[unsafe(no_mangle)]
pub extern "C" fn waxglimmer_handle_at(
    state: &mut [u8],
    run: &[u8],
    at: usize,
    room: &mut [u8],
    count: &mut usize,
) -> u32
    ensures { served result count.new state.new room.new
        ≡ serve state.old (message_at run.now at) room.old }
{
    let read = unpack_at(run, at);
    serve_read(state, read, room, count)
}
