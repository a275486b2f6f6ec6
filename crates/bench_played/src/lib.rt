// A run of messages played one after the other, each into what is left of one lent room: what the measurements call.
#![tactic(auto)]

ghost use Rattle.std.specs.Prelude.{◌≡◌, length, ◌+◌, ◌*◌, ◌≤◌};
ghost use Rattle.bench_played.specs.Played.{goes_on, Turned, played, played_from};
ghost use Rattle.packing.specs.Room.{room_size, most_reports};
ghost use Rattle.packing.specs.Report.{report_size};

use handler::handle::handle_at;
use packing::message::SIZE as MESSAGE;
use packing::report::SIZE as REPORT;
use packing::room::ROOM;
use series::Series;
use series::open::open_series;

// Whether a whole message stands at `at`, and there is room behind `used` for its reports.
fn is_next(long: usize, at: usize, size: usize, used: usize) -> bool
    requires { (at ≤ long) × (used ≤ size) }
    ensures { result ≡ goes_on long at size used }
{
    if long - at < MESSAGE {
        return false;
    }
    ROOM <= size - used
}

// The series after a message, and where what was written ends.
#[derive(Clone, Copy)]
struct Next {
    series: Series,
    used: usize,
}

// Where reports end that begin at `used`.
fn end_of(used: usize, count: usize, size: usize) -> usize
    requires { (count ≤ most_reports) × (used + room_size ≤ size) }
    ensures { result ≡ used + report_size * count }
{
    used + REPORT * count
}

// One message: its reports from `used` on.
fn turn(series: Series, run: &[u8], at: usize, out: &mut [u8], used: usize) -> Next
    requires { used + room_size ≤ length out.old }
    ensures { Turned series run.now at out.old used result.series result.used out.new }
{
    let size = out.len();
    match handle_at(series, run, at, &mut out[used..]) {
        Ok(answer) => {
            Next {
                series: answer.series,
                used: end_of(used, answer.count, size),
            }
        }
        Err(_) => Next { series, used },
    }
}

// Plays the messages of the run from the first on, as long as each finds room, and answers how many bytes were written.
fn play(start: Series, run: &[u8], out: &mut [u8]) -> usize
    ensures { (result ≡ (played start run.now out.old).0) × (out.new ≡ (played start run.now out.old).1) }
{
    let mut series = start;
    let mut at = 0usize;
    let mut used = 0usize;
    while is_next(run.len(), at, out.len(), used) {
        let next = turn(series, run, at, out, used);
        let after = next.series;
        series = after;
        used = next.used;
        at += MESSAGE;
    }
    used
}

// The same from a setup: 0, and nothing written, where it sets up no series.
#[unsafe(no_mangle)]
pub extern "C" fn waxglimmer_play(setup: &[u8], run: &[u8], out: &mut [u8]) -> usize
    ensures { (result ≡ (played_from setup.now run.now out.old).0)
        × (out.new ≡ (played_from setup.now run.now out.old).1) }
{
    let Ok(series) = open_series(setup) else {
        return 0;
    };
    play(series, run, out)
}
