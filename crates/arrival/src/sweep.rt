// What a phase cancels, by entry number.
ghost use Rattle.std.specs.Prelude.{◌≡◌};
ghost use Rattle.book.specs.Shape.{entries_of, WellFormed};
ghost use Rattle.book.specs.Look.{rank_of, lowest};
ghost use Rattle.telling.specs.Lent.{Told, SameRoom};
ghost use Rattle.arrival.specs.Cancel.{swept, sweep, Asks};

use crate::cancel::cut_at;
use book::entries::is_quote;
use book::look::lowest;
use book::{Book, Entry};
use telling::room::Reports;

fn is_swept(phase: u32, e: Entry) -> bool
    ensures { result ≡ swept phase e }
{
    if phase == 0 {
        return true;
    }
    if phase == 2 {
        return is_quote(e);
    }
    false
}

// The first by entry number that goes.
fn first_swept(b: Book, phase: u32) -> Option<usize>
    requires { WellFormed b }
    ensures { result ≡ rank_of (lowest (swept phase) (entries_of b)) }
{
    lowest(b, |e| is_swept(phase, e))
}

// Phase 0 cancels everything, phase 2 every quote, phase 1 nothing.
pub fn sweep_all(b: Book, phase: u32, reports: &mut Reports) -> Book
    requires { Asks (sweep phase (entries_of b)) b reports.old.room.now reports.old.count }
    ensures told { Told (sweep phase (entries_of b)) reports.old result reports.new }
    ensures same_room { SameRoom reports.old reports.new }
{
    let mut c = b;
    while let Some(i) = first_swept(c, phase) {
        c = cut_at(c, i, 31, reports);
    }
    c
}
