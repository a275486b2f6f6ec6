// The room that a caller lends for reports.
ghost use Rattle.std.specs.Prelude.{◌≡◌, ◌+◌, ◌*◌, ◌≤◌, ◌<◌, length};
ghost use Rattle.std.proofs.lemmas.List.Edits.{sets};
ghost use Rattle.packing.specs.Report.{report_size};
ghost use Rattle.packing.specs.Room.{is_put, room_after, report_at};

use crate::report::Report;

// The most reports that one message makes, and the bytes that they take: the room that a caller must lend for it.
pub const MOST_REPORTS: usize = 2280;

pub const ROOM: usize = MOST_REPORTS * crate::report::SIZE;

// Stores the bytes of `part` from `start` on.
pub fn store(room: &mut [u8], start: usize, part: &[u8])
    requires { start + length part.now ≤ length room.old }
    ensures { room.new ≡ sets room.old start part.now }
{
    room[start..start + part.len()].copy_from_slice(part);
}

// The first byte of place `at`.
fn start_of(at: usize) -> usize
    requires { report_size * at < 18446744073709551615 }
    ensures { result ≡ report_size * at }
{
    crate::report::SIZE * at
}

// Writes a report as number `at` of the room, counted from 0. Answers false, and leaves the room as it was, where that place is not
// wholly in the room or a field does not fit.
pub fn put_report(room: &mut [u8], at: usize, report: Report) -> bool
    ensures { (result ≡ is_put room.old at report) × (room.new ≡ room_after room.old at report) }
{
    if room.len() / crate::report::SIZE <= at {
        return false;
    }
    match crate::report::pack(report) {
        Some(bytes) => {
            store(room, start_of(at), &bytes);
            true
        }
        None => false,
    }
}

// The report that stands at place `at` of a room; nothing, where none does.
pub fn read_report(room: &[u8], at: usize) -> Option<Report>
    ensures { result ≡ report_at room.now at }
{
    if room.len() / crate::report::SIZE <= at {
        return None;
    }
    let from = crate::report::SIZE * at;
    let to = from + crate::report::SIZE;
    crate::report::unpack(&room[from..to])
}
