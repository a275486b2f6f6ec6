// The lent room, behind the reports.
ghost use Rattle.std.specs.Prelude.{◌≤◌, ◌≡◌, length};
ghost use Rattle.std.specs.List.{list_all};
ghost use Rattle.test_handed_in.specs.Case.{filling};

use std::io;

// Where the reports end, and the room's end where it has no place for so many.
fn reports_end(room: &[u8], count: usize) -> usize
    ensures { result ≤ length room.now }
{
    if room.len() / 14 < count {
        return room.len();
    }
    14 * count
}

// Whether a part of the room holds the filling alone.
fn is_kept(part: &[u8]) -> bool
    ensures { result ≡ list_all filling part.now }
{
    part.iter().all(|byte| *byte == 165)
}

pub(crate) fn tell_room(rt: &impl Print, room: &[u8], count: usize) -> io::Result<()> {
    if is_kept(&room[reports_end(room, count)..]) {
        rt.print("room kept\n")
    } else {
        rt.print("room changed\n")
    }
}
