// The lent report room, and the reports that stand at its front.
ghost use Rattle.std.specs.Prelude.{◌≡◌, [], ◌∷◌};
ghost use Rattle.telling.specs.Stage.{Roomy, Put};
ghost use Rattle.telling.specs.Lent.{SameRoom};

use packing::report::Report;
use packing::room::put_report;

// The lent room, and how many reports stand in it so far.
#[derive(Drop)]
pub struct Reports<'a> {
    pub room: &'a mut [u8],
    pub count: usize,
}

impl<'a> Reports<'a> {
    // No report stands in it yet.
    pub fn new(room: &'a mut [u8]) -> Reports<'a>
        ensures as_lent { result.room.now ≡ room.old }
        ensures same_room { result.room.ghost_name ≡ room.entry.ghost_name }
        ensures none_yet { result.count ≡ 0 }
    {
        Reports { room, count: 0 }
    }

    // Writes a report behind those that stand there, and counts it.
    pub fn tell(&mut self, report: Report)
        requires { Roomy self.old.room.now self.old.count (report ∷ []) }
        ensures put { Put self.old.room.now self.old.count report self.new.room.now self.new.count }
        ensures same_room { SameRoom self.old self.new }
    {
        put_report(self.room, self.count, report);
        self.count += 1;
    }
}
