// Settling: easing, then trades and moves until nothing stirs, with one report for each step.
#![tactic(auto)]

pub mod ease;
pub mod stir;
pub mod watch;

ghost use Rattle.book.specs.Shape.{entries_of};
ghost use Rattle.telling.specs.Lent.{Told, SameRoom};
ghost use Rattle.settling_theory.specs.Settle.{settled};
ghost use Rattle.settling.specs.Turns.{Settleable};

use crate::ease::ease;
use crate::stir::stir;
use book::Book;
use prices::Market;
use telling::room::Reports;

// First easing, then trades and moves: the book that is left, with the reports behind those that stand in the room.
pub fn settle(b: Book, market: Market, reports: &mut Reports) -> Book
    requires { Settleable market b reports.old.room.now reports.old.count }
    ensures told { Told (settled market (entries_of b)) reports.old result reports.new }
    ensures same_room { SameRoom reports.old reports.new }
{
    let c = ease(b, market, reports);
    stir(c, market, reports)
}
