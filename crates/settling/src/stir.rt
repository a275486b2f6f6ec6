// Trades and moves, one after the other, until nothing stirs.
ghost use Rattle.lists.specs.Choose.{found};
ghost use Rattle.lists.specs.Run.{go};
ghost use Rattle.book.specs.Shape.{entries_of};
ghost use Rattle.book.specs.Change.{hit_both};
ghost use Rattle.telling.specs.Tell.{traded as Tell·traded};
ghost use Rattle.telling.specs.Stage.{alone};
ghost use Rattle.telling.specs.Lent.{Told, SameRoom};
ghost use Rattle.settling_theory.specs.Settle.{stir_at, stirred};
ghost use Rattle.settling.specs.Turns.{entry_in, dealt, trade_step, Turn, DealTurn, StirTurn, Stirable};

use crate::ease::move_to;
use crate::watch::{against_of, first_stirring};
use book::change::traded;
use book::entries::{display_of, interest_of, repriced};
use book::look::{best_contra, front_of};
use book::{Book, Front};
use prices::Market;
use prices::aims::aims_of;
use prices::rest::{is_marketable, resting_of};
use telling::room::Reports;
use telling::tell::tell_traded;

// Two entries trade what both have, at the resting one's price.
fn deal(b: Book, i: usize, j: usize, reports: &mut Reports) -> Book
    requires { DealTurn b i j reports.old.room.now reports.old.count }
    ensures told { Told (alone (entries_of b) (go (Tell·traded (entry_in b i) (entry_in b j) (dealt b i j)) (hit_both i j (dealt b i j) (entries_of b))))
        reports.old result reports.new }
    ensures same_room { SameRoom reports.old reports.new }
{
    let taker = b.entries[i];
    let resting = b.entries[j];
    let quantity = taker.quantity.min(resting.quantity);
    reports.tell(tell_traded(taker, resting, quantity));
    traded(b, i, j, quantity)
}

// The entry at a place trades as taker with the one best contra entry.
fn trade_at(b: Book, i: usize, reports: &mut Reports) -> Book
    requires { Turn b i reports.old.room.now reports.old.count (alone (entries_of b) (trade_step b i)).records }
    ensures told { Told (alone (entries_of b) (trade_step b i)) reports.old result reports.new }
    ensures same_room { SameRoom reports.old reports.new }
{
    let e = b.entries[i];
    let Some(j) = best_contra(b, e.sell, false) else {
        return b;
    };
    deal(b, i, j, reports)
}

// The entry at a place trades if it is marketable, and moves to its resting prices if not.
fn stir_at(b: Book, market: Market, front: Front, i: usize, reports: &mut Reports) -> Book
    requires { StirTurn market front b i reports.old.room.now reports.old.count }
    ensures told { Told (alone (entries_of b) (stir_at market (entries_of b) (found i (entry_in b i)))) reports.old result reports.new }
    ensures same_room { SameRoom reports.old reports.new }
{
    let e = b.entries[i];
    let quote = interest_of(e);
    let against = against_of(market, front, e.sell);
    let aim = aims_of(quote, against);
    if is_marketable(quote, against.contra, aim) {
        return trade_at(b, i, reports);
    }
    let p = resting_of(e.sell, display_of(e), aim);
    move_to(b, i, repriced(e, p.display, p.working), reports)
}

// Until there is none, from a book in which nothing is to be eased.
pub fn stir(b: Book, market: Market, reports: &mut Reports) -> Book
    requires { Stirable market b reports.old.room.now reports.old.count }
    ensures told { Told (stirred market (entries_of b)) reports.old result reports.new }
    ensures same_room { SameRoom reports.old reports.new }
{
    let mut book = b;
    loop {
        let front = front_of(book);
        let Some(i) = first_stirring(book, market, front) else {
            return book;
        };
        book = stir_at(book, market, front, i, reports);
    }
}
