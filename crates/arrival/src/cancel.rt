// Cancelling: an entry goes, with a report of its own.
ghost use Rattle.book.specs.Shape.{entries_of};
ghost use Rattle.telling.specs.Lent.{Told, SameRoom};
ghost use Rattle.arrival.specs.Cancel.{cut_at, cut_rank, cut_quote, Cuts, CutsRank, Asks};

use book::Book;
use book::change::removed;
use book::find::find_quote;
use telling::room::Reports;
use telling::tell::tell_cancelled;

// The entry at a place goes.
pub fn cut_at(b: Book, i: usize, why: u32, reports: &mut Reports) -> Book
    requires { Cuts why b i reports.old.room.now reports.old.count }
    ensures told { Told (cut_at why (entries_of b) i) reports.old result reports.new }
    ensures same_room { SameRoom reports.old reports.new }
{
    reports.tell(tell_cancelled(why, b.entries[i]));
    removed(b, i)
}

// The entry at a rank goes, if there is one.
pub fn cut_rank(b: Book, rank: Option<usize>, why: u32, reports: &mut Reports) -> Book
    requires { CutsRank why b rank reports.old.room.now reports.old.count }
    ensures told { Told (cut_rank why (entries_of b) rank) reports.old result reports.new }
    ensures same_room { SameRoom reports.old reports.new }
{
    let Some(i) = rank else {
        return b;
    };
    cut_at(b, i, why, reports)
}

// A maker's quote on a side goes, if there is one.
pub fn cut_quote(b: Book, party: u8, sell: bool, why: u32, reports: &mut Reports) -> Book
    requires { Asks (cut_quote why party sell (entries_of b)) b reports.old.room.now reports.old.count }
    ensures told { Told (cut_quote why party sell (entries_of b)) reports.old result reports.new }
    ensures same_room { SameRoom reports.old reports.new }
{
    let rank = find_quote(b, party, sell);
    cut_rank(b, rank, why, reports)
}
