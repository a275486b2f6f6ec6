// The operations of the book: what each does to the list of entries in rank order.
ghost use Rattle.std.specs.Prelude.{◌≡◌, [], set};
ghost use Rattle.lists.specs.Places.{without, requeue};
ghost use Rattle.book.specs.Shape.{entries_of, book_of, Place, TwoPlaces, Space};
ghost use Rattle.book.specs.Change.{post, hit, hit_both};

use crate::entries::zero_entry;
use crate::{Book, Entry};

pub fn empty() -> Book
    ensures { result ≡ book_of [] }
{
    let unused = zero_entry();
    let entries = [unused; 64];
    Book { entries, count: 0 }
}

// The entry rests, last in rank.
pub fn posted(mut b: Book, e: Entry) -> Book
    requires { Space b }
    ensures { result ≡ book_of (post e (entries_of b)) }
{
    let at = b.count;
    b.entries[at] = e;
    b.count = at + 1;
    b
}

// The entry at a place gives way to another, which rests last in rank.
pub fn requeued(mut b: Book, i: usize, e: Entry) -> Book
    requires { Place b i }
    ensures { result ≡ book_of (requeue i e (entries_of b)) }
{
    let n = b.count;
    b.entries[i] = e;
    b.entries[i..n].rotate_left(1);
    b
}

// The entry at a place goes: the zero entry takes its turn, and no longer counts.
pub fn removed(b: Book, i: usize) -> Book
    requires { Place b i }
    ensures { result ≡ book_of (without i (entries_of b)) }
{
    let unused = zero_entry();
    let mut c = requeued(b, i, unused);
    c.count = c.count - 1;
    c
}

// An entry with contracts left stands where it stood: posting and a change of price alone put it last.
fn standing(mut b: Book, i: usize, e: Entry) -> Book
    requires { Place b i }
    ensures { result ≡ record { entries = set b.entries i e; count = b.count } }
{
    b.entries[i] = e;
    b
}

// So many contracts of the entry at a place are traded away.
pub fn taken(b: Book, i: usize, quantity: u32) -> Book
    requires { Place b i }
    ensures { result ≡ book_of (hit i quantity (entries_of b)) }
{
    let mut e = b.entries[i];
    if e.quantity <= quantity {
        return removed(b, i);
    }
    e.quantity = e.quantity - quantity;
    standing(b, i, e)
}

// Of both parties to a trade.
pub fn traded(b: Book, i: usize, j: usize, quantity: u32) -> Book
    requires { TwoPlaces b i j }
    ensures { result ≡ book_of (hit_both i j quantity (entries_of b)) }
{
    if i < j {
        let c = taken(b, j, quantity);
        return taken(c, i, quantity);
    }
    let c = taken(b, i, quantity);
    taken(c, j, quantity)
}
