// The entries that rest, and those that a message names.
ghost use Rattle.std.specs.Prelude.{◌≡◌};
ghost use Rattle.book.specs.Shape.{entries_of, WellFormed};
ghost use Rattle.book.specs.Look.{rank_of, entry_of, quote_in};

use crate::entries::{is_own, is_quote_of};
use crate::{Book, Entry};

// The entries that rest, in rank order.
pub fn resting(b: &Book) -> &[Entry]
    requires { WellFormed b.now }
    ensures { result.now ≡ entries_of b.now }
{
    &b.entries[..b.count]
}

// A party's entry by its number.
pub fn find_entry(b: Book, party: u8, number: u32) -> Option<usize>
    requires { WellFormed b }
    ensures { result ≡ rank_of (entry_of party number (entries_of b)) }
{
    resting(&b).iter().position(|e| is_own(party, number, *e))
}

// A maker's quote on a side.
pub fn find_quote(b: Book, party: u8, sell: bool) -> Option<usize>
    requires { WellFormed b }
    ensures { result ≡ rank_of (quote_in party sell (entries_of b)) }
{
    resting(&b)
        .iter()
        .position(|e| is_quote_of(party, sell, *e))
}
