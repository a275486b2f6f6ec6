// Whether a book that is handed in is sound: one pass over the entries that rest, one over the unused places. What the pass has seen on
// its way is answered with the verdict, so that no later stage has to look for it again; specs/Summary says what of it is used.
#![tactic(auto)]

mod clauses;
pub mod figures;
mod pass;

ghost use Rattle.soundness.specs.Summary.{Checked};

use book::Book;
use prices::step::is_mpv;

// What the pass has seen of a sound book: the best working price of each side and the best price shown, 0 for none, whether any quote rests,
// and which makers have one on which side.
#[derive(Clone, Copy)]
pub struct Check {
    pub bid: u32,
    pub offer: u32,
    pub shownbid: u32,
    pub shownoffer: u32,
    pub quoted: bool,
    pub seats: [bool; 33],
}

// The best prices of the entries read so far, the highest entry number, and whether a quote is among them. An offer of
// `NO_OFFER`, which is above all prices, is none.
#[derive(Clone, Copy)]
pub struct Best {
    pub top: u32,
    pub bid: u32,
    pub offer: u32,
    pub shownbid: u32,
    pub shownoffer: u32,
    pub quoted: bool,
}

// Takes any book, however damaged; none is the answer for one that is not sound.
pub fn check_book(b: Book, m: u32, given: u32) -> Option<Check>
    ensures { Checked m given b result }
{
    if 64 < b.count {
        return None;
    }
    if !is_mpv(m) {
        return None;
    }
    if !pass::is_rest_unused(b) {
        return None;
    }
    pass::check_resting(b, m, given)
}
