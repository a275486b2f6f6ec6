// One option series: its numbers, which makers are blocked, and its book.
#![tactic(auto)]

use book::Book;
use terms::Terms;

pub mod open;
pub mod sound;

#[derive(Clone, Copy)]
pub struct Series {
    pub terms: Terms,
    // maker 1 first
    pub blocked: [bool; 16],
    pub book: Book,
}
