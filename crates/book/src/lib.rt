// The book: resting entries in rank order, oldest first. Rank is position: posting appends, a change of either price takes the entry out
// and appends it, removal closes the gap.
#![tactic(auto)]

pub mod change;
pub mod entries;
pub mod find;
pub mod look;

// How an entry is priced. `Fixed` comes first, so that an unused place of the book is all zero.
#[derive(Clone, Copy, PartialEq, Eq, Debug)]
pub enum Pricing {
    // displays and works at its limit
    Fixed,
    // works at its limit, and is not shown
    Dark,
    // shows this price, which may be another than it works at
    Sliding(u32),
}

// A quote or an order.
#[derive(Clone, Copy, PartialEq, Eq, Debug)]
pub struct Entry {
    pub number: u32,
    pub party: u8,
    // 1 to 6, as in messages
    pub kind: u8,
    pub sell: bool,
    pub limit: u32,
    pub quantity: u32,
    pub working: u32,
    pub pricing: Pricing,
}

// The first `count` places hold the entries that rest; the others are unused.
#[derive(Clone, Copy)]
pub struct Book {
    pub entries: [Entry; 64],
    pub count: usize,
}

// The best working prices that rest: the highest buy and the lowest sell, 0 for none.
#[derive(Clone, Copy, PartialEq, Eq, Debug)]
pub struct Front {
    pub bid: u32,
    pub offer: u32,
}

// The least key that a scan has met, and where.
#[derive(Clone, Copy, PartialEq, Eq, Debug)]
pub struct Least {
    pub key: u64,
    pub at: usize,
}
