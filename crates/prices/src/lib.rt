// The price rules, numbers in and numbers out: nothing here knows of packed bytes or of the book.
#![tactic(auto)]

pub mod aims;
pub mod ease;
pub mod post;
pub mod protect;
pub mod reason;
pub mod request;
pub mod rest;
pub mod side;
pub mod step;

// The two prices that a sliding quote has, or aims for.
#[derive(Clone, Copy)]
pub struct Prices {
    pub display: u32,
    pub working: u32,
}

// What prices are measured by: the number that names the steps, and the away prices (0: none).
#[derive(Clone, Copy)]
pub struct Market {
    pub m: u32,
    pub bid: u32,
    pub offer: u32,
}

// What a quote or an order asks: its kind, its side and its limit.
#[derive(Clone, Copy)]
pub struct Interest {
    pub kind: u32,
    pub sell: bool,
    pub limit: u32,
}

// What a quote that slides faces: the number that names the steps, the away price and the best working price against it (0: none).
#[derive(Clone, Copy)]
pub struct Against {
    pub m: u32,
    pub away: u32,
    pub contra: u32,
}

// What is left of an entry, as it would rest: the number that names the steps and how many of them its display may stand back from its limit, the away
// price and the best undisplayed price against it (0: none), and the display that it would get.
#[derive(Clone, Copy)]
pub struct Posting {
    pub m: u32,
    pub k: u32,
    pub away: u32,
    pub hidden: u32,
    pub display: u32,
}

// What price protection knows of a series: the kind of option, its strike, and the underlying price (0: none).
#[derive(Clone, Copy)]
pub struct Guard {
    pub put: bool,
    pub exempt: bool,
    pub strike: u32,
    pub underlying: u32,
}

// The two figures that a test compares.
#[derive(Clone, Copy)]
pub struct Figures {
    pub first: u32,
    pub second: u32,
}
