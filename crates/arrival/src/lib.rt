// What a message does to the book: arrival of quotes and orders, cancelling, phases. Each stage writes its reports to the lent room.
#![tactic(auto)]

pub mod arrive;
pub mod cancel;
pub mod post;
pub mod reason;
pub mod sweep;
pub mod take;

// What an arriving quote or order faces: C, the best working price against it, and NBO for a bid, NBB for an offer; 0 for none. C and the best
// display were seen by the test of the series on its way; NBO and NBB are the nearer of that display and the away price.
#[derive(Clone, Copy)]
pub struct Facing {
    pub contra: u32,
    pub national: u32,
}
