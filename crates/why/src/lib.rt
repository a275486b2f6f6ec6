// Why a report says what it says: the number of its rule, and the two figures that were compared.
#![tactic(auto)]

pub mod explain;
pub mod figures;

// A rule's number and its two figures: the entry's own, and what that is held against.
#[derive(Clone, Copy)]
pub struct Reason {
    pub rule: u32,
    pub first: u32,
    pub second: u32,
}
