// The handler: refusals in their order, then what the message does, then settling.
#![tactic(auto)]

use series::Series;

pub mod asking;
pub mod handle;
pub mod refuse;

// What an event asks, in one shape: document 01's fields, 0 where the kind does not name them.
#[derive(Clone, Copy)]
pub struct Ask {
    pub kind: u32,
    pub party: u32,
    pub sell: bool,
    pub price: u32,
    pub quantity: u32,
    pub second: u32,
    pub entry: u32,
}

// What a message that nothing refuses is answered: how many reports stand in the room, and the series afterwards.
#[derive(Clone, Copy)]
pub struct Answer {
    pub count: usize,
    pub series: Series,
}
