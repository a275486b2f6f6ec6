// Setups, messages and reports in bytes, and the room that reports are written to. What a message means is not known here.
#![tactic(auto)]

pub mod codec;
pub mod message;
pub mod report;
pub mod room;
pub mod setup;
