// The reports of what happens to an entry, and the lent room that they are written to. Arrival and settling tell by these alone.
#![tactic(auto)]

pub mod room;
pub mod tell;
