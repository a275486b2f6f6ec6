// What the programs print: reports and refusals as lines of decimal numbers, put into a lent buffer.
#![tactic(auto)]

pub mod line;
pub mod text;
