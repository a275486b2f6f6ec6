// What the classroom server, which is written in C, calls: numbers, byte slices and buffers in, a number out. c/waxglimmer.h is the same in C.
#![tactic(auto)]

pub mod aims;
pub mod check;
pub mod explain;
pub mod serve;
