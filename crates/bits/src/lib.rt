// Numbers in bits: fields of given widths, most significant bit first, read from bytes and written to bytes. A layout is a table of
// widths, and the same reader, writer and tests serve every layout.
#![tactic(auto)]

pub mod reader;
pub mod tests;
pub mod writer;
