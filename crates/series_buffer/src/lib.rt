// A series in a buffer of 1,564 bytes, so that a caller who knows no Rattle can keep it. Numbers stand most significant byte first.
//
//   from  bytes  the header
//      0      1  M
//      1      1  K
//      2      4  strike
//      6      1  phase: 0 closed, 1 open, 2 halted
//      7      4  away bid, 0 for none
//     11      4  away offer, 0 for none
//     15      4  underlying price, 0 for none
//     19      4  the entry number given last
//     23      1  1 for a put, 0 for a call
//     24      1  1 for exempt
//     25      1  how many entries rest
//     26      2  blocked makers, a bit each: the most significant bit of the first byte is maker 1, the least significant of the second is maker 16
//
// Then 64 places of 24 bytes from byte 28 on, in rank order, those that rest first; an unused place is all zero:
//
//   from  bytes  an entry
//      0      4  entry number
//      4      4  limit
//      8      4  quantity left
//     12      4  working price
//     16      4  display price of a sliding entry, 0 for any other
//     20      1  party
//     21      1  kind, 1 to 6 as in messages
//     22      1  side: 0 buy, 1 sell
//     23      1  pricing: 0 fixed, 1 dark, 2 sliding
#![tactic(auto)]

use terms::Terms;

pub mod head;
pub mod places;
pub mod whole;

// What stands in the first 28 bytes.
#[derive(Clone, Copy)]
pub struct Header {
    pub terms: Terms,
    pub count: u32,
    // maker 1 first
    pub blocked: [bool; 16],
}
