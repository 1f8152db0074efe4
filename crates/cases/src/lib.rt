// What the programs that replay stored answers share: standard input, whole decimal numbers, read from a text and printed, doubles, lent entries and values of
// any kind printed, and recordings of boards fed in pieces.
#![tactic(auto)]

pub mod earlier;
pub mod entries;
pub mod feeding;
pub mod input;
pub mod patterns;
pub mod printing;
pub mod reading;
