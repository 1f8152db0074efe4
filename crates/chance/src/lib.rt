// The chance of at least c positives among n blocks, bracketed in whole numbers.
#![tactic(auto)]

pub mod bracket;
mod entries;
