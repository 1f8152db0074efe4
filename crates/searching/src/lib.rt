// The search for the most biased bits of a block: every k-subset is scored by the counts of its bins, and the best is kept.
#![tactic(auto)]

mod candidate;
mod direct;
pub mod finding;
mod layered;
mod pass;
mod sample;
pub mod search;
mod stepping;
