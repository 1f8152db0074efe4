// Ranking one subset by its counts: the order of its bins, the division and the score.
#![tactic(auto)]

mod keys;
mod order;
pub mod ranking;
