// The subsets of a block's bits: the step from one to the next, their number, and the rank of each.
#![tactic(auto)]

pub mod bits;
pub mod choose;
pub mod pascal;
pub mod rank;
pub mod stepping;
