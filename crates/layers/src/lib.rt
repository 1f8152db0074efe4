// What the layered search stands on: one store with the all-set counts of the smaller subsets, the bins of a subset worked out from it, and the run of a
// candidate.
#![tactic(auto)]

pub mod bins;
mod gather;
pub mod run;
mod settle;
pub mod size;
pub mod store;
