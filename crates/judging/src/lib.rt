// Judging: whether a finding is sound and how it does on other data, the parts of a recording, and the plan of a sweep.
#![tactic(auto)]

pub mod check;
pub mod evaluation;
mod permutation;
pub mod plan;
pub mod split;
pub mod training;
