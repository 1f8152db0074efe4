// The sweep: every pair of the plan is searched on one half of a recording and judged on the other, and the brackets of their chances decide about it.
#![tactic(auto)]

pub mod pair;
mod progress;
mod refusal;
pub mod sweep;
pub mod verdict;
