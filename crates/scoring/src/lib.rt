// Scores to the last bit: the powers of one half, the root, and z.
#![tactic(auto)]

pub mod halves;
pub mod root;
pub mod score;
