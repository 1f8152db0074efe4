// The bottom of the bias search: refusals, room on the stack, blocks and their bins, a stretch of the blocks that words hold, and counts over their rows.
#![tactic(auto)]

pub mod block;
pub mod buffer;
mod chunk;
pub mod refusal;
pub mod rows;
pub mod stretch;
mod tally;
