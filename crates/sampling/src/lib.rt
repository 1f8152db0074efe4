// The sampler: it takes the recording of up to four boards in pieces and lays each block that is completed out in lent words, a row of words for each bit of a
// block.
#![tactic(auto)]

pub mod carrying;
pub mod feeding;
mod putting;
pub mod sampler;
pub mod stretch;
