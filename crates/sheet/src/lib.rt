// The acceptance sheet of one recording, as bytes: the header read, the search on the first half, the evaluation on the second.
#![tactic(auto)]

mod columns;
mod header;
mod judgement;
mod lines;
pub mod sheet;
