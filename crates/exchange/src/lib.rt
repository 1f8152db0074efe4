// Findings as text for the upstream tool: one RFC 8259 object for a finding and its bin order, written and read.
#![tactic(auto)]

mod arrays;
mod cursor;
mod decimals;
mod keys;
mod listed;
mod members;
pub mod reader;
mod score;
mod text;
mod truth;
mod words;
pub mod writer;
