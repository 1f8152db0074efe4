// A recording replayed as the recorder cut it: start, a feed for each piece, and the search, with the store and with none, with the two findings compared.
#![tactic(auto)]

mod agreement;
mod pieces;
pub mod replay;
