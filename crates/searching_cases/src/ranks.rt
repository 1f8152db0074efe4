// Cases of ranks: B, k and 20 bits, of which those past k mean nothing. Answer: the refusal and the rank.
use cases::printing::{end_line, print_number};
use cases::reading::Reader;
use counting::refusal::refusal_of;
use std::io;
use std::io::Stdout;
use subsets::rank::compute_index;

// The number of cases, then the cases.
pub fn replay(stdout: Stdout, reader: &mut Reader) -> io::Result<()> {
    reader.each(|reader| replay_one(stdout, reader))
}

fn replay_one(stdout: Stdout, reader: &mut Reader) -> io::Result<()> {
    let block_size = reader.size();
    let width = reader.size();
    let ranked = compute_index(block_size, width, reader.bits());
    print_number(stdout, refusal_of(&ranked))?;
    print_number(stdout, ranked.unwrap_or(0))?;
    end_line(stdout)
}
