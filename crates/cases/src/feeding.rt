// Recordings: a start, or a carry-over of an earlier recording, and the pieces fed to the boards after it.
ghost use Rattle.std.specs.Prelude.{◌≡◌, length};

use crate::earlier::lay;
use crate::input::large_buffer;
use crate::printing::{end_line, print_number};
use crate::reading::Reader;
use counting::buffer::filled;
use counting::refusal::{Refusal, refusal_of};
use sampling::carrying::{Earlier, carry_over};
use sampling::feeding::feed;
use sampling::sampler::{Head, Sampler, no_sampler, start};
use std::io;
use std::io::Stdout;

// Whether the start or the carry-over was refused, and the sampler last returned.
#[derive(Clone, Copy)]
pub struct Recorded {
    pub begun: Result<(), Refusal>,
    pub sampler: Sampler,
}

// Words that are all ones before start, which has to clear them.
pub fn dirty() -> [u64; 8192]
    ensures { 8192 ≡ length result }
{
    filled(u64::MAX)
}

// Starts in the given bit order, or carries an earlier recording over, then reads the number of feeds and the feeds, each its board, the piece's length and its
// bytes. Prints a line: the first refusal; for each feed its refusal, n after it, and how many unfinished bytes its board has; the bit order of the sampler last
// returned, 1 where the low bit comes first, else 0.
pub fn record(
    stdout: Stdout,
    reader: &mut Reader,
    block_size: usize,
    low_first: bool,
    words: &mut [u64],
) -> io::Result<Recorded> {
    let begun = begin(reader, block_size, low_first, words);
    print_number(stdout, refusal_of(&begun))?;
    let mut sampler = begun.unwrap_or(no_sampler());
    for _ in 0..reader.number() {
        sampler = feed_one(stdout, reader, sampler, words)?;
    }
    print_number(stdout, u8::from(sampler.head.low_first))?;
    end_line(stdout)?;
    Ok(Recorded {
        begun: begun.map(|_| ()),
        sampler,
    })
}

// 0 for a start; 1 for a carry-over, with what the earlier sampler says of its words and of the bytes taken, whether all words are ones before they are laid,
// and the bytes that are laid.
fn begin(
    reader: &mut Reader,
    block_size: usize,
    low_first: bool,
    words: &mut [u64],
) -> Result<Sampler, Refusal> {
    if reader.number() == 0 {
        return start(block_size, low_first, words);
    }
    let earlier = Earlier {
        block_size,
        words: reader.size(),
        taken: reader.size(),
        low_first,
    };
    carry(reader, earlier, words)
}

// Reads the bytes, lays them and carries them over.
fn carry(reader: &mut Reader, earlier: Earlier, words: &mut [u64]) -> Result<Sampler, Refusal> {
    let mut space = large_buffer();
    let ones = reader.flag();
    let count = reader.at_most(space.len());
    let piece = &mut space[..count];
    reader.fill(piece, u8::MAX);
    lay(piece, earlier.block_size, earlier.low_first, ones, words);
    carry_over(earlier, words)
}

// Reads a piece and feeds it.
fn feed_one(
    stdout: Stdout,
    reader: &mut Reader,
    sampler: Sampler,
    words: &mut [u64],
) -> io::Result<Sampler> {
    let mut space = large_buffer();
    let board = reader.size();
    let count = reader.at_most(space.len());
    let piece = &mut space[..count];
    reader.fill(piece, u8::MAX);
    let fed = feed(sampler, words, board, piece);
    print_number(stdout, refusal_of(&fed))?;
    let next = fed.unwrap_or(sampler);
    print_number(stdout, next.head.blocks)?;
    print_number(stdout, pending(next.head, board))?;
    Ok(next)
}

// How many unfinished bytes a board has; 0 where there is none such.
pub fn pending(head: Head, board: usize) -> usize {
    head.lengths.get(board).copied().unwrap_or(0)
}
