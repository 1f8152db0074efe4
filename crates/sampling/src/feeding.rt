// Feeding: a piece goes to its board, and the blocks that it completes into the words.
ghost use Rattle.std.specs.Prelude.{◌≡◌, ◌+◌, ◌-◌, ◌*◌, ◌≤◌, ◌<◌, Ok, length, replicate};
ghost use Rattle.counting.specs.Buffer.{put};
ghost use Rattle.sampling.specs.Feeding.{as_taken, taken_of, next_head, as_fed, fed_unfinished, fed_of, fed_words};
ghost use Rattle.sampling.specs.Sampler.{pending};

use crate::putting::{Layout, Place};
use crate::sampler::{Head, Sampler, capacity_blocks, sampler_refusal};
use counting::buffer::copy;
use counting::refusal::Refusal;

// What a feed changes of the numbers: n, and how many unfinished bytes its board has.
#[derive(Clone, Copy)]
pub struct Taken {
    pub blocks: usize,
    pub left: usize,
}

// Takes the next piece of a board's recording, and answers the sampler for the next call. Refusals 4, 21, 5: then the words stay as they were, and the next call
// takes the sampler given.
pub fn feed(
    sampler: Sampler,
    words: &mut [u64],
    board: usize,
    piece: &[u8],
) -> Result<Sampler, Refusal>
    ensures value { as_fed sampler result ≡ fed_of sampler (length words.old) board piece.now }
    ensures words_after { words.new ≡ fed_words sampler.head sampler.unfinished words.old board piece.now }
{
    let mut unfinished = sampler.unfinished;
    let taken = feed_lent(sampler.head, &mut unfinished, words, board, piece)?;
    let head = next_head(sampler.head, board, taken);
    Ok(Sampler { head, unfinished })
}

// The same where the 2,048 unfinished bytes are lent, so that none is copied but those of the piece.
pub fn feed_lent(
    head: Head,
    unfinished: &mut [u8],
    words: &mut [u64],
    board: usize,
    piece: &[u8],
) -> Result<Taken, Refusal>
    requires { length unfinished.old ≡ 2048 }
    ensures value { as_taken result ≡ taken_of head (length words.old) board (length piece.now) }
    ensures unfinished_after { unfinished.new ≡ fed_unfinished head (length words.old) unfinished.old board piece.now }
    ensures words_after { words.new ≡ fed_words head unfinished.old words.old board piece.now }
{
    let taken = taken_of(head, words.len(), board, piece.len())?;
    take_piece(head, taken, unfinished, words, board, piece);
    Ok(taken)
}

// What a piece of `new` bytes changes. Refusals 4, 21, 5.
fn taken_of(head: Head, words: usize, board: usize, new: usize) -> Result<Taken, Refusal>
    requires words_bound { 8 * words < 9223372036854775808 }
    requires bound { new < 9223372036854775808 }
    ensures { as_taken result ≡ taken_of head words board new }
{
    sampler_refusal(head, words)?;
    let unknown = board > 3;
    if unknown {
        return Err(Refusal::Board);
    }
    let size = head.block_size / 8;
    let all = unfinished_on(head, board) + new;
    let blocks = head.blocks + all / size;
    if blocks > capacity_blocks(head.block_size, words) {
        return Err(Refusal::Full);
    }
    Ok(Taken {
        blocks,
        left: all % size,
    })
}

// How many unfinished bytes a board has; each place is a constant, so that no copy of the four is made to be read at another.
// Kept: with `head.lengths[board]` a piece of one byte took 1.03 to 1.07 of the time, at blocks of 8, 24, 128 and 4,096 bits.
fn unfinished_on(head: Head, board: usize) -> usize
    requires { board < 4 }
    ensures { result ≡ pending head board }
{
    let lengths = head.lengths;
    match board {
        0 => lengths[0],
        1 => lengths[1],
        2 => lengths[2],
        _ => lengths[3],
    }
}

// The numbers after a feed to the board.
fn next_head(head: Head, board: usize, taken: Taken) -> Head
    requires { board < 4 }
    ensures { result ≡ next_head head board (as_taken (Ok taken)) }
{
    let mut lengths = head.lengths;
    lengths[board] = taken.left;
    Head {
        blocks: taken.blocks,
        lengths,
        ..head
    }
}

// Puts the blocks that the piece completes, with the board's unfinished bytes before it, into the words, and keeps what is past them.
fn take_piece(
    head: Head,
    taken: Taken,
    unfinished: &mut [u8],
    words: &mut [u64],
    board: usize,
    piece: &[u8],
)
    requires unfinished_len { length unfinished.old ≡ 2048 }
    requires taken_value { as_taken (Ok taken) ≡ taken_of head (length words.old) board (length piece.now) }
    ensures unfinished_after { unfinished.new ≡ fed_unfinished head (length words.old) unfinished.old board piece.now }
    ensures words_after { words.new ≡ fed_words head unfinished.old words.old board piece.now }
{
    let t = unfinished_on(head, board);
    let at = 512 * board;
    if taken.blocks == head.blocks {
        write_bytes(unfinished, at + t, piece);
        return;
    }
    let layout = Layout {
        size: head.block_size / 8,
        stride: words.len() / head.block_size,
        low_first: head.low_first,
    };
    let block = head.blocks;
    let (used, left) = piece.split_at(piece.len() - taken.left);
    layout.put_bytes(words, Place { block, byte: 0 }, &unfinished[at..at + t]);
    layout.put_bytes(words, Place { block, byte: t }, used);
    keep(unfinished, at, left, t);
}

// Writes the bytes at a place, and 0 behind them as far as `t` bytes from that place.
fn keep(unfinished: &mut [u8], at: usize, bytes: &[u8], t: usize)
    requires { (at + length bytes.now ≤ length unfinished.old) × (at + t ≤ length unfinished.old) }
    ensures { unfinished.new ≡ put (put unfinished.old at bytes.now) (at + length bytes.now) (replicate (t - length bytes.now) 0) }
{
    write_bytes(unfinished, at, bytes);
    wipe(unfinished, at + bytes.len(), at + t);
}

// Writes the bytes at a place.
pub fn write_bytes(unfinished: &mut [u8], at: usize, bytes: &[u8])
    requires { at + length bytes.now ≤ length unfinished.old }
    ensures { unfinished.new ≡ put unfinished.old at bytes.now }
{
    copy(bytes, &mut unfinished[at..at + bytes.len()]);
}

// Writes 0 from a place to before an end.
fn wipe(unfinished: &mut [u8], from: usize, end: usize)
    requires { end ≤ length unfinished.old }
    ensures { unfinished.new ≡ put unfinished.old from (replicate (end - from) 0) }
{
    if from < end {
        unfinished[from..end].fill(0);
    }
}
