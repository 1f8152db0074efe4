// The carry-over of a sampler that was made under the earlier rule.
ghost use Rattle.std.specs.Prelude.{◌≡◌, ◌+◌, ◌*◌, ◌≤◌, ◌<◌, length};
ghost use Rattle.counting.specs.Words.{stored_bit};
ghost use Rattle.counting.specs.Refusal.{refusal_of};
ghost use Rattle.counting.specs.Sample.{list_of};
ghost use Rattle.sampling.specs.Earlier.{earlier_refusal};
ghost use Rattle.sampling.specs.Carrying.{BlockIn, clear_bit, clear_bits, stored_byte, as_carried, carried_of, carried_words};

use crate::sampler::{Head, Sampler, capacity_bytes};
use counting::block::{place_in, valid_block_size};
use counting::buffer::filled;
use counting::refusal::Refusal;

// A sampler of the earlier rule: the block size in bits, how many words are lent, the bytes taken so far (T), and whether the low bit of a byte comes first.
#[derive(Clone, Copy)]
pub struct Earlier {
    pub block_size: usize,
    pub words: usize,
    pub taken: usize,
    pub low_first: bool,
}

// Carries a sampler of the earlier rule over, and answers the sampler that goes on: its unfinished bytes become board 0's, and are cleared from the words.
// Refusal 4, by the earlier rule: then the words stay as they were.
pub fn carry_over(earlier: Earlier, words: &mut [u64]) -> Result<Sampler, Refusal>
    ensures value { as_carried result ≡ carried_of earlier words.old }
    ensures words_after { words.new ≡ carried_words earlier words.old }
{
    earlier_refusal(earlier, words.len())?;
    let block_size = earlier.block_size;
    let blocks = earlier.taken / (block_size / 8);
    let left = earlier.taken % (block_size / 8);
    let lane = Lane {
        stride: words.len() / block_size,
        block: blocks,
        low_first: earlier.low_first,
    };
    let mut unfinished = filled(0);
    lane.read(words, &mut unfinished[..left]);
    lane.clear(words, 8 * left);
    Ok(Sampler {
        head: Head {
            block_size,
            words: earlier.words,
            blocks,
            low_first: earlier.low_first,
            lengths: [left, 0, 0, 0],
        },
        unfinished,
    })
}

// Refusal 4 where the earlier sampler is none of these words.
fn earlier_refusal(earlier: Earlier, words: usize) -> Result<(), Refusal>
    requires { 8 * words < 9223372036854775808 }
    ensures { refusal_of result ≡ earlier_refusal earlier words }
{
    if !valid_block_size(earlier.block_size) {
        return Err(Refusal::Sampler);
    }
    if earlier.words != words {
        return Err(Refusal::Sampler);
    }
    if earlier.taken > capacity_bytes(earlier.block_size, words) {
        return Err(Refusal::Sampler);
    }
    Ok(())
}

// Where a block stands in the words: how many words a row has, the block's number, and whether the low bit of a byte comes first.
// Kept: what a method asks of the words is of its own number of bits, and `clear` changes them, so that the lane neither holds them nor the fact.
#[derive(Clone, Copy)]
struct Lane {
    stride: usize,
    block: usize,
    low_first: bool,
}

impl Lane {
    // The first bytes of the block, as many as there is room for, as the words have them.
    fn read(self, words: &[u64], to: &mut [u8])
        requires { BlockIn self.stride (length words.now) self.block (8 * length to.old) }
        ensures { to.new ≡ list_of (length to.old) (stored_byte self.low_first self.stride words.now self.block) }
    {
        for (j, byte) in to.iter_mut().enumerate() {
            *byte = self.byte(words, j);
        }
    }

    // Byte j of the block, as the words have it, from its highest bit down.
    fn byte(self, words: &[u64], j: usize) -> u8
        requires { BlockIn self.stride (length words.now) self.block (8 * j + 8) }
        ensures { result ≡ stored_byte self.low_first self.stride words.now self.block j }
    {
        let mut x: u8 = 0;
        for i in (0..8).rev() {
            x = 2 * x + self.bit(words, 8 * j + place_in(self.low_first, i));
        }
        x
    }

    // Bit b of the block, as the words have it.
    fn bit(self, words: &[u64], b: usize) -> u8
        requires { BlockIn self.stride (length words.now) self.block (b + 1) }
        ensures { result ≡ stored_bit self.stride words.now self.block b }
    {
        ((words[b * self.stride + self.block / 64] >> (self.block % 64)) % 2) as u8
    }

    // Clears the first m bits of the block.
    fn clear(self, words: &mut [u64], m: usize)
        requires { BlockIn self.stride (length words.old) self.block m }
        ensures { words.new ≡ clear_bits self.stride words.old self.block m }
    {
        for b in 0..m {
            clear_bit(words, b * self.stride + self.block / 64, self.block % 64);
        }
    }
}

// Clears bit k of word i.
fn clear_bit(words: &mut [u64], i: usize, k: usize)
    requires i_in_bounds { i < length words.old }
    requires k_bound { k < 64 }
    ensures { words.new ≡ clear_bit words.old i k }
{
    let v = (words[i] >> k) % 2;
    words[i] ^= v << k;
}
