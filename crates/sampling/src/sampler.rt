// The sampler, its start, and what it is refused for.
ghost use Rattle.std.specs.Prelude.{◌≡◌, ◌*◌, ◌≤◌, ◌<◌, length};
ghost use Rattle.counting.specs.Recording.{capacity, capacity_bytes};
ghost use Rattle.counting.specs.Refusal.{refusal_of};
ghost use Rattle.sampling.specs.Sampler.{no_sampler, as_started, started_of, started_words, blocks_of, each_short, sampler_refusal};

use counting::block::valid_block_size;
use counting::buffer::filled;
use counting::refusal::Refusal;

// All of a sampler but its unfinished bytes: the block size in bits, how many words are lent, the blocks completed so far (n), whether the low bit of a byte
// comes first, and how many unfinished bytes each of the four boards has.
#[derive(Clone, Copy)]
pub struct Head {
    pub block_size: usize,
    pub words: usize,
    pub blocks: usize,
    pub low_first: bool,
    pub lengths: [usize; 4],
}

// A recording in progress. Board b's unfinished bytes stand from place 512 × b on, and 0 past them; a block has at most 512 bytes.
#[derive(Clone, Copy)]
pub struct Sampler {
    pub head: Head,
    pub unfinished: [u8; 2048],
}

// Clears the words for a new recording of blocks of block_size bits, in the given bit order, and answers the fresh sampler. Refusal 1.
pub fn start(block_size: usize, low_first: bool, words: &mut [u64]) -> Result<Sampler, Refusal>
    ensures value { as_started result ≡ started_of block_size low_first (length words.old) }
    ensures words_after { words.new ≡ started_words block_size words.old }
{
    if !valid_block_size(block_size) {
        return Err(Refusal::BlockSize);
    }
    words.fill(0);
    let unfinished = filled(0);
    Ok(Sampler {
        head: Head {
            block_size,
            words: words.len(),
            blocks: 0,
            low_first,
            lengths: [0; 4],
        },
        unfinished,
    })
}

// What stands beside a refusal: every field 0.
pub fn no_sampler() -> Sampler
    ensures { result ≡ no_sampler }
{
    let unfinished = filled(0);
    Sampler {
        head: Head {
            block_size: 0,
            words: 0,
            blocks: 0,
            low_first: false,
            lengths: [0; 4],
        },
        unfinished,
    }
}

// n: the blocks that the sampler has completed.
pub fn blocks(sampler: Head) -> usize
    ensures { result ≡ blocks_of sampler }
{
    sampler.blocks
}

// Refusal 4 where the sampler is none of these words.
pub fn sampler_refusal(sampler: Head, words: usize) -> Result<(), Refusal>
    requires { 8 * words < 9223372036854775808 }
    ensures { refusal_of result ≡ sampler_refusal sampler words }
{
    if !valid_block_size(sampler.block_size) {
        return Err(Refusal::Sampler);
    }
    if sampler.words != words {
        return Err(Refusal::Sampler);
    }
    if sampler.blocks > capacity_blocks(sampler.block_size, words) {
        return Err(Refusal::Sampler);
    }
    if !each_short(sampler) {
        return Err(Refusal::Sampler);
    }
    Ok(())
}

// Whether each board has fewer unfinished bytes than a block.
fn each_short(sampler: Head) -> bool
    ensures { result ≡ each_short sampler }
{
    let size = sampler.block_size / 8;
    sampler.lengths.iter().all(|left| *left < size)
}

// How many blocks the words can hold at a valid block size.
pub fn capacity_blocks(block_size: usize, words: usize) -> usize
    requires le_block_size { 8 ≤ block_size }
    requires words_bound { 8 * words < 9223372036854775808 }
    ensures { (result ≡ capacity block_size words) × (result ≤ 16777216) }
{
    (64 * (words / block_size)).min(16777216)
}

// How many bytes the words can hold at a valid block size.
pub fn capacity_bytes(block_size: usize, words: usize) -> usize
    requires le_block_size { 8 ≤ block_size }
    requires block_size_bound { block_size ≤ 4096 }
    requires words_bound { 8 * words < 9223372036854775808 }
    ensures { (result ≡ capacity_bytes block_size words) × (result ≤ 8589934592) }
{
    capacity_blocks(block_size, words) * (block_size / 8)
}
