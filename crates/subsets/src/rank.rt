// The rank of a subset: the number of subsets of its width before it.
ghost use Rattle.std.specs.Prelude.{◌≡◌, ◌^◌, ◌≤◌, ◌<◌, length, take};
ghost use Rattle.subsets.specs.Subsets.{Subset};
ghost use Rattle.subsets.specs.Choose.{choose};
ghost use Rattle.subsets.specs.Rank.{rank_of, as_ranked, ranked_of};

use crate::bits::{bits_refusal, valid_width};
use crate::choose::choose_up_to;
use counting::block::valid_block_size;
use counting::refusal::Refusal;

// The number of all subsets, less one, less those after this one: for each chosen bit the ways to pick that many bits, itself and those after it, from the
// positions above it.
pub fn rank_of(block_size: usize, bits: &[u32]) -> usize
    requires { (block_size < 4294967296) × (choose block_size (length bits.now) ≤ 2 ^ 32) × Subset block_size (length bits.now) bits.now }
    ensures { result ≡ rank_of block_size bits.now }
{
    let mut result: usize = choose_up_to(block_size, bits.len()) - 1;
    for (j, bit) in bits.iter().enumerate() {
        result -= choose_up_to(block_size - 1 - *bit as usize, bits.len() - j);
    }
    result
}

// The rank of the subset in the first k entries of bits; the others are not read.
// Kept: k stands beside an array of 20 entries, as README names the call compute_index(block_size, k, bits).
pub fn compute_index(block_size: usize, k: usize, bits: [u32; 20]) -> Result<usize, Refusal>
    ensures { as_ranked result ≡ ranked_of block_size k (take k bits) }
{
    if !valid_block_size(block_size) {
        return Err(Refusal::BlockSize);
    }
    if !valid_width(k) {
        return Err(Refusal::Width);
    }
    if k > block_size {
        return Err(Refusal::WidthAboveBlock);
    }
    let chosen = &bits[..k];
    bits_refusal(chosen, block_size)?;
    let many = choose_up_to(block_size, k) > 4294967296;
    if many {
        return Err(Refusal::TooMany);
    }
    Ok(rank_of(block_size, chosen))
}
