// The tests of a width and of a list of bits.
ghost use Rattle.std.specs.Prelude.{◌≡◌};
ghost use Rattle.counting.specs.Refusal.{refusal_of};
ghost use Rattle.subsets.specs.Bits.{valid_width, increasing, within, bits_refusal};

use counting::refusal::Refusal;

// Whether k is 1 to 20.
#[tactic(auto, unfolding(crate::specs::Bits::valid_width))]
pub fn valid_width(k: usize) -> bool
    ensures { result ≡ valid_width k }
{
    (1..=20).contains(&k)
}

// Whether each bit is less than the one after it.
pub fn increasing(bits: &[u32]) -> bool
    ensures { result ≡ increasing bits.now }
{
    bits.is_sorted_by(|a, b| *a < *b)
}

// Whether each bit is below the block size.
pub fn within(bits: &[u32], block_size: usize) -> bool
    ensures { result ≡ within block_size bits.now }
{
    bits.iter().all(|&bit| (bit as usize) < block_size)
}

// BitsNotRising where the bits do not increase, else BitOutsideBlock where one is not in the block.
pub fn bits_refusal(bits: &[u32], block_size: usize) -> Result<(), Refusal>
    ensures { refusal_of result ≡ bits_refusal block_size bits.now }
{
    if !increasing(bits) {
        return Err(Refusal::BitsNotRising);
    }
    if !within(bits, block_size) {
        return Err(Refusal::BitOutsideBlock);
    }
    Ok(())
}
