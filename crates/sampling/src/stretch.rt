// A stretch of the blocks that a sampler has completed.
ghost use Rattle.std.specs.Prelude.{◌≡◌, ◌<◌};
ghost use Rattle.counting.specs.Refusal.{refusal_of};
ghost use Rattle.sampling.specs.Stretch.{stretch_of, stretch_refusal};

use crate::sampler::{Head, blocks};
use counting::refusal::Refusal;
use counting::stretch::Stretch;

// The sampler's blocks from `first` to before `end`, in as many words as are lent.
pub fn stretch_of(sampler: Head, words: usize, first: usize, end: usize) -> Stretch
    requires { 0 < sampler.block_size }
    ensures { result ≡ stretch_of sampler words first end }
{
    let block_size = sampler.block_size;
    Stretch {
        block_size,
        stride: words / block_size,
        first,
        end,
    }
}

// Refusal 18 where the sampler does not have the blocks from `first` to before `end`.
pub fn stretch_refusal(sampler: Head, first: usize, end: usize) -> Result<(), Refusal>
    ensures { refusal_of result ≡ stretch_refusal sampler first end }
{
    if first > end {
        return Err(Refusal::Stretch);
    }
    if end > blocks(sampler) {
        return Err(Refusal::Stretch);
    }
    Ok(())
}
