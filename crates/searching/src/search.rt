// The search, as a caller meets it: it refuses what it cannot search, and leaves everything as lent where it does.
ghost use Rattle.std.specs.Prelude.{◌≡◌, ◌*◌, ◌<◌, length};
ghost use Rattle.counting.specs.Refusal.{refusal_of};
ghost use Rattle.counting.specs.Stretch.{span, stretch_bit};
ghost use Rattle.layers.specs.Store.{store_suffices};
ghost use Rattle.searching.specs.Finding.{searched_of};
ghost use Rattle.searching.specs.Pass.{BufferRoom, Won};
ghost use Rattle.searching.specs.Refusal.{width_refusal, buffer_refusal, search_refusal, bottomup_refusal};
ghost use Rattle.searching.specs.Search.{BottomupSearch, store_after};

use crate::direct::brute_force_threads;
use crate::finding::{Finding, marked};
use crate::layered::brute_force;
use crate::sample::Sample;
use counting::block::bin_count;
use counting::refusal::Refusal;
use layers::size::store_suffices;
use sampling::sampler::{Head, sampler_refusal};
use sampling::stretch::{stretch_of, stretch_refusal};
use subsets::bits::valid_width;

// The best k-subset of the blocks from `first` to before `end` of a sampler, of which a search looks at the head alone: by layers where the store is long enough
// and its size at most 2^32, and the counts of the smaller subsets are then left in it; else every bin is counted, and the store stays as lent.
// Refusals 4, 18, 2, 3, 7.
pub fn bottomup(
    sampler: Head,
    words: &[u64],
    first: usize,
    end: usize,
    k: usize,
    store: &mut [u32],
    bins: &mut [u32],
    order: &mut [u32],
) -> Result<Finding, Refusal>
    ensures { BottomupSearch sampler words.now first end k store.old bins.old order.old (searched_of result) store.new bins.new order.new }
{
    bottomup_refusal(sampler, words.len(), first, end, k, bins.len(), order.len())?;
    let stretch = stretch_of(sampler, words.len(), first, end);
    let sample = Sample { words, stretch, k };
    let finding = search_stretch(&sample, store, bins, order);
    Ok(marked(finding, sampler.low_first))
}

// The best k-subset of a stretch, in the way that the store allows.
fn search_stretch(
    sample: &Sample<'_>,
    store: &mut [u32],
    bins: &mut [u32],
    order: &mut [u32],
) -> Finding
    requires buffer_room { BufferRoom sample.now.k bins.old order.old }
    ensures won { Won (stretch_bit sample.now.stretch sample.now.words.now) (span sample.now.stretch) sample.now.stretch.block_size sample.now.k bins.old order.old result bins.new order.new }
    ensures store_after { store.new ≡ store_after 0 (store_suffices sample.now.stretch.block_size sample.now.k (length store.old)) (stretch_bit sample.now.stretch sample.now.words.now) (span sample.now.stretch) sample.now.stretch.block_size sample.now.k store.old }
{
    if store_suffices(sample.stretch.block_size, sample.k, store.len()) {
        return brute_force(sample, store, bins, order);
    }
    brute_force_threads(sample, bins, order)
}

// Refusals 4, 18, 2, 3, 7 where no search can be made.
fn bottomup_refusal(
    sampler: Head,
    words: usize,
    first: usize,
    end: usize,
    k: usize,
    bins: usize,
    order: usize,
) -> Result<(), Refusal>
    requires { 8 * words < 9223372036854775808 }
    ensures { refusal_of result ≡ bottomup_refusal sampler words first end k bins order }
{
    search_refusal(sampler, words, first, end, k)?;
    buffer_refusal(k, bins, order)
}

// Refusals 4, 18, 2, 3 where the sampler has not these words or the blocks of the stretch, or the width does not fit its block.
fn search_refusal(
    sampler: Head,
    words: usize,
    first: usize,
    end: usize,
    k: usize,
) -> Result<(), Refusal>
    requires { 8 * words < 9223372036854775808 }
    ensures { refusal_of result ≡ search_refusal sampler words first end k }
{
    sampler_refusal(sampler, words)?;
    stretch_refusal(sampler, first, end)?;
    width_refusal(sampler.block_size, k)
}

// Refusals 2, 3 where the width does not fit the block.
pub fn width_refusal(block_size: usize, k: usize) -> Result<(), Refusal>
    ensures { refusal_of result ≡ width_refusal block_size k }
{
    if !valid_width(k) {
        return Err(Refusal::Width);
    }
    if k > block_size {
        return Err(Refusal::WidthAboveBlock);
    }
    Ok(())
}

// Refusal 7 where a buffer has fewer than 2 ^ k entries.
pub fn buffer_refusal(k: usize, bins: usize, order: usize) -> Result<(), Refusal>
    requires { k < 21 }
    ensures { refusal_of result ≡ buffer_refusal k bins order }
{
    let m = bin_count(k);
    if bins < m || order < m {
        return Err(Refusal::Buffer);
    }
    Ok(())
}
