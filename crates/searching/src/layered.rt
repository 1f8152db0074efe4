// The layered search of a stretch: the counts of the smaller subsets first, then one pass over the subsets of the width searched.
ghost use Rattle.std.specs.Prelude.{◌≡◌, ◌++◌, ◌+◌, ◌≤◌, length, drop};
ghost use Rattle.counting.specs.Stretch.{span, stretch_bit};
ghost use Rattle.layers.specs.Store.{store_of, store_size, Roomy};
ghost use Rattle.searching.specs.Pass.{BufferRoom, Won};

use crate::finding::Finding;
use crate::pass::find;
use crate::sample::Sample;
use layers::store::fill_store;

// Finds the best k-subset: one bin of each is counted, and the others are worked out from the counts of its subsets, which are left in the store; its other
// entries stay.
pub fn brute_force(
    sample: &Sample<'_>,
    store: &mut [u32],
    bins: &mut [u32],
    order: &mut [u32],
) -> Finding
    requires roomy { Roomy sample.now.stretch.block_size sample.now.k (length store.old) }
    requires buffer_room { BufferRoom sample.now.k bins.old order.old }
    ensures won { Won (stretch_bit sample.now.stretch sample.now.words.now) (span sample.now.stretch) sample.now.stretch.block_size sample.now.k bins.old order.old result bins.new order.new }
    ensures store_after { store.new ≡ store_of (stretch_bit sample.now.stretch sample.now.words.now) (span sample.now.stretch) sample.now.stretch.block_size sample.now.k ++ drop (store_size sample.now.stretch.block_size sample.now.k) store.old }
{
    // A block has at most 4,096 bits; where it has at most 256, to fill more would cost a search of few blocks as much as its counts.
    if sample.stretch.block_size > 256 {
        find_in_run::<4537>(sample, store, bins, order)
    } else {
        find_in_run::<697>(sample, store, bins, order)
    }
}

// The same with room for the N numbers of a run, with a count for each bit.
fn find_in_run<const N: usize>(
    sample: &Sample<'_>,
    store: &mut [u32],
    bins: &mut [u32],
    order: &mut [u32],
) -> Finding
    requires block_size_in_bounds { (441 + sample.now.stretch.block_size ≤ N) × (N ≤ 4537) }
    requires roomy { Roomy sample.now.stretch.block_size sample.now.k (length store.old) }
    requires buffer_room { BufferRoom sample.now.k bins.old order.old }
    ensures won { Won (stretch_bit sample.now.stretch sample.now.words.now) (span sample.now.stretch) sample.now.stretch.block_size sample.now.k bins.old order.old result bins.new order.new }
    ensures store_after { store.new ≡ store_of (stretch_bit sample.now.stretch sample.now.words.now) (span sample.now.stretch) sample.now.stretch.block_size sample.now.k ++ drop (store_size sample.now.stretch.block_size sample.now.k) store.old }
{
    let mut run = [0; N];
    fill_store(sample.k, sample.words, sample.stretch, &mut run, store);
    find(sample, store, &mut run, bins, order)
}
