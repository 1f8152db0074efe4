// The search of training bytes, in lent words.
ghost use Rattle.std.specs.Prelude.{length};
ghost use Rattle.judging.specs.Training.{Trainable, Trained};

use sampling::feeding::feed;
use sampling::sampler::{blocks, start};
use searching::finding::Finding;
use searching::search::bottomup;

// The best subset of the training bytes in the bit order; its bin order stands in the first 2 ^ k entries of the order buffer afterwards.
// The other entries of the order buffer, the words, the store and the bin buffer are free.
pub fn train(
    block_size: usize,
    k: usize,
    low_first: bool,
    training: &[u8],
    words: &mut [u64],
    store: &mut [u32],
    bins: &mut [u32],
    order: &mut [u32],
) -> Finding
    requires { Trainable block_size k (length training.now) (length words.old) (length bins.old) (length order.old) }
    ensures { Trained block_size low_first k training.now result order.new }
{
    let fresh = start(block_size, low_first, words).unwrap();
    let sampler = feed(fresh, words, 0, training).unwrap();
    let n = blocks(sampler.head);
    bottomup(sampler.head, words, 0, n, k, store, bins, order).unwrap()
}
