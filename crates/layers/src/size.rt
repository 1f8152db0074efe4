// How many entries the store must have: compared exactly up to 2^32.
ghost use Rattle.std.specs.Prelude.{◌≡◌, ◌≤◌, ◌<◌};
ghost use Rattle.subsets.specs.Choose.{up_to};
ghost use Rattle.layers.specs.Store.{widest, store_size, store_suffices, store_needed};

use counting::block::valid_block_size;
use subsets::bits::valid_width;
use subsets::choose::choose_up_to;

// The most bits of a subset that is kept.
pub fn widest(k: usize) -> usize
    ensures { result ≡ widest k }
{
    // Kept: k.saturating_sub(1).max(1) is no plainer, and hides the 2 from which on pairs are kept.
    if k > 2 { k - 1 } else { 1 }
}

// The size of the store where it is at most 2^32, and else 2^32 + 1. The sum fits, since `choose_up_to` stops at 2^32 + 1 too.
pub fn store_size(block_size: usize, k: usize) -> usize
    requires { (block_size < 4294967296) × (k ≤ 20) }
    ensures { result ≡ up_to (store_size block_size k) }
{
    let most = widest(k);
    let mut size: usize = 0;
    for d in 1..most + 1 {
        size += choose_up_to(block_size, d);
    }
    size.min(4294967297)
}

// Whether a store of a entries is long enough, and its size at most 2^32.
pub fn store_suffices(block_size: usize, k: usize, a: usize) -> bool
    requires { (block_size < 4294967296) × (k ≤ 20) }
    ensures { result ≡ store_suffices block_size k a }
{
    let size = store_size(block_size, k);
    if size > 4294967296 {
        return false;
    }
    size <= a
}

// How many entries a store must have for a search by layers; 0 where no store makes it one.
pub fn store_needed(block_size: usize, k: usize) -> usize
    ensures { result ≡ store_needed block_size k }
{
    if !valid_block_size(block_size) {
        return 0;
    }
    if !valid_width(k) {
        return 0;
    }
    if k > block_size {
        return 0;
    }
    let size = store_size(block_size, k);
    // Kept: store_needed has 0 where no store makes it so, as jimrawel_store_needed of the C interface does.
    if size > 4294967296 { 0 } else { size }
}
