// The store, filled from one size of subsets to the next. Subsets that differ in their last bit alone stand together, so a run of them is counted where it belongs.
ghost use Rattle.std.specs.Prelude.{◌≡◌, ◌+◌, ◌-◌, ◌≤◌, ◌<◌, length, drop};
ghost use Rattle.counting.specs.Stretch.{StretchIn, span, stretch_bit};
ghost use Rattle.layers.specs.Store.{size_to, store_size, HoldsTo, Roomy, Holds};
ghost use Rattle.layers.specs.Gather.{Tops};

use crate::size::widest;
use counting::rows::multi_eval;
use counting::stretch::Stretch;
use subsets::stepping::{first, successor};

// From the subsets of d - 1 bits and fewer, of which there are `start`, to those of d; answers how many there are then.
pub fn fill_size(
    d: usize,
    start: usize,
    words: &[u64],
    stretch: Stretch,
    store: &mut [u32],
) -> usize
    requires le_d { (1 ≤ d) × (d ≤ 20) × (d ≤ stretch.block_size) × (stretch.block_size < 4294967296) }
    requires stretch_in { StretchIn stretch (length words.now) }
    requires start_value { start ≡ size_to stretch.block_size (d - 1) }
    requires d_in_bounds { size_to stretch.block_size d ≤ length store.old }
    requires holds_to { HoldsTo (stretch_bit stretch words.now) (span stretch) stretch.block_size (d - 1) store.old }
    ensures value { result ≡ size_to stretch.block_size d }
    ensures holds_to_2 { HoldsTo (stretch_bit stretch words.now) (span stretch) stretch.block_size d store.new }
    ensures store_unchanged { drop (size_to stretch.block_size d) store.new ≡ drop (size_to stretch.block_size d) store.old }
{
    let block_size = stretch.block_size;
    let mut bits = first(d);
    let mut at = start;
    loop {
        let last = bits[d - 1] as usize;
        let end = at + (block_size - last);
        multi_eval(&bits[..d - 1], last, words, stretch, &mut store[at..end]);
        bits[d - 1] = (block_size - 1) as u32;
        if !successor(&mut bits, d, block_size) {
            return end;
        }
        at = end;
    }
}

// All counts that the search for k bits keeps, and in row 0 of a run's numbers the place of the last subset of each size; the other numbers are free.
pub fn fill_store(k: usize, words: &[u64], stretch: Stretch, run: &mut [u32], store: &mut [u32])
    requires le_k { (1 ≤ k) × (k ≤ 20) × (k ≤ stretch.block_size) × (stretch.block_size < 4294967296) }
    requires stretch_in { StretchIn stretch (length words.now) }
    requires roomy { Roomy stretch.block_size k (length store.old) }
    requires block_size_in_bounds { 441 + stretch.block_size ≤ length run.old }
    ensures holds { Holds (stretch_bit stretch words.now) (span stretch) stretch.block_size k store.new }
    ensures store_unchanged { drop (store_size stretch.block_size k) store.new ≡ drop (store_size stretch.block_size k) store.old }
    ensures tops { Tops stretch.block_size k run.new }
{
    let most = widest(k);
    let mut at: usize = 0;
    for d in 1..most + 1 {
        at = fill_size(d, at, words, stretch, store);
        run[d] = (at - 1) as u32;
    }
}
