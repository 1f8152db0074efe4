// A run: the subsets that differ in their last bit alone. The rows of the other bits are ANDed once for all of them, their bins are worked out once, and from
// one to the next the ways above one bit change.
ghost use Rattle.std.specs.Prelude.{◌≡◌, ◌⊎◌, true, [], ◌∷◌, ◌++◌, ℕ, ◌+◌, ◌-◌, ◌^◌, ◌≤◌, ◌<◌, length, get_or, take, drop};
ghost use Rattle.counting.specs.Sample.{all_set, counts_of};
ghost use Rattle.counting.specs.Stretch.{StretchIn, span, stretch_bit};
ghost use Rattle.subsets.specs.Subsets.{Subset};
ghost use Rattle.subsets.specs.Stepping.{Stepped};
ghost use Rattle.subsets.specs.Choose.{choose};
ghost use Rattle.layers.specs.Store.{store_size};
ghost use Rattle.layers.specs.Gather.{Tops, Tables};
ghost use Rattle.layers.specs.Run.{Shared, Run, last_bit, leading};

use crate::bins::{Layered, rejoin_bins};
use crate::size::widest;
use counting::buffer::copy;
use counting::rows::multi_eval;
use subsets::stepping::successor;

// After entry `at`, the ways to choose 1, 2, .., `most` of m.
fn fill_row(run: &mut [u32], at: usize, m: usize, most: usize)
    requires m_bound { (m < 4294967296) × (most ≤ m + 1) × (at + most < length run.old) }
    requires by_index { (r : ℕ) → r ≤ most → choose m r < 2 ^ 32 }
    ensures by_index_2 { (r : ℕ) → 1 ≤ r → r ≤ most → get_or run.new (at + r) 0 ≡ choose m r }
    ensures by_index_3 { (w : ℕ) → (w ≤ at) ⊎ (at + most < w) → get_or run.new w 0 ≡ get_or run.old w 0 }
{
    let mut c: usize = 1;
    for r in 0..most {
        c = c * (m - r) / (r + 1);
        run[at + (r + 1)] = c as u32;
    }
}

// The ways above each of the bits, as far as a subset that is kept asks for them.
fn fill_ways(bits: &[u32], block_size: usize, run: &mut [u32])
    requires in_bounds { (1 ≤ length bits.now) × (length bits.now ≤ 20) × (block_size < 4294967296) }
    requires subset { Subset block_size (length bits.now) bits.now }
    requires bits_bound { store_size block_size (length bits.now) ≤ 2 ^ 32 }
    requires tops { Tops block_size (length bits.now) run.old }
    ensures { Tables block_size (length bits.now) bits.now run.new }
{
    let k = bits.len();
    let most = widest(k);
    for i in 0..k {
        let above = block_size - 1 - bits[i] as usize;
        fill_row(run, (i + 1) * 21, above, (k - i).min(most));
    }
}

impl Layered<'_> {
    // The counts of the run of the bits; those of a single bit stand in the store.
    fn count_run(&self, bits: &[u32], run: &mut [u32])
        requires block_size_bound { self.now.stretch.block_size < 4294967296 }
        requires subset { Subset self.now.stretch.block_size self.now.k bits.now }
        requires stretch_in { StretchIn self.now.stretch (length self.now.words.now) }
        requires block_size_in_bounds { 441 + self.now.stretch.block_size ≤ length run.old }
        ensures by_index { (b : ℕ) → last_bit bits.now ≤ b → b < self.now.stretch.block_size → get_or run.new (441 + b) 0 ≡ all_set (stretch_bit self.now.stretch self.now.words.now) (span self.now.stretch) (leading bits.now ++ (b ∷ [])) }
        ensures run_unchanged { take 441 run.new ≡ take 441 run.old }
    {
        let end = 441 + self.stretch.block_size;
        let at = bits.len() - 1;
        if at == 0 {
            copy(&self.store[..self.stretch.block_size], &mut run[441..end]);
            return;
        }
        let last = bits[at] as usize;
        let start = 441 + last;
        multi_eval(
            &bits[..at],
            last,
            self.words,
            self.stretch,
            &mut run[start..end],
        );
    }

    // The run of the bits, from them on, and the bins that its candidates share; the other bins among the first 2^k, and so many parts, are free.
    pub fn begin_run(&self, bits: &[u32], run: &mut [u32], parts: &mut [u32], bins: &mut [u32])
        requires block_size_bound { self.now.stretch.block_size < 4294967296 }
        requires subset { Subset self.now.stretch.block_size self.now.k bits.now }
        requires stretch_in { StretchIn self.now.stretch (length self.now.words.now) }
        requires tops { Tops self.now.stretch.block_size (length bits.now) run.old }
        requires bits_in_bounds { (2 ^ length bits.now ≤ length parts.old) × (2 ^ length bits.now ≤ length bins.old) }
        ensures run { Run (stretch_bit self.now.stretch self.now.words.now) (span self.now.stretch) self.now.stretch.block_size bits.now run.new }
        ensures shared { Shared (stretch_bit self.now.stretch self.now.words.now) (span self.now.stretch) bits.now bins.new }
        ensures bins_unchanged { drop (2 ^ length bits.now) bins.new ≡ drop (2 ^ length bits.now) bins.old }
        ensures parts_unchanged { drop (2 ^ length bits.now) parts.new ≡ drop (2 ^ length bits.now) parts.old }
    {
        fill_ways(bits, self.stretch.block_size, run);
        self.count_run(bits, run);
        self.share_bins(bits, run, parts, bins);
    }

    // Steps from a k-subset, whose bins stand, to the next, and its run with it; false where the bits are the last. Within a run the counts stand, and the bins
    // of the leading bits are put together again.
    pub fn advance(
        &self,
        bits: &mut [u32],
        run: &mut [u32],
        parts: &mut [u32],
        bins: &mut [u32],
    ) -> bool
        requires block_size_bound { self.now.stretch.block_size < 4294967296 }
        requires subset { Subset self.now.stretch.block_size self.now.k (take self.now.k bits.old) }
        requires stretch_in { StretchIn self.now.stretch (length self.now.words.now) }
        requires run { Run (stretch_bit self.now.stretch self.now.words.now) (span self.now.stretch) self.now.stretch.block_size (take self.now.k bits.old) run.old }
        requires k_in_bounds { (2 ^ self.now.k ≤ length parts.old) × (2 ^ self.now.k ≤ length bins.old) }
        requires bins_value { take (2 ^ self.now.k) bins.old ≡ counts_of (stretch_bit self.now.stretch self.now.words.now) (span self.now.stretch) (take self.now.k bits.old) }
        ensures stepped { Stepped self.now.stretch.block_size self.now.k bits.old result bits.new }
        ensures run_2 { result ≡ true → Run (stretch_bit self.now.stretch self.now.words.now) (span self.now.stretch) self.now.stretch.block_size (take self.now.k bits.new) run.new }
        ensures shared { result ≡ true → Shared (stretch_bit self.now.stretch self.now.words.now) (span self.now.stretch) (take self.now.k bits.new) bins.new }
        ensures tops { Tops self.now.stretch.block_size self.now.k run.new }
        ensures bins_unchanged { (drop (2 ^ self.now.k) bins.new ≡ drop (2 ^ self.now.k) bins.old) × (drop (2 ^ self.now.k) parts.new ≡ drop (2 ^ self.now.k) parts.old) }
    {
        let k = self.k;
        let block_size = self.stretch.block_size;
        let at = k - 1;
        let bit = bits[at] + 1;
        if (bit as usize) < block_size {
            bits[at] = bit;
            run[k * 21 + 1] = (block_size - 1) as u32 - bit;
            rejoin_bins(bins, k);
            return true;
        }
        if !successor(bits, k, block_size) {
            return false;
        }
        self.begin_run(&bits[..k], run, parts, bins);
        true
    }
}
