// The bins of a subset from those of the bits before its last, its own count and the counts of its subsets in the store.
ghost use Rattle.std.specs.Prelude.{◌≡◌, ◌++◌, ℕ, ◌+◌, ◌-◌, ◌*◌, ◌^◌, ◌≤◌, ◌<◌, length, get_or, drop};
ghost use Rattle.counting.specs.Sample.{all_set, counts_of};
ghost use Rattle.counting.specs.Stretch.{Within, span, stretch_bit};
ghost use Rattle.subsets.specs.Subsets.{Subset};
ghost use Rattle.layers.specs.Store.{Holds};
ghost use Rattle.layers.specs.Gather.{Tables};
ghost use Rattle.layers.specs.Run.{Halved, Shared, Run, Single, Pair};

use crate::gather::gather;
use crate::settle::{reduce, settle};
use counting::stretch::{Stretch, span};

// What a search by layers goes by: a stretch of the words, the width at which it is searched, and the store with the counts of the smaller subsets.
// Kept: that the words hold the stretch is a clause of those that read it, since `compute_bins`, which docs/RULES.md names, does not ask for it.
#[derive(Clone, Copy)]
pub struct Layered<'a> {
    pub words: &'a [u64],
    pub stretch: Stretch,
    pub k: usize,
    pub store: &'a [u32],
    ghost width: { (1 ≤ k) × (k ≤ 20) },
    ghost holds: { Holds (stretch_bit stretch words.now) (span stretch) stretch.block_size k store.now },
}

impl Layered<'_> {
    // The first half of the bins are those of the bits before the last. The blocks that have the last bit set go to the second half, whose entries with at
    // least some bits set stand in the store; all bits are k only for a candidate, and `count` is then its own. What is left in the first half has it not set.
    // The first entries of parts are free.
    fn split_bins(&self, bits: &[u32], count: u32, run: &[u32], parts: &mut [u32], bins: &mut [u32])
        requires in_bounds { (1 ≤ length bits.now) × (length bits.now ≤ self.now.k) }
        requires subset { Subset self.now.stretch.block_size (length bits.now) bits.now }
        requires count_value { length bits.now ≡ self.now.k → count ≡ all_set (stretch_bit self.now.stretch self.now.words.now) (span self.now.stretch) bits.now }
        requires tables { Tables self.now.stretch.block_size self.now.k bits.now run.now }
        requires bits_in_bounds { (2 ^ length bits.now ≤ length parts.old) × (2 ^ length bits.now ≤ length bins.old) }
        requires halved { Halved (stretch_bit self.now.stretch self.now.words.now) (span self.now.stretch) bits.now bins.old }
        ensures bins_after { bins.new ≡ counts_of (stretch_bit self.now.stretch self.now.words.now) (span self.now.stretch) bits.now ++ drop (2 ^ length bits.now) bins.old }
        ensures parts_unchanged { drop (2 ^ length bits.now) parts.new ≡ drop (2 ^ length bits.now) parts.old }
    {
        let last = bits.len() - 1;
        let half: usize = 1 << last as u32;
        let all = 2 * half;
        let end = kept_numbers(all, bits.len(), self.k);
        bins[all - 1] = count;
        gather(
            bits,
            self.stretch.block_size,
            self.k,
            end,
            self.store,
            run,
            parts,
            bins,
        );
        settle(&mut bins[half..all], last);
        reduce(bins, 0, half);
    }

    // The bins of the bits before the last: those of no bit, which are all blocks, split by one bit after the other.
    fn leading_bins(&self, bits: &[u32], run: &[u32], parts: &mut [u32], bins: &mut [u32])
        requires within { Within self.now.stretch }
        requires subset { Subset self.now.stretch.block_size self.now.k bits.now }
        requires tables { Tables self.now.stretch.block_size (length bits.now) bits.now run.now }
        requires bits_in_bounds { (2 ^ length bits.now ≤ length parts.old) × (2 ^ length bits.now ≤ length bins.old) }
        ensures halved { Halved (stretch_bit self.now.stretch self.now.words.now) (span self.now.stretch) bits.now bins.new }
        ensures bins_unchanged { drop (2 ^ length bits.now) bins.new ≡ drop (2 ^ length bits.now) bins.old }
        ensures parts_unchanged { drop (2 ^ length bits.now) parts.new ≡ drop (2 ^ length bits.now) parts.old }
    {
        let k = bits.len();
        bins[0] = span(self.stretch);
        for m in 1..k {
            self.split_bins(&bits[..m], 0, run, parts, bins);
        }
    }

    // The same where the bits are three or more, and else nothing: the bins of fewer are written straight.
    pub fn share_bins(&self, bits: &[u32], run: &[u32], parts: &mut [u32], bins: &mut [u32])
        requires within { Within self.now.stretch }
        requires subset { Subset self.now.stretch.block_size self.now.k bits.now }
        requires tables { Tables self.now.stretch.block_size (length bits.now) bits.now run.now }
        requires bits_in_bounds { (2 ^ length bits.now ≤ length parts.old) × (2 ^ length bits.now ≤ length bins.old) }
        ensures shared { Shared (stretch_bit self.now.stretch self.now.words.now) (span self.now.stretch) bits.now bins.new }
        ensures bins_unchanged { drop (2 ^ length bits.now) bins.new ≡ drop (2 ^ length bits.now) bins.old }
        ensures parts_unchanged { drop (2 ^ length bits.now) parts.new ≡ drop (2 ^ length bits.now) parts.old }
    {
        if bits.len() < 3 {
            return;
        }
        self.leading_bins(bits, run, parts, bins);
    }

    // The bin counts of a candidate of three bits or more, whose run stands.
    pub fn compute_bins(&self, bits: &[u32], run: &[u32], parts: &mut [u32], bins: &mut [u32])
        requires wide { 3 ≤ self.now.k }
        requires subset { Subset self.now.stretch.block_size self.now.k bits.now }
        requires run { Run (stretch_bit self.now.stretch self.now.words.now) (span self.now.stretch) self.now.stretch.block_size bits.now run.now }
        requires shared { Shared (stretch_bit self.now.stretch self.now.words.now) (span self.now.stretch) bits.now bins.old }
        requires bits_in_bounds { (2 ^ length bits.now ≤ length parts.old) × (2 ^ length bits.now ≤ length bins.old) }
        ensures bins_after { bins.new ≡ counts_of (stretch_bit self.now.stretch self.now.words.now) (span self.now.stretch) bits.now ++ drop (2 ^ length bits.now) bins.old }
        ensures parts_unchanged { drop (2 ^ length bits.now) parts.new ≡ drop (2 ^ length bits.now) parts.old }
    {
        let k = bits.len();
        let count = run[441 + bits[k - 1] as usize];
        self.split_bins(bits, count, run, parts, bins);
    }

    // Those of one of one bit or two, written straight: a search for so few would wait for loops longer than for these.
    // Apart from the others, since the machine code would make a copy of each slice that is passed on before it looks at the width.
    pub fn few_bins(&self, bits: &[u32], run: &[u32], bins: &mut [u32])
        requires few { self.now.k ≤ 2 }
        requires within { Within self.now.stretch }
        requires subset { Subset self.now.stretch.block_size self.now.k bits.now }
        requires run { Run (stretch_bit self.now.stretch self.now.words.now) (span self.now.stretch) self.now.stretch.block_size bits.now run.now }
        requires bits_in_bounds { 2 ^ length bits.now ≤ length bins.old }
        ensures { bins.new ≡ counts_of (stretch_bit self.now.stretch self.now.words.now) (span self.now.stretch) bits.now ++ drop (2 ^ length bits.now) bins.old }
    {
        let last = bits[bits.len() - 1] as usize;
        let count = run[441 + last];
        let n = span(self.stretch);
        if bits.len() == 1 {
            single_bins(n, count, bins);
            return;
        }
        let before = bits[0] as usize;
        pair_bins(n, self.store[before], self.store[last], count, bins);
    }
}

// Of the numbers below `all` that choose among m bits those whose subset is kept: all but the last, which chooses all of them, where they are k.
fn kept_numbers(all: usize, m: usize, k: usize) -> usize
    requires { 1 ≤ all }
    ensures { (m < k → result ≡ all) × (k ≤ m → result + 1 ≡ all) }
{
    if m < k { all } else { all - 1 }
}

// The four bins of two bits.
fn pair_bins(n: u32, first: u32, second: u32, count: u32, bins: &mut [u32])
    requires { (4 ≤ length bins.old) × (count ≤ first) × (count ≤ second) × (first + second ≤ n + count) }
    ensures { Pair n first second count bins.old bins.new }
{
    let other = second - count;
    bins[0] = n - first - other;
    bins[1] = first - count;
    bins[2] = other;
    bins[3] = count;
}

// The two bins of one.
fn single_bins(n: u32, count: u32, bins: &mut [u32])
    requires { (2 ≤ length bins.old) × (count ≤ n) }
    ensures { Single n count bins.old bins.new }
{
    bins[0] = n - count;
    bins[1] = count;
}

// The bins of a candidate of k bits back to what its run shares, where they are three or more: the entries of the second half are added to the first.
pub fn rejoin_bins(bins: &mut [u32], k: usize)
    requires le_k { (1 ≤ k) × (k ≤ 20) × (2 ^ k ≤ length bins.old) }
    requires by_index { (v : ℕ) → v < 2 ^ (k - 1) → get_or bins.old v 0 + get_or bins.old (2 ^ (k - 1) + v) 0 < 4294967296 }
    ensures v_after { 3 ≤ k → (v : ℕ) → v < 2 ^ (k - 1) → get_or bins.new v 0 ≡ get_or bins.old v 0 + get_or bins.old (2 ^ (k - 1) + v) 0 }
    ensures bins_unchanged { drop (2 ^ (k - 1)) bins.new ≡ drop (2 ^ (k - 1)) bins.old }
{
    if k < 3 {
        return;
    }
    join_bins(bins, 1 << (k - 1) as u32);
}

// Adds the entries of the second half to those of the first.
fn join_bins(bins: &mut [u32], half: usize)
    requires half_in_bounds { 2 * half ≤ length bins.old }
    requires by_index { (v : ℕ) → v < half → get_or bins.old v 0 + get_or bins.old (half + v) 0 < 4294967296 }
    ensures by_index_2 { (v : ℕ) → v < half → get_or bins.new v 0 ≡ get_or bins.old v 0 + get_or bins.old (half + v) 0 }
    ensures bins_unchanged { drop half bins.new ≡ drop half bins.old }
{
    for v in 0..half {
        bins[v] += bins[half + v];
    }
}
