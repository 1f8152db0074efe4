// The entries of the subsets of a subset, read from the store.
ghost use Rattle.std.specs.Prelude.{◌≡◌, ℕ, ◌+◌, ◌-◌, ◌^◌, ◌≤◌, ◌<◌, length, get_or};
ghost use Rattle.subsets.specs.Subsets.{Subset};
ghost use Rattle.layers.specs.Store.{widest, Roomy, Holds};
ghost use Rattle.layers.specs.Settle.{chosen};
ghost use Rattle.layers.specs.Gather.{Tables, Gathered, Spared};

// Number by number. The part of u is how far its entry stands from the last of its size: that of u without its lowest one, and the ways to go on above
// that one.
fn gather_ones(
    bits: &[u32],
    block_size: usize,
    k: usize,
    end: usize,
    store: &[u32],
    run: &[u32],
    parts: &mut [u32],
    bins: &mut [u32],
)
    requires in_bounds { (1 ≤ length bits.now) × (length bits.now ≤ 20) }
    requires subset { Subset block_size (length bits.now) bits.now }
    requires k_bound { (k ≤ 20) × (end ≤ 2 ^ length bits.now) × (2 ^ length bits.now ≤ end + 1) × ((u : ℕ) → u < end → length (chosen bits.now u) ≤ widest k) }
    requires roomy { Roomy block_size k (length store.now) }
    requires tables { Tables block_size k bits.now run.now }
    requires bits_in_bounds { (2 ^ length bits.now ≤ length parts.old) × (2 ^ length bits.now ≤ length bins.old) }
    ensures by_index { (bit : ℕ → ℕ → ℕ) (n : ℕ) → Holds bit n block_size k store.now → Gathered bit n bits.now (2 ^ (length bits.now - 1)) end bins.new }
    ensures spared { Spared (2 ^ (length bits.now - 1)) end bins.old bins.new }
    ensures by_index_2 { (w : ℕ) → 2 ^ length bits.now ≤ w → get_or parts.new w 0 ≡ get_or parts.old w 0 }
{
    let half: usize = 1 << (bits.len() - 1) as u32;
    parts[0] = 0;
    for u in half..end {
        let i = u32::trailing_zeros(u as u32) as usize;
        let d = u32::count_ones(u as u32) as usize;
        let part = run[(i + 1) * 21 + d] + parts[u - (1 << i)];
        parts[u] = part;
        bins[u] = store[(run[d] - part) as usize];
    }
}

// Four numbers at a turn, of which the first is a multiple of 4, so that its ones tell those of the three after it, whose lowest ones are at places 0, 1
// and 0. Without its lowest one, the fourth is the third. Parts of multiples of 4 alone are read in later turns, so no others are kept. In all there
// are a multiple of 4 numbers, so that only the fourth of a turn can be the one that is left out.
fn gather_fours(
    bits: &[u32],
    block_size: usize,
    k: usize,
    end: usize,
    store: &[u32],
    run: &[u32],
    parts: &mut [u32],
    bins: &mut [u32],
)
    requires in_bounds { (3 ≤ length bits.now) × (length bits.now ≤ 20) }
    requires subset { Subset block_size (length bits.now) bits.now }
    requires k_bound { (k ≤ 20) × (end ≤ 2 ^ length bits.now) × (2 ^ length bits.now ≤ end + 1) × ((u : ℕ) → u < end → length (chosen bits.now u) ≤ widest k) }
    requires roomy { Roomy block_size k (length store.now) }
    requires tables { Tables block_size k bits.now run.now }
    requires bits_in_bounds { (2 ^ length bits.now ≤ length parts.old) × (2 ^ length bits.now ≤ length bins.old) }
    ensures by_index { (bit : ℕ → ℕ → ℕ) (n : ℕ) → Holds bit n block_size k store.now → Gathered bit n bits.now (2 ^ (length bits.now - 1)) end bins.new }
    ensures spared { Spared (2 ^ (length bits.now - 1)) end bins.old bins.new }
    ensures by_index_2 { (w : ℕ) → 2 ^ length bits.now ≤ w → get_or parts.new w 0 ≡ get_or parts.old w 0 }
{
    let half: usize = 1 << (bits.len() - 1) as u32;
    parts[0] = 0;
    for four in half / 4..end.div_ceil(4) {
        let u = 4 * four;
        let i = u32::trailing_zeros(u as u32) as usize;
        let d = u32::count_ones(u as u32) as usize;
        let part = run[(i + 1) * 21 + d] + parts[u - (1 << i)];
        parts[u] = part;
        let third = run[43 + d] + part;
        let top = run[d + 1];
        bins[u] = store[(run[d] - part) as usize];
        bins[u + 1] = store[(top - (run[22 + d] + part)) as usize];
        bins[u + 2] = store[(top - third) as usize];
        if u + 3 < end {
            bins[u + 3] = store[(run[d + 2] - (run[23 + d] + third)) as usize];
        }
    }
}

// Entry u of the bins, for each u below `end` that chooses the last of the bits: the number of blocks that have the bits set that u chooses.
// Of the bits, the block size and the width searched only the promise speaks, but for the number of bits.
// With one or two bits the first number is no multiple of 4.
pub fn gather(
    bits: &[u32],
    block_size: usize,
    k: usize,
    end: usize,
    store: &[u32],
    run: &[u32],
    parts: &mut [u32],
    bins: &mut [u32],
)
    requires in_bounds { (1 ≤ length bits.now) × (length bits.now ≤ 20) }
    requires subset { Subset block_size (length bits.now) bits.now }
    requires k_bound { (k ≤ 20) × (end ≤ 2 ^ length bits.now) × (2 ^ length bits.now ≤ end + 1) × ((u : ℕ) → u < end → length (chosen bits.now u) ≤ widest k) }
    requires roomy { Roomy block_size k (length store.now) }
    requires tables { Tables block_size k bits.now run.now }
    requires bits_in_bounds { (2 ^ length bits.now ≤ length parts.old) × (2 ^ length bits.now ≤ length bins.old) }
    ensures by_index { (bit : ℕ → ℕ → ℕ) (n : ℕ) → Holds bit n block_size k store.now → Gathered bit n bits.now (2 ^ (length bits.now - 1)) end bins.new }
    ensures spared { Spared (2 ^ (length bits.now - 1)) end bins.old bins.new }
    ensures by_index_2 { (w : ℕ) → 2 ^ length bits.now ≤ w → get_or parts.new w 0 ≡ get_or parts.old w 0 }
{
    if bits.len() < 3 {
        gather_ones(bits, block_size, k, end, store, run, parts, bins);
    } else {
        gather_fours(bits, block_size, k, end, store, run, parts, bins);
    }
}
