// From the counts of the blocks that have at least some bits set to the counts of the bins.
ghost use Rattle.std.specs.Prelude.{◌≡◌, ◌⊎◌, List, ℕ, ◌+◌, ◌*◌, ◌/◌, ◌^◌, ◌≤◌, ◌<◌, length, get_or};
ghost use Rattle.counting.specs.Sample.{count_in};
ghost use Rattle.layers.specs.Settle.{Covered, Settles, Reduced, Paired, Stepped, FallsInFours, Fours};

// From `at` on, `step` entries less the `step` entries after them.
pub fn reduce(bins: &mut [u32], at: usize, step: usize)
    requires step_in_bounds { at + 2 * step ≤ length bins.old }
    requires by_index { (i : ℕ) → i < step → get_or bins.old (at + step + i) 0 ≤ get_or bins.old (at + i) 0 }
    ensures { Reduced at step step bins.old bins.new }
{
    for i in 0..step {
        bins[at + i] -= bins[at + step + i];
    }
}

// Each first of a pair less its second.
fn reduce_each(bins: &mut [u32], step: usize)
    requires step_bound { step ≤ 1048576 }
    requires paired { Paired step bins.old }
    ensures { Stepped step (length bins.old / (2 * step)) bins.old bins.new }
{
    let pair = 2 * step;
    for turn in 0..bins.len() / pair {
        reduce(bins, turn * pair, step);
    }
}

// The first two places, four entries at a turn: a, b, c, d become a − b − (c − d), b − d, c − d, d, as by `reduce_each` with the steps 1 and 2.
fn reduce_fours(bins: &mut [u32])
    requires { FallsInFours bins.old }
    ensures { Fours (length bins.old) bins.old bins.new }
{
    for four in 0..bins.len() / 4 {
        let at = 4 * four;
        let both = bins[at + 3];
        let first = bins[at + 1];
        let second = bins[at + 2] - both;
        bins[at] = bins[at] - first - second;
        bins[at + 1] = first - both;
        bins[at + 2] = second;
    }
}

// The first two places where there are so many, else none; the number of places that are settled.
fn first_places(upper: &mut [u32], j: usize) -> usize
    requires { 2 ≤ j → FallsInFours upper.old }
    ensures { ((result ≡ 0) × (upper.new ≡ upper.old)) ⊎ ((result ≡ 2) × (2 ≤ j) × Fours (length upper.old) upper.old upper.new) }
{
    if j < 2 {
        return 0;
    }
    reduce_fours(upper);
    2
}

// Entry u is the number of blocks that have the last of j + 1 bits and at least the bits of u set; the first two bits are settled at once
// and the others one after the other, so that at the end it is the number of those that have the last and just the bits of u set. The promise is of every sample of which the entries are so.
pub fn settle(upper: &mut [u32], j: usize)
    requires j_bound { j < 20 }
    requires settles { Settles j upper.old }
    ensures { (bit : ℕ → ℕ → ℕ) (n : ℕ) (bits : List ℕ) → Covered bit n j bits upper.old → (v : ℕ) → v < 2 ^ j → get_or upper.new v 0 ≡ count_in bit n bits (2 ^ j + v) }
{
    for i in first_places(upper, j)..j {
        reduce_each(upper, 1 << i as u32);
    }
}
