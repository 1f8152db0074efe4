// The entries after n blocks, made in place. A block makes 0 of two entries that are 0, so that only the entries between the zeros at a row's two ends are
// gone through: the time goes by how many entries there are of which something is left.
ghost use Rattle.std.specs.Prelude.{◌≡◌, ◌++◌, ℕ, suc, ◌-◌, ◌^◌, ◌≤◌, ◌<◌, length, get_or, take, drop};
ghost use Rattle.chance.specs.Entries.{next_entry, next_row, entries_after};
ghost use Rattle.chance.specs.Zeros.{Row};

use counting::block::bin_count;

// How a block's 2^k bins part: into the d that are positive and those without.
#[derive(Clone, Copy)]
struct Odds {
    k: usize,
    d: u64,
    without: u64,
    ghost parted: { (k ≤ 20) × (d < 2 ^ k) × (without ≡ 2 ^ k - d) },
}

impl Odds {
    fn new(k: usize, d: u64) -> Odds
        requires { (k ≤ 20) × (d < 2 ^ k) }
        ensures { (result.k ≡ k) × (result.d ≡ d) }
    {
        Odds {
            k,
            d,
            without: bin_count(k) as u64 - d,
        }
    }

    // What a block makes of the entry x and the entry y before it.
    fn next_entry(self, x: u64, y: u64) -> u64
        requires { (x ≤ 2 ^ 40) × (y ≤ 2 ^ 40) }
        ensures { result ≡ next_entry self.k self.d x y }
    {
        (x * self.without + y * self.d) >> self.k
    }
}

// The entries after n blocks, at the start of the scratch.
pub fn entries_after(n: usize, k: usize, d: u64, scratch: &mut [u64])
    requires { (n < length scratch.old) × (k ≤ 20) × (d < 2 ^ k) }
    ensures { scratch.new ≡ entries_after n k d ++ drop (suc n) scratch.old }
{
    let odds = Odds::new(k, d);
    scratch[0] = 1099511627776;
    let mut from: usize = 0;
    let mut to: usize = 1;
    for t in 0..n {
        next_row(t + 1, from, to, odds, scratch);
        from = past_zeros(from, to + 1, scratch);
        to = before_zeros(from, to + 1, scratch);
    }
}

// One block more: from the m entries at the start m + 1 are made, from the highest down, so that each is read before it is replaced.
fn next_row(m: usize, from: usize, to: usize, odds: Odds, scratch: &mut [u64])
    requires m_in_bounds { m < length scratch.old }
    requires row { Row m from to scratch.old }
    ensures { scratch.new ≡ next_row odds.k odds.d (take m scratch.old) ++ drop (suc m) scratch.old }
{
    scratch[m] = 0;
    for j in (from..to).rev() {
        scratch[j + 1] = odds.next_entry(scratch[j + 1], scratch[j]);
    }
    scratch[from] = odds.next_entry(scratch[from], 0);
}

// A place past zeros that the entries from `from` to before `to` begin with.
fn past_zeros(from: usize, to: usize, scratch: &[u64]) -> usize
    requires { (from ≤ to) × (to ≤ length scratch.now) }
    ensures { (from ≤ result) × (result ≤ to) × ((j : ℕ) → from ≤ j → j < result → get_or scratch.now j 0 ≡ 0) }
{
    match scratch[from..to].iter().position(|entry| *entry != 0) {
        Some(zeros) => from + zeros,
        None => to,
    }
}

// A place before zeros that they end with.
fn before_zeros(from: usize, to: usize, scratch: &[u64]) -> usize
    requires { (from ≤ to) × (to ≤ length scratch.now) }
    ensures { (from ≤ result) × (result ≤ to) × ((j : ℕ) → result ≤ j → j < to → get_or scratch.now j 0 ≡ 0) }
{
    match scratch[from..to].iter().rposition(|entry| *entry != 0) {
        Some(last) => from + last + 1,
        None => from,
    }
}
