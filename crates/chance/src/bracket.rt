// The chance of at least c positives among n blocks, each positive with probability d / 2^k, bracketed in units of 2^-40.
ghost use Rattle.std.specs.Prelude.{◌≡◌, ℕ, ◌^◌, ◌≤◌, ◌<◌, length, get_or};
ghost use Rattle.counting.specs.Refusal.{refusal_of};
ghost use Rattle.chance.specs.Chance.{sum_from};
ghost use Rattle.chance.specs.Entries.{entry};
ghost use Rattle.chance.specs.Bracket.{roundings, bracket_refusal, bracketed_of, bracket_of, bracket_scratch};

use crate::entries::entries_after;
use counting::block::bin_count;
use counting::refusal::Refusal;
use subsets::bits::valid_width;

// Both ends of a chance times 2^40.
#[derive(Clone, Copy, Debug, PartialEq, Eq)]
pub struct Ends {
    pub low: u64,
    pub high: u64,
}

// Both ends of the chance times 2^40. Refused as Blocks, Width, Division, Buffer, each leaving the scratch as lent. Else it has the n + 1 last entries at its
// start and the rest as lent.
pub fn bracket(n: usize, c: usize, k: usize, d: usize, scratch: &mut [u64]) -> Result<Ends, Refusal>
    ensures value { bracketed_of result ≡ bracket_of n c k d (length scratch.old) }
    ensures scratch_after { scratch.new ≡ bracket_scratch n c k d scratch.old }
{
    bracket_refusal(n, c, k, d, scratch.len())?;
    entries_after(n, k, d as u64, scratch);
    let low = sum_from(c, n, scratch);
    let high = low + roundings(n);
    Ok(Ends { low, high })
}

// Blocks, Width, Division or Buffer, the first that applies.
fn bracket_refusal(n: usize, c: usize, k: usize, d: usize, room: usize) -> Result<(), Refusal>
    ensures { refusal_of result ≡ bracket_refusal n c k d room }
{
    let long = n > 4096;
    if long {
        return Err(Refusal::Blocks);
    }
    if c > n {
        return Err(Refusal::Blocks);
    }
    if !valid_width(k) {
        return Err(Refusal::Width);
    }
    if d < 1 {
        return Err(Refusal::Division);
    }
    if d >= bin_count(k) {
        return Err(Refusal::Division);
    }
    if room <= n {
        return Err(Refusal::Buffer);
    }
    Ok(())
}

// The sum of entries c to n.
fn sum_from(c: usize, n: usize, scratch: &[u64]) -> u64
    requires c_le_n { (c ≤ n) × (n ≤ 4096) × (n < length scratch.now) }
    requires by_index { (j : ℕ) → j ≤ n → get_or scratch.now j 0 ≤ 2 ^ 40 }
    ensures { (result ≡ sum_from (entry scratch.now) c n) × (result < 2 ^ 60) }
{
    scratch[c..=n].iter().sum()
}

// How many divisions n blocks round down.
fn roundings(n: usize) -> u64
    requires { n ≤ 4096 }
    ensures { (result ≡ roundings n) × (result < 2 ^ 60) }
{
    n as u64 * (n as u64 + 3) / 2
}
