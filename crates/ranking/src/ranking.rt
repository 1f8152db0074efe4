// The division of a subset's bin order at which the score is greatest.
ghost use Rattle.std.specs.Prelude.{◌≡◌, ◌^◌, ◌≤◌, ◌<◌, ◌++◌, length, get_or, take, drop};
ghost use Rattle.std.specs.Float.Ieee.{lt};
ghost use Rattle.scoring.specs.Halves.{half_power, part};
ghost use Rattle.scoring.specs.Score as Score;
ghost use Rattle.ranking.specs.Order.{order_of, BinsBelow};
ghost use Rattle.ranking.specs.Peak.{better};
ghost use Rattle.counting.specs.Sample.{total};
ghost use Rattle.ranking.specs.Ranking.{Roots, score_of, as_ranking, as_peak};

use crate::order::order_bins;
use counting::block::bin_count;
use scoring::halves::{half_power, share, share_by};
use scoring::score::{absolute, deviation, z_over};

#[derive(Clone, Copy)]
pub struct Ranking {
    pub division: u32,
    pub z: f64,
}

// Works out the deviations that from_bins needs, once for all subsets of a search. Entry 0 is free.
pub fn fill_roots(roots: &mut [f64], n: u32, k: usize)
    requires { (k ≤ 20) × (length roots.old ≤ 2 ^ 32) }
    ensures { Roots n k roots.new }
{
    for i in 1..roots.len() {
        roots[i] = deviation(n, share(i as u32, k));
    }
}

// The deviation at division i, from the table as far as that goes.
fn root_at(roots: &[f64], n: u32, i: u32, k: usize) -> f64
    requires { (1 ≤ i) × (k ≤ 20) × Roots n k roots.now }
    ensures { result ≡ Score.deviation n (part i k) }
{
    let at = i as usize;
    if at < roots.len() {
        return roots[at];
    }
    deviation(n, share(i, k))
}

// |z| at division i, of c counts in its bins, where half is 2 ^ -k.
fn size_at(roots: &[f64], n: u32, c: u32, i: u32, k: usize, half: f64) -> f64
    requires { (1 ≤ i) × (k ≤ 20) × (half ≡ half_power k) × Roots n k roots.now }
    ensures { result ≡ Score.abs (Score.z_score n c (part i k)) }
{
    absolute(z_over(n, c, share_by(i, half, k), root_at(roots, n, i, k)))
}

// The better of best and division i, of the size z: the earlier one unless z is strictly greater.
fn better(best: Ranking, i: u32, z: f64) -> Ranking
    ensures { result ≡ as_ranking (better (lt best.z z) i z (as_peak best)) }
{
    if best.z < z {
        return Ranking { division: i, z };
    }
    best
}

// The count of the bin at a place of the order.
fn count_at(bins: &[u32], order: &[u32], place: usize) -> u32
    requires { (place < length order.now) × BinsBelow (length bins.now) order.now }
    ensures { result ≡ get_or bins.now (get_or order.now place 0) 0 }
{
    let v = order[place] as usize;
    bins[v]
}

// The best division of the bins in their order.
fn divide(bins: &[u32], order: &[u32], n: u32, k: usize, roots: &[f64]) -> Ranking
    requires { (k ≤ 20) × (length bins.now ≡ 2 ^ k) × (total bins.now ≡ n) × (order.now ≡ order_of bins.now) × Roots n k roots.now }
    ensures { result ≡ score_of n k bins.now }
{
    let half = half_power(k);
    let mut best = Ranking {
        division: 1,
        z: 0.0,
    };
    let mut c: u32 = 0;
    for i in 1..bins.len() {
        let division = i as u32;
        c += count_at(bins, order, i - 1);
        best = better(best, division, size_at(roots, n, c, division, k, half));
    }
    best
}

// Ranks the subset of the first 2 ^ k bins, which n blocks fell into: its division and score, and its bin order in order's first 2 ^ k entries.
pub fn from_bins(bins: &[u32], order: &mut [u32], n: u32, k: usize, roots: &[f64]) -> Ranking
    requires { (k ≤ 20) × (2 ^ k ≤ length bins.now) × (2 ^ k ≤ length order.old) × (total (take (2 ^ k) bins.now) ≡ n) × Roots n k roots.now }
    ensures { (result ≡ score_of n k (take (2 ^ k) bins.now)) × (order.new ≡ order_of (take (2 ^ k) bins.now) ++ drop (2 ^ k) order.old) }
{
    let m = bin_count(k);
    order_bins(&bins[..m], &mut order[..m]);
    divide(&bins[..m], &order[..m], n, k, roots)
}
