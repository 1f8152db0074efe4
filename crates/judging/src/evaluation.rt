// How a finding does on data.
ghost use Rattle.std.specs.Prelude.{◌≡◌, ◌/◌, ◌^◌, ◌≤◌, length, replicate};
ghost use Rattle.counting.specs.Recording.{blocks_in, recorded_bit};
ghost use Rattle.counting.specs.Refusal.{refusal_of};
ghost use Rattle.counting.specs.Sample.{counts_of, total};
ghost use Rattle.scoring.specs.Halves.{part};
ghost use Rattle.scoring.specs.Score.{z_score};
ghost use Rattle.judging.specs.Check.{chosen};
ghost use Rattle.judging.specs.Permutation.{Permutation};
ghost use Rattle.judging.specs.Evaluation.{positive_of, score_for, early_evaluation_refusal, as_evaluated, evaluated_of, score_number, evaluated_number, evaluated_scratch, counts_in, positive_in, CountableData};

use crate::check::{order_refusal, scratch_refusal, shape_refusal};
use counting::block::{bin_count, bits_block_eval};
use counting::refusal::Refusal;
use scoring::halves::share;
use scoring::score::z_score;
use searching::finding::Finding;

// z with its sign, or that there was no block to score.
// Kept: docs/RULES.md ("either a number, z as a double with its sign, or \"no sample\""), README and the definitions `score_for` and `score_number` have these two cases by name.
#[derive(Clone, Copy)]
pub enum Score {
    Z(f64),
    NoSample,
}

// What an evaluation answers: how many blocks are positive, and the score.
#[derive(Clone, Copy)]
pub struct Evaluated {
    pub positive: u32,
    pub score: Score,
}

// Counts the data's blocks in the finding's bins, which are left in the scratch. Refusals 1, 2, 9, 10, 11, 12, 7, 13, 14: then the scratch is as the check leaves it.
pub fn evaluate_histogram(
    finding: Finding,
    order: &[u32],
    bytes: &[u8],
    scratch: &mut [u32],
) -> Result<Evaluated, Refusal>
    ensures value { as_evaluated result ≡ evaluated_of finding order.now bytes.now (length scratch.old) }
    ensures score_value { score_number (as_evaluated result).score ≡ evaluated_number finding order.now bytes.now (length scratch.old) }
    ensures scratch_after { scratch.new ≡ evaluated_scratch finding order.now bytes.now scratch.old }
{
    early_evaluation_refusal(finding, order.len(), bytes.len(), scratch.len())?;
    order_refusal(finding.width, finding.division, order, scratch)?;
    let m = bin_count(finding.width);
    let positive = evaluate(finding, order, bytes, &mut scratch[..m]);
    let n = bytes.len() / (finding.block_size / 8);
    let score = score_of(n as u32, positive, finding.division, finding.width);
    Ok(Evaluated { positive, score })
}

// 1, 2, 9, 10, 11, 12, 7, unless the scratch may be used.
fn early_evaluation_refusal(
    finding: Finding,
    order: usize,
    bytes: usize,
    scratch: usize,
) -> Result<(), Refusal>
    ensures { refusal_of result ≡ early_evaluation_refusal finding order (bytes / (finding.block_size / 8)) scratch }
{
    shape_refusal(finding, order)?;
    if bytes / (finding.block_size / 8) > 16777216 {
        return Err(Refusal::TooMany);
    }
    scratch_refusal(finding.width, scratch)
}

// Counts the data's blocks in the bins, zeros before, and adds up those of the first `division` bins of the order.
fn evaluate(finding: Finding, order: &[u32], bytes: &[u8], bins: &mut [u32]) -> u32
    requires countable_data { CountableData finding.block_size (chosen finding) bytes.now }
    requires bins_value { bins.old ≡ replicate (2 ^ finding.width) 0 }
    requires finding_len { (length (chosen finding) ≡ finding.width) × Permutation (2 ^ finding.width) order.now × (finding.division ≤ length order.now) }
    ensures value { result ≡ positive_in finding order.now bytes.now }
    ensures bins_after { bins.new ≡ counts_in finding bytes.now }
{
    count_blocks(
        &finding.bits[..finding.width],
        finding.block_size,
        finding.low_first,
        bytes,
        bins,
    );
    sum_first(bins, order, finding.division as usize)
}

// Counts each whole block of the data, in the bit order, in its bin. The bins are zeros before.
fn count_blocks(bits: &[u32], block_size: usize, low_first: bool, bytes: &[u8], bins: &mut [u32])
    requires countable_data { CountableData block_size bits.now bytes.now }
    requires bins_value { bins.old ≡ replicate (2 ^ length bits.now) 0 }
    ensures { bins.new ≡ counts_of (recorded_bit block_size low_first bytes.now) (blocks_in block_size bytes.now) bits.now }
{
    let size = block_size / 8;
    let n = bytes.len() / size;
    // Kept: by number, since with `chunks_exact` an evaluation of 50,000 blocks at k 4 took 306 µs in place of 256.
    for e in 0..n {
        let v = bits_block_eval(bits, low_first, &bytes[e * size..(e + 1) * size]) as usize;
        bins[v] += 1;
    }
}

// The sum of the first `division` bins of the order.
fn sum_first(bins: &[u32], order: &[u32], division: usize) -> u32
    requires permutation { Permutation (length bins.now) order.now }
    requires division_in_bounds { (division ≤ length order.now) × (total bins.now ≤ 16777216) }
    ensures { result ≡ positive_of bins.now order.now division }
{
    let mut sum = 0;
    for bin in &order[..division] {
        sum += bins[*bin as usize];
    }
    sum
}

// The score of n blocks.
fn score_of(n: u32, positive: u32, division: u32, k: usize) -> Score
    requires { k ≤ 20 }
    ensures { result ≡ score_for n (z_score n positive (part division k)) }
{
    if n == 0 {
        return Score::NoSample;
    }
    Score::Z(z_score(n, positive, share(division, k)))
}
