// What is asked before one subset is ranked by the counts of its bins.
ghost use Rattle.std.specs.Prelude.{◌≡◌, ◌≤◌, length, take};
ghost use Rattle.counting.specs.Refusal.{refusal_of};
ghost use Rattle.counting.specs.Sample.{total};
ghost use Rattle.exports.specs.Single.{ranking_refusal};

use crate::records::enough;
use counting::block::bin_count;
use counting::refusal::Refusal;
use searching::search::buffer_refusal;
use subsets::bits::valid_width;

// The sum of the first m counts.
pub fn total_of(bins: &[u32], m: usize) -> u64
    requires { (m ≤ length bins.now) × (m ≤ 1048576) }
    ensures { result ≡ total (take m bins.now) }
{
    let mut sum = 0;
    for &x in &bins[..m] {
        sum += x as u64;
    }
    sum
}

// Numbers, Width, Buffer or Counts where the counts cannot be ranked with room for `order` bins and `ranking` numbers.
pub fn ranking_refusal(k: usize, bins: &[u32], order: usize, ranking: usize) -> Result<(), Refusal>
    ensures { refusal_of result ≡ ranking_refusal k bins.now order ranking }
{
    enough(ranking, 2)?;
    if !valid_width(k) {
        return Err(Refusal::Width);
    }
    buffer_refusal(k, bins.len(), order)?;
    if total_of(bins, bin_count(k)) > 4294967295 {
        return Err(Refusal::Counts);
    }
    Ok(())
}
