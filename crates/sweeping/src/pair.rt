// One pair of the plan: a search on the training half, and what its finding does on the testing half.
ghost use Rattle.std.specs.Prelude.{◌≡◌, ◌^◌, ◌≤◌, length};
ghost use Rattle.sweeping.specs.Pair.{tested_part, judged_of, tested_of, Judgeable, Testable};

use chance::bracket::bracket;
use counting::block::bin_count;
use judging::evaluation::evaluate_histogram;
use judging::split::{first_part, second_part};
use judging::training::train;
use searching::finding::Finding;

// A block size and a width of the plan, and the bit order.
// Kept: no `Planned` in it, since `pair_at`, `tested_of` and `Testable` of specs/Pair.antt have the two numbers as fields of a pair itself.
#[derive(Clone, Copy)]
pub struct Pair {
    pub block_size: usize,
    pub width: usize,
    pub low_first: bool,
}

// The finding of a pair, how many testing blocks it was evaluated on, how many of them are positive, and both ends of the chance of that in units of 2^-40.
// Kept: no `Ends` in it, since `judged_of`, `lowest_of`, `counted` and `SweepsConclude` have both ends as fields of a test itself.
#[derive(Clone, Copy)]
pub struct Tested {
    pub finding: Finding,
    pub blocks: usize,
    pub positive: u32,
    pub low: u64,
    pub high: u64,
}

// Searches the training half and judges the finding on the testing half. All buffers are free afterwards.
pub fn test_pair(
    pair: Pair,
    raw: &[u8],
    words: &mut [u64],
    store: &mut [u32],
    bins: &mut [u32],
    order: &mut [u32],
    scratch: &mut [u32],
    entries: &mut [u64],
) -> Tested
    requires { Testable pair (length raw.now) (length words.old) (length bins.old) (length order.old) (length scratch.old) (length entries.old) }
    ensures { result ≡ tested_of pair raw.now }
{
    let block_size = pair.block_size;
    let k = pair.width;
    let training = first_part(raw, block_size, true);
    let testing = tested_part(raw, block_size);
    let finding = train(
        block_size,
        k,
        pair.low_first,
        training,
        words,
        store,
        bins,
        order,
    );
    let m = bin_count(k);
    judge(finding, &order[..m], testing, scratch, entries)
}

// Evaluates a finding, and brackets the chance of as many positive blocks or more.
fn judge(
    finding: Finding,
    order: &[u32],
    testing: &[u8],
    scratch: &mut [u32],
    entries: &mut [u64],
) -> Tested
    requires { Judgeable finding order.now testing.now (length scratch.old) (length entries.old) }
    ensures { result ≡ judged_of finding order.now testing.now }
{
    let evaluated = evaluate_histogram(finding, order, testing, scratch).unwrap();
    let blocks = testing.len() / (finding.block_size / 8);
    let positive = evaluated.positive;
    let chance = bracket(
        blocks,
        positive as usize,
        finding.width,
        finding.division as usize,
        entries,
    )
    .unwrap();
    Tested {
        finding,
        blocks,
        positive,
        low: chance.low,
        high: chance.high,
    }
}

// The testing blocks that are evaluated: the first 4,096.
fn tested_part(raw: &[u8], block_size: usize) -> &[u8]
    requires { block_size ≤ 4096 }
    ensures { result.now ≡ tested_part raw.now block_size }
{
    let testing = second_part(raw, block_size, true);
    let most = 4096 * (block_size / 8);
    &testing[..testing.len().min(most)]
}
