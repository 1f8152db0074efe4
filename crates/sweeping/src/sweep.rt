// The sweep, as a caller meets it.
ghost use Rattle.std.specs.Prelude.{◌≡◌, ◌≤◌, Ok, length};
ghost use Rattle.judging.specs.Plan.{as_plan};
ghost use Rattle.sweeping.specs.Pair.{Sizes, Sound};
ghost use Rattle.sweeping.specs.Progress.{next_progress, progress_to};
ghost use Rattle.sweeping.specs.Refusal.{pair_refusal, pairs_refusal};
ghost use Rattle.sweeping.specs.Sweep.{as_swept, answer_of, swept_of, swept_number, room_of, LentWhereRefused};
ghost use Rattle.sweeping.specs.Verdict.{verdict_number};

use crate::pair::{Pair, Tested, test_pair};
use crate::progress::{Progress, begun, counted};
use crate::refusal::{Room, sweep_plan};
use crate::verdict::{Verdict, verdict_of};
use counting::refusal::Refusal;
use judging::plan::Plan;

// What a sweep answers: the verdict, how many pairs were tested, the pair with the lowest lower end, the earlier where
// two are equal, and the pair tested last, which is the one that is rejected where one is.
#[derive(Clone, Copy)]
pub struct Swept {
    pub verdict: Verdict,
    pub tested: usize,
    pub best: Tested,
    pub last: Tested,
}

// Tests the recording pair after pair of its plan, at the level in units of 2^-40, each pair at an equal share, until one is rejected.
// Refusals 20, 1, then 5 and 7 pair by pair, 8: everything is then as lent. Else the six buffers are free.
pub fn sweep(
    raw: &[u8],
    block_size: usize,
    low_first: bool,
    level: u64,
    words: &mut [u64],
    store: &mut [u32],
    bins: &mut [u32],
    order: &mut [u32],
    scratch: &mut [u32],
    entries: &mut [u64],
) -> Result<Swept, Refusal>
    ensures value { as_swept result ≡ swept_of level block_size low_first raw.now (room_of words.old bins.old order.old scratch.old entries.old) }
    ensures lent_where_refused { LentWhereRefused (as_swept result) words.old words.new × LentWhereRefused (as_swept result) store.old store.new × LentWhereRefused (as_swept result) bins.old bins.new × LentWhereRefused (as_swept result) order.old order.new × LentWhereRefused (as_swept result) scratch.old scratch.new × LentWhereRefused (as_swept result) entries.old entries.new }
    ensures verdict_value { verdict_number (as_swept result).verdict ≡ swept_number level block_size low_first raw.now (room_of words.old bins.old order.old scratch.old entries.old) }
{
    let room = Room {
        words: words.len(),
        bins: bins.len(),
        order: order.len(),
        scratch: scratch.len(),
        entries: entries.len(),
    };
    let plan = sweep_plan(level, block_size, raw.len(), room)?;
    let share = level / plan.pairs as u64;
    let progress = sweep_pairs(
        plan, low_first, share, raw, words, store, bins, order, scratch, entries,
    );
    Ok(answer(progress))
}

// What is answered after the last pair.
fn answer(progress: Progress) -> Swept
    ensures { as_swept (Ok result) ≡ answer_of progress }
{
    Swept {
        verdict: verdict_of(progress.rejected, progress.below),
        tested: progress.tested,
        best: progress.best,
        last: progress.last,
    }
}

// Pair after pair of the plan. All buffers are free afterwards.
// Kept: six lent slices and no struct of them. A slice keeps its length over a call by itself, which a struct would have to promise of each of the six.
fn sweep_pairs(
    plan: Plan,
    low_first: bool,
    share: u64,
    raw: &[u8],
    words: &mut [u64],
    store: &mut [u32],
    bins: &mut [u32],
    order: &mut [u32],
    scratch: &mut [u32],
    entries: &mut [u64],
) -> Progress
    requires sound { Sound (as_plan (Ok plan)) }
    requires pairs_value { pairs_refusal (as_plan (Ok plan)) (length raw.now) (room_of words.old bins.old order.old scratch.old entries.old) plan.pairs ≡ 0 }
    ensures { result ≡ progress_to share (as_plan (Ok plan)) low_first raw.now plan.pairs }
{
    let mut progress = begun();
    for planned in &plan.sizes[..plan.pairs] {
        let pair = Pair {
            block_size: planned.block_size,
            width: planned.width,
            low_first,
        };
        progress = next_progress(
            progress, pair, share, raw, words, store, bins, order, scratch, entries,
        );
    }
    progress
}

// One pair more: nothing changes after a rejection, and where the pair has fewer than two blocks.
fn next_progress(
    progress: Progress,
    pair: Pair,
    share: u64,
    raw: &[u8],
    words: &mut [u64],
    store: &mut [u32],
    bins: &mut [u32],
    order: &mut [u32],
    scratch: &mut [u32],
    entries: &mut [u64],
) -> Progress
    requires sizes { Sizes pair.block_size pair.width × (progress.tested ≤ 7) }
    requires entries_value { pair_refusal (length raw.now) pair.block_size pair.width (room_of words.old bins.old order.old scratch.old entries.old) ≡ 0 }
    ensures { result ≡ next_progress share raw.now pair progress }
{
    if progress.rejected {
        return progress;
    }
    if raw.len() / (pair.block_size / 8) < 2 {
        return progress;
    }
    let tested = test_pair(pair, raw, words, store, bins, order, scratch, entries);
    counted(progress, tested, share)
}
