// What a sweep refuses, found before the first search.
ghost use Rattle.std.specs.Prelude.{◌≡◌, ◌*◌, ◌≤◌, ◌<◌, Ok, IfOk, true};
ghost use Rattle.counting.specs.Block.{valid_size};
ghost use Rattle.counting.specs.Refusal.{refusal_of};
ghost use Rattle.judging.specs.Plan.{as_plan, plan_of};
ghost use Rattle.sweeping.specs.Pair.{Sound, tested_blocks};
ghost use Rattle.sweeping.specs.Refusal.{room_refusal, pair_refusal, pairs_refusal, level_refusal, sweep_refusal};

use counting::refusal::Refusal;
use judging::check::scratch_refusal;
use judging::plan::{Plan, configurations};
use sampling::sampler::capacity_bytes;
use searching::search::buffer_refusal;

// How many entries the lent buffers have.
// Kept: that 8 times the words are few stands in three contracts and not in this type, since `room_of` and `SweepExamples` make rooms of any numbers.
#[derive(Clone, Copy)]
pub struct Room {
    pub words: usize,
    pub bins: usize,
    pub order: usize,
    pub scratch: usize,
    pub entries: usize,
}

// The plan of a recording of so many bytes. Refusals 20, the plan's 1, 5 and 7 pair by pair, 8.
pub fn sweep_plan(level: u64, block_size: usize, bytes: usize, room: Room) -> Result<Plan, Refusal>
    requires { 8 * room.words < 9223372036854775808 }
    ensures refusal { refusal_of result ≡ sweep_refusal level (plan_of block_size bytes) bytes room }
    ensures plan { IfOk result (λ plan. as_plan (Ok plan) ≡ plan_of block_size bytes) }
{
    level_refusal(level)?;
    let plan = configurations(block_size, bytes)?;
    // The blocks of the first pair are bytes, and no pair has more.
    if bytes < 2 {
        return Err(Refusal::FewBlocks);
    }
    pairs_refusal(plan, bytes, room)?;
    Ok(plan)
}

// 20, unless the level is a chance in units of 2^-40, neither 0 nor 1.
fn level_refusal(level: u64) -> Result<(), Refusal>
    ensures { refusal_of result ≡ level_refusal level }
{
    if level < 1 || level >= 1099511627776 {
        return Err(Refusal::Level);
    }
    Ok(())
}

// The first refusal of a pair, in the order of the plan.
fn pairs_refusal(plan: Plan, bytes: usize, room: Room) -> Result<(), Refusal>
    requires sound { Sound (as_plan (Ok plan)) }
    requires words_bound { 8 * room.words < 9223372036854775808 }
    ensures { refusal_of result ≡ pairs_refusal (as_plan (Ok plan)) bytes room plan.pairs }
{
    for pair in &plan.sizes[..plan.pairs] {
        pair_refusal(bytes, pair.block_size, pair.width, room)?;
    }
    Ok(())
}

// 5, 7, unless the pair can be tested or is skipped.
fn pair_refusal(bytes: usize, block_size: usize, k: usize, room: Room) -> Result<(), Refusal>
    requires block_size_value { valid_size block_size ≡ true }
    requires k_bound { (k ≤ 20) × (8 * room.words < 9223372036854775808) }
    ensures { refusal_of result ≡ pair_refusal bytes block_size k room }
{
    let size = block_size / 8;
    let m = bytes / size;
    if m < 2 {
        return Ok(());
    }
    if m / 2 * size > capacity_bytes(block_size, room.words) {
        return Err(Refusal::Full);
    }
    room_refusal(m, k, room)
}

// 7, unless a pair of m blocks has room.
fn room_refusal(m: usize, k: usize, room: Room) -> Result<(), Refusal>
    requires { k ≤ 20 }
    ensures { refusal_of result ≡ room_refusal m k room }
{
    buffer_refusal(k, room.bins, room.order)?;
    scratch_refusal(k, room.scratch)?;
    if room.entries <= tested_blocks(m) {
        return Err(Refusal::Buffer);
    }
    Ok(())
}

// How many testing blocks of m blocks are evaluated.
fn tested_blocks(m: usize) -> usize
    ensures { result ≡ tested_blocks m }
{
    (m - m / 2).min(4096)
}
