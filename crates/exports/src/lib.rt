// The calls for hosts in other languages: numbers and slices only. A slice passes as its address and its number of entries.
// A sampler is 8 numbers in a lent slice and 2,048 bytes in another (`specs/Samplers.antt`), a finding 25 numbers, a sweep 60 (`specs/Records.antt`); a slice too
// short for its record is answered with 25, a record whose number for the bit order is neither 0 nor 1 with 27, and nothing is written.
#![tactic(auto)]

ghost use Rattle.std.specs.Prelude.{◌≡◌, length};
ghost use Rattle.layers.specs.Store.{store_needed};
ghost use Rattle.subsets.specs.Rank.{ranked_of};
ghost use Rattle.exchange.specs.Length.{longest_text};
ghost use Rattle.exports.specs.Calls.{StartCall, FeedCall, CarryCall, blocks_call, BottomupCall, CheckCall, EvaluateCall, WriteCall, ReadCall, SplitCall, PlanCall, BracketCall, SweepCall};
ghost use Rattle.exports.specs.Single.{RankingCall};

use crate::findings::{evaluate_lent, validate_lent, write_lent};
use crate::records::{
    evaluation_unread, finding_unread, no_plan, no_sweep, pattern, rank_of, write_evaluated,
    write_finding, write_plan, write_swept,
};
use crate::samplers::{
    carry_unread, feed_unread, read_earlier, read_head, sampler_room, sampler_unread,
    search_unread, write_sampler, write_taken,
};
use crate::single::{ranking_refusal, total_of};
use chance::bracket::{Ends, bracket};
use counting::block::bin_count;
use counting::refusal::{Refusal, refusal_of};
use exchange::reader::read_finding;
use exchange::writer::longest_text;
use judging::evaluation::{Evaluated, Score};
use judging::plan::configurations;
use judging::split::{first_part, second_part, split_refusal};
use layers::size::store_needed;
use ranking::ranking::from_bins;
use sampling::carrying::carry_over;
use sampling::feeding::feed_lent;
use sampling::sampler::{blocks, no_sampler, start};
use searching::finding::no_finding;
use searching::search::bottomup;
use sweeping::sweep::sweep;

mod findings;
mod records;
mod samplers;
mod single;

// start: clears the words and writes a fresh sampler in the given bit order. Refusals 25, 1.
#[unsafe(no_mangle)]
pub extern "C" fn jimrawel_start(
    block_size: usize,
    low_first: bool,
    words: &mut [u64],
    sampler: &mut [u64],
    unfinished: &mut [u8],
) -> u32
    ensures { StartCall block_size low_first words.old sampler.old unfinished.old result words.new sampler.new unfinished.new }
{
    let room = sampler_room(sampler.len(), unfinished.len());
    if room.is_err() {
        return refusal_of(&room);
    }
    let started = start(block_size, low_first, words);
    let refusal = refusal_of(&started);
    write_sampler(started.unwrap_or(no_sampler()), sampler, unfinished);
    refusal
}

// feed: takes the board's next piece; the sampler that it returns is in the place of the one given. Refusals 25, 27, 4, 21, 5.
#[unsafe(no_mangle)]
pub extern "C" fn jimrawel_feed(
    sampler: &mut [u64],
    unfinished: &mut [u8],
    words: &mut [u64],
    board: usize,
    piece: &[u8],
) -> u32
    ensures { FeedCall sampler.old unfinished.old words.old board piece.now result sampler.new unfinished.new words.new }
{
    let unread = feed_unread(sampler, unfinished.len());
    if unread.is_err() {
        return refusal_of(&unread);
    }
    let taken = feed_lent(
        read_head(sampler),
        &mut unfinished[..2048],
        words,
        board,
        piece,
    );
    write_taken(&taken, board, sampler);
    refusal_of(&taken)
}

// carry_over: writes the sampler that goes on from one of the earlier rule. Refusals 25, 27, 4.
#[unsafe(no_mangle)]
pub extern "C" fn jimrawel_carry_over(
    earlier: &[u64],
    words: &mut [u64],
    sampler: &mut [u64],
    unfinished: &mut [u8],
) -> u32
    ensures { CarryCall earlier.now words.old sampler.old unfinished.old result words.new sampler.new unfinished.new }
{
    let unread = carry_unread(earlier, sampler.len(), unfinished.len());
    if unread.is_err() {
        return refusal_of(&unread);
    }
    let carried = carry_over(read_earlier(earlier), words);
    let refusal = refusal_of(&carried);
    match carried {
        Ok(onward) => {
            write_sampler(onward, sampler, unfinished);
            refusal
        }
        Err(_) => {
            write_sampler(no_sampler(), sampler, unfinished);
            refusal
        }
    }
}

// n: the blocks that the sampler has completed; 0 where the slice holds none.
#[unsafe(no_mangle)]
pub extern "C" fn jimrawel_blocks(sampler: &[u64]) -> usize
    ensures { result ≡ blocks_call sampler.now }
{
    if sampler_unread(sampler).is_err() {
        return 0;
    }
    blocks(read_head(sampler))
}

// The search of the blocks from `first` to before `end`, with a store of any length. Refusals 25, 27, 4, 18, 2, 3, 7.
#[unsafe(no_mangle)]
pub extern "C" fn jimrawel_bottomup(
    sampler: &[u64],
    words: &[u64],
    first: usize,
    end: usize,
    k: usize,
    store: &mut [u32],
    bins: &mut [u32],
    order: &mut [u32],
    finding: &mut [u64],
) -> u32
    ensures { BottomupCall sampler.now words.now first end k store.old bins.old order.old finding.old result store.new bins.new order.new finding.new }
{
    let unread = search_unread(sampler, finding.len());
    if unread.is_err() {
        return refusal_of(&unread);
    }
    let searched = bottomup(read_head(sampler), words, first, end, k, store, bins, order);
    let refusal = refusal_of(&searched);
    write_finding(searched.unwrap_or(no_finding()), finding);
    refusal
}

// How many entries a store must have for the search to be made by layers; 0 where no store makes it so.
#[unsafe(no_mangle)]
pub extern "C" fn jimrawel_store_needed(block_size: usize, k: usize) -> usize
    ensures { result ≡ store_needed block_size k }
{
    store_needed(block_size, k)
}

// The rank of the bits, all of them chosen, in a block. Refusals 1, 2, 3, 9, 10, 12.
#[unsafe(no_mangle)]
pub extern "C" fn jimrawel_compute_index(block_size: usize, bits: &[u32], rank: &mut usize) -> u32
    ensures { (result ≡ (ranked_of block_size (length bits.now) bits.now).refusal) × (rank.new ≡ (ranked_of block_size (length bits.now) bits.now).rank) }
{
    let ranked = rank_of(block_size, bits);
    let refusal = refusal_of(&ranked);
    *rank = ranked.unwrap_or(0);
    refusal
}

// Ranks one subset by the counts of its 2 ^ k bins: its bin order, and its division and z as two numbers. Refusals 25, 2, 7, 26.
#[unsafe(no_mangle)]
pub extern "C" fn jimrawel_from_bins(
    k: usize,
    bins: &[u32],
    order: &mut [u32],
    ranking: &mut [u64],
) -> u32
    ensures { RankingCall k bins.now order.old ranking.old result order.new ranking.new }
{
    let unranked = ranking_refusal(k, bins, order.len(), ranking.len());
    if unranked.is_err() {
        return refusal_of(&unranked);
    }
    let none: [f64; 0] = [];
    let n = total_of(bins, bin_count(k));
    let ranked = from_bins(bins, order, n as u32, k, &none);
    ranking[0] = ranked.division as u64;
    ranking[1] = pattern(ranked.z);
    0
}

// The check of a finding and its bin order. Refusals 25, 27, 1, 2, 9, 10, 11, 7, 13, 14.
#[unsafe(no_mangle)]
pub extern "C" fn jimrawel_validate(finding: &[u64], order: &[u32], scratch: &mut [u32]) -> u32
    ensures { CheckCall finding.now order.now scratch.old result scratch.new }
{
    let unread = finding_unread(finding);
    if unread.is_err() {
        return refusal_of(&unread);
    }
    refusal_of(&validate_lent(finding, order, scratch))
}

// A finding on data. Refusals 25, 27, 1, 2, 9, 10, 11, 12, 7, 13, 14.
#[unsafe(no_mangle)]
pub extern "C" fn jimrawel_evaluate_histogram(
    finding: &[u64],
    order: &[u32],
    bytes: &[u8],
    scratch: &mut [u32],
    evaluated: &mut [u64],
) -> u32
    ensures { EvaluateCall finding.now order.now bytes.now scratch.old evaluated.old result scratch.new evaluated.new }
{
    let unread = evaluation_unread(finding, evaluated.len());
    if unread.is_err() {
        return refusal_of(&unread);
    }
    let answer = evaluate_lent(finding, order, bytes, scratch);
    let refusal = refusal_of(&answer);
    let none = Evaluated {
        positive: 0,
        score: Score::NoSample,
    };
    write_evaluated(answer.unwrap_or(none), evaluated);
    refusal
}

// Writes a finding and its bin order as text. Refusals 25, 27, 1, 2, 9, 10, 11, 7, 13, 14, 17.
#[unsafe(no_mangle)]
pub extern "C" fn jimrawel_write_finding(
    finding: &[u64],
    order: &[u32],
    scratch: &mut [u32],
    out: &mut [u8],
    length: &mut usize,
) -> u32
    ensures { WriteCall finding.now order.now scratch.old out.old length.old result scratch.new out.new length.new }
{
    let unread = finding_unread(finding);
    if unread.is_err() {
        return refusal_of(&unread);
    }
    let written = write_lent(finding, order, scratch, out);
    let refusal = refusal_of(&written);
    *length = written.unwrap_or(0);
    refusal
}

// Reads a finding and its bin order from a text. Refusals 25, 16, 17, 1, 2, 9, 10, 11, 7, 13, 14.
#[unsafe(no_mangle)]
pub extern "C" fn jimrawel_read_finding(
    text: &[u8],
    order: &mut [u32],
    scratch: &mut [u32],
    finding: &mut [u64],
) -> u32
    ensures { ReadCall text.now order.old scratch.old finding.old result order.new scratch.new finding.new }
{
    if finding.len() < 25 {
        return Refusal::Numbers as u32;
    }
    let reading = read_finding(text, order, scratch);
    let refusal = refusal_of(&reading);
    write_finding(reading.unwrap_or(no_finding()), finding);
    refusal
}

// The most bytes that a text of a finding of k bits has.
#[unsafe(no_mangle)]
pub extern "C" fn jimrawel_longest_text(k: usize) -> usize
    ensures { result ≡ longest_text k }
{
    longest_text(k)
}

// The lengths of the two parts of the raw bytes. Refusals 25, 1, 8.
#[unsafe(no_mangle)]
pub extern "C" fn jimrawel_whole_blocks(
    raw: &[u8],
    block_size: usize,
    training: bool,
    lengths: &mut [u64],
) -> u32
    ensures { SplitCall raw.now block_size training lengths.old result lengths.new }
{
    if lengths.len() < 2 {
        return Refusal::Numbers as u32;
    }
    let first = first_part(raw, block_size, training);
    let second = second_part(raw, block_size, training);
    lengths[0] = first.len() as u64;
    lengths[1] = second.len() as u64;
    refusal_of(&split_refusal(raw, block_size))
}

// The plan of a sweep. Refusals 25, 1.
#[unsafe(no_mangle)]
pub extern "C" fn jimrawel_configurations(
    block_size: usize,
    data_size: usize,
    plan: &mut [u64],
) -> u32
    ensures { PlanCall block_size data_size plan.old result plan.new }
{
    if plan.len() < 15 {
        return Refusal::Numbers as u32;
    }
    let planned = configurations(block_size, data_size);
    let refusal = refusal_of(&planned);
    write_plan(planned.unwrap_or(no_plan()), plan);
    refusal
}

// Both ends of the chance of at least c positives among n blocks, each positive with probability d / 2 ^ k, times 2 ^ 40. Refusals 19, 2, 14, 7.
#[unsafe(no_mangle)]
pub extern "C" fn jimrawel_bracket(
    n: usize,
    c: usize,
    k: usize,
    d: usize,
    scratch: &mut [u64],
    low: &mut u64,
    high: &mut u64,
) -> u32
    ensures { BracketCall n c k d scratch.old result scratch.new low.new high.new }
{
    let bracketed = bracket(n, c, k, d, scratch);
    let refusal = refusal_of(&bracketed);
    let ends = bracketed.unwrap_or(Ends { low: 0, high: 0 });
    *low = ends.low;
    *high = ends.high;
    refusal
}

// The sweep: pair after pair of the plan for the recording, at the level in units of 2 ^ -40, its 60 numbers written. Refusals 25, 20, 1, then 5 and 7 pair by
// pair, 8.
#[unsafe(no_mangle)]
pub extern "C" fn jimrawel_sweep(
    raw: &[u8],
    block_size: usize,
    low_first: bool,
    level: u64,
    words: &mut [u64],
    store: &mut [u32],
    bins: &mut [u32],
    order: &mut [u32],
    scratch: &mut [u32],
    entries: &mut [u64],
    swept: &mut [u64],
) -> u32
    ensures { SweepCall raw.now block_size low_first level words.old store.old bins.old order.old scratch.old entries.old swept.old result words.new store.new bins.new order.new scratch.new entries.new swept.new }
{
    if swept.len() < 60 {
        return Refusal::Numbers as u32;
    }
    let answer = sweep(
        raw, block_size, low_first, level, words, store, bins, order, scratch, entries,
    );
    let refusal = refusal_of(&answer);
    write_swept(answer.unwrap_or(no_sweep()), swept);
    refusal
}
