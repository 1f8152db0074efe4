// Counts over the rows, 32,768 blocks at a time: each bit's row has 64 blocks to a word, and the rows are ANDed into 512 words of marks,
// or 64 where the blocks are few.
ghost use Rattle.std.specs.Prelude.{◌≡◌, [], ◌∷◌, ◌++◌, ℕ, ◌+◌, ◌*◌, ◌/◌, ◌^◌, ◌≤◌, ◌<◌, length, get_or, replicate};
ghost use Rattle.std.specs.Int.Bits.{bit_and};
ghost use Rattle.counting.specs.Sample.{onward, all_set, counts_of};
ghost use Rattle.counting.specs.Chunk.{LanesIn, ChunkIn, MarkRoom, chunk_at, chunk_bit, chunk_blocks, row_part};
ghost use Rattle.counting.specs.Stretch.{Within, span, stretch_bit};
ghost use Rattle.counting.specs.Tally.{lane_of, word_at, word_with};
ghost use Rattle.counting.specs.Words.{stored_bit};
ghost use Rattle.counting.specs.Rows.{RowsIn, MarkedFrom, Marks, CountRoom, marked_in, Paired, Parted};

use crate::chunk::{Chunk, chunk_at, is_short};
use crate::stretch::Stretch;
use crate::tally::{count_both, count_with};

// For each bit from `next` on, as many as counts has entries: how many blocks of the stretch have it and all the bits set.
pub fn multi_eval(bits: &[u32], next: usize, words: &[u64], stretch: Stretch, counts: &mut [u32])
    requires bits_len_bound { length bits.now < 20 }
    requires rows_in { RowsIn words.now stretch.stride bits.now }
    requires within { Within stretch }
    requires counts_bound { (next + length counts.old < 4294967296) × ((next + length counts.old) * stretch.stride ≤ length words.now) }
    ensures { (j : ℕ) → j < length counts.old → get_or counts.new j 0 ≡ all_set (stretch_bit stretch words.now) (span stretch) (bits.now ++ ((next + j) ∷ [])) }
{
    counts.fill(0);
    for start in (stretch.first / 64..stretch.end.div_ceil(64)).step_by(512) {
        extend(bits, next, words, chunk_at(stretch, start), counts);
    }
}

// Counts every bin of the bits over the stretch: bit i of a bin's number says whether bits[i] is set.
pub fn multi_eval_neg(bits: &[u32], words: &[u64], stretch: Stretch, bins: &mut [u32])
    requires in_bounds { (1 ≤ length bits.now) × (length bits.now ≤ 20) × (length bins.old ≡ 2 ^ length bits.now) }
    requires rows_in { RowsIn words.now stretch.stride bits.now }
    requires within { Within stretch }
    ensures { bins.new ≡ counts_of (stretch_bit stretch words.now) (span stretch) bits.now }
{
    if is_short(chunk_at(stretch, stretch.first / 64)) {
        let mut acc = all_marked::<64>();
        count_bins(&mut acc, bits, words, stretch, bins);
    } else {
        let mut acc = all_marked::<512>();
        count_bins(&mut acc, bits, words, stretch, bins);
    }
}

// The same with all blocks marked. What is left of the marks is free.
fn count_bins(acc: &mut [u64], bits: &[u32], words: &[u64], stretch: Stretch, bins: &mut [u32])
    requires mark_room { MarkRoom (chunk_at stretch (stretch.first / 64)) acc.old × MarkedFrom 0 acc.old }
    requires in_bounds { (1 ≤ length bits.now) × (length bits.now ≤ 20) × (length bins.old ≡ 2 ^ length bits.now) }
    requires rows_in { RowsIn words.now stretch.stride bits.now }
    requires within { Within stretch }
    ensures { bins.new ≡ counts_of (stretch_bit stretch words.now) (span stretch) bits.now }
{
    bins.fill(0);
    unmark(acc, stretch.first % 64);
    for start in (stretch.first / 64..stretch.end.div_ceil(64)).step_by(512) {
        add_bins(acc, words, &chunk_at(stretch, start), bits, bins);
        // Only the first chunk may begin inside a word.
        acc[0] = u64::MAX;
    }
}

// Marks of 64 N blocks, every block marked.
fn all_marked<const N: usize>() -> [u64; N]
    ensures value { N ≡ length result }
    ensures marked_from { MarkedFrom 0 result }
{
    [u64::MAX; N]
}

// Takes the marks of the first `skip` blocks away.
fn unmark(acc: &mut [u64], skip: usize)
    requires skip_bound { (skip < 64) × (0 < length acc.old) }
    requires marked_from { MarkedFrom 0 acc.old }
    ensures { MarkedFrom skip acc.new }
{
    acc[0] = (u64::MAX >> skip) << skip;
}

// Goes on with the blocks of a chunk. Where it is short, to fill all marks would cost as much as its counts.
fn extend(bits: &[u32], next: usize, words: &[u64], chunk: Chunk, counts: &mut [u32])
    requires rows_in { RowsIn words.now chunk.stride bits.now }
    requires chunk_in { ChunkIn chunk }
    requires counts_bound { (next + length counts.old < 4294967296) × ((next + length counts.old) * chunk.stride ≤ length words.now) }
    requires count_room { CountRoom chunk.lanes counts.old }
    ensures { (j : ℕ) → j < length counts.old → get_or counts.new j 0 ≡ get_or counts.old j 0 + all_set (chunk_bit chunk words.now) (chunk_blocks chunk) (bits.now ++ ((next + j) ∷ [])) }
{
    if is_short(chunk) {
        let mut acc = all_marked::<64>();
        extend_with(&mut acc, bits, next, words, chunk, counts);
    } else {
        let mut acc = all_marked::<512>();
        extend_with(&mut acc, bits, next, words, chunk, counts);
    }
}

// The same with all blocks marked. The rows of the bits are ANDed once for all counts. What is left of the marks is free.
fn extend_with(
    acc: &mut [u64],
    bits: &[u32],
    next: usize,
    words: &[u64],
    chunk: Chunk,
    counts: &mut [u32],
)
    requires mark_room { MarkRoom chunk acc.old × MarkedFrom 0 acc.old }
    requires rows_in { RowsIn words.now chunk.stride bits.now }
    requires chunk_in { ChunkIn chunk }
    requires counts_bound { (next + length counts.old < 4294967296) × ((next + length counts.old) * chunk.stride ≤ length words.now) }
    requires count_room { CountRoom chunk.lanes counts.old }
    ensures { (j : ℕ) → j < length counts.old → get_or counts.new j 0 ≡ get_or counts.old j 0 + all_set (chunk_bit chunk words.now) (chunk_blocks chunk) (bits.now ++ ((next + j) ∷ [])) }
{
    unmark(acc, chunk.skip);
    and_rows(acc, bits, words, chunk);
    add_each(acc, next, words, chunk, counts);
}

// Leaves of the marks those of the blocks that have all the bits set. Two rows a turn, so that the marks are written half as often; the last row
// of an odd number twice, which changes nothing.
fn and_rows(acc: &mut [u64], bits: &[u32], words: &[u64], chunk: Chunk)
    requires rows_in { RowsIn words.now chunk.stride bits.now }
    requires chunk_in { ChunkIn chunk × MarkRoom chunk acc.old }
    ensures { Marks (lane_of (word_at acc.old)) acc.new (onward (64 * chunk.start) (stored_bit chunk.stride words.now)) bits.now chunk.lanes }
{
    for i in (0..bits.len()).step_by(2) {
        let j = with_next(i, bits.len());
        let row = row_part(words, bits[i] as usize, chunk);
        let other = row_part(words, bits[j] as usize, chunk);
        and_two(acc, row, other);
    }
}

// The words of a bit's row that have the chunk's lanes.
fn row_part(words: &[u64], bit: usize, chunk: Chunk) -> &[u64]
    requires lanes_in { LanesIn chunk.stride chunk.start chunk.lanes }
    requires row_in { bit * chunk.stride + chunk.stride ≤ length words.now }
    ensures value { result.now ≡ row_part chunk words.now bit }
    ensures len { length result.now ≡ (chunk.lanes + 63) / 64 }
{
    let at = bit * chunk.stride + chunk.start;
    &words[at..at + chunk.lanes.div_ceil(64)]
}

// The place after i of `len`; where i is the last, i.
fn with_next(i: usize, len: usize) -> usize
    requires { i < len }
    ensures { Paired i len result }
{
    (i + 1).min(len - 1)
}

// ANDs two rows into the first words of acc.
fn and_two(acc: &mut [u64], row: &[u64], other: &[u64])
    requires { (length row.now ≤ length acc.old) × (length other.now ≡ length row.now) }
    ensures { (t : ℕ) → t < length row.now → get_or acc.new t 0 ≡ bit_and (bit_and (get_or acc.old t 0) (get_or row.now t 0)) (get_or other.now t 0) }
{
    for t in 0..row.len() {
        acc[t] = acc[t] & row[t] & other[t];
    }
}

// Adds to each count the marked blocks that have its bit set.
fn add_each(acc: &[u64], next: usize, words: &[u64], chunk: Chunk, counts: &mut [u32])
    requires chunk_in { ChunkIn chunk × MarkRoom chunk acc.now }
    requires counts_bound { (next + length counts.old < 4294967296) × ((next + length counts.old) * chunk.stride ≤ length words.now) }
    requires count_room { CountRoom chunk.lanes counts.old }
    ensures { (j : ℕ) → j < length counts.old → get_or counts.new j 0 ≡ get_or counts.old j 0 + marked_in (lane_of (word_at acc.now)) (onward (64 * chunk.start) (stored_bit chunk.stride words.now)) ((next + j) ∷ []) chunk.lanes 1 }
{
    for (j, count) in counts.iter_mut().enumerate() {
        let row = row_part(words, next + j, chunk);
        *count += count_with(acc, row, 0, chunk.lanes);
    }
}

// Adds to each bin of the bits the marked blocks in it. By the last bit, so that a bin with and one without it are half the bins
// apart: the marks of either half are ANDed once for all its bins, and every bin is counted from rows.
fn add_bins(acc: &[u64], words: &[u64], chunk: &Chunk, bits: &[u32], bins: &mut [u32])
    requires in_bounds { (1 ≤ length bits.now) × (length bits.now ≤ 20) × (length bins.old ≡ 2 ^ length bits.now) }
    requires rows_in { RowsIn words.now chunk.now.stride bits.now }
    requires lanes_in { LanesIn chunk.now.stride chunk.now.start chunk.now.lanes × (chunk.now.lanes ≤ 64 * length acc.now) }
    requires count_room { CountRoom chunk.now.lanes bins.old }
    ensures { (v : ℕ) → v < length bins.old → get_or bins.new v 0 ≡ get_or bins.old v 0 + marked_in (lane_of (word_at acc.now)) (onward (64 * chunk.now.start) (stored_bit chunk.now.stride words.now)) bits.now chunk.now.lanes v }
{
    let last = bits.len() - 1;
    if last < 2 {
        add_few(acc, words, chunk, bits, bins);
        return;
    }
    let row = row_part(words, bits[last] as usize, *chunk);
    let half = bins.len() / 2;
    let mut part = all_marked::<512>();
    and_to(&mut part, acc, row, 0);
    add_bins(&part, words, chunk, &bits[..last], &mut bins[half..]);
    and_to(&mut part, acc, row, u64::MAX);
    add_bins(&part, words, chunk, &bits[..last], &mut bins[..half]);
}

// The same for one bit or two, with no marks between.
fn add_few(acc: &[u64], words: &[u64], chunk: &Chunk, bits: &[u32], bins: &mut [u32])
    requires in_bounds { (1 ≤ length bits.now) × (length bits.now ≤ 2) × (length bins.old ≡ 2 ^ length bits.now) }
    requires rows_in { RowsIn words.now chunk.now.stride bits.now }
    requires lanes_in { LanesIn chunk.now.stride chunk.now.start chunk.now.lanes × (chunk.now.lanes ≤ 64 * length acc.now) }
    requires count_room { CountRoom chunk.now.lanes bins.old }
    ensures { (v : ℕ) → v < length bins.old → get_or bins.new v 0 ≡ get_or bins.old v 0 + marked_in (lane_of (word_at acc.now)) (onward (64 * chunk.now.start) (stored_bit chunk.now.stride words.now)) bits.now chunk.now.lanes v }
{
    let low = row_part(words, bits[0] as usize, *chunk);
    if bits.len() == 1 {
        add_two(acc, low, chunk.lanes, bins);
        return;
    }
    let high = row_part(words, bits[1] as usize, *chunk);
    add_four(acc, high, low, chunk.lanes, bins);
}

// The two bins of one bit.
fn add_two(acc: &[u64], row: &[u64], n: usize, bins: &mut [u32])
    requires n_bound { (n ≤ 64 * length row.now) × (length row.now ≤ length acc.now) × (n ≤ 32768) }
    requires bins_len { (length bins.old ≡ 2) × CountRoom n bins.old }
    ensures { Parted (word_at acc.now) row.now n 0 bins.old bins.new }
{
    let without = count_with(acc, row, u64::MAX, n);
    bins[0] += without;
    let with = count_with(acc, row, 0, n);
    bins[1] += with;
}

// The four bins of two bits.
fn add_four(acc: &[u64], high: &[u64], low: &[u64], n: usize, bins: &mut [u32])
    requires n_bound { (n ≤ 64 * length high.now) × (length high.now ≤ length acc.now) × (length low.now ≡ length high.now) × (n ≤ 32768) }
    requires bins_len { (length bins.old ≡ 4) × CountRoom n bins.old }
    ensures parted { Parted (word_with (word_at acc.now) high.now 18446744073709551615) low.now n 0 bins.old bins.new }
    ensures parted_2 { Parted (word_with (word_at acc.now) high.now 0) low.now n 2 bins.old bins.new }
{
    let lower = count_both(acc, high, u64::MAX, low, n);
    let upper = count_both(acc, high, 0, low, n);
    bins[0] += lower.without;
    bins[1] += lower.with;
    bins[2] += upper.without;
    bins[3] += upper.with;
}

// Puts acc and a row, flipped, ANDed into the first words of `to`.
fn and_to(to: &mut [u64], acc: &[u64], row: &[u64], flip: u64)
    requires { (length row.now ≤ length acc.now) × (length row.now ≤ length to.old) }
    ensures { (t : ℕ) → t < length row.now → get_or to.new t 0 ≡ word_with (word_at acc.now) row.now flip t }
{
    for t in 0..row.len() {
        to[t] = acc[t] & (row[t] ^ flip);
    }
}
