// Cases of samplers: B, the bit order, 1 where the low bit comes first, and the number of lent words; how the recording begins and the feeds, as
// `cases::feeding` reads them; where the start or the carry-over is not refused, the number of subsets, for each the first block and the end of a stretch, its
// width and its bits.
// Answer: the line of `cases::feeding`. Where the start or the carry-over is not refused: a line with n; a line for each row, as far as it holds blocks below n; a line for each subset with the counts of its bins over the stretch and, once more, of
// its all-ones bin.
ghost use Rattle.std.specs.Prelude.{◌<◌};
ghost use Rattle.counting.specs.Rows.{RowsIn};
ghost use Rattle.counting.specs.Stretch.{Within};
ghost use Rattle.counting_cases.specs.Fitting.{Countable};

use crate::fitting::{countable, rows_in, within};
use cases::feeding::{dirty, record};
use cases::printing::{end_line, print_number, print_numbers};
use cases::reading::Reader;
use counting::block::bin_count;
use counting::buffer::filled;
use counting::rows::{multi_eval, multi_eval_neg};
use counting::stretch::Stretch;
use sampling::sampler::blocks;
use std::io;
use std::io::Stdout;

// The number of cases, then the cases.
pub fn replay(stdout: Stdout, reader: &mut Reader) -> io::Result<()> {
    reader.each(|reader| replay_one(stdout, reader))
}

fn replay_one(stdout: Stdout, reader: &mut Reader) -> io::Result<()> {
    let mut words = dirty();
    let block_size = reader.at_most(1000000);
    let low_first = reader.flag();
    let count = reader.at_most(words.len());
    let words = &mut words[..count];
    let recorded = record(stdout, reader, block_size, low_first, words)?;
    if recorded.begun.is_err() {
        return Ok(());
    }
    let stride = words.len().checked_div(block_size).unwrap_or(0);
    let n = blocks(recorded.sampler.head);
    print_number(stdout, n)?;
    end_line(stdout)?;
    for b in 0..block_size {
        let from = b.saturating_mul(stride).min(words.len());
        print_row(stdout, &words[from..], n)?;
    }
    reader.each(|reader| count_one(stdout, reader, words, block_size, stride))
}

// The words that hold n blocks.
fn print_row(stdout: Stdout, words: &[u64], n: usize) -> io::Result<()> {
    let shown = n.min(words.len().saturating_mul(64));
    for start in (0..shown).step_by(64) {
        print_number(stdout, lowest(words[start / 64], n - start))?;
    }
    end_line(stdout)
}

// The lowest `lanes` bits of a word, which has 64.
fn lowest(word: u64, lanes: usize) -> u64
    requires { 0 < lanes }
{
    word & (u64::MAX >> (64 - lanes.min(64)))
}

// Reads a subset and counts its bins.
fn count_one(
    stdout: Stdout,
    reader: &mut Reader,
    words: &[u64],
    block_size: usize,
    stride: usize,
) -> io::Result<()> {
    let mut bits = [0u32; 20];
    let stretch = Stretch {
        block_size,
        stride,
        first: reader.size(),
        end: reader.size(),
    };
    let k = reader.at_most(bits.len());
    let bits = &mut bits[..k];
    reader.fill(bits, u32::MAX);
    print_counts(stdout, bits, words, stretch)?;
    end_line(stdout)
}

// Prints 99999999 alone where the rows do not hold the bits or the stretch, or the bits cannot be counted here.
fn print_counts(stdout: Stdout, bits: &[u32], words: &[u64], stretch: Stretch) -> io::Result<()> {
    if !rows_in(bits, words, stretch.stride) || !within(stretch) || !countable(bits) {
        return print_number(stdout, 99999999);
    }
    print_bins(stdout, bits, words, stretch)?;
    print_all_set(stdout, bits, words, stretch)
}

fn print_bins(stdout: Stdout, bits: &[u32], words: &[u64], stretch: Stretch) -> io::Result<()>
    requires countable { Countable bits.now }
    requires rows_in { RowsIn words.now stretch.stride bits.now }
    requires within { Within stretch }
{
    let mut bins = filled::<u32, 1024>(0);
    let bins = &mut bins[..bin_count(bits.len())];
    multi_eval_neg(bits, words, stretch, bins);
    print_numbers(stdout, bins)
}

// The bin of all ones by the other call: the last bit goes on from the others.
fn print_all_set(stdout: Stdout, bits: &[u32], words: &[u64], stretch: Stretch) -> io::Result<()>
    requires countable { Countable bits.now }
    requires rows_in { RowsIn words.now stretch.stride bits.now }
    requires within { Within stretch }
{
    let mut counts = [0u32];
    let last = bits.len() - 1;
    let next = bits[last] as usize;
    multi_eval(&bits[..last], next, words, stretch, &mut counts);
    print_number(stdout, counts[0])
}
