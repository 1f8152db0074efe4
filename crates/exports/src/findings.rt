// Findings that a host lends: tested on the 64-bit numbers as they stand, and read where these fit.
// Entries past the width are not read, and none is where the width is refused: a host may leave them uninitialised.
ghost use Rattle.std.specs.Prelude.{◌≡◌, ◌≤◌, min, length};
ghost use Rattle.counting.specs.Refusal.{refusal_of};
ghost use Rattle.counting.specs.Sample.{Below};
ghost use Rattle.subsets.specs.Bits.{increasing, within, bits_refusal};
ghost use Rattle.subsets.specs.Subsets.{padded};
ghost use Rattle.judging.specs.Check.{check_refusal, checked_scratch};
ghost use Rattle.judging.specs.Evaluation.{as_evaluated, evaluated_of, evaluated_scratch};
ghost use Rattle.exchange.specs.Exchange.{as_written, Writes};
ghost use Rattle.exports.specs.Records.{finding_read};
ghost use Rattle.exports.specs.Findings.{subset_refusal, narrowed, Readable};

use counting::block::valid_block_size;
use counting::refusal::Refusal;
use exchange::writer::write_finding;
use judging::check::validate;
use judging::evaluation::{Evaluated, evaluate_histogram};
use searching::finding::Finding;
use subsets::bits::valid_width;

// The check of the finding whose numbers stand first. Refusals 1, 2, 9, 10, 11, 7, 13, 14.
pub fn validate_lent(numbers: &[u64], order: &[u32], scratch: &mut [u32]) -> Result<(), Refusal>
    requires { 25 ≤ length numbers.now }
    ensures value { refusal_of result ≡ check_refusal (finding_read numbers.now) order.now (length scratch.old) }
    ensures scratch_after { scratch.new ≡ checked_scratch (finding_read numbers.now) (length order.now) scratch.old }
{
    subset_refusal(numbers)?;
    validate(read_finding(numbers), order, scratch)
}

// The evaluation of the finding whose numbers stand first. Refusals 1, 2, 9, 10, 11, 12, 7, 13, 14.
pub fn evaluate_lent(
    numbers: &[u64],
    order: &[u32],
    bytes: &[u8],
    scratch: &mut [u32],
) -> Result<Evaluated, Refusal>
    requires { 25 ≤ length numbers.now }
    ensures value { as_evaluated result ≡ evaluated_of (finding_read numbers.now) order.now bytes.now (length scratch.old) }
    ensures scratch_after { scratch.new ≡ evaluated_scratch (finding_read numbers.now) order.now bytes.now scratch.old }
{
    subset_refusal(numbers)?;
    evaluate_histogram(read_finding(numbers), order, bytes, scratch)
}

// The finding whose numbers stand first, written with its order as text: its length. Refusals 1, 2, 9, 10, 11, 7, 13, 14, 17.
pub fn write_lent(
    numbers: &[u64],
    order: &[u32],
    scratch: &mut [u32],
    out: &mut [u8],
) -> Result<usize, Refusal>
    requires { 25 ≤ length numbers.now }
    ensures { Writes (finding_read numbers.now) order.now scratch.old out.old (as_written result) scratch.new out.new }
{
    subset_refusal(numbers)?;
    write_finding(read_finding(numbers), order, scratch, out)
}

// BlockSize, Width, BitsNotRising or BitOutsideBlock where the bits are no subset of the block.
fn subset_refusal(numbers: &[u64]) -> Result<(), Refusal>
    requires { 25 ≤ length numbers.now }
    ensures { refusal_of result ≡ subset_refusal (finding_read numbers.now) }
{
    let block_size = numbers[0] as usize;
    if !valid_block_size(block_size) {
        return Err(Refusal::BlockSize);
    }
    let k = numbers[1] as usize;
    if !valid_width(k) {
        return Err(Refusal::Width);
    }
    lent_bits_refusal(&numbers[4..4 + k], block_size)
}

// BitsNotRising where the bits do not increase, else BitOutsideBlock where one is not in the block.
fn lent_bits_refusal(bits: &[u64], block_size: usize) -> Result<(), Refusal>
    ensures { refusal_of result ≡ bits_refusal block_size bits.now }
{
    if !lent_increasing(bits) {
        return Err(Refusal::BitsNotRising);
    }
    if !lent_within(bits, block_size) {
        return Err(Refusal::BitOutsideBlock);
    }
    Ok(())
}

// Whether each bit is less than the one after it.
// Kept: this and the next beside those of subsets, which are of u32; one over both would need a bound that carries the order of numbers, and be no plainer.
fn lent_increasing(bits: &[u64]) -> bool
    ensures { result ≡ increasing bits.now }
{
    bits.is_sorted_by(|a, b| *a < *b)
}

// Whether each bit is below the block size.
fn lent_within(bits: &[u64], block_size: usize) -> bool
    ensures { result ≡ within block_size bits.now }
{
    bits.iter().all(|&bit| (bit as usize) < block_size)
}

// The finding whose numbers stand first; z is left at 0, since judging does not read it.
fn read_finding(numbers: &[u64]) -> Finding
    requires { Readable numbers.now }
    ensures { result ≡ narrowed (finding_read numbers.now) }
{
    let k = numbers[1] as usize;
    let bits = read_bits(&numbers[4..4 + k]);
    Finding {
        block_size: numbers[0] as usize,
        width: k,
        bits,
        division: narrow(numbers[2]),
        z: 0.0,
        low_first: numbers[24] == 1,
    }
}

// The bits in an array of 20, with zeros past them.
fn read_bits(lent: &[u64]) -> [u32; 20]
    requires { (length lent.now ≤ 20) × Below 4294967296 lent.now }
    ensures { result ≡ padded lent.now }
{
    let mut bits = [0; 20];
    for (i, &bit) in lent.iter().enumerate() {
        bits[i] = bit as u32;
    }
    bits
}

// A number in 32 bits: the largest where it is larger.
fn narrow(x: u64) -> u32
    ensures { result ≡ min x 4294967295 }
{
    u32::try_from(x).unwrap_or(u32::MAX)
}
