// Records as numbers in slices that a host lends.
ghost use Rattle.std.specs.Prelude.{◌≡◌, ◌+◌, ◌≤◌, ◌++◌, Ok, cond, leb, length, take, drop, replicate};
ghost use Rattle.std.specs.Float.{binary64};
ghost use Rattle.std.specs.Float.Ieee.{to_bits};
ghost use Rattle.counting.specs.Refusal.{refusal_of};
ghost use Rattle.subsets.specs.Rank.{as_ranked, ranked_of};
ghost use Rattle.judging.specs.Evaluation.{as_evaluated};
ghost use Rattle.judging.specs.Plan.{as_plan};
ghost use Rattle.sweeping.specs.Sweep.{as_swept};
ghost use Rattle.sweeping.specs.Verdict.{verdict_number};
ghost use Rattle.exports.specs.Records.{order_number, finding_numbers, score_case, score_bits, evaluated_numbers, plan_numbers, tested_numbers, swept_numbers, written, short_record, bit_order_refusal, finding_unread, evaluation_unread, no_plan, no_sweep};

use counting::refusal::Refusal;
use judging::evaluation::{Evaluated, Score};
use judging::plan::{Plan, Planned};
use searching::finding::{Finding, no_finding};
use subsets::rank::compute_index;
use sweeping::pair::Tested;
use sweeping::sweep::Swept;
use sweeping::verdict::Verdict;

// Numbers where fewer are given than a record needs.
pub fn enough(given: usize, needed: usize) -> Result<(), Refusal>
    ensures { refusal_of result ≡ cond (leb needed given) 0 short_record }
{
    if given < needed {
        return Err(Refusal::Numbers);
    }
    Ok(())
}

// BitOrder where the number of a record's bit order is neither 0 nor 1.
pub fn order_unread(number: u64) -> Result<(), Refusal>
    ensures { refusal_of result ≡ bit_order_refusal number }
{
    let other = number > 1;
    if other {
        return Err(Refusal::BitOrder);
    }
    Ok(())
}

// Numbers or BitOrder where no finding can be read from the slice.
pub fn finding_unread(numbers: &[u64]) -> Result<(), Refusal>
    ensures { refusal_of result ≡ finding_unread numbers.now }
{
    enough(numbers.len(), 25)?;
    order_unread(numbers[24])
}

// The same, or Numbers where an evaluation cannot be written to a slice of `room` numbers.
pub fn evaluation_unread(numbers: &[u64], room: usize) -> Result<(), Refusal>
    ensures { refusal_of result ≡ evaluation_unread numbers.now room }
{
    enough(room, 3)?;
    finding_unread(numbers)
}

// 1 where the low bit comes first, else 0.
pub fn order_number(low_first: bool) -> u64
    ensures { result ≡ order_number low_first }
{
    u64::from(low_first)
}

// Puts the finding's numbers first.
pub fn write_finding(finding: Finding, numbers: &mut [u64])
    requires { 25 ≤ length numbers.old }
    ensures { numbers.new ≡ written (finding_numbers finding) numbers.old }
{
    numbers[0] = finding.block_size as u64;
    numbers[1] = finding.width as u64;
    numbers[2] = finding.division as u64;
    numbers[3] = pattern(finding.z);
    let bits = finding.bits;
    write_bits(&bits[..], numbers);
    numbers[24] = order_number(finding.low_first);
}

// Puts the bits after the first four numbers.
// Kept: beside `write_sizes`, since no conversion of the library takes both u32 and usize to u64.
fn write_bits(bits: &[u32], numbers: &mut [u64])
    requires { 4 + length bits.now ≤ length numbers.old }
    ensures { numbers.new ≡ (take 4 numbers.old ++ bits.now) ++ drop (4 + length bits.now) numbers.old }
{
    for (i, &bit) in bits.iter().enumerate() {
        numbers[4 + i] = bit as u64;
    }
}

// A double's bits; those of the quiet NaN with no sign for every NaN.
pub fn pattern(z: f64) -> u64
    ensures { result ≡ to_bits binary64 z }
{
    if z.is_nan() {
        return 9221120237041090560;
    }
    f64::to_bits(z)
}

// The bits in an array of 20, with zeros past them.
pub fn array_of(bits: &[u32]) -> [u32; 20]
    requires { length bits.now ≤ 20 }
    ensures { result ≡ written bits.now (replicate 20 0) }
{
    let mut array = [0; 20];
    array[..bits.len()].copy_from_slice(bits);
    array
}

// The rank of the bits, however many.
pub fn rank_of(block_size: usize, bits: &[u32]) -> Result<usize, Refusal>
    ensures { as_ranked result ≡ ranked_of block_size (length bits.now) bits.now }
{
    if bits.len() > 20 {
        let none = [0u32; 20];
        return compute_index(block_size, bits.len(), none);
    }
    compute_index(block_size, bits.len(), array_of(bits))
}

// Puts the evaluation's numbers first.
pub fn write_evaluated(evaluated: Evaluated, numbers: &mut [u64])
    requires { 3 ≤ length numbers.old }
    ensures { numbers.new ≡ written (evaluated_numbers (as_evaluated (Ok evaluated))) numbers.old }
{
    let score = evaluated.score;
    numbers[0] = evaluated.positive as u64;
    numbers[1] = score_case(score);
    numbers[2] = score_bits(score);
}

// 1 where the score is a number, 0 for no sample.
fn score_case(score: Score) -> u64
    ensures { result ≡ score_case score }
{
    match score {
        Score::Z(_) => 1,
        Score::NoSample => 0,
    }
}

// The bits of z, 0 for no sample.
fn score_bits(score: Score) -> u64
    ensures { result ≡ score_bits score }
{
    match score {
        Score::Z(z) => pattern(z),
        Score::NoSample => 0,
    }
}

// Puts the plan's numbers first.
pub fn write_plan(plan: Plan, numbers: &mut [u64])
    requires { 15 ≤ length numbers.old }
    ensures { numbers.new ≡ written (plan_numbers (as_plan (Ok plan))) numbers.old }
{
    numbers[0] = plan.pairs as u64;
    let [a, b, c, d, e, f, g] = plan.sizes;
    let blocks = [
        a.block_size,
        b.block_size,
        c.block_size,
        d.block_size,
        e.block_size,
        f.block_size,
        g.block_size,
    ];
    write_sizes(&blocks[..], 1, numbers);
    let widths = [
        a.width, b.width, c.width, d.width, e.width, f.width, g.width,
    ];
    write_sizes(&widths[..], 8, numbers);
}

// Puts the sizes at a place.
pub fn write_sizes(sizes: &[usize], at: usize, numbers: &mut [u64])
    requires { at + length sizes.now ≤ length numbers.old }
    ensures { numbers.new ≡ (take at numbers.old ++ sizes.now) ++ drop (at + length sizes.now) numbers.old }
{
    for (i, &size) in sizes.iter().enumerate() {
        numbers[at + i] = size as u64;
    }
}

// Puts the sweep's numbers first: those of the verdict, of the best pair and of the last.
pub fn write_swept(swept: Swept, numbers: &mut [u64])
    requires { 60 ≤ length numbers.old }
    ensures { numbers.new ≡ written (swept_numbers (as_swept (Ok swept))) numbers.old }
{
    let verdict = swept.verdict;
    numbers[0] = verdict_number(verdict);
    numbers[1] = swept.tested as u64;
    write_tested(swept.best, &mut numbers[2..31]);
    write_tested(swept.last, &mut numbers[31..60]);
}

// Puts the numbers of a pair that was tested first: those of its finding, and four behind them.
fn write_tested(tested: Tested, numbers: &mut [u64])
    requires { 29 ≤ length numbers.old }
    ensures { numbers.new ≡ written (tested_numbers tested) numbers.old }
{
    write_finding(tested.finding, numbers);
    numbers[25] = tested.blocks as u64;
    numbers[26] = tested.positive as u64;
    numbers[27] = tested.low;
    numbers[28] = tested.high;
}

// 0 undecided, 1 rejected, 2 not rejected.
fn verdict_number(verdict: Verdict) -> u64
    ensures { result ≡ verdict_number verdict }
{
    match verdict {
        Verdict::Rejected => 1,
        Verdict::Undecided => 0,
        Verdict::NotRejected => 2,
    }
}

// What stands beside a refusal of a plan: every number 0.
pub fn no_plan() -> Plan
    ensures { result ≡ no_plan }
{
    Plan {
        pairs: 0,
        sizes: [Planned {
            block_size: 0,
            width: 0,
        }; 7],
    }
}

// What stands beside a refusal of a sweep: every number 0.
pub fn no_sweep() -> Swept
    ensures { result ≡ no_sweep }
{
    let none = Tested {
        finding: no_finding(),
        blocks: 0,
        positive: 0,
        low: 0,
        high: 0,
    };
    Swept {
        verdict: Verdict::Undecided,
        tested: 0,
        best: none,
        last: none,
    }
}
