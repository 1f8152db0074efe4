// A finding of the training bytes, judged on the testing bytes.
ghost use Rattle.std.specs.Prelude.{◌≡◌, length, ◌+◌, ◌*◌, ◌≤◌};
ghost use Rattle.judging.specs.Evaluation.{score_number};
ghost use Rattle.counting.specs.Buffer.{put};
ghost use Rattle.sheet.specs.Judgement.{judged_of, lines_of, Judgeable};

use crate::lines::{pattern, put_lines, wide};
use counting::block::bin_count;
use counting::buffer::filled;
use judging::evaluation::{Score, evaluate_histogram};
use judging::training::train;
use searching::finding::Finding;

// The finding, and how many testing blocks are positive with what score.
#[derive(Clone, Copy)]
pub struct Judged {
    pub finding: Finding,
    pub positive: u32,
    pub z: f64,
}

// Writes the three lines; answers their length.
pub fn put_judged(
    block_size: usize,
    k: usize,
    training: &[u8],
    testing: &[u8],
    out: &mut [u8],
) -> usize
    requires judgeable { Judgeable block_size k training.now testing.now }
    requires k_in_bounds { 91 + 8 * k ≤ length out.old }
    ensures value { result ≡ length (lines_of block_size k training.now testing.now) }
    ensures out_after { out.new ≡ put out.old 0 (lines_of block_size k training.now testing.now) }
{
    let judged = judge(block_size, k, training, testing);
    let finding = judged.finding;
    let size = block_size / 8;
    let counts = [
        block_size as u64,
        k as u64,
        (training.len() / size) as u64,
        (testing.len() / size) as u64,
        finding.division as u64,
        judged.positive as u64,
    ];
    let chosen = finding.bits;
    let bits = wide(chosen);
    let patterns = [pattern(finding.z), pattern(judged.z)];
    put_lines(out, &counts, &bits[..k], &patterns)
}

// Searches the training bytes, high bit first, and evaluates what is found on the testing bytes.
fn judge(block_size: usize, k: usize, training: &[u8], testing: &[u8]) -> Judged
    requires { Judgeable block_size k training.now testing.now }
    ensures { result ≡ judged_of block_size k training.now testing.now }
{
    // Words for 4,096 training bytes: whatever B up to 64 is, no more than 63 words are left over by floor(576 / B), and 8 bytes go into a word.
    let mut words = filled::<u64, 576>(0);
    // A store for the subsets of up to 4 bits of a block of 64, so for every search of 5 bits; of more bits those of the smaller blocks fit too.
    let mut store = filled::<u32, 679120>(0);
    let mut bins = filled::<u32, 256>(0);
    let mut order = filled::<u32, 256>(0);
    let finding = train(
        block_size, k, false, training, &mut words, &mut store, &mut bins, &mut order,
    );
    let m = bin_count(k);
    let evaluated = evaluate_histogram(finding, &order[..m], testing, &mut bins).unwrap();
    let score = evaluated.score;
    Judged {
        finding,
        positive: evaluated.positive,
        z: number_of(score),
    }
}

// The number that a score stands for: NaN where there is no sample, which does not arise here.
fn number_of(score: Score) -> f64
    ensures { result ≡ score_number score }
{
    match score {
        Score::Z(z) => z,
        Score::NoSample => f64::NAN,
    }
}
