// Counts set lanes of words that are ANDed as they are read, so that nothing is stored between. Each word is totalled by the language's
// count of ones; the loops run over consecutive words and have no branch, so that they vectorise.
ghost use Rattle.std.specs.Prelude.{◌≡◌, ◌*◌, ◌%◌, ◌^◌, ◌≤◌, ◌<◌, length};
ghost use Rattle.std.specs.Int.Bits.{bit_and, bit_xor};
ghost use Rattle.std.specs.Int.Count.{ones};
ghost use Rattle.counting.specs.Sample.{sum_to};
ghost use Rattle.counting.specs.Tally.{lane_of, word_at, word_with, ones_in};

// How many lanes are set where a row's are not, and where they are.
#[derive(Clone, Copy)]
pub struct Both {
    pub without: u32,
    pub with: u32,
}

// How many of the first n lanes of acc and a row, flipped, are set in both.
pub fn count_with(acc: &[u64], row: &[u64], flip: u64, n: usize) -> u32
    requires { (n ≤ 64 * length row.now) × (length row.now ≤ length acc.now) × (n ≤ 32768) }
    ensures { (result ≡ sum_to (lane_of (word_with (word_at acc.now) row.now flip)) n) × (result ≤ n) }
{
    let full = n / 64;
    let rest = n % 64;
    let sum = count_words(acc, row, flip, full);
    if rest > 0 {
        sum + ones_below(word(acc, row, flip, full), rest as u32)
    } else {
        sum
    }
}

// The set lanes of the first m words.
fn count_words(acc: &[u64], row: &[u64], flip: u64, m: usize) -> u32
    requires { (m ≤ length row.now) × (length row.now ≤ length acc.now) × (m ≤ 512) }
    ensures { (result ≡ sum_to (ones_in (word_with (word_at acc.now) row.now flip)) m) × (result ≤ 64 * m) }
{
    let mut sum: u64 = 0;
    for t in 0..m {
        sum += ones_of(word(acc, row, flip, t));
    }
    sum as u32
}

// How many of the first n lanes of acc and the high row, flipped, are set, by the low row: what the two have in common is ANDed once.
pub fn count_both(acc: &[u64], high: &[u64], flip: u64, low: &[u64], n: usize) -> Both
    requires { (n ≤ 64 * length high.now) × (length high.now ≤ length acc.now) × (length low.now ≡ length high.now) × (n ≤ 32768) }
    ensures without_value { (result.without ≡ sum_to (lane_of (word_with (word_with (word_at acc.now) high.now flip) low.now 18446744073709551615)) n) × (result.without ≤ n) }
    ensures with_value { (result.with ≡ sum_to (lane_of (word_with (word_with (word_at acc.now) high.now flip) low.now 0)) n) × (result.with ≤ n) }
{
    let full = n / 64;
    let rest = n % 64;
    let sums = both_words(acc, high, flip, low, full);
    if rest > 0 {
        let w = word(acc, high, flip, full);
        Both {
            without: sums.without + ones_below(anded(w, low[full], u64::MAX), rest as u32),
            with: sums.with + ones_below(anded(w, low[full], 0), rest as u32),
        }
    } else {
        sums
    }
}

// The same of the first m words.
fn both_words(acc: &[u64], high: &[u64], flip: u64, low: &[u64], m: usize) -> Both
    requires { (m ≤ length high.now) × (length high.now ≤ length acc.now) × (length low.now ≡ length high.now) × (m ≤ 512) }
    ensures without_value { (result.without ≡ sum_to (ones_in (word_with (word_with (word_at acc.now) high.now flip) low.now 18446744073709551615)) m) × (result.without ≤ 64 * m) }
    ensures with_value { (result.with ≡ sum_to (ones_in (word_with (word_with (word_at acc.now) high.now flip) low.now 0)) m) × (result.with ≤ 64 * m) }
{
    let mut without: u64 = 0;
    let mut with: u64 = 0;
    for t in 0..m {
        let w = word(acc, high, flip, t);
        without += ones_of(anded(w, low[t], u64::MAX));
        with += ones_of(anded(w, low[t], 0));
    }
    Both {
        without: without as u32,
        with: with as u32,
    }
}

// Word t of acc ANDed with the row's, flipped.
fn word(acc: &[u64], row: &[u64], flip: u64, t: usize) -> u64
    requires { (t < length row.now) × (length row.now ≤ length acc.now) }
    ensures { result ≡ word_with (word_at acc.now) row.now flip t }
{
    anded(acc[t], row[t], flip)
}

// A word ANDed with another, flipped.
fn anded(w: u64, x: u64, flip: u64) -> u64
    ensures { result ≡ bit_and w (bit_xor x flip) }
{
    w & (x ^ flip)
}

// The set bits of w.
fn ones_of(w: u64) -> u64
    ensures { (result ≡ ones w) × (result ≤ 64) }
{
    u64::count_ones(w) as u64
}

// The set bits among the first m of w.
fn ones_below(w: u64, m: u32) -> u32
    requires { m < 64 }
    ensures { (result ≡ ones (w % 2 ^ m)) × (result ≤ m) }
{
    u64::count_ones(w & ((1u64 << m) - 1))
}
