// Decimal numbers without leading zeros, written into a buffer.
ghost use Rattle.std.specs.Prelude.{◌≡◌, ◌+◌, ◌≤◌, ◌<◌, length};
ghost use Rattle.counting.specs.Buffer.{put};
ghost use Rattle.exchange.specs.Writer.{places, decimal, behind, listed};

// How many digits a number has: one, and one more for each power of ten up to it. Without branches, so that many numbers are counted at a time.
pub fn digits(n: u32) -> usize
    ensures { result ≡ length (decimal n) }
{
    let mut count: u32 = 1;
    let mut power: u32 = 1;
    for _ in 0..9u32 {
        power *= 10;
        count += u32::from(power <= n);
    }
    count as usize
}

// How long numbers with commas between them are.
pub fn listed_length(ns: &[u32]) -> usize
    requires { length ns.now ≤ 1048576 }
    ensures { result ≡ length (listed ns.now) }
{
    let mut sum = ns.len().saturating_sub(1);
    for n in ns {
        sum += digits(*n);
    }
    sum
}

// Writes a number from place `at` on; answers the place behind it. Four digits at a time: their divisions do not wait for each other.
// Kept: a buffer and a place in it stay two parameters; a struct with the `&mut` in it would be lent as a `&mut` to a `&mut`, and each promise would have to say too that the buffer is still the caller's.
pub fn put_decimal(out: &mut [u8], at: usize, n: u32) -> usize
    requires { at + length (decimal n) ≤ length out.old }
    ensures value { result ≡ at + length (decimal n) }
    ensures out_after { out.new ≡ put out.old at (decimal n) }
{
    if n < 10000 {
        return put_short(out, at, n);
    }
    if n < 100000000 {
        let to = put_short(out, at, n / 10000);
        put_four(out, to, n % 10000);
        return to + 4;
    }
    let to = put_short(out, at, n / 100000000);
    put_four(out, to, n / 10000 % 10000);
    put_four(out, to + 4, n % 10000);
    to + 8
}

// A number of at most four digits.
fn put_short(out: &mut [u8], at: usize, n: u32) -> usize
    requires n_bound { n < 10000 }
    requires n_in_bounds { at + length (decimal n) ≤ length out.old }
    ensures value { result ≡ at + length (decimal n) }
    ensures out_after { out.new ≡ put out.old at (decimal n) }
{
    if n < 10 {
        out[at] = digit(n);
        return at + 1;
    }
    if n < 100 {
        put_two(out, at, n);
        return at + 2;
    }
    if n < 1000 {
        out[at] = digit(n / 100);
        put_two(out, at + 1, n % 100);
        return at + 3;
    }
    put_four(out, at, n);
    at + 4
}

// Four digits, zeros in front among them.
fn put_four(out: &mut [u8], at: usize, n: u32)
    requires n_bound { n < 10000 }
    requires at_in_bounds { at + 4 ≤ length out.old }
    ensures { out.new ≡ put out.old at (places 4 n) }
{
    put_two(out, at, n / 100);
    put_two(out, at + 2, n % 100);
}

fn put_two(out: &mut [u8], at: usize, n: u32)
    requires n_bound { n < 100 }
    requires at_in_bounds { at + 2 ≤ length out.old }
    ensures { out.new ≡ put out.old at (places 2 n) }
{
    out[at] = digit(n / 10);
    out[at + 1] = digit(n % 10);
}

// A digit in ASCII.
fn digit(n: u32) -> u8
    requires { n < 10 }
    ensures { result ≡ 48 + n }
{
    b'0' + n as u8
}

// Writes numbers with commas between them.
pub fn put_listed(out: &mut [u8], at: usize, ns: &[u32]) -> usize
    requires { at + length (listed ns.now) ≤ length out.old }
    ensures value { result ≡ at + length (listed ns.now) }
    ensures out_after { out.new ≡ put out.old at (listed ns.now) }
{
    let [first, others @ ..] = ns else {
        return at;
    };
    let to = put_decimal(out, at, *first);
    put_behind(out, to, others)
}

// Writes numbers behind another, a comma before each.
fn put_behind(out: &mut [u8], at: usize, ns: &[u32]) -> usize
    requires { at + length (behind ns.now) ≤ length out.old }
    ensures value { result ≡ at + length (behind ns.now) }
    ensures out_after { out.new ≡ put out.old at (behind ns.now) }
{
    let mut to = at;
    for n in ns {
        out[to] = b',';
        to = put_decimal(out, to + 1, *n);
    }
    to
}
