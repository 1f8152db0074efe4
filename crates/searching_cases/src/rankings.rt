// Cases of the ranking of one subset: k, the length of the table of roots, the 2 ^ k counts.
// Answer: a line with the division and the pattern of z, and a line with the order and the two entries past it, which stay as lent.
ghost use Rattle.std.specs.Prelude.{◌≡◌, ◌^◌, ◌≤◌, IfSome, length};
ghost use Rattle.counting.specs.Sample.{total};

use cases::patterns::print_double;
use cases::printing::{end_line, print_number, print_numbers};
use cases::reading::Reader;
use counting::block::bin_count;
use counting::buffer::filled;
use ranking::ranking::{fill_roots, from_bins};
use std::io;
use std::io::Stdout;

// The number of cases, then the cases.
pub fn replay(stdout: Stdout, reader: &mut Reader) -> io::Result<()> {
    reader.each(|reader| replay_one(stdout, reader))
}

fn replay_one(stdout: Stdout, reader: &mut Reader) -> io::Result<()> {
    // Room for the bins of 12 bits and two entries past them.
    let mut bins = filled::<u32, 4098>(99);
    let mut order = filled::<u32, 4098>(99);
    let mut roots = filled::<f64, 4096>(0.0);
    let k = reader.at_most(12);
    let known = reader.at_most(roots.len());
    let m = bins_of(k);
    let bins = &mut bins[..m];
    reader.fill(bins, u32::MAX);
    answer(stdout, bins, &mut order[..m + 2], k, &mut roots[..known])
}

// The number of bins of k bits.
fn bins_of(k: usize) -> usize
    requires { k ≤ 12 }
    ensures { (result ≡ 2 ^ k) × (result ≤ 4096) }
{
    bin_count(k)
}

// Prints 99999999 alone where the counts add up to more than the largest u32.
fn answer(
    stdout: Stdout,
    bins: &[u32],
    order: &mut [u32],
    k: usize,
    roots: &mut [f64],
) -> io::Result<()>
    requires { (k ≤ 12) × (length bins.now ≡ 2 ^ k) × (2 ^ k ≤ length order.old) × (length roots.old ≤ 4096) }
{
    let Some(n) = blocks(bins) else {
        print_number(stdout, 99999999)?;
        return end_line(stdout);
    };
    fill_roots(roots, n, k);
    let ranking = from_bins(bins, order, n, k, roots);
    print_number(stdout, ranking.division)?;
    print_double(stdout, ranking.z)?;
    end_line(stdout)?;
    print_numbers(stdout, order)?;
    end_line(stdout)
}

// The sum of the counts.
fn blocks(bins: &[u32]) -> Option<u32>
    ensures { IfSome result (λ n. n ≡ total bins.now) }
{
    let mut n = 0u32;
    for count in bins {
        n = n.checked_add(*count)?;
    }
    Some(n)
}
