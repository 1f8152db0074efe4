// Writing a finding and its order.
ghost use Rattle.std.specs.Prelude.{◌≡◌, ◌+◌, ◌≤◌, leb, length};
ghost use Rattle.counting.specs.Buffer.{put};
ghost use Rattle.exchange.specs.Exchange.{finding_text, as_written, Writes};
ghost use Rattle.exchange.specs.Length.{longest_text};
ghost use Rattle.exchange.specs.Writer.{truth, arrays_text, numbers_text, low_text, Writable};

use crate::decimals::{digits, listed_length, put_decimal, put_listed};
use counting::block::bin_count;
use counting::refusal::Refusal;
use judging::check::validate;
use sampling::feeding::write_bytes;
use searching::finding::Finding;
use subsets::bits::valid_width;

// Writes a finding and its order, and answers the length of the text: the check's refusals, then 17 where the buffer is too short. The output is as lent
// where refused; the scratch is as the check leaves it.
pub fn write_finding(
    finding: Finding,
    order: &[u32],
    scratch: &mut [u32],
    out: &mut [u8],
) -> Result<usize, Refusal>
    ensures { Writes finding order.now scratch.old out.old (as_written result) scratch.new out.new }
{
    validate(finding, order, scratch)?;
    if !has_room(finding, order, out.len()) {
        return Err(Refusal::Room);
    }
    Ok(put_text(finding, order, out))
}

// Whether the text fits `room` bytes. Nothing is counted where the longest text of its width fits.
fn has_room(finding: Finding, order: &[u32], room: usize) -> bool
    requires { Writable finding order.now }
    ensures { result ≡ leb (length (finding_text finding order.now)) room }
{
    longest_text(finding.width) <= room || text_length(finding, order) <= room
}

// How long the text of an accepted finding of width k can be; 0 where k is no width.
pub fn longest_text(k: usize) -> usize
    ensures { result ≡ longest_text k }
{
    if !valid_width(k) {
        // Kept: 0 for no width, since `jimrawel_longest_text` and `longest_text` of specs/ say so.
        return 0;
    }
    81 + 5 * k + (bin_count(k) + 1) * (2 + 3 * k / 10)
}

// The length of the text.
fn text_length(finding: Finding, order: &[u32]) -> usize
    requires { Writable finding order.now }
    ensures { result ≡ length (finding_text finding order.now) }
{
    let bits = finding.bits;
    let k = finding.width;
    let numbers = digits(finding.division) + digits(finding.block_size as u32);
    75 + listed_length(&bits[..k])
        + listed_length(order)
        + numbers
        + truth_length(finding.low_first)
}

// The length of true or false.
fn truth_length(value: bool) -> usize
    ensures { result ≡ length (truth value) }
{
    if value { 4 } else { 5 }
}

// Writes the text to the front of a buffer with room for it; answers its length.
fn put_text(finding: Finding, order: &[u32], out: &mut [u8]) -> usize
    requires writable { Writable finding order.now }
    requires order_in_bounds { length (finding_text finding order.now) ≤ length out.old }
    ensures value { result ≡ length (finding_text finding order.now) }
    ensures out_after { out.new ≡ put out.old 0 (finding_text finding order.now) }
{
    let bits = finding.bits;
    let k = finding.width;
    let at = put_arrays(out, &bits[..k], order);
    put_numbers(
        out,
        at,
        finding.division,
        finding.block_size as u32,
        finding.low_first,
    )
}

// The first two members, up to the end of the second array.
fn put_arrays(out: &mut [u8], bits: &[u32], order: &[u32]) -> usize
    requires { length (arrays_text bits.now order.now) ≤ length out.old }
    ensures value { result ≡ length (arrays_text bits.now order.now) }
    ensures out_after { out.new ≡ put out.old 0 (arrays_text bits.now order.now) }
{
    let a = put_bytes(out, 0, b"{\"bits\":[");
    let b = put_listed(out, a, bits);
    let c = put_bytes(out, b, b"],\"sorted_indices\":[");
    put_listed(out, c, order)
}

// The end of the second array and the last three members.
fn put_numbers(out: &mut [u8], at: usize, division: u32, block_size: u32, low_first: bool) -> usize
    requires { at + length (numbers_text division block_size low_first) ≤ length out.old }
    ensures value { result ≡ at + length (numbers_text division block_size low_first) }
    ensures out_after { out.new ≡ put out.old at (numbers_text division block_size low_first) }
{
    let a = put_bytes(out, at, b"],\"best_division\":");
    let b = put_decimal(out, a, division);
    let c = put_bytes(out, b, b",\"block_size\":");
    let d = put_decimal(out, c, block_size);
    put_low(out, d, low_first)
}

// The last member and the closing brace.
fn put_low(out: &mut [u8], at: usize, low_first: bool) -> usize
    requires { at + length (low_text low_first) ≤ length out.old }
    ensures value { result ≡ at + length (low_text low_first) }
    ensures out_after { out.new ≡ put out.old at (low_text low_first) }
{
    put_bytes(out, at, low_text(low_first))
}

// They are one of two.
#[tactic(auto, unfolding(crate::specs::Writer::low_text))]
fn low_text(low_first: bool) -> &'static [u8]
    ensures { result.now ≡ low_text low_first }
{
    if low_first {
        b",\"low_first\":true}"
    } else {
        b",\"low_first\":false}"
    }
}

// Writes bytes from place `at` on; answers the place behind them.
fn put_bytes(out: &mut [u8], at: usize, bytes: &[u8]) -> usize
    requires { at + length bytes.now ≤ length out.old }
    ensures value { result ≡ at + length bytes.now }
    ensures out_after { out.new ≡ put out.old at bytes.now }
{
    write_bytes(out, at, bytes);
    at + bytes.len()
}
