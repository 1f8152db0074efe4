// Reading a finding and its order.
ghost use Rattle.std.specs.Prelude.{◌≡◌, take};
ghost use Rattle.subsets.specs.Subsets.{padded};
ghost use Rattle.exchange.specs.Cursor.{numbers_of, exchanged_in};
ghost use Rattle.exchange.specs.Exchange.{said_finding, as_reading, Reads};

use crate::arrays::store_entries;
use crate::listed::Listed;
use crate::text::{Said, read_text};
use counting::refusal::Refusal;
use judging::check::validate;
use searching::finding::Finding;

// Reads a text: 16 where it is none, 17 where the order has no room for its indices, then the check's refusals.
// After 16 and 17 everything is as lent; else the order begins with the indices, and the scratch is as the check leaves it.
pub fn read_finding(text: &[u8], order: &mut [u32], scratch: &mut [u32]) -> Result<Finding, Refusal>
    ensures { Reads text.now order.old scratch.old (as_reading result) order.new scratch.new }
{
    let said = read_text(text).ok_or(Refusal::Text)?;
    let indices = said.indices;
    let count = indices.count;
    if order.len() < count {
        return Err(Refusal::Room);
    }
    store_entries(indices.text, &mut order[..count]);
    let finding = finding_of(said);
    validate(finding, &order[..count], scratch)?;
    Ok(finding)
}

// The finding of a text that is one: the width is the number of its bits, of which the array has room for twenty.
fn finding_of(said: Said<'_>) -> Finding
    ensures { result ≡ said_finding (exchanged_in said.entry) }
{
    Finding {
        block_size: said.block_size as usize,
        width: said.bits.count,
        bits: bits_of(said.bits),
        division: said.division,
        z: 0.0,
        low_first: said.low_first,
    }
}

// The first twenty bits, with zeros past them.
fn bits_of(listed: Listed<'_>) -> [u32; 20]
    ensures { result ≡ padded (take 20 (numbers_of listed.entry)) }
{
    let mut bits = [0u32; 20];
    let count = listed.count.min(20);
    store_entries(listed.text, &mut bits[..count]);
    bits
}
