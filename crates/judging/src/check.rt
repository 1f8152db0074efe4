// The check of a finding and its bin order before they are used.
ghost use Rattle.std.specs.Prelude.{◌≡◌, ◌^◌, ◌≤◌, ◌++◌, length, replicate, drop};
ghost use Rattle.counting.specs.Refusal.{refusal_of};
ghost use Rattle.judging.specs.Check.{shape_refusal, scratch_refusal, division_refusal, order_refusal, check_refusal, checked_scratch};

use crate::permutation::is_permutation;
use counting::block::{bin_count, valid_block_size};
use counting::refusal::Refusal;
use searching::finding::Finding;
use subsets::bits::{bits_refusal, valid_width};

// The check: refusals 1, 2, 9, 10, 11, 7, 13, 14. The scratch is as lent up to 7; else its first 2 ^ width entries are zeros afterwards.
#[inline]
pub fn validate(finding: Finding, order: &[u32], scratch: &mut [u32]) -> Result<(), Refusal>
    ensures value { refusal_of result ≡ check_refusal finding order.now (length scratch.old) }
    ensures scratch_after { scratch.new ≡ checked_scratch finding (length order.now) scratch.old }
{
    shape_refusal(finding, order.len())?;
    scratch_refusal(finding.width, scratch.len())?;
    order_refusal(finding.width, finding.division, order, scratch)
}

// 1, 2, 9, 10, 11, unless the bits are a subset of the block and the order has an entry for each of their bins.
pub fn shape_refusal(finding: Finding, order: usize) -> Result<(), Refusal>
    ensures { refusal_of result ≡ shape_refusal finding order }
{
    if !valid_block_size(finding.block_size) {
        return Err(Refusal::BlockSize);
    }
    let k = finding.width;
    if !valid_width(k) {
        return Err(Refusal::Width);
    }
    bits_refusal(&finding.bits[..k], finding.block_size)?;
    if order != bin_count(k) {
        return Err(Refusal::OrderLength);
    }
    Ok(())
}

// 7, unless the scratch has an entry for each bin.
// Kept: that k is at most 20 stands in three contracts of this crate and in no type, since `shape_refusal` answers 2 for a finding of a greater width, which a type would exclude.
pub fn scratch_refusal(k: usize, scratch: usize) -> Result<(), Refusal>
    requires { k ≤ 20 }
    ensures { refusal_of result ≡ scratch_refusal k scratch }
{
    if scratch < bin_count(k) {
        return Err(Refusal::Buffer);
    }
    Ok(())
}

// 13, 14, unless the order is one of the bins and divides them in two.
pub fn order_refusal(
    k: usize,
    division: u32,
    order: &[u32],
    scratch: &mut [u32],
) -> Result<(), Refusal>
    requires { (k ≤ 20) × (2 ^ k ≤ length scratch.old) }
    ensures value { refusal_of result ≡ order_refusal k division order.now }
    ensures scratch_after { scratch.new ≡ replicate (2 ^ k) 0 ++ drop (2 ^ k) scratch.old }
{
    let m = bin_count(k);
    if !is_permutation(order, &mut scratch[..m]) {
        return Err(Refusal::NoPermutation);
    }
    division_refusal(division as usize, m)
}

// 14, unless there is a bin before the division and one after it.
fn division_refusal(division: usize, m: usize) -> Result<(), Refusal>
    ensures { refusal_of result ≡ division_refusal division m }
{
    if division == 0 || division >= m {
        return Err(Refusal::Division);
    }
    Ok(())
}
