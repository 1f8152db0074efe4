// Tests of what the counting crate's helpers require, so that no case can break a `requires`.
ghost use Rattle.std.specs.Prelude.{◌≡◌, true, ◌+◌, ◌*◌, ◌≤◌};
ghost use Rattle.counting.specs.Rows.{RowsIn};
ghost use Rattle.counting.specs.Stretch.{Within};
ghost use Rattle.counting_cases.specs.Fitting.{InBlock, Countable};

use counting::stretch::Stretch;

// Whether every bit lies in a block of `size` bytes.
pub fn in_block(bits: &[u32], size: usize) -> bool
    ensures { result ≡ true → InBlock bits.now size }
{
    bits.iter().all(|bit| *bit as usize / 8 < size)
}

// Whether the row of every bit, of `stride` words, lies within the words.
pub fn rows_in(bits: &[u32], words: &[u64], stride: usize) -> bool
    ensures { result ≡ true → RowsIn words.now stride bits.now }
{
    bits.iter()
        .all(|bit| row_in(*bit as usize, words.len(), stride))
}

fn row_in(bit: usize, words: usize, stride: usize) -> bool
    ensures { result ≡ true → bit * stride + stride ≤ words }
{
    stride == 0 || bit < words / stride
}

// Whether the stretch does not end before it begins, nor after the blocks that a row holds and that can be counted.
pub fn within(stretch: Stretch) -> bool
    ensures { result ≡ true → Within stretch }
{
    stretch.first <= stretch.end
        && stretch.end <= 16777216
        && stretch.end.div_ceil(64) <= stretch.stride
}

// Whether the bits can be counted: there are 1 to 10, for whose bins there is room, and there can be a bit past the last.
pub fn countable(bits: &[u32]) -> bool
    ensures { result ≡ true → Countable bits.now }
{
    0 < bits.len() && bits.len() <= 10 && bits[bits.len() - 1] < u32::MAX
}
