// The plan of a sweep: the block sizes to search one after the other, and the width for each.
ghost use Rattle.std.specs.Prelude.{◌≡◌};
ghost use Rattle.judging.specs.Plan.{width_for, after_eight, as_plan, plan_of};

use counting::block::valid_block_size;
use counting::refusal::Refusal;

// A block size, and the width for it.
#[derive(Clone, Copy)]
pub struct Planned {
    pub block_size: usize,
    pub width: usize,
}

// A plan: the number of pairs, and the pairs, 0 in both numbers past the planned ones.
// Kept: `as_plan` and `plan_of` say what all seven entries are, the zeros past the planned pairs too, and fixed memory has no list of fewer.
#[derive(Clone, Copy)]
pub struct Plan {
    pub pairs: usize,
    pub sizes: [Planned; 7],
}

// The plan for a block size and a number of bytes: 8 with every bit of a byte, then the block size, twice it and on up to 512. Refusal 1.
pub fn configurations(block_size: usize, data_size: usize) -> Result<Plan, Refusal>
    ensures { as_plan result ≡ plan_of block_size data_size }
{
    if !valid_block_size(block_size) {
        return Err(Refusal::BlockSize);
    }
    let mut sizes = [Planned {
        block_size: 0,
        width: 0,
    }; 7];
    sizes[0] = Planned {
        block_size: 8,
        width: 8,
    };
    let mut pairs = 1;
    let top = block_size.max(512);
    let mut size = after_eight(block_size);
    // Kept: the step is a doubling, not a count.
    while size <= top {
        sizes[pairs] = Planned {
            block_size: size,
            width: width_for(size, data_size),
        };
        pairs += 1;
        size *= 2;
    }
    Ok(Plan { pairs, sizes })
}

// The width for one block size: the more data and the longer the block, the fewer bits.
fn width_for(size: usize, data_size: usize) -> usize
    ensures { result ≡ width_for size data_size }
{
    if data_size <= 10000000 && size < 128 {
        return 4;
    }
    if data_size < 2000000000 && size < 256 {
        return 3;
    }
    2
}

// The first size after the pair of 8: a block size of 8 is planned already, so its double.
fn after_eight(block_size: usize) -> usize
    ensures { result ≡ after_eight block_size }
{
    if block_size == 8 { 16 } else { block_size }
}
