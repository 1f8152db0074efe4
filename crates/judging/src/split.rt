// The parts of a recording, `whole_blocks` of the reference: training is searched, testing is judged on.
ghost use Rattle.std.specs.Prelude.{◌≡◌};
ghost use Rattle.counting.specs.Refusal.{refusal_of};
ghost use Rattle.judging.specs.Split.{split_refusal, first_blocks, first_part, second_part};

use counting::block::valid_block_size;
use counting::refusal::Refusal;

// Whether the raw bytes can be split. Refusals 1, 8.
pub fn split_refusal(raw: &[u8], block_size: usize) -> Result<(), Refusal>
    ensures { refusal_of result ≡ split_refusal raw.now block_size }
{
    if !valid_block_size(block_size) {
        return Err(Refusal::BlockSize);
    }
    if raw.len() / (block_size / 8) < 2 {
        return Err(Refusal::FewBlocks);
    }
    Ok(())
}

// Kept: `first_part` and `second_part` of specs/Split.antt, and README, have an empty part where the split is refused, and no Result.

// The first part, of the raw slice itself: the training blocks, or every whole block where there is no training. Empty when refused.
pub fn first_part(raw: &[u8], block_size: usize, training: bool) -> &[u8]
    ensures { result.now ≡ first_part raw.now block_size training }
{
    if split_refusal(raw, block_size).is_err() {
        return &raw[..0];
    }
    let bytes = block_size / 8;
    let end = first_blocks(raw.len() / bytes, training) * bytes;
    &raw[..end]
}

// The second part: the testing blocks, or nothing where there is no training. Empty when refused.
pub fn second_part(raw: &[u8], block_size: usize, training: bool) -> &[u8]
    ensures { result.now ≡ second_part raw.now block_size training }
{
    if split_refusal(raw, block_size).is_err() {
        return &raw[..0];
    }
    let bytes = block_size / 8;
    let blocks = raw.len() / bytes;
    let start = first_blocks(blocks, training) * bytes;
    let end = blocks * bytes;
    &raw[start..end]
}

// How many of so many blocks the first part has.
fn first_blocks(blocks: usize, training: bool) -> usize
    ensures { result ≡ first_blocks blocks training }
{
    if training { blocks / 2 } else { blocks }
}
