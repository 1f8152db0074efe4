// The replay of a recording, as a caller meets it.
ghost use Rattle.std.specs.Prelude.{◌≡◌};
ghost use Rattle.counting.specs.Refusal.{refusal_of};
ghost use Rattle.replay.specs.Replay.{as_replayed, replay_refusal, Replay};

use crate::agreement::same_finding;
use crate::pieces::{adds_up, feed_pieces};
use counting::block::valid_block_size;
use counting::refusal::Refusal;
use layers::size::store_suffices;
use sampling::sampler::{blocks, start};
use searching::finding::Finding;
use searching::search::{bottomup, buffer_refusal, width_refusal};

// What a replay answers: how many feeds were refused, whether the store sufficed for a search by layers, whether the findings of the two searches are the same,
// and the finding.
#[derive(Clone, Copy)]
pub struct Replayed {
    pub refused: usize,
    pub layered: bool,
    pub agree: bool,
    pub finding: Finding,
}

// Feeds the recording of one board in pieces of the given lengths to a fresh sampler of the words in the given bit order, and searches it twice: with the store,
// and with none. Refusals 24 (the lengths do not add up to the recording's), 1, 2, 3, 7, all before anything is written.
pub fn replay(
    block_size: usize,
    low_first: bool,
    recording: &[u8],
    lengths: &[usize],
    k: usize,
    words: &mut [u64],
    store: &mut [u32],
    bins: &mut [u32],
    order: &mut [u32],
) -> Result<Replayed, Refusal>
    ensures { Replay block_size low_first recording.now lengths.now k words.old store.old bins.old order.old (as_replayed result) words.new store.new bins.new order.new }
{
    replay_refusal(
        block_size,
        recording.len(),
        lengths,
        k,
        bins.len(),
        order.len(),
    )?;
    let layered = store_suffices(block_size, k, store.len());
    let sampler = start(block_size, low_first, words)?;
    let taken = feed_pieces(sampler, words, recording, lengths);
    let head = taken.sampler.head;
    let n = blocks(head);
    let stored = bottomup(head, words, 0, n, k, store, bins, order)?;
    let direct = bottomup(head, words, 0, n, k, &mut [], bins, order)?;
    Ok(Replayed {
        refused: taken.refused,
        layered,
        agree: same_finding(stored, direct),
        finding: direct,
    })
}

// Refusals 24, 1, 2, 3, 7 where a recording of `recording` bytes cannot be replayed.
fn replay_refusal(
    block_size: usize,
    recording: usize,
    lengths: &[usize],
    k: usize,
    bins: usize,
    order: usize,
) -> Result<(), Refusal>
    ensures { refusal_of result ≡ replay_refusal block_size recording lengths.now k bins order }
{
    if !adds_up(lengths, recording) {
        return Err(Refusal::Lengths);
    }
    if !valid_block_size(block_size) {
        return Err(Refusal::BlockSize);
    }
    width_refusal(block_size, k)?;
    buffer_refusal(k, bins, order)
}
