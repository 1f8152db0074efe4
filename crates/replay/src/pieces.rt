// A recording in pieces: whether their lengths add up, and the feeding of them.
ghost use Rattle.std.specs.Prelude.{◌≡◌, eqb, length};
ghost use Rattle.counting.specs.Sample.{total};
ghost use Rattle.replay.specs.Pieces.{cut, FedPieces};

use sampling::feeding::feed;
use sampling::sampler::Sampler;

// What feeding the pieces answers: the sampler last returned, and how many feeds were refused.
#[derive(Clone, Copy)]
pub struct Taken {
    pub sampler: Sampler,
    pub refused: usize,
}

// Whether the lengths add up to `bytes`: what is left falls by each, so that no sum can overflow.
pub fn adds_up(lengths: &[usize], bytes: usize) -> bool
    ensures { result ≡ eqb (total lengths.now) bytes }
{
    let mut left = bytes;
    for n in lengths {
        let Some(rest) = left.checked_sub(*n) else {
            return false;
        };
        left = rest;
    }
    left == 0
}

// Feeds each piece of the recording in turn to board 0. A refused feed adds nothing, and is counted.
pub fn feed_pieces(
    sampler: Sampler,
    words: &mut [u64],
    recording: &[u8],
    lengths: &[usize],
) -> Taken
    requires { total lengths.now ≡ length recording.now }
    ensures { FedPieces sampler words.old (cut recording.now lengths.now) result words.new }
{
    let mut latest = sampler;
    let mut refused = 0;
    let mut rest = recording;
    for length in lengths {
        let (piece, after) = rest.split_at(*length);
        rest = after;
        match feed(latest, words, 0, piece) {
            Ok(fed) => latest = fed,
            Err(_) => refused += 1,
        }
    }
    Taken {
        sampler: latest,
        refused,
    }
}
