// The chunks in which the rows of a stretch are counted.
ghost use Rattle.std.specs.Prelude.{◌≡◌, ◌*◌, ◌≤◌};
ghost use Rattle.counting.specs.Chunk.{chunk_at, is_short};
ghost use Rattle.counting.specs.Stretch.{Within};

use crate::stretch::Stretch;

// Some words of each row: of the lanes from word `start` on those from `skip` to before `lanes`.
#[derive(Clone, Copy)]
pub struct Chunk {
    pub stride: usize,
    pub start: usize,
    pub skip: usize,
    pub lanes: usize,
}

// The chunk from word `start` on, of at most 512 words: what lies before the stretch is skipped, and what lies behind it left out.
pub fn chunk_at(stretch: Stretch, start: usize) -> Chunk
    requires { Within stretch × (64 * start ≤ stretch.end) }
    ensures { result ≡ chunk_at stretch start }
{
    let base = 64 * start;
    Chunk {
        stride: stretch.stride,
        start,
        skip: stretch.first.saturating_sub(base),
        lanes: (stretch.end - base).min(32768),
    }
}

// Whether 64 words have all its lanes.
pub fn is_short(chunk: Chunk) -> bool
    ensures { result ≡ is_short chunk }
{
    chunk.lanes <= 4096
}
