// A stretch of the blocks that the words hold.
ghost use Rattle.std.specs.Prelude.{◌≡◌};
ghost use Rattle.counting.specs.Stretch.{Within, span};

// What a search reads of the words: `stride` words to a row, a row for each of the block_size bits, and in the rows the blocks from
// `first` to before `end`.
#[derive(Clone, Copy)]
pub struct Stretch {
    pub block_size: usize,
    pub stride: usize,
    pub first: usize,
    pub end: usize,
}

// n: the blocks of the stretch.
pub fn span(stretch: Stretch) -> u32
    requires { Within stretch }
    ensures { result ≡ span stretch }
{
    (stretch.end - stretch.first) as u32
}
