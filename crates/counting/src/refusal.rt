// Why a call is refused, and the number that stands for each reason on a sheet and in the C interface.
ghost use Rattle.std.specs.Prelude.{◌≡◌};
ghost use Rattle.counting.specs.Refusal.{refusal_of};

// The reasons, each with its number. No call gives 6, 22 or 23.
#[derive(Clone, Copy, Debug, PartialEq, Eq)]
pub enum Refusal {
    BlockSize = 1,
    Width = 2,
    WidthAboveBlock = 3,
    Sampler = 4,
    Full = 5,
    Buffer = 7,
    FewBlocks = 8,
    BitsNotRising = 9,
    BitOutsideBlock = 10,
    OrderLength = 11,
    TooMany = 12,
    NoPermutation = 13,
    Division = 14,
    Input = 15,
    Text = 16,
    Room = 17,
    Stretch = 18,
    Blocks = 19,
    Level = 20,
    Board = 21,
    Lengths = 24,
    Numbers = 25,
    Counts = 26,
    BitOrder = 27,
}

// The number of the refusal that was answered, 0 where there is none.
pub fn refusal_of<T>(answer: &Result<T, Refusal>) -> u32
    ensures { result ≡ refusal_of answer.now }
{
    match answer {
        Ok(_) => 0,
        Err(refusal) => *refusal as u32,
    }
}
