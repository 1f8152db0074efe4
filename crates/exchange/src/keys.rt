// The keys of a text.
ghost use Rattle.std.specs.Prelude.{◌≡◌};
ghost use Rattle.exchange.specs.Reader.{quoted, names, read_name, read_key};
ghost use Rattle.exchange.specs.Cursor.{read_of};

use crate::cursor::{skip_space, token};

// bits, sorted_indices, best_division, block_size, low_first, z_score.
#[derive(Clone, Copy)]
pub enum Name {
    Bits,
    SortedIndices,
    BestDivision,
    BlockSize,
    LowFirst,
    ZScore,
}

impl Name {
    // A key in its quotation marks.
    fn quoted(self) -> &'static [u8]
        ensures { result.now ≡ quoted self }
    {
        match self {
            Name::Bits => b"\"bits\"",
            Name::SortedIndices => b"\"sorted_indices\"",
            Name::BestDivision => b"\"best_division\"",
            Name::BlockSize => b"\"block_size\"",
            Name::LowFirst => b"\"low_first\"",
            Name::ZScore => b"\"z_score\"",
        }
    }
}

// A key and the colon behind it.
#[tactic(auto, unfolding(crate::specs::Reader::read_key))]
pub fn read_key(s: &[u8]) -> Option<(Name, &[u8])>
    ensures { read_of result ≡ read_key s.now }
{
    let (name, left) = read_name(s)?;
    let behind = token(left, b":")?;
    Some((name, behind))
}

// A key in its quotation marks, with no escape in it.
#[tactic(auto, unfolding(crate::specs::Reader::read_name))]
fn read_name(s: &[u8]) -> Option<(Name, &[u8])>
    ensures { read_of result ≡ read_name names s.now }
{
    let names = [
        Name::Bits,
        Name::SortedIndices,
        Name::BestDivision,
        Name::BlockSize,
        Name::LowFirst,
        Name::ZScore,
    ];
    // Passed once, and not by each token anew.
    let from = skip_space(s);
    // Kept: `find_map` is no plainer, since its closure makes a pair of the key and what `?` leaves of the text.
    for name in names {
        if let Some(left) = token(from, name.quoted()) {
            return Some((name, left));
        }
    }
    None
}
