// The members of a text, each key once.
ghost use Rattle.std.specs.Prelude.{◌≡◌};
ghost use Rattle.exchange.specs.Grammar.{ascii};
ghost use Rattle.exchange.specs.Reader.{read_value, read_member, read_separated, nothing_seen};
ghost use Rattle.exchange.specs.Cursor.{seen_in, members_of};

use crate::arrays::read_array;
use crate::cursor::token;
use crate::keys::{Name, read_key};
use crate::listed::Listed;
use crate::score::skip_score;
use crate::truth::read_truth;
use crate::words::read_word;

// What the members so far have said.
#[derive(Clone, Copy)]
pub struct Found<'a> {
    pub bits: Option<Listed<'a>>,
    pub indices: Option<Listed<'a>>,
    pub division: Option<u32>,
    pub block_size: Option<u32>,
    pub low_first: Option<bool>,
    pub scored: bool,
}

// The members of an object, one or more, up to its closing brace.
pub fn read_members(s: &[u8]) -> Option<(Found<'_>, &[u8])>
    ensures { members_of result ≡ read_separated read_member (ascii "}") nothing_seen s.now }
{
    let mut left = s;
    let mut found = Found {
        bits: None,
        indices: None,
        division: None,
        block_size: None,
        low_first: None,
        scored: false,
    };
    loop {
        let (more, behind) = read_member(left, found)?;
        found = more;
        if let Some(end) = token(behind, b"}") {
            return Some((found, end));
        }
        left = token(behind, b",")?;
    }
}

// One member behind others.
#[tactic(auto, unfolding(crate::specs::Reader::read_member))]
fn read_member<'a>(s: &'a [u8], found: Found<'a>) -> Option<(Found<'a>, &'a [u8])>
    ensures { members_of result ≡ read_member (seen_in found.entry) s.now }
{
    let (name, left) = read_key(s)?;
    read_value(left, name, found)
}

// The value of a key that was not there before. That of z_score is not kept.
#[tactic(auto, unfolding(crate::specs::Reader::read_value))]
fn read_value<'a>(s: &'a [u8], name: Name, found: Found<'a>) -> Option<(Found<'a>, &'a [u8])>
    ensures { members_of result ≡ read_value name (seen_in found.entry) s.now }
{
    match name {
        Name::Bits => {
            if found.bits.is_some() {
                return None;
            }
            let (bits, left) = read_array(s)?;
            let bits = Some(bits);
            Some((Found { bits, ..found }, left))
        }
        Name::SortedIndices => {
            if found.indices.is_some() {
                return None;
            }
            let (indices, left) = read_array(s)?;
            let indices = Some(indices);
            Some((Found { indices, ..found }, left))
        }
        Name::BestDivision => {
            if found.division.is_some() {
                return None;
            }
            let (division, left) = read_word(s)?;
            let division = Some(division);
            Some((Found { division, ..found }, left))
        }
        Name::BlockSize => {
            if found.block_size.is_some() {
                return None;
            }
            let (block_size, left) = read_word(s)?;
            let block_size = Some(block_size);
            Some((
                Found {
                    block_size,
                    ..found
                },
                left,
            ))
        }
        Name::LowFirst => {
            if found.low_first.is_some() {
                return None;
            }
            let (low_first, left) = read_truth(s)?;
            let low_first = Some(low_first);
            Some((Found { low_first, ..found }, left))
        }
        Name::ZScore => {
            if found.scored {
                return None;
            }
            let left = skip_score(s)?;
            Some((
                Found {
                    scored: true,
                    ..found
                },
                left,
            ))
        }
    }
}
