// A whole text: one object with each of the four keys.
ghost use Rattle.std.specs.Prelude.{◌≡◌};
ghost use Rattle.exchange.specs.Reader.{whole, read_text};
ghost use Rattle.exchange.specs.Cursor.{seen_in, said_of};

use crate::cursor::{skip_space, token};
use crate::listed::Listed;
use crate::members::{Found, read_members};

// What a text says.
#[derive(Clone, Copy)]
pub struct Said<'a> {
    pub bits: Listed<'a>,
    pub indices: Listed<'a>,
    pub division: u32,
    pub block_size: u32,
    pub low_first: bool,
}

// The object, and nothing but white space around it.
#[tactic(auto, unfolding(crate::specs::Reader::read_text))]
pub fn read_text(s: &[u8]) -> Option<Said<'_>>
    ensures { said_of result ≡ read_text s.now }
{
    let inside = token(s, b"{")?;
    let (found, left) = read_members(inside)?;
    let ended = skip_space(left).is_empty();
    if !ended {
        return None;
    }
    complete(found)
}

// What was said, where all four keys were there.
#[tactic(auto, unfolding(crate::specs::Reader::whole))]
fn complete(found: Found<'_>) -> Option<Said<'_>>
    ensures { said_of result ≡ whole (seen_in found.entry) }
{
    let bits = found.bits?;
    let indices = found.indices?;
    let division = found.division?;
    let block_size = found.block_size?;
    let low_first = found.low_first.unwrap_or(false);
    Some(Said {
        bits,
        indices,
        division,
        block_size,
        low_first,
    })
}
