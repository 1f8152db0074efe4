// The values true and false.
ghost use Rattle.std.specs.Prelude.{◌≡◌};
ghost use Rattle.exchange.specs.Reader.{read_truth};
ghost use Rattle.exchange.specs.Cursor.{read_of};

use crate::cursor::token;

// false or true, white space before it.
#[tactic(auto, unfolding(crate::specs::Reader::read_truth))]
pub fn read_truth(s: &[u8]) -> Option<(bool, &[u8])>
    ensures { read_of result ≡ read_truth s.now }
{
    if let Some(left) = token(s, b"false") {
        return Some((false, left));
    }
    let left = token(s, b"true")?;
    Some((true, left))
}
