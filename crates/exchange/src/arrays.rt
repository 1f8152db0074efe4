// Arrays of whole numbers: counted first, and stored once the whole text is known to be good.
ghost use Rattle.std.specs.Prelude.{◌≡◌, [], ◌≤◌, length, take};
ghost use Rattle.exchange.specs.Grammar.{ascii};
ghost use Rattle.exchange.specs.Reader.{read_separated, read_entry, read_array};
ghost use Rattle.exchange.specs.Cursor.{array_of, counted, read_of};
ghost use Rattle.exchange.specs.Arrays.{numbers_in};

use crate::cursor::{skip_space, token};
use crate::listed::Listed;
use crate::words::{known_word, skip_word};

// An array of whole numbers that 32 bits hold.
#[tactic(auto, using(crate::proofs::Storing::counted_none), unfolding(crate::specs::Reader::read_array, crate::specs::Arrays::numbers_in))]
pub fn read_array(s: &[u8]) -> Option<(Listed<'_>, &[u8])>
    ensures { array_of result ≡ read_array s.now }
{
    let inside = token(s, b"[")?;
    if let Some(left) = token(inside, b"]") {
        return Some((Listed { text: s, count: 0 }, left));
    }
    let (count, left) = count_entries(inside)?;
    Some((Listed { text: s, count }, left))
}

// The numbers of an array behind its bracket, one or more, counted.
fn count_entries(s: &[u8]) -> Option<(usize, &[u8])>
    ensures { read_of result ≡ counted (read_separated read_entry (ascii "]") [] s.now) }
{
    let mut count: usize = 0;
    let mut left = s;
    loop {
        match skip_space(skip_word(left)?) {
            [b']', behind @ ..] => return Some((count + 1, behind)),
            [b',', more @ ..] => {
                count += 1;
                left = more;
            }
            _ => return None,
        }
    }
}

// Stores the first numbers of an array, as many as there is room for.
// Apart in the machine code: within a reading what is left would go by way of the stack, number by number.
#[inline(never)]
pub fn store_entries(s: &[u8], to: &mut [u32])
    requires { length to.old ≤ length (numbers_in s.now) }
    ensures { to.new ≡ take (length to.old) (numbers_in s.now) }
{
    let mut left = token(s, b"[").unwrap_or(s);
    for entry in to.iter_mut() {
        let (value, more) = known_word(left);
        let [_, behind @ ..] = skip_space(more) else {
            unreachable!()
        };
        *entry = value;
        left = behind;
    }
}
