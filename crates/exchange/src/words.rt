// Whole numbers that 32 bits hold.
ghost use Rattle.std.specs.Prelude.{◌≡◌, ◌≤◌, Some};
ghost use Rattle.std.proofs.Math.Option.{some};
ghost use Rattle.exchange.specs.Reader.{read_digits, read_word, held};
ghost use Rattle.exchange.specs.Cursor.{IsRead, digit_first, left_of, read_of, rest_of};

use crate::cursor::skip_space;

// A whole number that 32 bits hold, white space before it.
#[tactic(auto, unfolding(crate::specs::Reader::read_word, crate::specs::Reader::read_whole, crate::specs::Grammar::is_digit))]
pub fn read_word(s: &[u8]) -> Option<(u32, &[u8])>
    ensures { read_of result ≡ read_word s.now }
{
    match skip_space(s) {
        [b'0', left @ ..] => Some((0, left)),
        [c @ b'1'..=b'9', more @ ..] => read_digits(*c - b'0', more),
        _ => None,
    }
}

// The bytes behind the digits that stand first.
#[tactic(auto, unfolding(crate::specs::Reader::read_digits, crate::specs::Grammar::is_digit))]
pub fn skip_more(s: &[u8]) -> &[u8]
    ensures { result.now ≡ (read_digits 0 s.now).1 }
{
    let mut left = s;
    while let [b'0'..=b'9', more @ ..] = left {
        left = more;
    }
    left
}

// The number that a digit makes with those that follow, where 32 bits hold it.
#[tactic(auto, using(crate::proofs::Stepping::not_held), unfolding(crate::specs::Reader::read_digits, crate::specs::Grammar::is_digit))]
fn read_digits(first: u8, s: &[u8]) -> Option<(u32, &[u8])>
    requires { first ≤ 9 }
    ensures { read_of result ≡ held (read_digits first s.now) }
{
    let mut n = u64::from(first);
    let mut left = s;
    while let [c @ b'0'..=b'9', more @ ..] = left {
        n = 10 * n + u64::from(*c - b'0');
        if n > 4294967295 {
            return None;
        }
        left = more;
    }
    Some((n as u32, left))
}

// A whole number that is known to stand there: only its end is looked for.
#[tactic(auto, unfolding(crate::specs::Reader::read_word, crate::specs::Reader::read_whole, crate::specs::Grammar::is_digit))]
pub fn known_word(s: &[u8]) -> (u32, &[u8])
    requires { IsRead (read_word s.now) }
    ensures { read_of (Some result) ≡ read_word s.now }
{
    match skip_space(s) {
        [c @ b'1'..=b'9', more @ ..] => known_digits(*c - b'0', more),
        [_, left @ ..] => (0, left),
        _ => unreachable!(),
    }
}

// The number that a digit makes with those that follow, which 32 bits are known to hold.
#[tactic(auto, unfolding(crate::specs::Reader::read_digits, crate::specs::Grammar::is_digit))]
fn known_digits(first: u8, s: &[u8]) -> (u32, &[u8])
    requires { (read_digits first s.now).0 ≤ 4294967295 }
    ensures { read_of (Some result) ≡ some (read_digits first s.now) }
{
    let mut n = u32::from(first);
    let mut left = s;
    while let [c @ b'0'..=b'9', more @ ..] = left {
        n = 10 * n + u32::from(*c - b'0');
        left = more;
    }
    (n, left)
}

// A whole number that 32 bits hold, white space before it, read past and not kept. Most numbers of a long order have five digits.
pub fn skip_word(s: &[u8]) -> Option<&[u8]>
    ensures { left_of result ≡ rest_of (read_word s.now) }
{
    // What stands sixth tells most numbers of other lengths at once.
    if let [_, _, _, _, _, left @ ..] = s
        && !digit_first(left)
        && let [
            b'1'..=b'9',
            b'0'..=b'9',
            b'0'..=b'9',
            b'0'..=b'9',
            b'0'..=b'9',
            ..
        ] = s
    {
        return Some(left);
    }
    skip_any(s)
}

// Whether a digit stands first.
#[tactic(auto, unfolding(crate::specs::Grammar::is_digit))]
pub fn digit_first(s: &[u8]) -> bool
    ensures { result ≡ digit_first s.now }
{
    matches!(s, [b'0'..=b'9', ..])
}

// The same, of any length: nine digits are never too many, so that the value is worked out for ten or more only.
#[tactic(auto, unfolding(crate::specs::Reader::read_word, crate::specs::Reader::read_whole, crate::specs::Grammar::is_digit))]
fn skip_any(s: &[u8]) -> Option<&[u8]>
    ensures { left_of result ≡ rest_of (read_word s.now) }
{
    match skip_space(s) {
        [b'0', left @ ..] => Some(left),
        [b'1'..=b'9', more @ ..] => {
            let left = skip_more(more);
            if more.len() <= left.len() + 8 {
                return Some(left);
            }
            let (_, left) = read_word(s)?;
            Some(left)
        }
        _ => None,
    }
}
