// The number of a z_score: any of RFC 8259, read past and not kept.
ghost use Rattle.std.specs.Prelude.{◌≡◌};
ghost use Rattle.exchange.specs.Reader.{skip_digits, skip_minus, skip_sign, read_whole, skip_fraction, skip_exponent, skip_number, skip_score};
ghost use Rattle.exchange.specs.Cursor.{left_of, rest_of};

use crate::cursor::skip_space;
use crate::words::{digit_first, skip_more};

// A number of any kind, white space before it.
#[tactic(auto, unfolding(crate::specs::Reader::skip_score))]
pub fn skip_score(s: &[u8]) -> Option<&[u8]>
    ensures { left_of result ≡ skip_score s.now }
{
    skip_number(skip_space(s))
}

// [ minus ] int [ frac ] [ exp ]
#[tactic(auto, unfolding(crate::specs::Reader::skip_number))]
fn skip_number(s: &[u8]) -> Option<&[u8]>
    ensures { left_of result ≡ skip_number s.now }
{
    let whole = skip_whole(skip_minus(s))?;
    let fraction = skip_fraction(whole)?;
    skip_exponent(fraction)
}

// [ minus ]
#[tactic(auto, unfolding(crate::specs::Reader::skip_minus))]
fn skip_minus(s: &[u8]) -> &[u8]
    ensures { result.now ≡ skip_minus s.now }
{
    match s {
        [b'-', left @ ..] => left,
        _ => s,
    }
}

// int = zero / ( digit1-9 *DIGIT )
#[tactic(auto, using(crate::proofs::Stepping::digits_behind), unfolding(crate::specs::Reader::read_whole, crate::specs::Reader::skip_digits, crate::specs::Reader::read_digits, crate::specs::Grammar::is_digit))]
fn skip_whole(s: &[u8]) -> Option<&[u8]>
    ensures { left_of result ≡ rest_of (read_whole s.now) }
{
    match s {
        [b'0', left @ ..] => Some(left),
        _ => skip_digits(s),
    }
}

// One digit or more.
#[tactic(auto, unfolding(crate::specs::Reader::skip_digits))]
fn skip_digits(s: &[u8]) -> Option<&[u8]>
    ensures { left_of result ≡ skip_digits s.now }
{
    if digit_first(s) {
        Some(skip_more(s))
    } else {
        None
    }
}

// [ frac ], frac = "." 1*DIGIT
#[tactic(auto, unfolding(crate::specs::Reader::skip_fraction))]
fn skip_fraction(s: &[u8]) -> Option<&[u8]>
    ensures { left_of result ≡ skip_fraction s.now }
{
    match s {
        [b'.', left @ ..] => skip_digits(left),
        _ => Some(s),
    }
}

// [ exp ], exp = e [ minus / plus ] 1*DIGIT
#[tactic(auto, unfolding(crate::specs::Reader::skip_exponent, crate::specs::Grammar::is_exp))]
fn skip_exponent(s: &[u8]) -> Option<&[u8]>
    ensures { left_of result ≡ skip_exponent s.now }
{
    match s {
        [b'e' | b'E', left @ ..] => skip_digits(skip_sign(left)),
        _ => Some(s),
    }
}

// [ minus / plus ]
#[tactic(auto, unfolding(crate::specs::Reader::skip_sign))]
fn skip_sign(s: &[u8]) -> &[u8]
    ensures { result.now ≡ skip_sign s.now }
{
    match s {
        [b'+' | b'-', left @ ..] => left,
        _ => s,
    }
}
