// The header of an input: B and k in 6 columns each, and a newline.
ghost use Rattle.std.specs.Prelude.{◌≡◌, ◌+◌, ◌≤◌, ◌<◌, length};
ghost use Rattle.counting.specs.Refusal.{refusal_of};
ghost use Rattle.sheet.specs.Header.{digit_of, match_to, field_at, is_field, well_formed, input_refusal};

use crate::columns::symbol_at;
use counting::refusal::Refusal;

// Refused as Input where the input is malformed or too large.
pub fn input_refusal(input: &[u8]) -> Result<(), Refusal>
    ensures { refusal_of result ≡ input_refusal input.now }
{
    if !well_formed(input) {
        return Err(Refusal::Input);
    }
    if field_at(input, 0) > 64 {
        return Err(Refusal::Input);
    }
    if field_at(input, 6) > 8 {
        return Err(Refusal::Input);
    }
    if input.len() - 13 > 8192 {
        return Err(Refusal::Input);
    }
    Ok(())
}

// Whether the input begins with a header. (Every header is 13 bytes long.)
fn well_formed(input: &[u8]) -> bool
    ensures { result ≡ well_formed input.now }
{
    if input.len() < 13 {
        return false;
    }
    if !is_field(input, 0) {
        return false;
    }
    if !is_field(input, 6) {
        return false;
    }
    input[12] == b'\n'
}

// Whether 6 columns hold a number as it is written: right-justified after spaces, no digit 0 in front.
fn is_field(input: &[u8], at: usize) -> bool
    requires { at + 6 ≤ length input.now }
    ensures { result ≡ is_field input.now at }
{
    let n = field_at(input, at);
    is_written(input, at, n as u64)
}

// The number that the digits of 6 columns make; every other character counts 0.
pub fn field_at(input: &[u8], at: usize) -> usize
    requires { at + 6 ≤ length input.now }
    ensures { result ≡ field_at input.now at }
{
    let mut n: usize = 0;
    for i in 0..6 {
        n = 10 * n + digit_of(input[at + i]);
    }
    n
}

// Whether the 6 columns are those of n.
fn is_written(input: &[u8], at: usize, n: u64) -> bool
    requires { at + 6 ≤ length input.now }
    ensures { result ≡ match_to input.now at 6 n 6 }
{
    // Kept: `(0..6).all(..)` was tried; the search found neither way of `result ≡ true` for a column's `input[at + i] == symbol_at(n, 5 - i)` from what `all` says of its calls.
    for i in (0..6).rev() {
        if input[at + i] != symbol_at(n, 5 - i) {
            return false;
        }
    }
    true
}

// A digit's value; every other character counts 0.
fn digit_of(c: u8) -> usize
    ensures value { result ≡ digit_of c }
    ensures upper_bound { result < 10 }
{
    match c {
        b'0'..=b'9' => (c - b'0') as usize,
        _ => 0,
    }
}
