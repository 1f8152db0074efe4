// The lines of a sheet.
ghost use Rattle.std.specs.Prelude.{◌≡◌, ◌+◌, ◌*◌, ◌≤◌, [], ◌∷◌, length};
ghost use Rattle.std.specs.Float.Ieee.{to_bits};
ghost use Rattle.std.specs.Float.{binary64};
ghost use Rattle.sheet.specs.Columns.{line};
ghost use Rattle.counting.specs.Buffer.{put};
ghost use Rattle.counting.specs.Refusal.{number_of};
ghost use Rattle.sheet.specs.Lines.{three_lines, Printed};

use crate::columns::put_line;
use counting::refusal::Refusal;

// The three lines: six counts and the bits in 8 columns each, two patterns in 20; answers their length.
pub fn put_lines(out: &mut [u8], counts: &[u64], bits: &[u64], patterns: &[u64]) -> usize
    requires counts_len { (length counts.now ≡ 6) × (length patterns.now ≡ 2) }
    requires bits_in_bounds { 91 + 8 * length bits.now ≤ length out.old }
    ensures value { result ≡ 91 + 8 * length bits.now }
    ensures out_after { out.new ≡ put out.old 0 (three_lines counts.now bits.now patterns.now) }
{
    let first = put_line(out, 0, 8, counts);
    let second = put_line(out, first, 8, bits);
    put_line(out, second, 20, patterns)
}

// A refusal alone in 8 columns, or nothing where the buffer has no room for its 9 bytes.
pub fn put_refusal(out: &mut [u8], refusal: Refusal) -> usize
    ensures { Printed (line 8 (number_of refusal ∷ [])) out.old result out.new }
{
    if out.len() < 9 {
        // Kept: 0 for no room, since `Printed` and README say so.
        return 0;
    }
    let value = [refusal as u64];
    put_line(out, 0, 8, &value)
}

// The bit pattern of a double, as an unsigned number.
pub fn pattern(z: f64) -> u64
    ensures { result ≡ to_bits binary64 z }
{
    if z.is_nan() {
        return 0x7ff8_0000_0000_0000;
    }
    f64::to_bits(z)
}

// The bits in the type of the other numbers.
pub fn wide(bits: [u32; 20]) -> [u64; 20]
    ensures { result ≡ bits }
{
    bits.map(u64::from)
}
