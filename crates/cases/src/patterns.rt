// Doubles as bit patterns. A NaN's pattern is free, so every NaN is printed as the largest number, a pattern that no other double has.
use crate::printing::print_number;
use std::io;
use std::io::Stdout;

// The double of a pattern.
pub fn double(pattern: u64) -> f64 {
    // Kept: `is_nan` would have to come after `f64::from_bits`, which takes no NaN's pattern, so it is no plainer.
    if pattern % 9223372036854775808 > 9218868437227405312 {
        return f64::NAN;
    }
    f64::from_bits(pattern)
}

pub fn print_double(stdout: Stdout, x: f64) -> io::Result<()> {
    print_number(
        stdout,
        if x.is_nan() {
            u64::MAX
        } else {
            f64::to_bits(x)
        },
    )
}
