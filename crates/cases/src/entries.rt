// Entries of lent buffers. Every buffer is filled with 99 before it is lent.
ghost use Rattle.std.specs.Prelude.{◌≡◌, ◌%◌, length, get_or};

use crate::printing::print_numbers;
use std::io;
use std::io::Stdout;

// Prints the first `shown` entries.
pub fn print_first(stdout: Stdout, entries: &[u32], shown: usize) -> io::Result<()> {
    print_numbers(stdout, &entries[..shown.min(entries.len())])
}

// How many entries from a place on are no longer as lent.
pub fn changed<T: Copy + Into<u64>>(entries: &[T], from: usize) -> usize {
    entries
        .iter()
        .skip(from)
        .filter(|entry| -> bool {
            let wide: u64 = (**entry).into();
            wide != 99
        })
        .count()
}

// The sum of the first m entries, each times its place from 1 on, modulo 2^64.
pub fn weighed(entries: &[u32], m: usize) -> u64 {
    let mut sum = 0u64;
    for (place, entry) in (1u64..).zip(entries.iter().take(m)) {
        sum = sum.wrapping_add(place.wrapping_mul(u64::from(*entry)));
    }
    sum
}

// The byte at a place of the bytes repeated over and over; 0 where there are none.
pub fn repeated(bytes: &[u8], place: usize) -> u8
    ensures { result ≡ get_or bytes.now (place % length bytes.now) 0 }
{
    if bytes.is_empty() {
        return 0;
    }
    bytes[place % bytes.len()]
}
