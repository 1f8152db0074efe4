// Values and numbers to standard output. The programs that replay stored answers print by `print_number`, since `print!` clears and copies about 1 KB a call.
use std::fmt::Display;
use std::io;
use std::io::{ErrorKind, Print, Stdout};

// The value's text and a space.
pub fn print<N: Display + Drop>(stdout: Stdout, number: N) -> io::Result<()> {
    print!(stdout; "{number} ")
}

// Each of the values.
pub fn print_all<N: Display + Copy>(stdout: Stdout, numbers: &[N]) -> io::Result<()> {
    for number in numbers {
        print(stdout, *number)?;
    }
    Ok(())
}

// The number's decimal digits and a space, in one write. A number that no u64 holds is refused.
pub fn print_number<N: TryInto<u64>>(stdout: Stdout, number: N) -> io::Result<()>
where
    N::Error: Drop,
{
    let mut rest = number.try_into().map_err(|_| ErrorKind::InvalidInput)?;
    let mut text = [b' '; 21];
    let mut start = 20;
    for place in (0..20).rev() {
        start = place;
        text[place] = b'0' + (rest % 10) as u8;
        rest /= 10;
        if rest == 0 {
            break;
        }
    }
    stdout.write_all(&text[start..])
}

// Each of the numbers.
pub fn print_numbers<N: TryInto<u64> + Copy>(stdout: Stdout, numbers: &[N]) -> io::Result<()>
where
    N::Error: Drop,
{
    for number in numbers {
        print_number(stdout, *number)?;
    }
    Ok(())
}

pub fn end_line(stdout: Stdout) -> io::Result<()> {
    stdout.write_all(b"\n")
}
