// Prints values by the calls of `cases::printing`, those that no u64 holds among them. tools/answers makes `stdout`: what Python prints of the same values.
#![tactic(auto)]

use cases::printing::{end_line, print, print_all, print_number, print_numbers};
use std::io;
use std::io::Stdout;

fn main(rt: HostRuntime) -> io::Result<()> {
    values(rt.stdout())?;
    numbers(rt.stdout())
}

// Of any type that can be displayed.
fn values(stdout: Stdout) -> io::Result<()> {
    print(stdout, u64::MAX)?;
    print(stdout, u128::MAX)?;
    print(stdout, i64::MIN)?;
    print(stdout, "text")?;
    end_line(stdout)?;
    print_all(stdout, &[18446744073709551616u128, 0])?;
    print_all(stdout, &[-1, 0, 1])?;
    print_all::<u64>(stdout, &[])?;
    print_all(stdout, &["a", "", "b"])?;
    end_line(stdout)
}

// What a u64 holds. One more and a negative number are refused, of which nothing is printed but `true`, that they are.
fn numbers(stdout: Stdout) -> io::Result<()> {
    print_number(stdout, u64::MAX)?;
    print_number(stdout, 0)?;
    print_numbers(stdout, &[9u8, 10, 100])?;
    print(
        stdout,
        print_number(stdout, 18446744073709551616u128).is_err(),
    )?;
    print(stdout, print_number(stdout, -1).is_err())?;
    end_line(stdout)
}
