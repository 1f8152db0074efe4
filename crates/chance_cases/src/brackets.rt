// Cases of brackets: n, c, k, d and the number of lent entries, each 99. Answer: a line with the refusal and both ends, a line with every entry that was lent.
use cases::printing::{end_line, print_number, print_numbers};
use cases::reading::Reader;
use chance::bracket::{Ends, bracket};
use counting::buffer::filled;
use counting::refusal::refusal_of;
use std::io;
use std::io::Stdout;

// The number of cases, then the cases.
pub fn replay(stdout: Stdout, reader: &mut Reader) -> io::Result<()> {
    reader.each(|reader| replay_one(stdout, reader))
}

fn replay_one(stdout: Stdout, reader: &mut Reader) -> io::Result<()> {
    // Three entries more than the longest row.
    let mut scratch = filled::<u64, 4100>(99);
    let n = reader.size();
    let c = reader.size();
    let k = reader.size();
    let d = reader.size();
    let count = reader.at_most(scratch.len());
    let scratch = &mut scratch[..count];
    let bracketed = bracket(n, c, k, d, scratch);
    print_number(stdout, refusal_of(&bracketed))?;
    let ends = bracketed.unwrap_or(Ends { low: 0, high: 0 });
    print_number(stdout, ends.low)?;
    print_number(stdout, ends.high)?;
    end_line(stdout)?;
    print_numbers(stdout, scratch)?;
    end_line(stdout)
}
