// Cases of splits: B, 1 where there is training, else 0, and the raw bytes, their number first.
// Answer: a line with the refusal, and one for each part with its length and its bytes.
use cases::input::large_buffer;
use cases::printing::{end_line, print_number, print_numbers};
use cases::reading::Reader;
use counting::refusal::refusal_of;
use judging::split::{first_part, second_part, split_refusal};
use std::io;
use std::io::Stdout;

// The number of cases, then the cases.
pub fn replay(stdout: Stdout, reader: &mut Reader) -> io::Result<()> {
    reader.each(|reader| replay_one(stdout, reader))
}

fn replay_one(stdout: Stdout, reader: &mut Reader) -> io::Result<()> {
    let mut raw = large_buffer();
    let block_size = reader.size();
    let training = reader.flag();
    let count = reader.at_most(raw.len());
    let raw = &mut raw[..count];
    reader.fill(raw, u8::MAX);
    print_number(stdout, refusal_of(&split_refusal(raw, block_size)))?;
    end_line(stdout)?;
    print_part(stdout, first_part(raw, block_size, training))?;
    print_part(stdout, second_part(raw, block_size, training))
}

fn print_part(stdout: Stdout, part: &[u8]) -> io::Result<()> {
    print_number(stdout, part.len())?;
    print_numbers(stdout, part)?;
    end_line(stdout)
}
