// Cases of readings: the text, the number of its bytes first; the lengths of the order and of the scratch.
// Answer: a line with the refusal and the finding's numbers, B, the width, the division, the pattern of z, 20 bits and low_first as
// 0 or 1; one with the order after it, and one with the scratch.
use cases::patterns::print_double;
use cases::printing::{end_line, print_number, print_numbers};
use cases::reading::Reader;
use counting::buffer::filled;
use counting::refusal::refusal_of;
use exchange::reader::read_finding;
use searching::finding::{Finding, no_finding};
use std::io;
use std::io::Stdout;

// The number of cases, then the cases.
pub fn replay(stdout: Stdout, reader: &mut Reader) -> io::Result<()> {
    reader.each(|reader| replay_one(stdout, reader))
}

// Every entry of the order and of the scratch is 99 before.
fn replay_one(stdout: Stdout, reader: &mut Reader) -> io::Result<()> {
    let mut given = filled::<u8, 8192>(0);
    let mut order = filled::<u32, 1280>(99);
    let mut scratch = filled::<u32, 1280>(99);
    let count = reader.at_most(given.len());
    let given = &mut given[..count];
    reader.fill(given, u8::MAX);
    let count = reader.at_most(order.len());
    let order = &mut order[..count];
    let count = reader.at_most(scratch.len());
    let scratch = &mut scratch[..count];
    let reading = read_finding(given, order, scratch);
    print_number(stdout, refusal_of(&reading))?;
    print_finding(stdout, reading.unwrap_or(no_finding()))?;
    end_line(stdout)?;
    print_numbers(stdout, order)?;
    end_line(stdout)?;
    print_numbers(stdout, scratch)?;
    end_line(stdout)
}

// Kept: one for all programs would have the crate `cases`, and with it each program, stand on `searching`, which is no plainer.
fn print_finding(stdout: Stdout, finding: Finding) -> io::Result<()> {
    print_number(stdout, finding.block_size)?;
    print_number(stdout, finding.width)?;
    print_number(stdout, finding.division)?;
    print_double(stdout, finding.z)?;
    print_numbers(stdout, &finding.bits)?;
    print_number(stdout, u8::from(finding.low_first))
}
