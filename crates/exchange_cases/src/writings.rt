// Cases of writings: B, the width, 20 bits, of which those past the width mean nothing, the division, the pattern of z, low_first, which is true
// where it is not 0; the order, its length first; the lengths of the scratch and of the output.
// Answer: a line with the refusal and the length; one with the output after it, and one with the scratch.
use cases::patterns::double;
use cases::printing::{end_line, print_number, print_numbers};
use cases::reading::Reader;
use counting::buffer::filled;
use counting::refusal::refusal_of;
use exchange::writer::write_finding;
use searching::finding::Finding;
use std::io;
use std::io::Stdout;

// The number of cases, then the cases.
pub fn replay(stdout: Stdout, reader: &mut Reader) -> io::Result<()> {
    reader.each(|reader| replay_one(stdout, reader))
}

// Every entry of the scratch and of the output is 99 before.
fn replay_one(stdout: Stdout, reader: &mut Reader) -> io::Result<()> {
    let mut order = filled::<u32, 1280>(99);
    let mut scratch = filled::<u32, 1280>(99);
    let mut out = filled::<u8, 8192>(99);
    let finding = read_given(reader);
    let count = reader.at_most(order.len());
    let order = &mut order[..count];
    reader.fill(order, u32::MAX);
    let count = reader.at_most(scratch.len());
    let scratch = &mut scratch[..count];
    let count = reader.at_most(out.len());
    let out = &mut out[..count];
    let written = write_finding(finding, order, scratch, out);
    print_number(stdout, refusal_of(&written))?;
    print_number(stdout, written.unwrap_or(0))?;
    end_line(stdout)?;
    print_numbers(stdout, out)?;
    end_line(stdout)?;
    print_numbers(stdout, scratch)?;
    end_line(stdout)
}

// Kept: the judging crate's cases read the bit order by another rule, 1 and nothing else for the low bit first; one function that is told the rule is no plainer.
fn read_given(reader: &mut Reader) -> Finding {
    Finding {
        block_size: reader.size(),
        width: reader.size(),
        bits: reader.bits(),
        division: reader.at_most(4294967295) as u32,
        z: double(reader.number()),
        low_first: reader.number() != 0,
    }
}
