// Cases of findings: B, the width, 20 bits, of which those past the width mean nothing, the division, the pattern of z, the bit order, 1 where the low bit
// comes first; the order, its length first; the length of the scratch; the bytes to evaluate on, their number first.
// Answer: a line with the check's refusal, and one with the scratch after it; a line with the evaluation's refusal, the positive blocks, and 1 and the
// pattern of z, or 0 where there is no sample; and one with the scratch after it. Every entry of a scratch is 99 before.
use cases::input::large_buffer;
use cases::patterns::{double, print_double};
use cases::printing::{end_line, print_number, print_numbers};
use cases::reading::Reader;
use counting::buffer::filled;
use counting::refusal::refusal_of;
use judging::check::validate;
use judging::evaluation::{Evaluated, Score, evaluate_histogram};
use searching::finding::Finding;
use std::io;
use std::io::Stdout;

// The number of cases, then the cases.
pub fn replay(stdout: Stdout, reader: &mut Reader) -> io::Result<()> {
    reader.each(|reader| replay_one(stdout, reader))
}

fn replay_one(stdout: Stdout, reader: &mut Reader) -> io::Result<()> {
    let mut order = filled::<u32, 1280>(99);
    let mut raw = large_buffer();
    let finding = read_finding(reader);
    let count = reader.at_most(order.len());
    let order = &mut order[..count];
    reader.fill(order, u32::MAX);
    let lent = reader.size();
    let count = reader.at_most(raw.len());
    let raw = &mut raw[..count];
    reader.fill(raw, u8::MAX);
    check(stdout, finding, order, lent)?;
    evaluate(stdout, finding, order, raw, lent)
}

// Kept: the exchange crate's cases read the bit order by another rule, any number but 0 for the low bit first; one function that is told the rule is no plainer.
fn read_finding(reader: &mut Reader) -> Finding {
    Finding {
        block_size: reader.size(),
        width: reader.size(),
        bits: reader.bits(),
        division: reader.at_most(4294967295) as u32,
        z: double(reader.number()),
        low_first: reader.flag(),
    }
}

fn check(stdout: Stdout, finding: Finding, order: &[u32], lent: usize) -> io::Result<()> {
    let mut scratch = filled::<u32, 1280>(99);
    let scratch = &mut scratch[..lent.min(1280)];
    print_number(stdout, refusal_of(&validate(finding, order, scratch)))?;
    end_line(stdout)?;
    print_numbers(stdout, scratch)?;
    end_line(stdout)
}

fn evaluate(
    stdout: Stdout,
    finding: Finding,
    order: &[u32],
    raw: &[u8],
    lent: usize,
) -> io::Result<()> {
    let mut scratch = filled::<u32, 1280>(99);
    let scratch = &mut scratch[..lent.min(1280)];
    let evaluated = evaluate_histogram(finding, order, raw, scratch);
    print_number(stdout, refusal_of(&evaluated))?;
    print_evaluated(
        stdout,
        evaluated.unwrap_or(Evaluated {
            positive: 0,
            score: Score::NoSample,
        }),
    )?;
    print_numbers(stdout, scratch)?;
    end_line(stdout)
}

fn print_evaluated(stdout: Stdout, evaluated: Evaluated) -> io::Result<()> {
    print_number(stdout, evaluated.positive)?;
    match evaluated.score {
        Score::Z(z) => {
            print_number(stdout, 1)?;
            print_double(stdout, z)?;
        }
        Score::NoSample => print_number(stdout, 0)?,
    }
    end_line(stdout)
}
