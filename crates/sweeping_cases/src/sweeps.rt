// Cases of sweeps: the level, B, the bit order, 1 where the low bit comes first; how many words, entries of the store, bins, entries of the order, of the
// scratch and of the bracket's scratch are lent, each 99; the number of the recording's bytes, and the recording.
// Answer: a line with the refusal, the verdict's number and the pairs tested; a line with the pair of the lowest L and one with the last pair: B, width,
// division, the pattern of z, 20 bits, the bit order, the blocks, the positive ones and both ends; a line with 0, or where refused with how many entries of
// each buffer are no longer as lent.
use crate::recordings::record;
use cases::entries::changed;
use cases::input::large_buffer;
use cases::patterns::print_double;
use cases::printing::{end_line, print_number, print_numbers};
use cases::reading::Reader;
use counting::buffer::filled;
use counting::refusal::refusal_of;
use searching::finding::no_finding;
use std::io;
use std::io::Stdout;
use sweeping::pair::Tested;
use sweeping::sweep::{Swept, sweep};
use sweeping::verdict::Verdict;

// What a sweep is given beside the recording, and the recording's length.
#[derive(Clone, Copy)]
struct Case {
    level: u64,
    block_size: usize,
    low_first: bool,
    words: usize,
    store: usize,
    bins: usize,
    order: usize,
    scratch: usize,
    entries: usize,
    length: usize,
}

// The number of cases, then the cases.
pub fn answer_all(stdout: Stdout, reader: &mut Reader) -> io::Result<()> {
    reader.each(|reader| answer_one(stdout, reader))
}

fn answer_one(stdout: Stdout, reader: &mut Reader) -> io::Result<()> {
    let mut raw = large_buffer();
    let case = read_case(reader);
    let raw = &mut raw[..case.length.min(65536)];
    record(reader, raw);
    answer(stdout, case, raw)
}

fn read_case(reader: &mut Reader) -> Case {
    Case {
        level: reader.number(),
        block_size: reader.size(),
        low_first: reader.flag(),
        words: reader.size(),
        store: reader.size(),
        bins: reader.size(),
        order: reader.size(),
        scratch: reader.size(),
        entries: reader.size(),
        length: reader.size(),
    }
}

// Lends as many entries as the case says. The buffers begin as zeros, since one of another value would be copied on its way here.
fn answer(stdout: Stdout, case: Case, raw: &[u8]) -> io::Result<()> {
    // Room for the words of every block size, and for the longest row of a bracket.
    let mut words = filled::<u64, 8192>(0);
    let mut entries = filled::<u64, 8192>(0);
    // Room for up to three bits of a block of 64, and entries past them.
    let mut store = filled::<u32, 45056>(0);
    // Room for the bins of 8 bits and as many entries past them.
    let mut bins = filled::<u32, 512>(0);
    let mut order = filled::<u32, 512>(0);
    let mut scratch = filled::<u32, 512>(0);
    let words = lent(&mut words, case.words);
    let entries = lent(&mut entries, case.entries);
    let store = lent(&mut store, case.store);
    let bins = lent(&mut bins, case.bins);
    let order = lent(&mut order, case.order);
    let scratch = lent(&mut scratch, case.scratch);
    let swept = sweep(
        raw,
        case.block_size,
        case.low_first,
        case.level,
        words,
        store,
        bins,
        order,
        scratch,
        entries,
    );
    print_number(stdout, refusal_of(&swept))?;
    // Where there is no refusal the buffers are free, and 0 stands for them.
    if let Ok(swept) = swept {
        print_swept(stdout, swept)?;
        print_number(stdout, 0)?;
        return end_line(stdout);
    }
    print_swept(stdout, nothing_swept())?;
    print_number(stdout, changed(words, 0))?;
    print_number(stdout, changed(store, 0))?;
    print_number(stdout, changed(bins, 0))?;
    print_number(stdout, changed(order, 0))?;
    print_number(stdout, changed(scratch, 0))?;
    print_number(stdout, changed(entries, 0))?;
    end_line(stdout)
}

// Up to `count` entries of a buffer, each 99.
fn lent<T: Copy + From<u8>>(buffer: &mut [T], count: usize) -> &mut [T] {
    let count = count.min(buffer.len());
    let part = &mut buffer[..count];
    for entry in part.iter_mut() {
        *entry = T::from(99);
    }
    part
}

// What stands beside a refusal.
fn nothing_swept() -> Swept {
    let none = Tested {
        finding: no_finding(),
        blocks: 0,
        positive: 0,
        low: 0,
        high: 0,
    };
    Swept {
        verdict: Verdict::Undecided,
        tested: 0,
        best: none,
        last: none,
    }
}

fn print_swept(stdout: Stdout, swept: Swept) -> io::Result<()> {
    print_number(stdout, swept.verdict as u8)?;
    print_number(stdout, swept.tested)?;
    end_line(stdout)?;
    print_tested(stdout, swept.best)?;
    print_tested(stdout, swept.last)
}

// Kept: one for the finding of all programs would have the crate `cases`, and with it each program, stand on `searching`, which is no plainer.
fn print_tested(stdout: Stdout, tested: Tested) -> io::Result<()> {
    let finding = tested.finding;
    print_number(stdout, finding.block_size)?;
    print_number(stdout, finding.width)?;
    print_number(stdout, finding.division)?;
    print_double(stdout, finding.z)?;
    print_numbers(stdout, &finding.bits)?;
    print_number(stdout, u8::from(finding.low_first))?;
    print_number(stdout, tested.blocks)?;
    print_number(stdout, tested.positive)?;
    print_number(stdout, tested.low)?;
    print_number(stdout, tested.high)?;
    end_line(stdout)
}
