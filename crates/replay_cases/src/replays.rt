// Cases of replays: B, the bit order, 1 where the low bit comes first, k, how many words, bins, entries of the order and of the store are lent; the
// number of the recording's bytes, and each; the number of lengths, and each.
// Answer: a line with the refusal, the number of refused feeds, whether the store suffices, whether the findings agree, and the finding: B, width, 20 bits,
// division, the pattern of z, the bit order; a line with all words, one with the whole bin buffer and one with the whole order buffer afterwards; and one with
// how many entries of the store, past the counts that are left there where it suffices, are no longer as lent, and the sum of these counts, each times its place.
use cases::entries::{changed, weighed};
use cases::feeding::dirty;
use cases::patterns::print_double;
use cases::printing::{end_line, print_number, print_numbers};
use cases::reading::Reader;
use counting::buffer::filled;
use counting::refusal::refusal_of;
use layers::size::store_needed;
use replay::replay::{Replayed, replay};
use searching::finding::no_finding;
use std::io;
use std::io::Stdout;

// What a replay is given beside the recording and its lengths.
#[derive(Clone, Copy)]
struct Case {
    block_size: usize,
    low_first: bool,
    k: usize,
    words: usize,
    bins: usize,
    order: usize,
    store: usize,
}

// The number of cases, then the cases.
pub fn answer_all(stdout: Stdout, reader: &mut Reader) -> io::Result<()> {
    reader.each(|reader| answer_one(stdout, reader))
}

fn answer_one(stdout: Stdout, reader: &mut Reader) -> io::Result<()> {
    let mut recording = filled::<u8, 8192>(0);
    let mut lengths = [0usize; 64];
    let case = read_case(reader);
    let count = reader.at_most(recording.len());
    let recording = &mut recording[..count];
    reader.fill(recording, u8::MAX);
    let count = reader.at_most(lengths.len());
    let lengths = &mut lengths[..count];
    reader.fill(lengths, usize::MAX);
    answer(stdout, case, recording, lengths)
}

fn read_case(reader: &mut Reader) -> Case {
    Case {
        block_size: reader.size(),
        low_first: reader.flag(),
        k: reader.size(),
        words: reader.size(),
        bins: reader.size(),
        order: reader.size(),
        store: reader.size(),
    }
}

// Lends as many entries as the case says.
fn answer(stdout: Stdout, case: Case, recording: &[u8], lengths: &[usize]) -> io::Result<()> {
    let mut words = dirty();
    // Room for the single bits of a block of 4,096 or the pairs of one of 64, and entries past them.
    let mut store = filled::<u32, 8448>(99);
    // Room for the bins of 8 bits and as many entries past them.
    let mut bins = filled::<u32, 512>(99);
    let mut order = filled::<u32, 512>(99);
    let words = &mut words[..case.words.min(8192)];
    let store = &mut store[..case.store.min(8448)];
    let bins = &mut bins[..case.bins.min(512)];
    let order = &mut order[..case.order.min(512)];
    let replayed = replay(
        case.block_size,
        case.low_first,
        recording,
        lengths,
        case.k,
        words,
        store,
        bins,
        order,
    );
    print_number(stdout, refusal_of(&replayed))?;
    let replayed = replayed.unwrap_or(Replayed {
        refused: 0,
        layered: false,
        agree: false,
        finding: no_finding(),
    });
    print_replayed(stdout, replayed)?;
    print_numbers(stdout, words)?;
    end_line(stdout)?;
    print_numbers(stdout, bins)?;
    end_line(stdout)?;
    print_numbers(stdout, order)?;
    end_line(stdout)?;
    let kept = kept_entries(replayed.layered, case.block_size, case.k);
    print_number(stdout, changed(store, kept))?;
    print_number(stdout, weighed(store, kept))?;
    end_line(stdout)
}

// Kept: one for the finding of all programs would have the crate `cases`, and with it each program, stand on `searching`, which is no plainer.
fn print_replayed(stdout: Stdout, replayed: Replayed) -> io::Result<()> {
    let finding = replayed.finding;
    print_number(stdout, replayed.refused)?;
    print_number(stdout, u8::from(replayed.layered))?;
    print_number(stdout, u8::from(replayed.agree))?;
    print_number(stdout, finding.block_size)?;
    print_number(stdout, finding.width)?;
    print_numbers(stdout, &finding.bits)?;
    print_number(stdout, finding.division)?;
    print_double(stdout, finding.z)?;
    print_number(stdout, u8::from(finding.low_first))?;
    end_line(stdout)
}

// How many counts are left in the store: none where it does not suffice.
fn kept_entries(layered: bool, block_size: usize, k: usize) -> usize {
    if !layered {
        return 0;
    }
    store_needed(block_size, k)
}
