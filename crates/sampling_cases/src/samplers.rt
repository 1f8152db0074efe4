// Cases of samplers: B, the bit order, 1 where the low bit comes first, and the number of lent words; how the recording begins and the feeds, as
// `cases::feeding` reads them.
// Answer: the line of `cases::feeding`; a line with the last sampler's numbers: B, the words, n, the bit order, the lengths of the boards' unfinished bytes; for
// each board a line with its unfinished bytes, and how many of its other places are not 0; a line with all words.
use cases::feeding::{dirty, pending, record};
use cases::printing::{end_line, print_number, print_numbers};
use cases::reading::Reader;
use sampling::sampler::Head;
use std::io;
use std::io::Stdout;

// The number of cases, then the cases.
pub fn replay(stdout: Stdout, reader: &mut Reader) -> io::Result<()> {
    reader.each(|reader| replay_one(stdout, reader))
}

fn replay_one(stdout: Stdout, reader: &mut Reader) -> io::Result<()> {
    let mut words = dirty();
    let block_size = reader.size();
    let low_first = reader.flag();
    let count = reader.at_most(words.len());
    let words = &mut words[..count];
    let recorded = record(stdout, reader, block_size, low_first, words)?;
    let head = recorded.sampler.head;
    print_head(stdout, head)?;
    for (board, bytes) in recorded.sampler.unfinished.chunks(512).enumerate() {
        print_board(stdout, bytes, pending(head, board))?;
    }
    print_numbers(stdout, words)?;
    end_line(stdout)
}

fn print_head(stdout: Stdout, head: Head) -> io::Result<()> {
    print_number(stdout, head.block_size)?;
    print_number(stdout, head.words)?;
    print_number(stdout, head.blocks)?;
    print_number(stdout, u8::from(head.low_first))?;
    print_numbers(stdout, &head.lengths)?;
    end_line(stdout)
}

// The board's unfinished bytes, and how many behind them are not 0.
fn print_board(stdout: Stdout, bytes: &[u8], pending: usize) -> io::Result<()> {
    let (unfinished, others) = bytes.split_at(pending.min(bytes.len()));
    print_numbers(stdout, unfinished)?;
    print_number(stdout, others.iter().filter(|byte| **byte != 0).count())?;
    end_line(stdout)
}
