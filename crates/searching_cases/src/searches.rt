// Cases of searches: B, the bit order, 1 where the low bit comes first, and the number of lent words; how the recording begins and the feeds, as
// `cases::feeding` reads them; the number of searches, for each the first block and the end of the stretch, k, the lengths of the bin buffer, the order buffer
// and the store, and 0 for the sampler last returned, or 1 and another sampler's eight numbers.
// Answer: the line of `cases::feeding`; for each search, first with the store, then with none, a line with what it answers, the finding's bit order last, one
// with the first 2 ^ k counts, one with the first 2 ^ k entries of the order, and one with how many other entries of the buffers and of the store are no longer
// as lent, and of the store the sum of its counts, each times its place. Where it is refused, all entries are such others, and the sum is 0; so it is of a store
// that does not suffice.
use cases::entries::{changed, print_first, weighed};
use cases::feeding::{dirty, record};
use cases::patterns::print_double;
use cases::printing::{end_line, print_number, print_numbers};
use cases::reading::Reader;
use counting::block::bin_count;
use counting::buffer::filled;
use counting::refusal::{Refusal, refusal_of};
use layers::size::store_needed;
use sampling::sampler::Head;
use searching::finding::{Finding, no_finding};
use searching::search::bottomup;
use std::io;
use std::io::Stdout;

// What the searches are given.
#[derive(Clone, Copy)]
struct Search {
    first: usize,
    end: usize,
    k: usize,
    bins: usize,
    order: usize,
    store: usize,
    sampler: Head,
}

// The number of cases, then the cases.
pub fn replay(stdout: Stdout, reader: &mut Reader) -> io::Result<()> {
    reader.each(|reader| replay_one(stdout, reader))
}

fn replay_one(stdout: Stdout, reader: &mut Reader) -> io::Result<()> {
    let mut words = dirty();
    let block_size = reader.size();
    let low_first = reader.flag();
    let count = reader.at_most(words.len());
    let words = &mut words[..count];
    let recorded = record(stdout, reader, block_size, low_first, words)?;
    reader.each(|reader| {
        let search = read_search(reader, recorded.sampler.head);
        lend(stdout, search, words, search.store)?;
        lend(stdout, search, words, 0)
    })
}

fn read_search(reader: &mut Reader, returned: Head) -> Search {
    Search {
        first: reader.size(),
        end: reader.size(),
        k: reader.size(),
        bins: reader.size(),
        order: reader.size(),
        store: reader.size(),
        sampler: given_sampler(reader, returned),
    }
}

fn given_sampler(reader: &mut Reader, returned: Head) -> Head {
    if reader.number() == 0 {
        return returned;
    }
    Head {
        block_size: reader.size(),
        words: reader.size(),
        blocks: reader.size(),
        low_first: reader.flag(),
        lengths: [reader.size(), reader.size(), reader.size(), reader.size()],
    }
}

// Lends buffers of as many entries as the search says, and a store of so many.
fn lend(stdout: Stdout, search: Search, words: &[u64], entries: usize) -> io::Result<()> {
    // Room for the subsets of up to 3 bits of a block of 64, and entries past them.
    let mut store = filled::<u32, 65536>(99);
    let mut bins = filled::<u32, 1024>(99);
    let mut order = filled::<u32, 1024>(99);
    let store = &mut store[..entries.min(65536)];
    let bins = &mut bins[..search.bins.min(1024)];
    let order = &mut order[..search.order.min(1024)];
    let searched = bottomup(
        search.sampler,
        words,
        search.first,
        search.end,
        search.k,
        store,
        bins,
        order,
    );
    print_answer(stdout, searched, search.k, bins, order)?;
    let kept = kept_entries(
        searched.is_ok(),
        search.sampler.block_size,
        search.k,
        store.len(),
    );
    print_number(stdout, changed(store, kept))?;
    print_number(stdout, weighed(store, kept))?;
    end_line(stdout)
}

// How many counts a search leaves in a store of so many entries: none where it is refused, or the store does not suffice.
// Kept: the replay's cases have the answer to that as a flag; one function for both would only be the `if`, and is no plainer.
fn kept_entries(found: bool, block_size: usize, k: usize, entries: usize) -> usize {
    let needed = store_needed(block_size, k);
    if !found || needed > entries {
        return 0;
    }
    needed
}

fn print_answer(
    stdout: Stdout,
    searched: Result<Finding, Refusal>,
    k: usize,
    bins: &[u32],
    order: &[u32],
) -> io::Result<()> {
    print_searched(stdout, searched)?;
    let shown = shown_entries(searched.is_ok(), k);
    print_first(stdout, bins, shown)?;
    end_line(stdout)?;
    print_first(stdout, order, shown)?;
    end_line(stdout)?;
    print_number(stdout, changed(bins, shown))?;
    print_number(stdout, changed(order, shown))
}

// Kept: one for all programs would have the crate `cases`, and with it each program, stand on `searching`, which is no plainer.
fn print_searched(stdout: Stdout, searched: Result<Finding, Refusal>) -> io::Result<()> {
    print_number(stdout, refusal_of(&searched))?;
    let finding = searched.unwrap_or(no_finding());
    print_number(stdout, finding.block_size)?;
    print_number(stdout, finding.width)?;
    print_numbers(stdout, &finding.bits)?;
    print_number(stdout, finding.division)?;
    print_double(stdout, finding.z)?;
    print_number(stdout, u8::from(finding.low_first))?;
    end_line(stdout)
}

// How many entries of a buffer a search fills: none where it is refused.
fn shown_entries(found: bool, k: usize) -> usize {
    if !found || k > 20 {
        return 0;
    }
    bin_count(k)
}
