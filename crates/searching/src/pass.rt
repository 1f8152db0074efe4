// One ordered pass over the k-subsets of a block.
ghost use Rattle.std.specs.Prelude.{◌≡◌};
ghost use Rattle.counting.specs.Stretch.{span, stretch_bit};
ghost use Rattle.ranking.specs.Ranking.{Roots};
ghost use Rattle.subsets.specs.Subsets.{padded};
ghost use Rattle.searching.specs.Finding.{winner_of};
ghost use Rattle.searching.specs.Pass.{BufferRoom, FromStore, IfOver, store_in, Space, PastSame, Won};

use crate::finding::Finding;
use crate::sample::Sample;
use counting::stretch::span;
use layers::bins::Layered;
use ranking::ranking::fill_roots;
use subsets::stepping::first;

// What a pass goes by: the sample, what its bins are worked out from, which is none where every bin is counted, and the roots for its divisions.
#[derive(Clone, Copy)]
pub struct Pass<'a> {
    pub sample: Sample<'a>,
    pub layered: Option<Layered<'a>>,
    pub roots: &'a [f64],
    ghost over: { IfOver sample.words.now sample.stretch sample.k layered },
    ghost rooted: { Roots (span sample.stretch) sample.k roots.now },
}

// Finds the best k-subset; its bit order is left at high first, since rows have none. Its counts and bin order are left in the buffers, whose entries past 2 ^ k stay.
// An empty store means that every bin is counted; else the counts of the smaller subsets stand in it. What is left in run is free.
pub fn find(
    sample: &Sample<'_>,
    store: &[u32],
    run: &mut [u32],
    bins: &mut [u32],
    order: &mut [u32],
) -> Finding
    requires from_store { FromStore (stretch_bit sample.now.stretch sample.now.words.now) (span sample.now.stretch) sample.now.stretch.block_size sample.now.k store.now }
    requires space { Space sample.now.stretch.block_size sample.now.k store.now run.old }
    requires buffer_room { BufferRoom sample.now.k bins.old order.old }
    ensures { Won (stretch_bit sample.now.stretch sample.now.words.now) (span sample.now.stretch) sample.now.stretch.block_size sample.now.k bins.old order.old result bins.new order.new }
{
    let k = sample.k;
    let mut table = [0.0; 256];
    // Worked out once for all subsets: a root for each division, as far as the table goes.
    let roots = &mut table[..1 << k.min(8)];
    fill_roots(roots, span(sample.stretch), k);
    let pass = Pass {
        sample: *sample,
        layered: by_layers(sample, store),
        roots,
    };
    let bits = pass.pick(run, bins, order);
    // The pass leaves the last candidate in the buffers.
    pass.begin(&bits[..k], run, bins, order);
    let ranking = pass.rank(&bits[..k], run, bins, order);
    Finding {
        block_size: sample.stretch.block_size,
        width: k,
        bits,
        division: ranking.division,
        z: ranking.z,
        low_first: false,
    }
}

// What a search by layers goes by where the store is not empty.
fn by_layers<'a>(sample: &Sample<'a>, store: &'a [u32]) -> Option<Layered<'a>>
    requires from_store { FromStore (stretch_bit sample.now.stretch sample.now.words.now) (span sample.now.stretch) sample.now.stretch.block_size sample.now.k store.now }
    ensures over { IfOver sample.now.words.now sample.now.stretch sample.now.k result }
    ensures store_is { store_in result ≡ store.now }
{
    if store.len() == 0 {
        return None;
    }
    Some(Layered {
        words: sample.words,
        stretch: sample.stretch,
        k: sample.k,
        store,
    })
}

// Kept: bins, order and that both have room stand in each contract: a struct that holds two `&mut` would need, in place of that clause, two that say that it
// still holds the same slices, since a call that is lent the struct may put others there.
impl Pass<'_> {
    // The best k-subset. A block of k bits has one only, which the pass would rank twice.
    // The first 2 ^ k entries of the buffers are free, and of run all but the places in the store.
    fn pick(&self, run: &mut [u32], bins: &mut [u32], order: &mut [u32]) -> [u32; 20]
        requires space { Space self.now.sample.stretch.block_size self.now.sample.k (store_in self.now.layered) run.old }
        requires buffer_room { BufferRoom self.now.sample.k bins.old order.old }
        ensures value { result ≡ padded (winner_of (stretch_bit self.now.sample.stretch self.now.sample.words.now) (span self.now.sample.stretch) self.now.sample.stretch.block_size self.now.sample.k) }
        ensures space_2 { Space self.now.sample.stretch.block_size self.now.sample.k (store_in self.now.layered) run.new }
        ensures past_same { PastSame self.now.sample.k bins.old order.old bins.new order.new }
    {
        let k = self.sample.k;
        let block_size = self.sample.stretch.block_size;
        if k == block_size {
            return first(k);
        }
        self.walk(run, bins, order)
    }

    // The pass: a later subset takes the place of the best so far only where its z is greater.
    // The first 2 ^ k entries of the buffers, left at the last candidate, are free, and of run all but the places in the store.
    fn walk(&self, run: &mut [u32], bins: &mut [u32], order: &mut [u32]) -> [u32; 20]
        requires space { Space self.now.sample.stretch.block_size self.now.sample.k (store_in self.now.layered) run.old }
        requires buffer_room { BufferRoom self.now.sample.k bins.old order.old }
        ensures value { result ≡ padded (winner_of (stretch_bit self.now.sample.stretch self.now.sample.words.now) (span self.now.sample.stretch) self.now.sample.stretch.block_size self.now.sample.k) }
        ensures space_2 { Space self.now.sample.stretch.block_size self.now.sample.k (store_in self.now.layered) run.new }
        ensures past_same { PastSame self.now.sample.k bins.old order.old bins.new order.new }
    {
        let k = self.sample.k;
        let mut bits = first(k);
        let mut best = bits;
        self.begin(&bits[..k], run, bins, order);
        let ranking = self.rank(&bits[..k], run, bins, order);
        let mut z = ranking.z;
        'pass: while self.step(&mut bits, run, bins, order) {
            let next = self.rank(&bits[..k], run, bins, order);
            let better = z < next.z;
            if better {
                best = bits;
                z = next.z;
            }
        }
        best
    }
}
