// From candidate to candidate: the next subset and, where a store is lent, its run.
ghost use Rattle.std.specs.Prelude.{◌≡◌, true, ◌^◌, take};
ghost use Rattle.counting.specs.Sample.{counts_of};
ghost use Rattle.counting.specs.Stretch.{span, stretch_bit};
ghost use Rattle.subsets.specs.Stepping.{Stepped};
ghost use Rattle.subsets.specs.Subsets.{Subset};
ghost use Rattle.searching.specs.Pass.{BufferRoom, store_in, Space, Standing, Ready, PastSame};

use crate::pass::Pass;
use subsets::stepping::successor;

impl Pass<'_> {
    // The run of the bits where a store is lent; where every bin is counted none is needed.
    // The first entries of both buffers are free but for what makes the bits ready.
    pub fn begin(&self, bits: &[u32], run: &mut [u32], bins: &mut [u32], order: &mut [u32])
        requires subset { Subset self.now.sample.stretch.block_size self.now.sample.k bits.now }
        requires space { Space self.now.sample.stretch.block_size self.now.sample.k (store_in self.now.layered) run.old }
        requires buffer_room { BufferRoom self.now.sample.k bins.old order.old }
        ensures ready { Ready (stretch_bit self.now.sample.stretch self.now.sample.words.now) (span self.now.sample.stretch) self.now.sample.stretch.block_size (store_in self.now.layered) bits.now run.new bins.new }
        ensures past_same { PastSame self.now.sample.k bins.old order.old bins.new order.new }
    {
        if let Some(layered) = &self.layered {
            layered.begin_run(bits, run, order, bins);
        }
    }

    // Steps from a candidate whose bins stand to the next subset, and its run with it where one is needed; false where there is none.
    // The first entries of both buffers are free but for what makes the next ready.
    pub fn step(
        &self,
        bits: &mut [u32],
        run: &mut [u32],
        bins: &mut [u32],
        order: &mut [u32],
    ) -> bool
        requires subset { Subset self.now.sample.stretch.block_size self.now.sample.k (take self.now.sample.k bits.old) }
        requires standing { Standing (stretch_bit self.now.sample.stretch self.now.sample.words.now) (span self.now.sample.stretch) self.now.sample.stretch.block_size (store_in self.now.layered) (take self.now.sample.k bits.old) run.old }
        requires buffer_room { BufferRoom self.now.sample.k bins.old order.old }
        requires bins_value { take (2 ^ self.now.sample.k) bins.old ≡ counts_of (stretch_bit self.now.sample.stretch self.now.sample.words.now) (span self.now.sample.stretch) (take self.now.sample.k bits.old) }
        ensures stepped { Stepped self.now.sample.stretch.block_size self.now.sample.k bits.old result bits.new }
        ensures ready { result ≡ true → Ready (stretch_bit self.now.sample.stretch self.now.sample.words.now) (span self.now.sample.stretch) self.now.sample.stretch.block_size (store_in self.now.layered) (take self.now.sample.k bits.new) run.new bins.new }
        ensures space { Space self.now.sample.stretch.block_size self.now.sample.k (store_in self.now.layered) run.new }
        ensures past_same { PastSame self.now.sample.k bins.old order.old bins.new order.new }
    {
        let Some(layered) = &self.layered else {
            return successor(bits, self.sample.k, self.sample.stretch.block_size);
        };
        layered.advance(bits, run, order, bins)
    }
}
