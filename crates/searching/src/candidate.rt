// One candidate of a search: the counts of its bins, its bin order, division and score.
ghost use Rattle.std.specs.Prelude.{◌≡◌, ◌^◌, ◌++◌, drop};
ghost use Rattle.counting.specs.Sample.{counts_of};
ghost use Rattle.counting.specs.Stretch.{span, stretch_bit};
ghost use Rattle.ranking.specs.Order.{order_of};
ghost use Rattle.subsets.specs.Subsets.{Subset};
ghost use Rattle.searching.specs.Finding.{ranking_of};
ghost use Rattle.searching.specs.Pass.{BufferRoom, store_in, Ready};

use crate::pass::Pass;
use counting::block::bin_count;
use counting::rows::multi_eval_neg;
use counting::stretch::span;
use ranking::ranking::{Ranking, from_bins};

impl Pass<'_> {
    // Ranks the bits: their counts go to the bin buffer, their bin order to the order buffer. Entries past the 2 ^ k bins stay.
    pub fn rank(&self, bits: &[u32], run: &[u32], bins: &mut [u32], order: &mut [u32]) -> Ranking
        requires subset { Subset self.now.sample.stretch.block_size self.now.sample.k bits.now }
        requires ready { Ready (stretch_bit self.now.sample.stretch self.now.sample.words.now) (span self.now.sample.stretch) self.now.sample.stretch.block_size (store_in self.now.layered) bits.now run.now bins.old }
        requires buffer_room { BufferRoom self.now.sample.k bins.old order.old }
        ensures value { result ≡ ranking_of (stretch_bit self.now.sample.stretch self.now.sample.words.now) (span self.now.sample.stretch) bits.now }
        ensures bins_after { bins.new ≡ counts_of (stretch_bit self.now.sample.stretch self.now.sample.words.now) (span self.now.sample.stretch) bits.now ++ drop (2 ^ self.now.sample.k) bins.old }
        ensures order_after { order.new ≡ order_of (counts_of (stretch_bit self.now.sample.stretch self.now.sample.words.now) (span self.now.sample.stretch) bits.now) ++ drop (2 ^ self.now.sample.k) order.old }
    {
        self.fill_bins(bits, run, order, bins);
        from_bins(
            bins,
            order,
            span(self.sample.stretch),
            self.sample.k,
            self.roots,
        )
    }

    // The counts of the bits' bins: all counted where no store is lent, else worked out from it. The first entries of the order buffer are free.
    fn fill_bins(&self, bits: &[u32], run: &[u32], order: &mut [u32], bins: &mut [u32])
        requires subset { Subset self.now.sample.stretch.block_size self.now.sample.k bits.now }
        requires ready { Ready (stretch_bit self.now.sample.stretch self.now.sample.words.now) (span self.now.sample.stretch) self.now.sample.stretch.block_size (store_in self.now.layered) bits.now run.now bins.old }
        requires buffer_room { BufferRoom self.now.sample.k bins.old order.old }
        ensures bins_after { bins.new ≡ counts_of (stretch_bit self.now.sample.stretch self.now.sample.words.now) (span self.now.sample.stretch) bits.now ++ drop (2 ^ self.now.sample.k) bins.old }
        ensures order_unchanged { drop (2 ^ self.now.sample.k) order.new ≡ drop (2 ^ self.now.sample.k) order.old }
    {
        let Some(layered) = &self.layered else {
            let m = bin_count(bits.len());
            multi_eval_neg(bits, self.sample.words, self.sample.stretch, &mut bins[..m]);
            return;
        };
        if bits.len() < 3 {
            layered.few_bins(bits, run, bins);
            return;
        }
        layered.compute_bins(bits, run, order, bins);
    }
}
