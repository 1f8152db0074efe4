// The direct search of a stretch: no store, one pass over the subsets of the width searched.
ghost use Rattle.counting.specs.Stretch.{span, stretch_bit};
ghost use Rattle.searching.specs.Pass.{BufferRoom, Won};

use crate::finding::Finding;
use crate::pass::find;
use crate::sample::Sample;

// Finds the best k-subset: every bin of each is counted from the rows.
pub fn brute_force_threads(sample: &Sample<'_>, bins: &mut [u32], order: &mut [u32]) -> Finding
    requires buffer_room { BufferRoom sample.now.k bins.old order.old }
    ensures { Won (stretch_bit sample.now.stretch sample.now.words.now) (span sample.now.stretch) sample.now.stretch.block_size sample.now.k bins.old order.old result bins.new order.new }
{
    find(sample, &[], &mut [], bins, order)
}
