// What a search goes over.
ghost use Rattle.std.specs.Prelude.{length};
ghost use Rattle.searching.specs.Pass.{Searchable};

use counting::stretch::Stretch;

// A stretch of the words and the width at which it is searched, both within their limits.
#[derive(Clone, Copy)]
pub struct Sample<'a> {
    pub words: &'a [u64],
    pub stretch: Stretch,
    pub k: usize,
    ghost searchable: { Searchable (length words.now) stretch k },
}
