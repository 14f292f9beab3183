// The index table, from which the maps read where each of their series ends.
ghost use Rattle.std.specs.Prelude.{◌≡◌, ◌*◌, ◌+◌, ◌<◌};
ghost use Rattle.base.specs.Index.{map_word};
ghost use Rattle.maps.specs.Virtim.{GoodTable};
ghost use Rattle.maps.specs.Good.{good_prop};

use base::index::IndexTable;

// The words of an index table that passed the check: whoever indexes by them stays inside.
#[derive(Clone, Copy)]
pub(crate) struct CheckedIndex<'a> {
    pub(crate) words: &'a IndexTable,
    ghost good: { GoodTable words.now } by { good_prop words.now },
}

impl<'a> CheckedIndex<'a> {
    // The word j of the map k.
    pub(crate) fn word(self, k: usize, j: usize) -> usize
        requires { (k < 6) × (j < 10) }
        ensures { result ≡ map_word self.entry.words.now k j }
    {
        self.words[k * 10 + j] as usize
    }
}
