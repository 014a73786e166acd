// A table: words of a region's memory, each an entry.
ghost use Rattle.std.specs.Prelude.{◌≡◌, ◌<◌};
ghost use Rattle.entries.specs.Meaning.{meaning};
ghost use Rattle.validation.specs.Needs.{HoldsWords};

use entries::decode::entry_at;
use entries::entry::{Entry, Level};
use ledger::region::Region;

// The entries of a table of a level, from word `first` of the memory on.
#[derive(Clone, Copy)]
pub struct Table<'a> {
    pub region: Region<'a>,
    pub level: Level,
    pub first: usize,
    pub entries: usize,
    ghost holds_words: { HoldsWords region.memory.now first entries },
}

impl Table<'_> {
    ghost use Rattle.validation.specs.Tables.{entries_of};

    pub fn entry(&self, i: usize) -> Entry
        requires { i < self.now.entries }
        ensures { meaning result ≡ entries_of self.now i }
    {
        entry_at(self.level, self.region.memory, self.first + i)
    }
}
