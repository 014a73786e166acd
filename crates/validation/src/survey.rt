// One look at a table: the greatest of what is found of its entries. It ends at an entry that is not accepted.
ghost use Rattle.std.specs.Prelude.{◌≡◌, ◌<◌, ◌^◌};
ghost use Rattle.entries.specs.Meaning.{level_of, meaning};
ghost use Rattle.rules.specs.Store.{base, blocks};
ghost use Rattle.ledger.specs.Regions.{store_of};
ghost use Rattle.validation.specs.Findings.{entry_finding, finding_of, greater, new_finding, old_finding, place_finding};
ghost use Rattle.validation.specs.Needs.{HoldsWords};
ghost use Rattle.validation.specs.Sets.{AllGathered, EmptySet, Gathered};
ghost use Rattle.validation.specs.Tables.{entries_of};
ghost use Rattle.validation.specs.Tests.{entry_from};

use crate::finding::Finding;
use crate::set::BlockSet;
use crate::table::Table;
use crate::target::entry_finding;
use entries::decode::entry_at;
use entries::entry::{Entry, Level};
use ledger::region::is_astray;

// What is found of entries, and whether one of them writes.
#[derive(Clone, Copy)]
pub struct Survey {
    pub found: Finding,
    pub writes: bool,
}

// What is found of one entry of a table that is freed, in a region of n blocks from first on.
fn place_finding(e: Entry, first: u32, n: usize) -> Finding
    requires { n < 2 ^ 32 }
    ensures { finding_of result ≡ place_finding first n (meaning e) }
{
    if e.is_unaccepted() {
        return Finding::Unaccepted;
    }
    if is_astray(e, first, n) {
        return Finding::Misplaced;
    }
    Finding::Fine
}

// Of a table that is freed, whose m entries stand from word j of the memory on.
pub fn survey_old(level: Level, memory: &[u8], j: usize, m: usize, first: u32, n: usize) -> Finding
    requires { HoldsWords memory.now j m × (n < 2 ^ 32) }
    ensures { finding_of result ≡ old_finding first n m (entry_from (level_of level) memory.now j) }
{
    let mut found = Finding::Fine;
    for i in 0..m {
        let one = place_finding(entry_at(level, memory, j + i), first, n);
        if one == Finding::Unaccepted {
            return one;
        }
        found = found.max(one);
    }
    found
}

impl Table<'_> {
    // The greater of what was found before and what is found of one more entry, of a table that is created at a block. Faults, which fill most tables, are
    // told first.
    fn found_with(
        &self,
        block: u32,
        members: &mut BlockSet,
        writes: &mut bool,
        found: Finding,
        e: Entry,
    ) -> Finding
        ensures value { finding_of result ≡ greater (finding_of found) (entry_finding (level_of self.now.level) (store_of self.now.region) block (meaning e)) }
        ensures gathered { finding_of result < 2 → Gathered (store_of self.now.region) (meaning e) members.old.bits members.new.bits writes.old writes.new }
    {
        if e.is_fault() {
            return found;
        }
        let one = entry_finding(self.level, &self.region, members, writes, block, e);
        found.max(one)
    }

    // Of a table that is created at a block. Where nothing is held against its entries, the blocks that they execute are in the set, empty before, and
    // whether some entry writes is told.
    pub fn survey_new(&self, block: u32, members: &mut BlockSet) -> Survey
        requires { EmptySet members.old.bits }
        ensures value { finding_of result.found ≡ new_finding (level_of self.now.level) (store_of self.now.region) block self.now.entries (entries_of self.now) }
        ensures all_gathered { finding_of result.found < 2 → AllGathered (store_of self.now.region) self.now.entries (entries_of self.now) members.new.bits result.writes }
    {
        let mut found = Finding::Fine;
        let mut writes = false;
        for i in 0..self.entries {
            found = self.found_with(block, members, &mut writes, found, self.entry(i));
            if found == Finding::Unaccepted {
                return Survey { found, writes };
            }
        }
        Survey { found, writes }
    }

    // Of a table that is freed.
    pub fn survey_old(&self) -> Finding
        ensures { finding_of result ≡ old_finding (base (store_of self.now.region)) (blocks (store_of self.now.region)) self.now.entries (entries_of self.now) }
    {
        let memory = self.region.memory;
        let first = self.region.base();
        let n = self.region.blocks();
        survey_old(self.level, memory, self.first, self.entries, first, n)
    }
}
