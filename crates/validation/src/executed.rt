// Refusals 11 and 12 of a table of which some entry executes, by the set of the blocks that its entries execute: each entry is looked at once more for 11,
// if some entry writes, and each block hashed once for 12, unless it is marked. And the marks of that set.
ghost use Rattle.std.specs.Prelude.{◌||◌, cond, false, ◌≡◌, ℕ, ◌+◌, ◌<◌, ◌≤◌, IfOk};
ghost use Rattle.words.specs.Bounded.{any, count};
ghost use Rattle.entries.specs.Meaning.{meaning};
ghost use Rattle.rules.specs.Refusals.{answer_of};
ghost use Rattle.rules.specs.Store as store;
ghost use Rattle.rules.specs.Store.{executable, writable, mark_blocks, mark_value, mark_word, put_record_word};
ghost use Rattle.rules.specs.Tables.{gives, grants};
ghost use Rattle.ledger.specs.Needs.{InLedger};
ghost use Rattle.ledger.specs.Refusals.{answered};
ghost use Rattle.ledger.specs.Regions.{store_of};
ghost use Rattle.validation.specs.Sets.{Admitted, AllJoined, meets_members, member, member_hashed};
ghost use Rattle.validation.specs.Needs.{InRegion};
ghost use Rattle.validation.specs.Pieces.{executed_entries};
ghost use Rattle.validation.specs.Tables.{InPlace, entries_of};
ghost use Rattle.validation.specs.Tests.{meets_count};

use crate::hash::hash_members;
use crate::set::BlockSet;
use crate::table::Table;
use entries::decode::accepted_entry_at;
use entries::entry::Entry;
use ledger::counters::{Counter, grants};
use ledger::marks::mark;
use ledger::refusals::Refusal;
use ledger::region::Region;

// The blocks that the entry executes join the set.
pub fn insert_executed(region: &Region<'_>, members: &mut BlockSet, e: Entry)
    requires { InRegion region.now.memory.now region.now.ledger.now (meaning e) }
    ensures { (k : ℕ) → member members.new.bits k ≡ (member members.old.bits k || gives executable (meaning e) (store.base (store_of region.now) + k)) }
{
    if grants(Counter::Executable, e) {
        let b = region.record_of(e.cover_first());
        members.insert_blocks(b, e.cover_blocks() as usize);
    }
}

// The entry writes a block of the set.
fn meets_members(region: &Region<'_>, members: &BlockSet, e: Entry) -> bool
    requires { InRegion region.now.memory.now region.now.ledger.now (meaning e) }
    ensures { result ≡ meets_members region.now.ledger.now members.now.bits (meaning e) }
{
    if grants(Counter::Writable, e) {
        let b = region.record_of(e.cover_first());
        return members.contains_some(b, e.cover_blocks() as usize);
    }
    false
}

// Marks block b if it is in the set.
fn mark_member(ledger: &mut [u8], members: &BlockSet, b: usize)
    requires { InLedger ledger.old (b + 1) × (b < store.most_blocks) }
    ensures { ledger.new ≡ cond (member members.now.bits b) (put_record_word ledger.old mark_word b mark_value) ledger.old }
{
    if members.contains(b) {
        mark(ledger, b);
    }
}

// Marks those of the first n blocks that are in the set.
fn mark_members(ledger: &mut [u8], members: &BlockSet, n: usize)
    requires { InLedger ledger.old n × (n ≤ store.most_blocks) }
    ensures { ledger.new ≡ mark_blocks ledger.old n (member members.now.bits) }
{
    for b in 0..n {
        mark_member(ledger, members, b);
    }
}

// The same, where it is known how many of them are not marked: if none, nothing changes.
pub fn admit_members(ledger: &mut [u8], members: &BlockSet, n: usize, hashed: u32)
    requires in_ledger { InLedger ledger.old n × (n ≤ store.most_blocks) }
    requires hashed_value { hashed ≡ count n (member_hashed ledger.old members.now.bits) }
    ensures { ledger.new ≡ mark_blocks ledger.old n (member members.now.bits) }
{
    if hashed != 0 {
        mark_members(ledger, members, n);
    }
}

impl Table<'_> {
    // Entry i does.
    fn meets_members(&self, members: &BlockSet, i: usize) -> bool
        requires { InPlace self.now × (i < self.now.entries) }
        ensures { result ≡ meets_members self.now.region.ledger.now members.now.bits (entries_of self.now i) }
    {
        let e = accepted_entry_at(self.level, self.region.memory, self.first + i);
        meets_members(&self.region, members, e)
    }

    // Some entry does.
    fn some_meets_members(&self, members: &BlockSet) -> bool
        requires { InPlace self.now }
        ensures { result ≡ any self.now.entries (λ i. meets_members self.now.region.ledger.now members.now.bits (entries_of self.now i)) }
    {
        // An index loop: a closure that holds parts of a region is no form that the archives for ARMv7 take (tools/portable.py).
        for i in 0..self.entries {
            if self.meets_members(members, i) {
                return true;
            }
        }
        false
    }

    // The same. Where the flag is not set no entry writes, and so none a block of the set.
    fn some_clashes(&self, members: &BlockSet, writes: bool) -> bool
        requires in_place { InPlace self.now }
        requires silent { writes ≡ false → any self.now.entries (λ i. grants writable (entries_of self.now i)) ≡ false }
        ensures { result ≡ any self.now.entries (λ i. meets_members self.now.region.ledger.now members.now.bits (entries_of self.now i)) }
    {
        writes && self.some_meets_members(members)
    }

    // Where no entry meets a count of the ledger, 11 is a matter among the entries, of which the set has the blocks that they execute. If neither 11 nor 12
    // applies, those that are not marked are counted.
    pub fn check_executed(
        &self,
        golden: &[u8],
        members: &BlockSet,
        writes: bool,
    ) -> Result<u32, Refusal>
        requires in_place { InPlace self.now }
        requires joined { AllJoined (store_of self.now.region) self.now.entries (entries_of self.now) members.now.bits }
        requires silent { writes ≡ false → any self.now.entries (λ i. grants writable (entries_of self.now i)) ≡ false }
        requires uncounted { any self.now.entries (λ i. meets_count self.now.region.ledger.now (entries_of self.now i)) ≡ false }
        ensures value { answered result ≡ answer_of (executed_entries golden.now (store_of self.now.region) self.now.entries (entries_of self.now)) }
        ensures admitted { IfOk result (λ n. Admitted (store_of self.now.region) self.now.entries (entries_of self.now) members.now.bits n) }
    {
        if self.some_clashes(members, writes) {
            return Err(Refusal::Clash);
        }
        hash_members(&self.region, golden, members).ok_or(Refusal::Unsigned)
    }
}
