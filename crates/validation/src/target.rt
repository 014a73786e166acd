// Tests of one entry against the ledger (create 8, create 10, create 11), and what a look at it adds to the set.
ghost use Rattle.std.specs.Prelude.{◌≡◌, ◌<◌};
ghost use Rattle.entries.specs.Meaning.{level_of, meaning};
ghost use Rattle.rules.specs.Create.{unfit_link, unfit_write};
ghost use Rattle.ledger.specs.Meaning.{counter_of};
ghost use Rattle.ledger.specs.Needs.{EntryRecorded};
ghost use Rattle.ledger.specs.Regions.{store_of};
ghost use Rattle.validation.specs.Findings.{entry_finding, finding_of, target_finding};
ghost use Rattle.validation.specs.Needs.{InRegion};
ghost use Rattle.validation.specs.Sets.{Gathered};
ghost use Rattle.validation.specs.Tests.{meets, meets_count, unfit};

use crate::cover::{cover_counts, cover_differs, overlap};
use crate::executed::insert_executed;
use crate::finding::Finding;
use crate::set::BlockSet;
use entries::entry::{Entry, Level};
use ledger::counters::{Counter, grants, grants_some};
use ledger::layout::BlockType;
use ledger::region::Region;
use ledger::table::table_blocks;

// A link to a block that is not L2 (create 10).
fn is_unfit_link(region: &Region<'_>, e: Entry) -> bool
    requires { EntryRecorded region.now.ledger.now (meaning e) }
    ensures { result ≡ unfit_link (store_of region.now) (meaning e) }
{
    if e.is_link() {
        return cover_differs(region.ledger, e, BlockType::L2.code());
    }
    false
}

// The entry grants one thing to a block that is counted for another.
fn meets(region: &Region<'_>, granted: Counter, counted: Counter, e: Entry) -> bool
    requires { EntryRecorded region.now.ledger.now (meaning e) }
    ensures { result ≡ meets (counter_of granted) (counter_of counted) region.now.ledger.now (meaning e) }
{
    if grants(granted, e) {
        return cover_counts(region.ledger, counted, e);
    }
    false
}

// The entry writes where the ledger has execute counted, or the other way round.
fn meets_count(region: &Region<'_>, e: Entry) -> bool
    requires { EntryRecorded region.now.ledger.now (meaning e) }
    ensures { result ≡ meets_count region.now.ledger.now (meaning e) }
{
    if meets(region, Counter::Writable, Counter::Executable, e) {
        return true;
    }
    meets(region, Counter::Executable, Counter::Writable, e)
}

// Write to a block that is no data, or belongs to the table, which is created at a block (create 10).
fn is_unfit_write(level: Level, region: &Region<'_>, block: u32, e: Entry) -> bool
    requires { EntryRecorded region.now.ledger.now (meaning e) }
    ensures { result ≡ unfit_write (level_of level) (store_of region.now) block (meaning e) }
{
    if !grants(Counter::Writable, e) {
        return false;
    }
    if cover_differs(region.ledger, e, BlockType::Data.code()) {
        return true;
    }
    overlap(
        e.cover_first(),
        e.cover_blocks(),
        block,
        table_blocks(level),
    )
}

// Its target is unfit.
fn is_unfit(level: Level, region: &Region<'_>, block: u32, e: Entry) -> bool
    requires { EntryRecorded region.now.ledger.now (meaning e) }
    ensures { result ≡ unfit (level_of level) (store_of region.now) block (meaning e) }
{
    if is_unfit_link(region, e) {
        return true;
    }
    is_unfit_write(level, region, block, e)
}

// What is found of the target of an accepted entry whose place is in the region. Where nothing is held against it, the blocks that it executes join
// the set, and that it writes is noted.
fn target_finding(
    level: Level,
    region: &Region<'_>,
    members: &mut BlockSet,
    writes: &mut bool,
    block: u32,
    e: Entry,
) -> Finding
    requires { InRegion region.now.memory.now region.now.ledger.now (meaning e) × EntryRecorded region.now.ledger.now (meaning e) }
    ensures value { finding_of result ≡ target_finding (level_of level) (store_of region.now) block (meaning e) }
    ensures gathered { finding_of result < 2 → Gathered (store_of region.now) (meaning e) members.old.bits members.new.bits writes.old writes.new }
{
    if is_unfit(level, region, block, e) {
        return Finding::Misplaced;
    }
    if meets_count(region, e) {
        return Finding::MeetsCount;
    }
    *writes |= grants(Counter::Writable, e);
    if grants(Counter::Executable, e) {
        insert_executed(region, members, e);
        return Finding::Executes;
    }
    Finding::Fine
}

// What is found of one entry of a table that is created at a block.
pub fn entry_finding(
    level: Level,
    region: &Region<'_>,
    members: &mut BlockSet,
    writes: &mut bool,
    block: u32,
    e: Entry,
) -> Finding
    ensures value { finding_of result ≡ entry_finding (level_of level) (store_of region.now) block (meaning e) }
    ensures gathered { finding_of result < 2 → Gathered (store_of region.now) (meaning e) members.old.bits members.new.bits writes.old writes.new }
{
    if e.is_unaccepted() {
        return Finding::Unaccepted;
    }
    if region.is_astray(e) {
        return Finding::Misplaced;
    }
    if grants_some(e) {
        return target_finding(level, region, members, writes, block, e);
    }
    Finding::Fine
}
