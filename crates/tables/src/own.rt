// A table's own blocks: where its entries stand, and its blocks' records.
ghost use Rattle.std.specs.Prelude.{◌≡◌, ◌+◌, ◌*◌, ◌≤◌, length};
ghost use Rattle.words.specs.Words.{word};
ghost use Rattle.entries.specs.Entries.{l1, l2};
ghost use Rattle.entries.specs.Meaning.{level_of};
ghost use Rattle.rules.specs.Create.{some_count};
ghost use Rattle.rules.specs.Free.{in_use};
ghost use Rattle.rules.specs.Store.{base_place, block_words, ledger_head_bytes, retype};
ghost use Rattle.ledger.specs.Needs.{InLedger, TableInside, record_of};
ghost use Rattle.ledger.specs.Regions.{store_of};

use entries::entry::Level;
use ledger::layout::{BLOCK_WORDS, Field, record_of};
use ledger::region::Region;
use ledger::scan::some_above_zero;
use ledger::table::table_blocks;

// The word of the memory with which the table at a block begins.
pub fn first_word(ledger: &[u8], block: u32) -> usize
    requires { (ledger_head_bytes ≤ length ledger.now) × (word ledger.now base_place ≤ block) }
    ensures { result ≡ block_words * record_of ledger.now block }
{
    BLOCK_WORDS as usize * record_of(ledger, block)
}

// Some block of the table has counts (create 6).
pub fn is_counted(level: Level, region: &Region<'_>, block: u32) -> bool
    requires { TableInside (level_of level) region.now.memory.now region.now.ledger.now block }
    ensures { result ≡ some_count (level_of level) (store_of region.now) block }
{
    let b = region.record_of(block);
    let m = table_blocks(level) as usize;
    if some_above_zero(region.ledger, Field::Writable, b, m) {
        return true;
    }
    if some_above_zero(region.ledger, Field::Executable, b, m) {
        return true;
    }
    some_above_zero(region.ledger, Field::Linked, b, m)
}

fn is_active(region: &Region<'_>, block: u32) -> bool
    ensures { result ≡ in_use l1 (store_of region.now) block }
{
    region.active() == block
}

fn is_linked(region: &Region<'_>, block: u32) -> bool
    requires { TableInside l2 region.now.memory.now region.now.ledger.now block }
    ensures { result ≡ in_use l2 (store_of region.now) block }
{
    0 < Field::Linked.get(region.ledger, region.record_of(block))
}

// The table is active, or linked to (free 6).
pub fn is_in_use(level: Level, region: &Region<'_>, block: u32) -> bool
    requires { TableInside (level_of level) region.now.memory.now region.now.ledger.now block }
    ensures { result ≡ in_use (level_of level) (store_of region.now) block }
{
    match level {
        Level::L1 => is_active(region, block),
        Level::L2 => is_linked(region, block),
    }
}

// The types of the m blocks from block b on become t, b counted from the region's first.
pub fn put_types(ledger: &mut [u8], b: usize, m: usize, t: u32)
    requires { InLedger ledger.old (b + m) }
    ensures { ledger.new ≡ retype ledger.old b m t }
{
    for i in 0..m {
        Field::Type.put(ledger, b + i, t);
    }
}
