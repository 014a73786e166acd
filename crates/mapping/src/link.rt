// Link: an entry of an L1 table that leads to an L2 table (RULES: link).
ghost use Rattle.std.specs.Prelude.{◌≡◌, ◌<◌};
ghost use Rattle.entries.specs.Entries.{block_tables};
ghost use Rattle.rules.specs.Refusals.{answer_of};
ghost use Rattle.rules.specs.Store.{lent};
ghost use Rattle.rules.specs.Link.{link_outcome, link_refusals};
ghost use Rattle.ledger.specs.Refusals.{answered};
ghost use Rattle.ledger.specs.Regions.{store_of};
ghost use Rattle.mapping.specs.Pieces.{link_target_refusals};

use crate::slot::{Spread, TableIndex, Window, is_occupied, write_entries};
use entries::encode::link_word;
use entries::entry::{BLOCK_TABLES, Entry, Level};
use ledger::counters::Change;
use ledger::layout::{BlockType, Field};
use ledger::refusals::Refusal;
use ledger::region::Region;
use ledger::table::table_entries;

// The blocks and the words of a link.
const LINK_BLOCKS: u32 = 1;

const LINK_WORDS: u32 = 1;

// Refusals 10 and 13 of the table to be linked.
fn check_link_target(region: &Region<'_>, target: u32, table: u32) -> Result<(), Refusal>
    requires { table < block_tables }
    ensures { answered result ≡ answer_of (link_target_refusals (store_of region.now) target table) }
{
    if region.is_outside(target, LINK_BLOCKS) {
        return Err(Refusal::UnfitTarget);
    }
    let b = region.record_of(target);
    if Field::Type.get(region.ledger, b) != BlockType::L2.code() {
        return Err(Refusal::UnfitTarget);
    }
    let e = Entry::Link(BLOCK_TABLES * target + table);
    if region.blocks_overrun(Change::Added, e, target, LINK_BLOCKS) {
        return Err(Refusal::Overrun);
    }
    Ok(())
}

fn check_link(
    region: &Region<'_>,
    block: u32,
    index: u32,
    target: u32,
    table: u32,
) -> Result<(), Refusal>
    ensures { answered result ≡ answer_of (link_refusals (store_of region.now) block index target table) }
{
    region.check_place(Level::L1, block)?;
    if table_entries(Level::L1) <= index {
        return Err(Refusal::BeyondTable);
    }
    if BLOCK_TABLES <= table {
        return Err(Refusal::BeyondTable);
    }
    let at = TableIndex {
        region: *region,
        level: Level::L1,
        block,
        index,
    };
    at.check_holder()?;
    let window = Window {
        block,
        index,
        words: LINK_WORDS,
    };
    if is_occupied(region, window) {
        return Err(Refusal::WrongEntry);
    }
    check_link_target(region, target, table)
}

// The word at the index, the count of the link, and the holder's mark (link leaves).
pub fn link(
    memory: &mut [u8],
    ledger: &mut [u8],
    block: u32,
    index: u32,
    target: u32,
    table: u32,
) -> Result<(), Refusal>
    ensures value { answered result ≡ (link_outcome (lent memory.old ledger.old) block index target table).answer }
    ensures ledger_after { lent memory.new ledger.new ≡ (link_outcome (lent memory.old ledger.old) block index target table).after }
{
    let region = Region::new(memory, ledger)?;
    check_link(&region, block, index, target, table)?;
    let place = BLOCK_TABLES * target + table;
    let w = link_word(place);
    let window = Window {
        block,
        index,
        words: LINK_WORDS,
    };
    let spread = Spread {
        entry: Entry::Link(place),
        first: target,
        blocks: LINK_BLOCKS,
    };
    write_entries(Change::Added, memory, ledger, window, w, spread);
    Ok(())
}
