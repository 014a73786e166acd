// Create: blocks become a table, its entries are counted, and what they execute is marked (RULES: create).
ghost use Rattle.std.specs.Prelude.{◌≡◌, IfOk};
ghost use Rattle.entries.specs.Meaning.{level_of};
ghost use Rattle.rules.specs.Create.{create_outcome};
ghost use Rattle.rules.specs.Refusals.{answer_of};
ghost use Rattle.rules.specs.Store.{lent};
ghost use Rattle.rules.specs.Tables.{table_entries, table_entry};
ghost use Rattle.ledger.specs.Refusals.{answered, given};
ghost use Rattle.ledger.specs.Regions.{store_of};
ghost use Rattle.validation.specs.Sets.{Admitted, EmptySet};
ghost use Rattle.tables.specs.Pieces.{create_judged};

use crate::count::change_table;
use crate::own::{first_word, is_counted};
use entries::entry::Level;
use ledger::counters::Change;
use ledger::image::check_image;
use ledger::layout::BlockType;
use ledger::refusals::Refusal;
use ledger::region::{Region, blocks};
use ledger::table::table_entries;
use validation::executed::admit_members;
use validation::refusal::check_new_entries;
use validation::set::BlockSet;

// All refusals but 13. If none applies, the set, empty before, is that of the blocks that the entries execute, and Ok is how many of them are not marked.
fn check_create(
    level: Level,
    region: &Region<'_>,
    golden: &[u8],
    members: &mut BlockSet,
    block: u32,
) -> Result<u32, Refusal>
    requires { EmptySet members.old.bits }
    ensures value { answered result ≡ answer_of (create_judged (level_of level) golden.now (store_of region.now) block) }
    ensures admitted { IfOk result (λ n. Admitted (store_of region.now) (table_entries (level_of level)) (table_entry (level_of level) (store_of region.now) block) members.new.bits n) }
{
    check_image(golden)?;
    region.check_table(level, block, BlockType::Data.code())?;
    if is_counted(level, region, block) {
        return Err(Refusal::InUse);
    }
    let j = first_word(region.ledger, block);
    let m = table_entries(level) as usize;
    check_new_entries(level, region, golden, members, block, j, m)
}

// The types of its blocks, the counts of its entries, and the marks of what they execute (create leaves); and how many of these were hashed (calls 8).
pub fn create(
    level: Level,
    memory: &[u8],
    ledger: &mut [u8],
    golden: &[u8],
    block: u32,
) -> Result<u32, Refusal>
    ensures value { answered result ≡ (create_outcome (level_of level) golden.now (lent memory.now ledger.old) block).answer }
    ensures hashed { given result ≡ (create_outcome (level_of level) golden.now (lent memory.now ledger.old) block).hashed }
    ensures ledger_after { lent memory.now ledger.new ≡ (create_outcome (level_of level) golden.now (lent memory.now ledger.old) block).after }
{
    let mut members = BlockSet::new();
    let region = Region::new(memory, ledger)?;
    let hashed = check_create(level, &region, golden, &mut members, block)?;
    change_table(Change::Added, level, memory, ledger, block)?;
    admit_members(ledger, &members, blocks(memory), hashed);
    Ok(hashed)
}
