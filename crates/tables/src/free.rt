// Free: a table becomes data, and its entries are taken from the counters (RULES: free).
ghost use Rattle.std.specs.Prelude.{◌≡◌};
ghost use Rattle.entries.specs.Meaning.{level_of};
ghost use Rattle.rules.specs.Free.{free_outcome};
ghost use Rattle.rules.specs.Refusals.{answer_of};
ghost use Rattle.rules.specs.Store.{lent};
ghost use Rattle.ledger.specs.Refusals.{answered};
ghost use Rattle.ledger.specs.Regions.{store_of};
ghost use Rattle.tables.specs.Pieces.{free_judged};

use crate::count::change_table;
use crate::own::{first_word, is_in_use};
use entries::entry::Level;
use ledger::counters::Change;
use ledger::refusals::Refusal;
use ledger::region::Region;
use ledger::table::{table_entries, table_type};
use validation::refusal::check_old_entries;

// All refusals but 13.
fn check_free(level: Level, region: &Region<'_>, block: u32) -> Result<(), Refusal>
    ensures { answered result ≡ answer_of (free_judged (level_of level) (store_of region.now) block) }
{
    region.check_table(level, block, table_type(level).code())?;
    if is_in_use(level, region, block) {
        return Err(Refusal::InUse);
    }
    let j = first_word(region.ledger, block);
    check_old_entries(level, region, j, table_entries(level) as usize)
}

pub fn free(level: Level, memory: &[u8], ledger: &mut [u8], block: u32) -> Result<(), Refusal>
    ensures value { answered result ≡ (free_outcome (level_of level) (lent memory.now ledger.old) block).answer }
    ensures ledger_after { lent memory.now ledger.new ≡ (free_outcome (level_of level) (lent memory.now ledger.old) block).after }
{
    check_free(level, &Region::new(memory, ledger)?, block)?;
    change_table(Change::Removed, level, memory, ledger, block)
}
