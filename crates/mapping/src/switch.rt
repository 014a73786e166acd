// Switch: an L1 table is put in use (RULES: switch).
ghost use Rattle.std.specs.Prelude.{◌≡◌};
ghost use Rattle.rules.specs.Refusals.{answer_of};
ghost use Rattle.rules.specs.Store.{lent};
ghost use Rattle.rules.specs.Switch.{switch_outcome, switch_refusals};
ghost use Rattle.ledger.specs.Refusals.{answered};
ghost use Rattle.ledger.specs.Regions.{store_of};

use entries::entry::Level;
use ledger::layout::{BlockType, put_active};
use ledger::refusals::Refusal;
use ledger::region::Region;

fn check_switch(region: &Region<'_>, block: u32) -> Result<(), Refusal>
    ensures { answered result ≡ answer_of (switch_refusals (store_of region.now) block) }
{
    region.check_table(Level::L1, block, BlockType::L1.code())
}

pub fn switch(memory: &[u8], ledger: &mut [u8], block: u32) -> Result<(), Refusal>
    ensures value { answered result ≡ (switch_outcome (lent memory.now ledger.old) block).answer }
    ensures ledger_after { lent memory.now ledger.new ≡ (switch_outcome (lent memory.now ledger.old) block).after }
{
    let region = Region::new(memory, ledger)?;
    check_switch(&region, block)?;
    put_active(ledger, block);
    Ok(())
}
