// Forget: the marks of adjacent blocks are cleared (RULES: forget).
ghost use Rattle.std.specs.Prelude.{◌≡◌};
ghost use Rattle.rules.specs.Forget.{forget_outcome};
ghost use Rattle.rules.specs.Store.{lent};
ghost use Rattle.ledger.specs.Refusals.{answered};

use ledger::marks::clear_marks;
use ledger::refusals::Refusal;
use ledger::region::Region;

pub fn forget(memory: &[u8], ledger: &mut [u8], block: u32, count: u32) -> Result<(), Refusal>
    ensures value { answered result ≡ (forget_outcome (lent memory.now ledger.old) block count).answer }
    ensures ledger_after { lent memory.now ledger.new ≡ (forget_outcome (lent memory.now ledger.old) block count).after }
{
    let region = Region::new(memory, ledger)?;
    // Where there are no blocks, none lies outside the region (forget 2).
    if count == 0 {
        return Ok(());
    }
    if region.is_outside(block, count) {
        return Err(Refusal::OutsideRegion);
    }
    let b = region.record_of(block);
    clear_marks(ledger, b, count as usize);
    Ok(())
}
