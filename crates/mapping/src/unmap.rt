// Unmap: the entry at an index, or the large page, is taken away (RULES: unmap).
ghost use Rattle.std.specs.Prelude.{◌≡◌, ℕ};
ghost use Rattle.entries.specs.Entries as specified;
ghost use Rattle.entries.specs.Meaning.{meaning};
ghost use Rattle.rules.specs.Refusals.{answer_of};
ghost use Rattle.rules.specs.Store.{lent};
ghost use Rattle.rules.specs.Unmap.{unmap_outcome};
ghost use Rattle.ledger.specs.Refusals.{answered};
ghost use Rattle.ledger.specs.Regions.{store_of};
ghost use Rattle.mapping.specs.Meaning.{form_of};
ghost use Rattle.mapping.specs.Needs.{SpeaksFor};
ghost use Rattle.mapping.specs.Pieces.{removal_refusals, slot_refusals};

use crate::form::Form;
use crate::slot::{Spread, TableIndex, Window, write_entries};
use entries::entry::Entry;
use ledger::counters::Change;
use ledger::refusals::Refusal;
use ledger::region::Region;
use ledger::table::table_entries;

// What is left where an entry stood (entries 16).
const FAULT_WORD: u32 = 0;

// Refusals 8, 10 and 13 of the entries to be removed, by the first of them.
fn check_removal(region: &Region<'_>, form: Form, e: Entry) -> Result<(), Refusal>
    ensures { (x : ℕ → specified.Entry) → SpeaksFor (form_of form) (meaning e) x → answered result ≡ answer_of (removal_refusals (form_of form) (store_of region.now) x) }
{
    if !form.takes(e) {
        return Err(Refusal::WrongEntry);
    }
    if region.is_astray(e) {
        return Err(Refusal::UnfitTarget);
    }
    if region.blocks_overrun(Change::Removed, e, e.place_first(), e.place_blocks()) {
        return Err(Refusal::Overrun);
    }
    Ok(())
}

// Refusals 2 to 7: the table, the index and the block that holds the entries.
fn check_slot(region: &Region<'_>, form: Form, block: u32, index: u32) -> Result<(), Refusal>
    ensures { answered result ≡ answer_of (slot_refusals (form_of form) (store_of region.now) block index) }
{
    let level = form.level();
    region.check_place(level, block)?;
    if index % form.mapping_words() != 0 {
        return Err(Refusal::Misaligned);
    }
    if table_entries(level) <= index {
        return Err(Refusal::BeyondTable);
    }
    let at = TableIndex {
        region: *region,
        level,
        block,
        index,
    };
    at.check_holder()
}

// The words and the counts of the mapping go, and the holder's mark (unmap leaves).
pub fn unmap(
    form: Form,
    memory: &mut [u8],
    ledger: &mut [u8],
    block: u32,
    index: u32,
) -> Result<(), Refusal>
    ensures value { answered result ≡ (unmap_outcome (form_of form) (lent memory.old ledger.old) block index).answer }
    ensures ledger_after { lent memory.new ledger.new ≡ (unmap_outcome (form_of form) (lent memory.old ledger.old) block index).after }
{
    let region = Region::new(memory, ledger)?;
    check_slot(&region, form, block, index)?;
    let at = TableIndex {
        region,
        level: form.level(),
        block,
        index,
    };
    let e = at.entry();
    check_removal(&region, form, e)?;
    let window = Window {
        block,
        index,
        words: form.mapping_words(),
    };
    let spread = Spread {
        entry: e,
        first: e.place_first(),
        blocks: e.place_blocks(),
    };
    write_entries(Change::Removed, memory, ledger, window, FAULT_WORD, spread);
    Ok(())
}
