// Map: a section in an L1 table, a page or a large page in an L2 block (RULES: map).
ghost use Rattle.std.specs.Prelude.{◌≡◌};
ghost use Rattle.entries.specs.Meaning.{meaning};
ghost use Rattle.rules.specs.Refusals.{answer_of};
ghost use Rattle.rules.specs.Store.{lent};
ghost use Rattle.rules.specs.Tables as tables;
ghost use Rattle.rules.specs.Map.{map_outcome, map_refusals};
ghost use Rattle.ledger.specs.Refusals.{answered, given};
ghost use Rattle.ledger.specs.Regions.{store_of};
ghost use Rattle.mapping.specs.Meaning.{form_of};
ghost use Rattle.mapping.specs.Pieces.{map_place_refusals};

use crate::form::Form;
use crate::request::Request;
use crate::slot::{Spread, TableIndex, Window, is_occupied, write_entries};
use crate::target::check_target;
use entries::entry::Entry;
use entries::rights::are_unlawful;
use ledger::counters::Change;
use ledger::image::check_image;
use ledger::layout::KINDS;
use ledger::marks::mark_executed;
use ledger::refusals::Refusal;
use ledger::region::Region;
use ledger::table::table_entries;

// Refusals 1 to 4: the image, the table, the target's alignment, the index and the number of the kind.
fn check_map_place(
    region: &Region<'_>,
    form: Form,
    golden: &[u8],
    request: Request,
) -> Result<(), Refusal>
    ensures { answered result ≡ answer_of (map_place_refusals (form_of form) golden.now (store_of region.now) request.block request.index request.target request.kind) }
{
    check_image(golden)?;
    let level = form.level();
    region.check_place(level, request.block)?;
    if request.target % form.target_blocks() != 0 {
        return Err(Refusal::Misaligned);
    }
    if request.index % form.mapping_words() != 0 {
        return Err(Refusal::Misaligned);
    }
    if table_entries(level) <= request.index {
        return Err(Refusal::BeyondTable);
    }
    if KINDS <= request.kind {
        return Err(Refusal::BeyondTable);
    }
    Ok(())
}

// All refusals, with the new entry.
fn check_map(
    region: &Region<'_>,
    form: Form,
    golden: &[u8],
    request: Request,
    e: Entry,
) -> Result<(), Refusal>
    requires { meaning e ≡ tables.mapping (form_of form) request.target request.rights 0 }
    ensures { answered result ≡ answer_of (map_refusals (form_of form) golden.now (store_of region.now) request.block request.index request.target request.rights request.kind) }
{
    check_map_place(region, form, golden, request)?;
    let at = TableIndex {
        region: *region,
        level: form.level(),
        block: request.block,
        index: request.index,
    };
    at.check_holder()?;
    let window = Window {
        block: request.block,
        index: request.index,
        words: form.mapping_words(),
    };
    if is_occupied(region, window) {
        return Err(Refusal::WrongEntry);
    }
    if are_unlawful(request.rights) {
        return Err(Refusal::UnlawfulRights);
    }
    check_target(region, form, golden, request, e)
}

// The words from the index on, the counts of the mapping, and the marks of the blocks to be executed (map leaves); and how many of these were hashed
// (calls 8).
pub fn map(
    form: Form,
    memory: &mut [u8],
    ledger: &mut [u8],
    golden: &[u8],
    request: Request,
) -> Result<u32, Refusal>
    ensures value { answered result ≡ (map_outcome (form_of form) golden.now (lent memory.old ledger.old) request.block request.index request.target request.rights request.kind).answer }
    ensures hashed { given result ≡ (map_outcome (form_of form) golden.now (lent memory.old ledger.old) request.block request.index request.target request.rights request.kind).hashed }
    ensures ledger_after { lent memory.new ledger.new ≡ (map_outcome (form_of form) golden.now (lent memory.old ledger.old) request.block request.index request.target request.rights request.kind).after }
{
    let e = form.mapping(request.target, request.rights);
    let region = Region::new(memory, ledger)?;
    check_map(&region, form, golden, request, e)?;
    let n = form.target_blocks();
    let hashed = region.hashed_blocks(e, request.target, n);
    let kind = region.kind(request.kind);
    let w = form.mapping_word(kind, request.target, request.rights);
    let window = Window {
        block: request.block,
        index: request.index,
        words: form.mapping_words(),
    };
    let spread = Spread {
        entry: e,
        first: request.target,
        blocks: n,
    };
    write_entries(Change::Added, memory, ledger, window, w, spread);
    mark_executed(memory, ledger, e, request.target, n);
    Ok(hashed)
}
