// What map tests of its target: the blocks that are to be read, written or executed (map 10 to 12, refusal 13).
ghost use Rattle.std.specs.Prelude.{◌&&◌, false, ◌≡◌, ◌-◌, ◌^◌, ◌<◌};
ghost use Rattle.words.specs.Bounded.{above, among, neqb};
ghost use Rattle.entries.specs.Meaning.{meaning};
ghost use Rattle.entries.specs.Rights.{allows, execute, write};
ghost use Rattle.rules.specs.Refusals.{answer_of};
ghost use Rattle.rules.specs.Store as store;
ghost use Rattle.rules.specs.Store.{record_word, some_block, type_of};
ghost use Rattle.rules.specs.Tables.{mapping, type_d};
ghost use Rattle.rules.specs.General as general;
ghost use Rattle.rules.specs.Map.{clashing_target, unsigned_target};
ghost use Rattle.ledger.specs.Layout.{field_word};
ghost use Rattle.ledger.specs.Refusals.{answered};
ghost use Rattle.ledger.specs.Regions.{store_of};
ghost use Rattle.mapping.specs.Meaning.{form_of};
ghost use Rattle.mapping.specs.Needs.{InRegion};
ghost use Rattle.mapping.specs.Pieces.{map_target_refusals};

use crate::form::Form;
use crate::request::Request;
use entries::entry::Entry;
use entries::rights::{Right, allows};
use ledger::counters::Change;
use ledger::layout::{BLOCK_WORDS, BlockType, Field};
use ledger::refusals::Refusal;
use ledger::region::Region;
use ledger::scan::{some_above_zero, some_differs};

// A target in a region: adjacent blocks, and the rights that a map asks for there.
#[derive(Clone, Copy)]
struct Target<'a> {
    region: Region<'a>,
    first: u32,
    blocks: u32,
    rights: u32,
    ghost in_region: { InRegion (store_of region) first blocks },
}

impl Target<'_> {
    // The rights hold write, and some block is no data.
    fn writes_table(&self) -> bool
        ensures { result ≡ (allows self.now.rights write && some_block self.now.first self.now.blocks (λ b. neqb (type_of (store_of self.now.region) b) type_d)) }
    {
        if !allows(self.rights, Right::Write) {
            return false;
        }
        let b = self.region.record_of(self.first);
        let m = self.blocks as usize;
        some_differs(
            self.region.ledger,
            Field::Type,
            b,
            m,
            BlockType::Data.code(),
        )
    }

    // The block into which the mapping is to be written is one of those that are to be executed.
    fn executes(&self, holder: u32) -> bool
        ensures { result ≡ (allows self.now.rights execute && among self.now.first self.now.blocks holder) }
    {
        if !allows(self.rights, Right::Execute) {
            return false;
        }
        words::is_among(self.first, self.blocks, holder)
    }

    // The field is above 0 in the record of some block.
    fn some_counted(&self, field: Field) -> bool
        ensures { result ≡ some_block self.now.first self.now.blocks (λ b. above (record_word self.now.region.ledger.now (field_word field) (b - store.base (store_of self.now.region))) 0) }
    {
        let b = self.region.record_of(self.first);
        some_above_zero(self.region.ledger, field, b, self.blocks as usize)
    }

    // The target would be both writable and executable (map 11).
    fn is_clashing(&self) -> bool
        ensures { result ≡ clashing_target (store_of self.now.region) self.now.first self.now.blocks self.now.rights }
    {
        if allows(self.rights, Right::Write) {
            if allows(self.rights, Right::Execute) {
                return true;
            }
            return self.some_counted(Field::Executable);
        }
        if allows(self.rights, Right::Execute) {
            return self.some_counted(Field::Writable);
        }
        false
    }

    // Some block is to be executed and is neither marked nor signed (map 12). For other rights nothing is hashed.
    fn is_unsigned(&self, golden: &[u8]) -> bool
        ensures { result ≡ unsigned_target golden.now (store_of self.now.region) self.now.first self.now.blocks self.now.rights }
    {
        if !allows(self.rights, Right::Execute) {
            return false;
        }
        self.region.some_unknown(golden, self.first, self.blocks)
    }
}

// Refusals 10 to 13 of the target, with the new entry.
pub fn check_target(
    region: &Region<'_>,
    form: Form,
    golden: &[u8],
    request: Request,
    e: Entry,
) -> Result<(), Refusal>
    requires holder_fits { general.holder request.block request.index < 2 ^ 32 }
    requires e_value { meaning e ≡ mapping (form_of form) request.target request.rights 0 }
    ensures { answered result ≡ answer_of (map_target_refusals (form_of form) golden.now (store_of region.now) request.block request.index request.target request.rights) }
{
    let m = form.target_blocks();
    if region.is_outside(request.target, m) {
        return Err(Refusal::UnfitTarget);
    }
    let target = Target {
        region: *region,
        first: request.target,
        blocks: m,
        rights: request.rights,
    };
    if target.writes_table() {
        return Err(Refusal::UnfitTarget);
    }
    if target.executes(request.block + request.index / BLOCK_WORDS) {
        return Err(Refusal::UnfitTarget);
    }
    if target.is_clashing() {
        return Err(Refusal::Clash);
    }
    if target.is_unsigned(golden) {
        return Err(Refusal::Unsigned);
    }
    if region.blocks_overrun(Change::Added, e, request.target, m) {
        return Err(Refusal::Overrun);
    }
    Ok(())
}
