// A table at a block: where it lies and of which type its blocks are.
ghost use Rattle.std.specs.Prelude.{◌≡◌, ◌<◌, ◌≤◌};
ghost use Rattle.entries.specs.Meaning.{level_of};
ghost use Rattle.rules.specs.General.{other_type};
ghost use Rattle.rules.specs.Refusals.{answer_of};
ghost use Rattle.rules.specs.Tables.{table_blocks, table_entries, type_code};
ghost use Rattle.ledger.specs.Layout.{code_of};
ghost use Rattle.ledger.specs.Needs.{TableInside};
ghost use Rattle.ledger.specs.Pieces.{place_refusals, table_refusals};
ghost use Rattle.ledger.specs.Refusals.{answered};
ghost use Rattle.ledger.specs.Regions.{store_of};

use crate::layout::{BLOCK_WORDS, BlockType, Field};
use crate::refusals::Refusal;
use crate::region::Region;
use crate::scan::some_differs;
use entries::entry::Level;

// The blocks of a table of each level.
pub const L1_BLOCKS: u32 = 4;

const L2_BLOCKS: u32 = 1;

pub fn table_blocks(level: Level) -> u32
    ensures { (result ≡ table_blocks (level_of level)) × (0 < result) × (result ≤ 4) }
{
    match level {
        Level::L1 => L1_BLOCKS,
        Level::L2 => L2_BLOCKS,
    }
}

pub fn table_entries(level: Level) -> u32
    ensures { result ≡ table_entries (level_of level) }
{
    BLOCK_WORDS * table_blocks(level)
}

pub fn table_type(level: Level) -> BlockType
    ensures { code_of result ≡ type_code (level_of level) }
{
    match level {
        Level::L1 => BlockType::L1,
        Level::L2 => BlockType::L2,
    }
}

impl Region<'_> {
    // Refusals 2 and 3 of a table at a block.
    pub fn check_place(&self, level: Level, block: u32) -> Result<(), Refusal>
        ensures { answered result ≡ answer_of (place_refusals (level_of level) (store_of self.now) block) }
    {
        let m = table_blocks(level);
        if self.is_outside(block, m) {
            return Err(Refusal::OutsideRegion);
        }
        if block % m != 0 {
            return Err(Refusal::Misaligned);
        }
        Ok(())
    }

    // Some block of the table has another type than t.
    pub fn is_other_type(&self, level: Level, block: u32, t: u32) -> bool
        requires { TableInside (level_of level) self.now.memory.now self.now.ledger.now block }
        ensures { result ≡ other_type (level_of level) (store_of self.now) block t }
    {
        let b = self.record_of(block);
        some_differs(self.ledger, Field::Type, b, table_blocks(level) as usize, t)
    }

    // Refusals 2, 3 and 5: where the table lies, and whether its blocks have type t.
    pub fn check_table(&self, level: Level, block: u32, t: u32) -> Result<(), Refusal>
        ensures { answered result ≡ answer_of (table_refusals (level_of level) (store_of self.now) block t) }
    {
        self.check_place(level, block)?;
        if self.is_other_type(level, block, t) {
            return Err(Refusal::WrongType);
        }
        Ok(())
    }
}
