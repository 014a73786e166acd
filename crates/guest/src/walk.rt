// A walk through the tables (guest walk, guest end).
ghost use Rattle.std.specs.Prelude.{◌≡◌, ◌+◌, ◌*◌, ◌/◌, ◌≤◌, length};
ghost use Rattle.rules.specs.Store.{block_bytes, physical_blocks};

use entries::decode::{l1_entry_at, l2_entry_at};
use entries::entry::{BLOCK_TABLES, Entry, Level};
use ledger::layout::{BLOCK_BYTES, BLOCK_WORDS};
use ledger::refusals::Refusal;
use ledger::region::{blocks, is_astray};

const L2_WORDS: usize = 256;

// What a walk asks of memory: that it is whole blocks, from a first one on, with numbers of physical blocks.
#[derive(Clone, Copy)]
pub struct Blocks<'a> {
    pub memory: &'a [u8],
    pub first: u32,
    ghost whole: { length memory.now ≡ block_bytes * (length memory.now / block_bytes) },
    ghost physical: { first + length memory.now / block_bytes ≤ physical_blocks },
}

// The block in which a walk ends, and the rights and the level of the entry there.
#[derive(Clone, Copy)]
pub struct End {
    pub block: u32,
    pub rights: u32,
    pub level: Level,
}

// Why an access stops at an entry of a level.
#[derive(Clone, Copy)]
pub struct Stop {
    pub refusal: Refusal,
    pub level: Level,
}

impl Blocks<'_> {
    ghost use Rattle.entries.specs.Entries as specified;
    ghost use Rattle.entries.specs.Entries.{l1};
    ghost use Rattle.entries.specs.Meaning.{level_of, meaning};
    ghost use Rattle.rules.specs.Guest as guest;
    ghost use Rattle.rules.specs.Guest.{follow, passes};
    ghost use Rattle.rules.specs.Tables.{table_blocks};
    ghost use Rattle.guest.specs.Meaning.{count_of, followed, walk_in, walk_of};

    // How many they are.
    fn count(&self) -> usize
        ensures { result ≡ count_of self.now }
    {
        blocks(self.memory)
    }

    // Whether a walk stops at an entry (guest 24, guest 22).
    #[tactic(auto, unfolding(rules::specs::Guest::passes))]
    fn check_entry(&self, level: Level, e: Entry) -> Result<(), Stop>
        ensures { (onward : guest.Walk) → passes (level_of level) self.now.first (count_of self.now) (meaning e) onward ≡ followed result onward }
    {
        if e.is_unaccepted() || is_astray(e, self.first, self.count()) {
            return Err(Stop {
                refusal: Refusal::BrokenWalk,
                level,
            });
        }
        if e.is_fault() {
            return Err(Stop {
                refusal: Refusal::FaultEntry,
                level,
            });
        }
        Ok(())
    }

    // A walk at an entry that leads no further.
    fn end_at(&self, level: Level, e: Entry, address: u32) -> Result<End, Stop>
        ensures { walk_of result ≡ passes (level_of level) self.now.first (count_of self.now) (meaning e) (guest.ends_at (level_of level) address (meaning e)) }
    {
        self.check_entry(level, e)?;
        Ok(End {
            block: e.cover_first() + address / (BLOCK_BYTES as u32) % e.cover_blocks(),
            rights: e.rights(),
            level,
        })
    }

    // A walk at a link of an L1 table, by the number of the L2 table to which it leads.
    #[tactic(auto, unfolding(rules::specs::Guest::follow))]
    fn through_link(&self, place: u32, address: u32) -> Result<End, Stop>
        ensures { walk_of result ≡ passes l1 self.now.first (count_of self.now) (specified.link place) (follow self.now.first (count_of self.now) self.now.memory.now address (specified.link place)) }
    {
        self.check_entry(Level::L1, Entry::Link(place))?;
        let table = (place - BLOCK_TABLES * self.first) as usize;
        let e = l2_entry_at(
            self.memory,
            L2_WORDS * table + words::bits(address, 12, 8) as usize,
        );
        self.end_at(Level::L2, e, address)
    }

    // A walk at an entry of an L1 table.
    #[tactic(auto, unfolding(rules::specs::Guest::follow))]
    fn from_l1(&self, e: Entry, address: u32) -> Result<End, Stop>
        ensures { walk_of result ≡ passes l1 self.now.first (count_of self.now) (meaning e) (follow self.now.first (count_of self.now) self.now.memory.now address (meaning e)) }
    {
        match e {
            Entry::Link(place) => self.through_link(place, address),
            _ => self.end_at(Level::L1, e, address),
        }
    }

    // The walk from the L1 table at a block.
    #[tactic(auto, unfolding(rules::specs::Guest::walk))]
    pub fn walk(&self, table: u32, address: u32) -> Result<End, Stop>
        requires { (self.now.first ≤ table) × (table + table_blocks l1 ≤ self.now.first + count_of self.now) }
        ensures { walk_of result ≡ walk_in self.now table address }
    {
        let b = (table - self.first) as usize;
        let e = l1_entry_at(
            self.memory,
            BLOCK_WORDS as usize * b + words::bits(address, 20, 12) as usize,
        );
        self.from_l1(e, address)
    }
}
