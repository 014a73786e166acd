// The words of a table in which the entries of a mapping or a link stand.
ghost use Rattle.std.specs.Prelude.{◌≡◌, ℕ, ◌+◌, ◌-◌, ◌*◌, ◌^◌, ◌<◌, ◌≤◌, length};
ghost use Rattle.words.specs.Words.{word};
ghost use Rattle.entries.specs.Entries as specified;
ghost use Rattle.entries.specs.Meaning.{level_of, meaning};
ghost use Rattle.rules.specs.Refusals.{answer_of};
ghost use Rattle.rules.specs.Store as store;
ghost use Rattle.rules.specs.Store.{base_place, block_words, clear_mark, fill, ledger_head_bytes, lent};
ghost use Rattle.rules.specs.Tables.{table_entry, word_index};
ghost use Rattle.rules.specs.General.{holder, occupied, recounted};
ghost use Rattle.ledger.specs.Counters.{Spreads};
ghost use Rattle.ledger.specs.Meaning.{change_of};
ghost use Rattle.ledger.specs.Needs.{Countable, GrantsInside};
ghost use Rattle.ledger.specs.Refusals.{answered};
ghost use Rattle.ledger.specs.Regions.{store_of};
ghost use Rattle.mapping.specs.Needs.{InTable, Slot};
ghost use Rattle.mapping.specs.Pieces.{holder_refusals};

use entries::decode::{entry_at, is_fault_at};
use entries::entry::{Entry, Level};
use ledger::counters::{Change, change_blocks};
use ledger::layout::{BLOCK_WORDS, Field, base};
use ledger::marks::clear_mark;
use ledger::refusals::Refusal;
use ledger::region::Region;
use ledger::table::table_type;
use words::{WORD_BYTES, put_word};

// The place in the memory, in words, of an entry of the table at a block.
fn word_index(ledger: &[u8], block: u32, index: u32) -> usize
    requires { (ledger_head_bytes ≤ length ledger.now) × (word ledger.now base_place ≤ block) × (block_words * (block - word ledger.now base_place) + index < 2 ^ 32) }
    ensures { result ≡ block_words * (block - word ledger.now base_place) + index }
{
    (BLOCK_WORDS * (block - base(ledger)) + index) as usize
}

// An index of a table at a block of a region: the table lies in the region, and has an entry there.
#[derive(Clone, Copy)]
pub struct TableIndex<'a> {
    pub region: Region<'a>,
    pub level: Level,
    pub block: u32,
    pub index: u32,
    ghost in_table: { InTable (level_of level) (store_of region) block index },
}

impl TableIndex<'_> {
    // The block that holds the entry.
    pub fn holder(&self) -> u32
        ensures { result ≡ holder self.now.block self.now.index }
    {
        self.block + self.index / BLOCK_WORDS
    }

    pub fn entry(&self) -> Entry
        ensures { meaning result ≡ table_entry (level_of self.now.level) (store_of self.now.region) self.now.block self.now.index }
    {
        let memory = self.region.memory;
        let j = word_index(self.region.ledger, self.block, self.index);
        entry_at(self.level, memory, j)
    }

    // Refusals 5 and 7 of the block that holds the entry.
    pub fn check_holder(&self) -> Result<(), Refusal>
        ensures { answered result ≡ answer_of (holder_refusals (level_of self.now.level) (store_of self.now.region) self.now.block self.now.index) }
    {
        let t = table_type(self.level).code();
        if self.region.is_other_type(self.level, self.block, t) {
            return Err(Refusal::WrongType);
        }
        let b = self.region.record_of(self.holder());
        if 0 < Field::Executable.get(self.region.ledger, b) {
            return Err(Refusal::ExecutableHolder);
        }
        Ok(())
    }
}

// A window of a table: adjacent words, from an index on of the table at a block.
#[derive(Clone, Copy)]
pub struct Window {
    pub block: u32,
    pub index: u32,
    pub words: u32,
}

// Some entry of the window is no fault, whatever the table's level.
pub fn is_occupied(region: &Region<'_>, window: Window) -> bool
    requires { Slot (store_of region.now) window.block window.index window.words }
    ensures { (v : specified.Level) → result ≡ occupied v (store_of region.now) window.block window.index window.words }
{
    let j = word_index(region.ledger, window.block, window.index);
    // An index loop: a closure that holds parts of a region is no form that the archives for ARMv7 take (tools/portable.py).
    for k in 0..window.words as usize {
        if !is_fault_at(region.memory, j + k) {
            return true;
        }
    }
    false
}

// The m words from word j on become w. Most mappings have one, which is stored without the loop.
fn fill_words(memory: &mut [u8], j: usize, m: usize, w: u32)
    requires { 4 * (j + m) ≤ length memory.old }
    ensures { memory.new ≡ fill memory.old j m (λ k. w) }
{
    if m == 1 {
        put_word(memory, WORD_BYTES * j, w);
        return;
    }
    for k in 0..m {
        put_word(memory, WORD_BYTES * (j + k), w);
    }
}

// What an entry grants, and the adjacent blocks to which it, or the mapping that begins with it, grants this.
#[derive(Clone, Copy)]
pub struct Spread {
    pub entry: Entry,
    pub first: u32,
    pub blocks: u32,
}

// Writes w into the words of a window, clears the mark of the block that holds them, and adds what is spread to the counters, or takes it away: what the
// entries of these words give that are new, or stood there. The block's record by the number of the word, and not by `record_of`, so that this is small:
// it is compiled into map, link and unmap, since a call would cost a fifth of theirs.
#[inline]
pub fn write_entries(
    change: Change,
    memory: &mut [u8],
    ledger: &mut [u8],
    window: Window,
    w: u32,
    spread: Spread,
)
    requires slot { Slot (lent memory.old ledger.old) window.block window.index window.words }
    requires grants_inside { GrantsInside memory.old ledger.old (meaning spread.entry) spread.first spread.blocks }
    requires countable { (c : store.Counter) → Countable (change_of change) ledger.old c (meaning spread.entry) spread.first spread.blocks }
    ensures memory_after { memory.new ≡ fill memory.old (word_index (lent memory.old ledger.old) window.block window.index) window.words (λ k. w) }
    ensures by_index { (l : ℕ) (x : ℕ → specified.Entry) → Spreads l x (meaning spread.entry) spread.first spread.blocks → ledger.new ≡ clear_mark (recounted (change_of change) (lent memory.old ledger.old) l x) (holder window.block window.index - store.base (lent memory.old ledger.old)) }
{
    let j = word_index(ledger, window.block, window.index);
    let record = j / BLOCK_WORDS as usize;
    change_blocks(
        change,
        memory,
        ledger,
        spread.entry,
        spread.first,
        spread.blocks,
    );
    clear_mark(ledger, record);
    fill_words(memory, j, window.words as usize, w);
}
