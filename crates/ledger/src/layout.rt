// Where the ledger keeps what (ledger 1 to 4, ledger 11), and the limits of a region (memory 1, memory 2).
ghost use Rattle.std.specs.Prelude.{◌≡◌, ◌+◌, ◌*◌, ◌^◌, ◌≤◌, length};
ghost use Rattle.words.specs.Bounded.{Small};
ghost use Rattle.words.specs.Words.{word, put_word};
ghost use Rattle.rules.specs.Store.{ledger_head_bytes, ledger_record_bytes, base_place, active_place, record_word, record_words, put_record_word};
ghost use Rattle.ledger.specs.Layout.{code_of, field_word};
ghost use Rattle.ledger.specs.Needs.{record_of};

use words::WORD_BYTES;

pub const BLOCK_BYTES: usize = signature::golden::BLOCK_BYTES;

pub const BLOCK_WORDS: u32 = 1024;

pub const LEAST_BLOCKS: usize = 8;

pub const MOST_BLOCKS: usize = 4096;

pub const BASE_ALIGNMENT: u32 = 256;

pub const PHYSICAL_BLOCKS: usize = 0x10_0000;

// Bytes before the records, and of a record.
pub const LEDGER_HEAD_BYTES: usize = KINDS_PLACE + KINDS_BYTES;

pub const LEDGER_RECORD_BYTES: usize = WORD_BYTES * RECORD_WORDS;

const BASE_PLACE: usize = 0;

const ACTIVE_PLACE: usize = 4;

pub const KINDS_PLACE: usize = 8;

// The memory kinds, the bytes of one, and of all.
pub const KINDS: u32 = 8;

pub const KIND_BYTES: usize = 2;

pub const KINDS_BYTES: usize = KIND_BYTES * KINDS as usize;

// The words of a record.
const RECORD_WORDS: usize = 5;

// The words of a record, in their order (ledger 3, ledger 9).
#[derive(Clone, Copy, PartialEq, Eq)]
pub enum Field {
    Type,
    Writable,
    Executable,
    Linked,
    Mark,
}

impl Field {
    // The field's word in a record.
    pub fn place(self) -> usize
        ensures { Small (field_word self) record_words result }
    {
        self as usize
    }

    // The field of block b's record, b counted from the region's first.
    pub fn get(self, ledger: &[u8], b: usize) -> u32
        requires { ledger_head_bytes + ledger_record_bytes * b + 4 * field_word self + 4 ≤ length ledger.now }
        ensures { result ≡ record_word ledger.now (field_word self) b }
    {
        record_word(ledger, self.place(), b)
    }

    pub fn put(self, ledger: &mut [u8], b: usize, v: u32)
        requires { ledger_head_bytes + ledger_record_bytes * b + 4 * field_word self + 4 ≤ length ledger.old }
        ensures { ledger.new ≡ put_record_word ledger.old (field_word self) b v }
    {
        put_record_word(ledger, self.place(), b, v);
    }
}

// The mark of a block that is marked.
pub const MARKED: u32 = 1;

// The types of blocks, by the numbers that stand for them in a ledger (ledger 4).
#[derive(Clone, Copy, PartialEq, Eq)]
pub enum BlockType {
    Data,
    L1,
    L2,
}

impl BlockType {
    pub fn code(self) -> u32
        ensures { result ≡ code_of self }
    {
        self as u32
    }
}

pub const NO_TABLE: u32 = 0xFFFF_FFFF;

pub const COUNTER_LIMIT: u32 = 0x40_0000;

pub fn base(ledger: &[u8]) -> u32
    requires { ledger_head_bytes ≤ length ledger.now }
    ensures { result ≡ word ledger.now base_place }
{
    words::word(ledger, BASE_PLACE)
}

pub fn active(ledger: &[u8]) -> u32
    requires { ledger_head_bytes ≤ length ledger.now }
    ensures { result ≡ word ledger.now active_place }
{
    words::word(ledger, ACTIVE_PLACE)
}

pub fn put_base(ledger: &mut [u8], first: u32)
    requires { ledger_head_bytes ≤ length ledger.old }
    ensures { ledger.new ≡ put_word ledger.old base_place first }
{
    words::put_word(ledger, BASE_PLACE, first);
}

pub fn put_active(ledger: &mut [u8], table: u32)
    requires { ledger_head_bytes ≤ length ledger.old }
    ensures { ledger.new ≡ put_word ledger.old active_place table }
{
    words::put_word(ledger, ACTIVE_PLACE, table);
}

// The number of a block's record: the block's own less the region's first.
pub fn record_of(ledger: &[u8], block: u32) -> usize
    requires { (ledger_head_bytes ≤ length ledger.now) × (word ledger.now base_place ≤ block) }
    ensures { Small (record_of ledger.now block) (2 ^ 32) result }
{
    (block - base(ledger)) as usize
}

// Word k of the record of block b, b counted from the region's first.
pub fn record_word(ledger: &[u8], k: usize, b: usize) -> u32
    requires { ledger_head_bytes + ledger_record_bytes * b + 4 * k + 4 ≤ length ledger.now }
    ensures { result ≡ record_word ledger.now k b }
{
    let at = LEDGER_HEAD_BYTES + LEDGER_RECORD_BYTES * b + WORD_BYTES * k;
    words::word(ledger, at)
}

pub fn put_record_word(ledger: &mut [u8], k: usize, b: usize, v: u32)
    requires { ledger_head_bytes + ledger_record_bytes * b + 4 * k + 4 ≤ length ledger.old }
    ensures { ledger.new ≡ put_record_word ledger.old k b v }
{
    words::put_word(
        ledger,
        LEDGER_HEAD_BYTES + LEDGER_RECORD_BYTES * b + WORD_BYTES * k,
        v,
    );
}
