// A region: the two buffers of a call, in which refusal 1 finds nothing; and places in it.
ghost use Rattle.std.specs.Prelude.{◌≡◌, ◌/◌, ◌<◌, ◌≤◌, ◌^◌, IfOk, length};
ghost use Rattle.words.specs.Bounded.{Small};
ghost use Rattle.entries.specs.Meaning.{meaning};
ghost use Rattle.rules.specs.Refusals.{answer_of};
ghost use Rattle.rules.specs.Store as store;
ghost use Rattle.rules.specs.Store.{block_bytes, kind_at, kind_count, kinds_of, lent, misfit, misfit_stored, outside};
ghost use Rattle.rules.specs.Tables.{astray};
ghost use Rattle.ledger.specs.Needs.{Fits, record_of};
ghost use Rattle.ledger.specs.Pieces.{misfit_refusals};

use crate::kinds::{some_unlawful_stored, stored_kind};
use crate::layout;
use crate::layout::{
    BASE_ALIGNMENT, BLOCK_BYTES, LEAST_BLOCKS, LEDGER_HEAD_BYTES, LEDGER_RECORD_BYTES, MOST_BLOCKS,
    PHYSICAL_BLOCKS,
};
use crate::refusals::Refusal;
use entries::entry::Entry;

#[derive(Clone, Copy)]
pub struct Region<'a> {
    pub memory: &'a [u8],
    pub ledger: &'a [u8],
    ghost fits: { Fits memory.now ledger.now },
}

pub fn blocks(memory: &[u8]) -> usize
    ensures { result ≡ length memory.now / block_bytes }
{
    memory.len() / BLOCK_BYTES
}

// A length, or this number of the first block, is not lawful (refusal 1).
pub fn is_misfit(memory: &[u8], ledger: &[u8], first: u32) -> bool
    ensures { result ≡ misfit (lent memory.now ledger.now) first }
{
    let n = memory.len() / BLOCK_BYTES;
    if memory.len() % BLOCK_BYTES != 0 {
        return true;
    }
    if n < LEAST_BLOCKS {
        return true;
    }
    if MOST_BLOCKS < n {
        return true;
    }
    if ledger.len() != LEDGER_HEAD_BYTES + LEDGER_RECORD_BYTES * n {
        return true;
    }
    if first % BASE_ALIGNMENT != 0 {
        return true;
    }
    PHYSICAL_BLOCKS < first as usize + n
}

// The same for the first block's number that the ledger holds, or one of its kinds is not lawful.
pub fn is_misfit_stored(memory: &[u8], ledger: &[u8]) -> bool
    ensures { result ≡ misfit_stored (lent memory.now ledger.now) }
{
    if ledger.len() < LEDGER_HEAD_BYTES {
        return true;
    }
    if is_misfit(memory, ledger, layout::base(ledger)) {
        return true;
    }
    some_unlawful_stored(ledger)
}

// The m blocks from p on are not wholly among the n blocks from first on.
pub fn is_outside(first: u32, n: usize, p: u32, m: u32) -> bool
    requires { n < 2 ^ 32 }
    ensures { result ≡ outside first n p m }
{
    if p < first {
        return true;
    }
    first as usize + n < p as usize + m as usize
}

// The entry has a place, and it is not wholly among the n blocks from first on.
pub fn is_astray(e: Entry, first: u32, n: usize) -> bool
    requires { n < 2 ^ 32 }
    ensures { result ≡ astray first n (meaning e) }
{
    let m = e.place_blocks();
    if m == 0 {
        return false;
    }
    is_outside(first, n, e.place_first(), m)
}

impl<'a> Region<'a> {
    ghost use Rattle.ledger.specs.Refusals.{answered};
    ghost use Rattle.ledger.specs.Regions.{store_of};

    // The region of two buffers, unless refusal 1 applies. Asks to be compiled into its callers: in the archives for ARMv7 for any alignment a call hands
    // the region back through memory, byte by byte (docs/PERFORMANCE.md, "Today's forms").
    #[inline]
    pub fn new(memory: &'a [u8], ledger: &'a [u8]) -> Result<Region<'a>, Refusal>
        ensures value { answered result ≡ answer_of (misfit_refusals (lent memory.now ledger.now)) }
        ensures region { IfOk result (λ r. store_of r ≡ lent memory.now ledger.now) }
    {
        if is_misfit_stored(memory, ledger) {
            return Err(Refusal::Misfit);
        }
        Ok(Region { memory, ledger })
    }

    // The number of the first block.
    pub fn base(&self) -> u32
        ensures { result ≡ store.base (store_of self.now) }
    {
        layout::base(self.ledger)
    }

    // The number of blocks.
    pub fn blocks(&self) -> usize
        ensures value { result ≡ store.blocks (store_of self.now) }
        ensures bound { result ≤ store.most_blocks }
    {
        blocks(self.memory)
    }

    // The first block of the table in use.
    pub fn active(&self) -> u32
        ensures { result ≡ store.active (store_of self.now) }
    {
        layout::active(self.ledger)
    }

    // Memory kind k.
    pub fn kind(&self, k: u32) -> u32
        requires { k < kind_count }
        ensures { result ≡ kind_at (kinds_of self.now.ledger.now) k }
    {
        stored_kind(self.ledger, k)
    }

    // The number of a block's record.
    pub fn record_of(&self, block: u32) -> usize
        requires { store.base (store_of self.now) ≤ block }
        ensures { Small (record_of self.now.ledger.now block) (2 ^ 32) result }
    {
        layout::record_of(self.ledger, block)
    }

    // The m blocks from p on are not wholly in the region.
    pub fn is_outside(&self, p: u32, m: u32) -> bool
        ensures { result ≡ outside (store.base (store_of self.now)) (store.blocks (store_of self.now)) p m }
    {
        is_outside(self.base(), self.blocks(), p, m)
    }

    // The entry has a place, and it is not wholly in the region.
    pub fn is_astray(&self, e: Entry) -> bool
        ensures { result ≡ astray (store.base (store_of self.now)) (store.blocks (store_of self.now)) (meaning e) }
    {
        is_astray(e, self.base(), self.blocks())
    }
}
