// Scans of adjacent blocks: their records, and their contents.
ghost use Rattle.std.specs.Prelude.{◌≡◌, ◌+◌, ◌-◌, ◌*◌, ◌≤◌, ◌<◌, length};
ghost use Rattle.words.specs.Bounded.{above, any, neqb};
ghost use Rattle.rules.specs.Signature.{signed_block, unknown};
ghost use Rattle.rules.specs.Store.{block_bytes, record_word, some_block};
ghost use Rattle.ledger.specs.Layout.{field_word};
ghost use Rattle.ledger.specs.Needs.{BlocksInside, InLedger};
ghost use Rattle.ledger.specs.Regions.{store_of};

use crate::layout::{BLOCK_BYTES, Field, MARKED};
use crate::marks::is_marked;
use crate::region::Region;
use signature::golden::is_signed_at;
use words::some_below;

// The field differs from v in some of the m records from block b on. Most often it is one record, which is looked at without the loop.
pub fn some_differs(ledger: &[u8], field: Field, b: usize, m: usize, v: u32) -> bool
    requires { InLedger ledger.now (b + m) }
    ensures { result ≡ any m (λ i. neqb (record_word ledger.now (field_word field) (b + i)) v) }
{
    if m == 1 {
        return field.get(ledger, b) != v;
    }
    some_below(m, move |i| field.get(ledger, b + i) != v)
}

// The field is above 0 in some of the m records from block b on.
pub fn some_above_zero(ledger: &[u8], field: Field, b: usize, m: usize) -> bool
    requires { InLedger ledger.now (b + m) }
    ensures { result ≡ any m (λ i. above (record_word ledger.now (field_word field) (b + i)) 0) }
{
    some_differs(ledger, field, b, m, 0)
}

// Block p is signed, in a memory that begins at block first.
pub fn is_signed_block(memory: &[u8], golden: &[u8], first: u32, p: u32) -> bool
    requires { (first ≤ p) × (block_bytes * (p - first + 1) ≤ length memory.now) }
    ensures { result ≡ signed_block golden.now first memory.now p }
{
    let b = p - first;
    is_signed_at(memory, BLOCK_BYTES * b as usize, golden, p)
}

impl Region<'_> {
    // Block p of the region is neither marked nor signed. A marked block is not hashed.
    fn is_unknown(&self, golden: &[u8], p: u32) -> bool
        requires { BlocksInside self.now.memory.now self.now.ledger.now p 1 }
        ensures { result ≡ unknown golden.now (store_of self.now) p }
    {
        if is_marked(self.ledger, self.record_of(p)) {
            return false;
        }
        let memory = self.memory;
        !is_signed_block(memory, golden, self.base(), p)
    }

    // Some of the m blocks from p on is. Where all are marked, nothing but their marks is looked at.
    pub fn some_unknown(&self, golden: &[u8], p: u32, m: u32) -> bool
        requires { BlocksInside self.now.memory.now self.now.ledger.now p m }
        ensures { result ≡ some_block p m (unknown golden.now (store_of self.now)) }
    {
        let b = self.record_of(p);
        if !some_differs(self.ledger, Field::Mark, b, m as usize, MARKED) {
            return false;
        }
        // An index loop: a closure that holds parts of a region is no form that the archives for ARMv7 take (tools/portable.py).
        for i in 0..m {
            if self.is_unknown(golden, p + i) {
                return true;
            }
        }
        false
    }
}
