// A set of a region's blocks, by their places in it: block b is bit b % 8 of byte b / 8.
ghost use Rattle.std.specs.Prelude.{◌||◌, ◌≡◌, ℕ, ◌+◌, ◌<◌, ◌≤◌, eqb};
ghost use Rattle.words.specs.Bounded.{among, any};
ghost use Rattle.rules.specs.Store.{most_blocks};
ghost use Rattle.validation.specs.Sets.{EmptySet, is_set, member};

use ledger::layout::MOST_BLOCKS;
use words::some_below;

pub const BYTE_BITS: usize = 8;

// The bytes of a set for any region.
pub const SET_BYTES: usize = MOST_BLOCKS / BYTE_BITS;

#[derive(Drop)]
pub struct BlockSet {
    pub bits: [u8; SET_BYTES],
}

// The byte x with bit i set too.
fn with_bit(x: u8, i: usize) -> u8
    requires { i < 8 }
    ensures { (k : ℕ) → k < 8 → is_set result k ≡ (is_set x k || eqb i k) }
{
    x | (1 << i)
}

impl BlockSet {
    // The set that has no block.
    pub fn new() -> BlockSet
        ensures { EmptySet result.bits }
    {
        BlockSet {
            bits: [0; SET_BYTES],
        }
    }

    pub fn contains(&self, b: usize) -> bool
        requires { b < most_blocks }
        ensures { result ≡ member self.now.bits b }
    {
        (self.bits[b / BYTE_BITS] >> (b % BYTE_BITS)) % 2 == 1
    }

    // Block b joins the set.
    fn insert(&mut self, b: usize)
        requires { b < most_blocks }
        ensures { (k : ℕ) → member self.new.bits k ≡ (member self.old.bits k || eqb b k) }
    {
        let x = with_bit(self.bits[b / BYTE_BITS], b % BYTE_BITS);
        self.bits[b / BYTE_BITS] = x;
    }

    // The m blocks from b on join the set. Most entries cover one, which joins without the loop.
    pub fn insert_blocks(&mut self, b: usize, m: usize)
        requires { b + m ≤ most_blocks }
        ensures { (k : ℕ) → member self.new.bits k ≡ (member self.old.bits k || among b m k) }
    {
        if m == 1 {
            self.insert(b);
            return;
        }
        for i in 0..m {
            self.insert(b + i);
        }
    }

    // The set has some of the m blocks from b on.
    pub fn contains_some(&self, b: usize, m: usize) -> bool
        requires { b + m ≤ most_blocks }
        ensures { result ≡ any m (λ i. member self.now.bits (b + i)) }
    {
        some_below(m, move |i| self.contains(b + i))
    }
}
