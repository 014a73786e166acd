// The marks of blocks: whether they are set, set them, clear them (ledger 9, ledger 10).
ghost use Rattle.std.specs.Prelude.{not, ◌≡◌, ℕ, ◌+◌, ◌≤◌, eqb, leb};
ghost use Rattle.words.specs.Bounded.{count, num};
ghost use Rattle.entries.specs.Entries as specified;
ghost use Rattle.entries.specs.Meaning.{meaning};
ghost use Rattle.rules.specs.Store.{base, blocks, clear_mark, clear_marks, lent, mark_blocks, mark_value, mark_word, most_blocks, put_record_word, record_word};
ghost use Rattle.rules.specs.Tables.{executed};
ghost use Rattle.rules.specs.General.{hashed_blocks};
ghost use Rattle.ledger.specs.Counters.{Spreads};
ghost use Rattle.ledger.specs.Needs.{Fits, GrantsInside, InLedger};
ghost use Rattle.ledger.specs.Regions.{store_of};

use crate::counters::{Counter, grants};
use crate::layout::{Field, MARKED, record_of};
use crate::region::Region;
use entries::entry::Entry;

const NO_MARK: u32 = 0;

pub fn is_marked(ledger: &[u8], b: usize) -> bool
    requires { InLedger ledger.now (b + 1) }
    ensures { result ≡ eqb (record_word ledger.now mark_word b) mark_value }
{
    Field::Mark.get(ledger, b) == MARKED
}

pub fn mark(ledger: &mut [u8], b: usize)
    requires { InLedger ledger.old (b + 1) }
    ensures { ledger.new ≡ put_record_word ledger.old mark_word b mark_value }
{
    Field::Mark.put(ledger, b, MARKED);
}

pub fn clear_mark(ledger: &mut [u8], b: usize)
    requires { InLedger ledger.old (b + 1) }
    ensures { ledger.new ≡ clear_mark ledger.old b }
{
    Field::Mark.put(ledger, b, NO_MARK);
}

// Clears the marks of the m blocks from b on.
pub fn clear_marks(ledger: &mut [u8], b: usize, m: usize)
    requires { InLedger ledger.old (b + m) }
    ensures { ledger.new ≡ clear_marks ledger.old b m }
{
    for i in 0..m {
        clear_mark(ledger, b + i);
    }
}

// Marks the m blocks from b on.
fn mark_blocks(ledger: &mut [u8], b: usize, m: usize)
    requires { InLedger ledger.old (b + m) }
    ensures { ledger.new ≡ mark_blocks ledger.old (b + m) (leb b) }
{
    for i in 0..m {
        mark(ledger, b + i);
    }
}

// 1 for a block that is not marked.
#[tactic(auto, unfolding(words::specs::Bounded::num))]
fn unmarked(ledger: &[u8], b: usize) -> u32
    requires { InLedger ledger.now (b + 1) }
    ensures { result ≡ num (not (eqb (record_word ledger.now mark_word b) mark_value)) }
{
    u32::from(!is_marked(ledger, b))
}

// How many of the m blocks from b on are not marked.
fn count_unmarked(ledger: &[u8], b: usize, m: usize) -> u32
    requires { InLedger ledger.now (b + m) × (m ≤ most_blocks) }
    ensures { result ≡ count m (λ i. not (eqb (record_word ledger.now mark_word (b + i)) mark_value)) }
{
    (0..m).map(|i| unmarked(ledger, b + i)).sum()
}

// Marks the m blocks from p on, if the entry lets them execute. Of the memory only the number of blocks matters.
pub fn mark_executed(memory: &[u8], ledger: &mut [u8], e: Entry, p: u32, m: u32)
    requires { Fits memory.now ledger.old × GrantsInside memory.now ledger.old (meaning e) p m }
    ensures { (n : ℕ) (x : ℕ → specified.Entry) → Spreads n x (meaning e) p m → ledger.new ≡ mark_blocks ledger.old (blocks (lent memory.now ledger.old)) (λ b. executed n x (base (lent memory.now ledger.old) + b)) }
{
    if grants(Counter::Executable, e) {
        let b = record_of(ledger, p);
        mark_blocks(ledger, b, m as usize);
    }
}

impl Region<'_> {
    // How many of the m blocks from p on are not marked yet, if the entry lets them execute: those that had to be hashed (calls 8).
    pub fn hashed_blocks(&self, e: Entry, p: u32, m: u32) -> u32
        requires { GrantsInside self.now.memory.now self.now.ledger.now (meaning e) p m }
        ensures { (n : ℕ) (x : ℕ → specified.Entry) → Spreads n x (meaning e) p m → result ≡ hashed_blocks (store_of self.now) n x }
    {
        if !grants(Counter::Executable, e) {
            return 0;
        }
        let b = self.record_of(p);
        count_unmarked(self.ledger, b, m as usize)
    }
}
