// Tests of the blocks that one entry covers.
ghost use Rattle.std.specs.Prelude.{◌≡◌};
ghost use Rattle.words.specs.Bounded.{above, neqb};
ghost use Rattle.entries.specs.Meaning.{meaning};
ghost use Rattle.rules.specs.Store.{counter_word, type_word};
ghost use Rattle.ledger.specs.Meaning.{counter_of};
ghost use Rattle.validation.specs.Needs.{CoverRecorded};
ghost use Rattle.validation.specs.Tests.{overlap, some_covered};

use entries::entry::Entry;
use ledger::counters::Counter;
use ledger::layout::{Field, record_of};
use ledger::scan::{some_above_zero, some_differs};

// m blocks from p on and n blocks from q on, neither empty, have a block in common.
pub fn overlap(p: u32, m: u32, q: u32, n: u32) -> bool
    ensures { result ≡ overlap p m q n }
{
    (p as usize) < q as usize + n as usize && (q as usize) < p as usize + m as usize
}

// Some block has another type than t.
pub fn cover_differs(ledger: &[u8], e: Entry, t: u32) -> bool
    requires { CoverRecorded ledger.now (meaning e) }
    ensures { result ≡ some_covered ledger.now type_word (meaning e) (λ x. neqb x t) }
{
    let b = record_of(ledger, e.cover_first());
    some_differs(ledger, Field::Type, b, e.cover_blocks() as usize, t)
}

// Some block's counter is above 0.
pub fn cover_counts(ledger: &[u8], counter: Counter, e: Entry) -> bool
    requires { CoverRecorded ledger.now (meaning e) }
    ensures { result ≡ some_covered ledger.now (counter_word (counter_of counter)) (meaning e) (λ x. above x 0) }
{
    let b = record_of(ledger, e.cover_first());
    some_above_zero(ledger, counter.field(), b, e.cover_blocks() as usize)
}
