// Whether counters are within bounds, on blocks to which an entry grants what they count; refusal 13 of one entry.
ghost use Rattle.std.specs.Prelude.{◌≡◌, ℕ, ◌+◌, ◌<◌};
ghost use Rattle.words.specs.Bounded.{any};
ghost use Rattle.entries.specs.Entries as specified;
ghost use Rattle.entries.specs.Meaning.{meaning};
ghost use Rattle.rules.specs.Store.{record_word};
ghost use Rattle.rules.specs.General.{some_overrun};
ghost use Rattle.ledger.specs.Counters.{Spreads, beyond, blocks_beyond, counter_beyond, entry_beyond, least_before, most_before};
ghost use Rattle.ledger.specs.Meaning.{change_of, counter_of};
ghost use Rattle.ledger.specs.Layout.{field_word};
ghost use Rattle.ledger.specs.Needs.{EntryRecorded, GrantsInside, GrantsRecorded, InLedger};
ghost use Rattle.ledger.specs.Regions.{store_of};

use crate::counters::{Change, Counter, grants};
use crate::layout::{COUNTER_LIMIT, Field, record_of};
use crate::region::Region;
use entries::entry::Entry;
use words::some_below;

// The least and the greatest value that a counter may have.
#[derive(Clone, Copy)]
pub struct Bounds {
    pub least: u32,
    pub most: u32,
}

impl Bounds {
    // The values from which a counter can change by one without an overrun.
    pub fn before(change: Change) -> Bounds
        ensures least { result.least ≡ least_before (change_of change) }
        ensures most { result.most ≡ most_before (change_of change) }
    {
        match change {
            Change::Added => Bounds {
                least: 0,
                most: COUNTER_LIMIT - 1,
            },
            Change::Removed => Bounds {
                least: 1,
                most: COUNTER_LIMIT + 1,
            },
        }
    }

    fn exclude(self, x: u32) -> bool
        ensures { result ≡ beyond self.least self.most x }
    {
        x < self.least || self.most < x
    }
}

// The bounds exclude the field in some of the m records from block b on.
fn some_beyond(ledger: &[u8], field: Field, b: usize, m: usize, bounds: Bounds) -> bool
    requires { InLedger ledger.now (b + m) }
    ensures { result ≡ any m (λ i. beyond bounds.least bounds.most (record_word ledger.now (field_word field) (b + i))) }
{
    some_below(m, move |i| bounds.exclude(field.get(ledger, b + i)))
}

// They exclude a counter that the entry grants, on some of the m blocks from p on.
fn counter_beyond(ledger: &[u8], counter: Counter, e: Entry, p: u32, m: u32, bounds: Bounds) -> bool
    requires { GrantsRecorded ledger.now (meaning e) p m }
    ensures { result ≡ counter_beyond bounds.least bounds.most ledger.now (counter_of counter) (meaning e) p m }
{
    if !grants(counter, e) {
        return false;
    }
    let b = record_of(ledger, p);
    some_beyond(ledger, counter.field(), b, m as usize, bounds)
}

// Some counter that it grants.
fn blocks_beyond(ledger: &[u8], e: Entry, p: u32, m: u32, bounds: Bounds) -> bool
    requires { GrantsRecorded ledger.now (meaning e) p m }
    ensures { result ≡ blocks_beyond bounds.least bounds.most ledger.now (meaning e) p m }
{
    if counter_beyond(ledger, Counter::Writable, e, p, m, bounds) {
        return true;
    }
    if counter_beyond(ledger, Counter::Executable, e, p, m, bounds) {
        return true;
    }
    counter_beyond(ledger, Counter::Linked, e, p, m, bounds)
}

// Some counter that it grants, on the blocks that it covers.
pub fn entry_beyond(ledger: &[u8], e: Entry, bounds: Bounds) -> bool
    requires { EntryRecorded ledger.now (meaning e) }
    ensures { result ≡ entry_beyond bounds.least bounds.most ledger.now (meaning e) }
{
    blocks_beyond(ledger, e, e.cover_first(), e.cover_blocks(), bounds)
}

impl Region<'_> {
    // Some counter would overrun if what the entry grants were added to the m blocks from p on, or taken away there.
    pub fn blocks_overrun(&self, change: Change, e: Entry, p: u32, m: u32) -> bool
        requires { GrantsInside self.now.memory.now self.now.ledger.now (meaning e) p m }
        ensures { (n : ℕ) (x : ℕ → specified.Entry) → Spreads n x (meaning e) p m → result ≡ some_overrun (change_of change) (store_of self.now) n x }
    {
        blocks_beyond(self.ledger, e, p, m, Bounds::before(change))
    }
}
