// The counters w, x and l: what an entry adds to them, or takes away.
ghost use Rattle.std.specs.Prelude.{◌≡◌, false, ℕ, ◌+◌, ◌<◌};
ghost use Rattle.entries.specs.Entries as specified;
ghost use Rattle.entries.specs.Meaning.{meaning};
ghost use Rattle.rules.specs.Store as store;
ghost use Rattle.rules.specs.Store.{base as stored_base, blocks, counter_word, lent, put_record_word, record_word, some_counter};
ghost use Rattle.rules.specs.Tables.{astray, grants};
ghost use Rattle.rules.specs.General.{end_value, recounted};
ghost use Rattle.ledger.specs.Counters.{Spreads, changed, changed_counter};
ghost use Rattle.ledger.specs.Layout.{field_word};
ghost use Rattle.ledger.specs.Meaning.{change_of, counter_of};
ghost use Rattle.ledger.specs.Needs.{Changeable, Countable, Fits, GrantsInside, GrantsRecorded, InLedger};

use crate::layout::{Field, record_of};
use entries::entry::Entry;
use entries::rights::{Right, allows};

// An entry is added to the counters, or taken away from them.
#[derive(Clone, Copy)]
pub enum Change {
    Added,
    Removed,
}

#[derive(Clone, Copy)]
pub enum Counter {
    Writable,
    Executable,
    Linked,
}

impl Counter {
    // The counter's field of a record.
    pub fn field(self) -> Field
        ensures { field_word result ≡ counter_word (counter_of self) }
    {
        match self {
            Counter::Writable => Field::Writable,
            Counter::Executable => Field::Executable,
            Counter::Linked => Field::Linked,
        }
    }
}

// The entry gives its blocks what the counter counts.
pub fn grants(counter: Counter, e: Entry) -> bool
    ensures { result ≡ grants (counter_of counter) (meaning e) }
{
    match counter {
        Counter::Writable => allows(e.rights(), Right::Write),
        Counter::Executable => allows(e.rights(), Right::Execute),
        Counter::Linked => e.is_link(),
    }
}

// It gives them something that is counted. A fault, as most entries of a table are, is told by the first test; write and execute are tested together.
pub fn grants_some(e: Entry) -> bool
    ensures { result ≡ some_counter (λ c. grants c (meaning e)) }
{
    if e.is_fault() {
        return false;
    }
    if e.is_link() {
        return true;
    }
    words::bits(e.rights(), 1, 2) != 0
}

fn end_value(change: Change, old: u32) -> u32
    requires { Changeable (change_of change) old }
    ensures { result ≡ end_value (change_of change) old 1 }
{
    match change {
        Change::Added => old + 1,
        Change::Removed => old - 1,
    }
}

// Changes a field of block b's record by one.
fn change_word(change: Change, ledger: &mut [u8], field: Field, b: usize)
    requires { InLedger ledger.old (b + 1) × Changeable (change_of change) (record_word ledger.old (field_word field) b) }
    ensures { ledger.new ≡ put_record_word ledger.old (field_word field) b (end_value (change_of change) (record_word ledger.old (field_word field) b) 1) }
{
    let old = field.get(ledger, b);
    field.put(ledger, b, end_value(change, old));
}

// The same for the m records from block b on.
fn change_words(change: Change, ledger: &mut [u8], field: Field, b: usize, m: usize)
    requires { InLedger ledger.old (b + m) × ((i : ℕ) → i < m → Changeable (change_of change) (record_word ledger.old (field_word field) (b + i))) }
    ensures { ledger.new ≡ changed (change_of change) ledger.old (field_word field) b m }
{
    for i in 0..m {
        change_word(change, ledger, field, b + i);
    }
}

// Changes one counter on each of the m blocks from p on, if the entry grants it.
fn change_counter(change: Change, ledger: &mut [u8], counter: Counter, e: Entry, p: u32, m: u32)
    requires { GrantsRecorded ledger.old (meaning e) p m × Countable (change_of change) ledger.old (counter_of counter) (meaning e) p m }
    ensures { ledger.new ≡ changed_counter (change_of change) ledger.old (counter_of counter) (meaning e) p m }
{
    if grants(counter, e) {
        let b = record_of(ledger, p);
        change_words(change, ledger, counter.field(), b, m as usize);
    }
}

// Adds what the entry grants to the counters of the m blocks from p on, or takes it away.
pub fn change_blocks(change: Change, memory: &[u8], ledger: &mut [u8], e: Entry, p: u32, m: u32)
    requires fits { Fits memory.now ledger.old × GrantsInside memory.now ledger.old (meaning e) p m }
    requires countable { (c : store.Counter) → Countable (change_of change) ledger.old c (meaning e) p m }
    ensures { (n : ℕ) (x : ℕ → specified.Entry) → Spreads n x (meaning e) p m → ledger.new ≡ recounted (change_of change) (lent memory.now ledger.old) n x }
{
    change_counter(change, ledger, Counter::Writable, e, p, m);
    change_counter(change, ledger, Counter::Executable, e, p, m);
    change_counter(change, ledger, Counter::Linked, e, p, m);
}

// Adds an entry to the counters of the blocks that it covers, or takes it away.
pub fn change_entry(change: Change, memory: &[u8], ledger: &mut [u8], e: Entry)
    requires fits { Fits memory.now ledger.old }
    requires e_value { astray (stored_base (lent memory.now ledger.old)) (blocks (lent memory.now ledger.old)) (meaning e) ≡ false }
    requires countable { (c : store.Counter) → Countable (change_of change) ledger.old c (meaning e) (specified.cover_first (meaning e)) (specified.cover_blocks (meaning e)) }
    ensures { ledger.new ≡ recounted (change_of change) (lent memory.now ledger.old) 1 (λ k. meaning e) }
{
    change_blocks(change, memory, ledger, e, e.cover_first(), e.cover_blocks());
}
