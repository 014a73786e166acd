// The entries of a table are added to the counters, or taken away from them, one by one.
// Refusal 13 shows on the way or at the end, and what was counted is then taken back (calls 3).
ghost use Rattle.std.specs.Prelude.{◌≡◌, OnErr, is_ok};
ghost use Rattle.words.specs.Bounded.{any};
ghost use Rattle.entries.specs.Meaning.{level_of, meaning};
ghost use Rattle.rules.specs.General.{recounted, retyped, some_overrun, type_after};
ghost use Rattle.rules.specs.Store.{counter_limit, lent};
ghost use Rattle.rules.specs.Tables.{table_entries, table_entry};
ghost use Rattle.ledger.specs.Counters.{entry_beyond, least_before};
ghost use Rattle.ledger.specs.Layout.{code_of};
ghost use Rattle.ledger.specs.Meaning.{change_of};
ghost use Rattle.ledger.specs.Needs.{EntryRecorded};
ghost use Rattle.ledger.specs.Refusals.{answered};
ghost use Rattle.validation.specs.Needs.{Placed, TablePlaced};
ghost use Rattle.validation.specs.Tests.{entry_from};
ghost use Rattle.tables.specs.Counting.{ChangedUnless, Counted, complete, ends_above, most_of, opposite};
ghost use Rattle.tables.specs.Needs.{AllStorable, TableReady};

use crate::own::{first_word, put_types};
use entries::decode::{accepted_entry, accepted_entry_at};
use entries::entry::{Entry, Level};
use ledger::bounds::{Bounds, entry_beyond};
use ledger::counters::{Change, change_entry, grants_some};
use ledger::layout::{BlockType, COUNTER_LIMIT, record_of};
use ledger::refusals::Refusal;
use ledger::table::{table_blocks, table_entries, table_type};

const LARGEST_WORD: u32 = u32::MAX;

const WITHIN_LIMIT: Bounds = Bounds {
    least: 0,
    most: COUNTER_LIMIT,
};

// The greatest value of a counter that can change by one on the way: one that is taken from is judged at the end.
fn most_of(change: Change) -> u32
    ensures { result ≡ most_of (change_of change) }
{
    match change {
        Change::Added => COUNTER_LIMIT - 1,
        Change::Removed => LARGEST_WORD,
    }
}

fn opposite(change: Change) -> Change
    ensures { change_of result ≡ opposite (change_of change) }
{
    match change {
        Change::Added => Change::Removed,
        Change::Removed => Change::Added,
    }
}

// Some counter can't be changed by the entry.
fn is_stuck(change: Change, ledger: &[u8], e: Entry) -> bool
    requires { EntryRecorded ledger.now (meaning e) }
    ensures { result ≡ entry_beyond (least_before (change_of change)) (most_of (change_of change)) ledger.now (meaning e) }
{
    let least = Bounds::before(change).least;
    let most = most_of(change);
    entry_beyond(ledger, e, Bounds { least, most })
}

// Counts an entry, or leaves the ledger if a counter can't be changed. Most entries of a table may grant nothing.
fn count_entry(change: Change, memory: &[u8], ledger: &mut [u8], e: Entry) -> Result<(), Refusal>
    requires { Placed memory.now ledger.old (meaning e) }
    ensures { ChangedUnless (entry_beyond (least_before (change_of change)) (most_of (change_of change)) ledger.old (meaning e)) (recounted (change_of change) (lent memory.now ledger.old) 1 (λ k. meaning e)) ledger.old (is_ok result) ledger.new }
{
    if !grants_some(e) {
        return Ok(());
    }
    if is_stuck(change, ledger, e) {
        return Err(Refusal::Overrun);
    }
    change_entry(change, memory, ledger, e);
    Ok(())
}

// Counts entries up to one that can't be, and tells how many.
fn count_until_stuck(
    change: Change,
    level: Level,
    memory: &[u8],
    ledger: &mut [u8],
    j: usize,
    m: usize,
) -> usize
    requires { TablePlaced (level_of level) memory.now ledger.old j m }
    ensures { Counted (change_of change) (lent memory.now ledger.old) m (entry_from (level_of level) memory.now j) result ledger.new }
{
    for i in 0..m {
        let e = accepted_entry_at(level, memory, j + i);
        if count_entry(change, memory, ledger, e).is_err() {
            return i;
        }
    }
    m
}

// Counts m entries. This is rare, so it reads by `accepted_entry`: the second caller that keeps `accepted_entry_of` out of the loops.
fn count_all(change: Change, level: Level, memory: &[u8], ledger: &mut [u8], j: usize, m: usize)
    requires table_placed { TablePlaced (level_of level) memory.now ledger.old j m }
    requires all_storable { AllStorable (change_of change) (lent memory.now ledger.old) m (entry_from (level_of level) memory.now j) }
    ensures { ledger.new ≡ recounted (change_of change) (lent memory.now ledger.old) m (entry_from (level_of level) memory.now j) }
{
    for i in 0..m {
        change_entry(change, memory, ledger, accepted_entry(level, memory, j + i));
    }
}

// Some counter by which the m entries count is above the limit.
fn some_above_limit(level: Level, memory: &[u8], ledger: &[u8], j: usize, m: usize) -> bool
    requires { TablePlaced (level_of level) memory.now ledger.now j m }
    ensures { result ≡ any m (λ i. entry_beyond 0 counter_limit ledger.now (entry_from (level_of level) memory.now j i)) }
{
    // An index loop: a closure of two calls would have to state what each of them asks.
    for i in 0..m {
        let e = accepted_entry_at(level, memory, j + i);
        if entry_beyond(ledger, e, WITHIN_LIMIT) {
            return true;
        }
    }
    false
}

// What is left to judge when all are counted: a counter that was added to is within the limit, or an entry would have been stuck.
fn ends_above(
    change: Change,
    level: Level,
    memory: &[u8],
    ledger: &[u8],
    j: usize,
    m: usize,
) -> bool
    requires { TablePlaced (level_of level) memory.now ledger.now j m }
    ensures { result ≡ ends_above (change_of change) ledger.now m (entry_from (level_of level) memory.now j) }
{
    match change {
        Change::Added => false,
        Change::Removed => some_above_limit(level, memory, ledger, j, m),
    }
}

// All m entries are counted, and nothing that is left to judge refuses.
fn is_complete(
    change: Change,
    level: Level,
    memory: &[u8],
    ledger: &[u8],
    j: usize,
    m: usize,
    done: usize,
) -> bool
    requires { TablePlaced (level_of level) memory.now ledger.now j m }
    ensures { result ≡ complete (change_of change) ledger.now m (entry_from (level_of level) memory.now j) done }
{
    if done < m {
        return false;
    }
    !ends_above(change, level, memory, ledger, j, m)
}

// Counts the table's m entries, or leaves the ledger if a counter would overrun (refusal 13).
fn count_table(
    change: Change,
    level: Level,
    memory: &[u8],
    ledger: &mut [u8],
    j: usize,
    m: usize,
) -> Result<(), Refusal>
    requires { TablePlaced (level_of level) memory.now ledger.old j m }
    ensures changed { ChangedUnless (some_overrun (change_of change) (lent memory.now ledger.old) m (entry_from (level_of level) memory.now j)) (recounted (change_of change) (lent memory.now ledger.old) m (entry_from (level_of level) memory.now j)) ledger.old (is_ok result) ledger.new }
    ensures overrun { OnErr result (answered result ≡ 13) }
{
    let done = count_until_stuck(change, level, memory, ledger, j, m);
    if is_complete(change, level, memory, ledger, j, m, done) {
        return Ok(());
    }
    count_all(opposite(change), level, memory, ledger, j, done);
    Err(Refusal::Overrun)
}

// The type that the table's blocks get.
fn type_after(change: Change, level: Level) -> BlockType
    ensures { code_of result ≡ type_after (change_of change) (level_of level) }
{
    match change {
        Change::Added => table_type(level),
        Change::Removed => BlockType::Data,
    }
}

// Counts the entries of the table at a block and gives its blocks their type, or leaves the ledger if a counter would overrun.
pub fn change_table(
    change: Change,
    level: Level,
    memory: &[u8],
    ledger: &mut [u8],
    block: u32,
) -> Result<(), Refusal>
    requires { TableReady (level_of level) memory.now ledger.old block }
    ensures changed { ChangedUnless (some_overrun (change_of change) (lent memory.now ledger.old) (table_entries (level_of level)) (table_entry (level_of level) (lent memory.now ledger.old) block)) (retyped (change_of change) (level_of level) (lent memory.now ledger.old) block).ledger ledger.old (is_ok result) ledger.new }
    ensures overrun { OnErr result (answered result ≡ 13) }
{
    let j = first_word(ledger, block);
    let b = record_of(ledger, block);
    let m = table_entries(level) as usize;
    count_table(change, level, memory, ledger, j, m)?;
    put_types(
        ledger,
        b,
        table_blocks(level) as usize,
        type_after(change, level).code(),
    );
    Ok(())
}
