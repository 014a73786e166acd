// Begin: a region starts, with memory kinds, no tables, no counts and no marks (RULES: begin).
ghost use Rattle.std.specs.Prelude.{◌≡◌, ◌+◌};
ghost use Rattle.rules.specs.Begin.{begin_outcome, begin_refusals, cached_kinds};
ghost use Rattle.rules.specs.Refusals.{answer_of};
ghost use Rattle.rules.specs.Store.{clear_mark, clear_marks, lent, put_counters, put_record_word, recount, retype, type_word};
ghost use Rattle.rules.specs.Tables.{type_d};
ghost use Rattle.ledger.specs.Needs.{InLedger};
ghost use Rattle.ledger.specs.Refusals.{answered};

use ledger::kinds::{put_kinds, some_unlawful};
use ledger::layout::{BlockType, Field, KINDS_BYTES, NO_TABLE, put_active, put_base};
use ledger::marks::clear_mark;
use ledger::refusals::Refusal;
use ledger::region::{blocks, is_misfit};

// The record of block b has type D, no counts and no mark.
fn clear_record(ledger: &mut [u8], b: usize)
    requires { InLedger ledger.old (b + 1) }
    ensures { ledger.new ≡ clear_mark (put_counters (put_record_word ledger.old type_word b type_d) b (λ c. 0)) b }
{
    Field::Type.put(ledger, b, BlockType::Data.code());
    Field::Writable.put(ledger, b, 0);
    Field::Executable.put(ledger, b, 0);
    Field::Linked.put(ledger, b, 0);
    clear_mark(ledger, b);
}

// So have the records of the first n blocks.
fn clear_records(ledger: &mut [u8], n: usize)
    requires { InLedger ledger.old n }
    ensures { ledger.new ≡ clear_marks (recount (retype ledger.old 0 n type_d) n (λ c b. 0)) 0 n }
{
    for b in 0..n {
        clear_record(ledger, b);
    }
}

// The lengths, this number of the first block, or these kinds are not lawful (begin 1).
fn check_begin(memory: &[u8], ledger: &[u8], kinds: &[u8], first: u32) -> Result<(), Refusal>
    ensures { answered result ≡ answer_of (begin_refusals (lent memory.now ledger.now) kinds.now first) }
{
    if is_misfit(memory, ledger, first) {
        return Err(Refusal::Misfit);
    }
    if kinds.len() != KINDS_BYTES {
        return Err(Refusal::Misfit);
    }
    if some_unlawful(kinds) {
        return Err(Refusal::Misfit);
    }
    Ok(())
}

// A region starts at this block, with these memory kinds.
pub fn begin_kinds(
    memory: &[u8],
    ledger: &mut [u8],
    kinds: &[u8],
    first: u32,
) -> Result<(), Refusal>
    ensures value { answered result ≡ (begin_outcome (lent memory.now ledger.old) kinds.now first).answer }
    ensures ledger_after { lent memory.now ledger.new ≡ (begin_outcome (lent memory.now ledger.old) kinds.now first).after }
{
    check_begin(memory, ledger, kinds, first)?;
    clear_records(ledger, blocks(memory));
    put_kinds(ledger, kinds);
    put_base(ledger, first);
    put_active(ledger, NO_TABLE);
    Ok(())
}

// The kinds of a begin that names none: B and C, eight times (begin kinds).
const CACHED_KINDS: [u8; 16] = *b"\x03\0\x03\0\x03\0\x03\0\x03\0\x03\0\x03\0\x03\0";

pub fn begin(memory: &[u8], ledger: &mut [u8], first: u32) -> Result<(), Refusal>
    ensures value { answered result ≡ (begin_outcome (lent memory.now ledger.old) cached_kinds first).answer }
    ensures ledger_after { lent memory.now ledger.new ≡ (begin_outcome (lent memory.now ledger.old) cached_kinds first).after }
{
    begin_kinds(memory, ledger, &CACHED_KINDS, first)
}
