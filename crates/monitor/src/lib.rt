// The calls (calls 1, forms 7), which monitor_c exports to C. Their contracts ask nothing of the caller, and equate the answer, the byte or the
// number that is given, and all of memory, ledger and fault registers with the rules (promises 1).
#![tactic(auto)]

ghost use Rattle.std.specs.Prelude.{◌≡◌};
ghost use Rattle.std.specs.Result.{result_unwrap_or};
ghost use Rattle.rules.specs.Begin.{begin_outcome, cached_kinds};
ghost use Rattle.entries.specs.Entries.{l1, l2};
ghost use Rattle.rules.specs.Create.{create_outcome};
ghost use Rattle.rules.specs.Free.{free_outcome};
ghost use Rattle.rules.specs.Forget.{forget_outcome};
ghost use Rattle.rules.specs.Guest.{fetches, guest_outcome, guest_registers, reads, writes};
ghost use Rattle.rules.specs.Link.{link_outcome};
ghost use Rattle.rules.specs.Map.{first_kind, map_outcome};
ghost use Rattle.rules.specs.Registers.{acknowledge_outcome, acknowledge_registers};
ghost use Rattle.rules.specs.Store.{Store, lent};
ghost use Rattle.rules.specs.Switch.{switch_outcome};
ghost use Rattle.rules.specs.Tables.{larges, pages, sections};
ghost use Rattle.rules.specs.Unmap.{unmap_outcome};
ghost use Rattle.ledger.specs.Refusals.{answered};

use entries::entry::Level;
use guest::access;
use ledger::refusals::{Refusal, answer};
use mapping::form::Form;
use mapping::request::{FIRST_KIND, Request};

// The answer of a call, whose number or byte goes to the place that it was lent; nothing is 0 there, where it is refused.
fn give<T: Copy>(outcome: Result<T, Refusal>, nothing: T, place: &mut T) -> u32
    ensures value { result ≡ answered outcome }
    ensures place_after { place.new ≡ result_unwrap_or outcome nothing }
{
    *place = outcome.unwrap_or(nothing);
    answer(outcome)
}

// Begin: a region starts at this block, and all its memory kinds are B and C.
pub fn pagemon_begin(memory: &[u8], ledger: &mut [u8], first: u32) -> u32
    ensures value { result ≡ (begin_outcome (lent memory.now ledger.old) cached_kinds first).answer }
    ensures ledger_after { lent memory.now ledger.new ≡ (begin_outcome (lent memory.now ledger.old) cached_kinds first).after }
{
    answer(tables::begin::begin(memory, ledger, first))
}

// Begin with kinds: a region starts at this block, with these eight memory kinds.
pub fn pagemon_begin_kinds(memory: &[u8], ledger: &mut [u8], kinds: &[u8], first: u32) -> u32
    ensures value { result ≡ (begin_outcome (lent memory.now ledger.old) kinds.now first).answer }
    ensures ledger_after { lent memory.now ledger.new ≡ (begin_outcome (lent memory.now ledger.old) kinds.now first).after }
{
    answer(tables::begin::begin_kinds(memory, ledger, kinds, first))
}

// Create L1: the four blocks from a block become an L1 table, with the entries that its bytes hold.
pub fn pagemon_create_l1(
    memory: &[u8],
    ledger: &mut [u8],
    golden: &[u8],
    block: u32,
    hashed: &mut u32,
) -> u32
    ensures value { result ≡ (create_outcome l1 golden.now (lent memory.now ledger.old) block).answer }
    ensures hashed_after { hashed.new ≡ (create_outcome l1 golden.now (lent memory.now ledger.old) block).hashed }
    ensures ledger_after { lent memory.now ledger.new ≡ (create_outcome l1 golden.now (lent memory.now ledger.old) block).after }
{
    let outcome = tables::create::create(Level::L1, memory, ledger, golden, block);
    give(outcome, 0, hashed)
}

// Create L2: a block becomes an L2 block, with the entries that its bytes hold.
pub fn pagemon_create_l2(
    memory: &[u8],
    ledger: &mut [u8],
    golden: &[u8],
    block: u32,
    hashed: &mut u32,
) -> u32
    ensures value { result ≡ (create_outcome l2 golden.now (lent memory.now ledger.old) block).answer }
    ensures hashed_after { hashed.new ≡ (create_outcome l2 golden.now (lent memory.now ledger.old) block).hashed }
    ensures ledger_after { lent memory.now ledger.new ≡ (create_outcome l2 golden.now (lent memory.now ledger.old) block).after }
{
    let outcome = tables::create::create(Level::L2, memory, ledger, golden, block);
    give(outcome, 0, hashed)
}

// Free L1: the table's blocks become data.
pub fn pagemon_free_l1(memory: &[u8], ledger: &mut [u8], block: u32) -> u32
    ensures value { result ≡ (free_outcome l1 (lent memory.now ledger.old) block).answer }
    ensures ledger_after { lent memory.now ledger.new ≡ (free_outcome l1 (lent memory.now ledger.old) block).after }
{
    answer(tables::free::free(Level::L1, memory, ledger, block))
}

// Free L2: the block becomes data.
pub fn pagemon_free_l2(memory: &[u8], ledger: &mut [u8], block: u32) -> u32
    ensures value { result ≡ (free_outcome l2 (lent memory.now ledger.old) block).answer }
    ensures ledger_after { lent memory.now ledger.new ≡ (free_outcome l2 (lent memory.now ledger.old) block).after }
{
    answer(tables::free::free(Level::L2, memory, ledger, block))
}

// Map L1 with a kind: a section of 256 blocks with these rights and the memory kind of this number, at an index of an L1 table.
pub fn pagemon_map_l1_kind(
    memory: &mut [u8],
    ledger: &mut [u8],
    golden: &[u8],
    block: u32,
    index: u32,
    target: u32,
    rights: u32,
    kind: u32,
    hashed: &mut u32,
) -> u32
    ensures value { result ≡ (map_outcome sections golden.now (lent memory.old ledger.old) block index target rights kind).answer }
    ensures hashed_after { hashed.new ≡ (map_outcome sections golden.now (lent memory.old ledger.old) block index target rights kind).hashed }
    ensures ledger_after { lent memory.new ledger.new ≡ (map_outcome sections golden.now (lent memory.old ledger.old) block index target rights kind).after }
{
    let request = Request {
        block,
        index,
        target,
        rights,
        kind,
    };
    let outcome = mapping::map::map(Form::Sections, memory, ledger, golden, request);
    give(outcome, 0, hashed)
}

// Map L1: the same with kind 0.
pub fn pagemon_map_l1(
    memory: &mut [u8],
    ledger: &mut [u8],
    golden: &[u8],
    block: u32,
    index: u32,
    target: u32,
    rights: u32,
    hashed: &mut u32,
) -> u32
    ensures value { result ≡ (map_outcome sections golden.now (lent memory.old ledger.old) block index target rights first_kind).answer }
    ensures hashed_after { hashed.new ≡ (map_outcome sections golden.now (lent memory.old ledger.old) block index target rights first_kind).hashed }
    ensures ledger_after { lent memory.new ledger.new ≡ (map_outcome sections golden.now (lent memory.old ledger.old) block index target rights first_kind).after }
{
    pagemon_map_l1_kind(
        memory, ledger, golden, block, index, target, rights, FIRST_KIND, hashed,
    )
}

// Map L2 with a kind: a page with these rights and the memory kind of this number, at an index of an L2 block.
pub fn pagemon_map_l2_kind(
    memory: &mut [u8],
    ledger: &mut [u8],
    golden: &[u8],
    block: u32,
    index: u32,
    target: u32,
    rights: u32,
    kind: u32,
    hashed: &mut u32,
) -> u32
    ensures value { result ≡ (map_outcome pages golden.now (lent memory.old ledger.old) block index target rights kind).answer }
    ensures hashed_after { hashed.new ≡ (map_outcome pages golden.now (lent memory.old ledger.old) block index target rights kind).hashed }
    ensures ledger_after { lent memory.new ledger.new ≡ (map_outcome pages golden.now (lent memory.old ledger.old) block index target rights kind).after }
{
    let request = Request {
        block,
        index,
        target,
        rights,
        kind,
    };
    let outcome = mapping::map::map(Form::Pages, memory, ledger, golden, request);
    give(outcome, 0, hashed)
}

// Map L2: the same with kind 0.
pub fn pagemon_map_l2(
    memory: &mut [u8],
    ledger: &mut [u8],
    golden: &[u8],
    block: u32,
    index: u32,
    target: u32,
    rights: u32,
    hashed: &mut u32,
) -> u32
    ensures value { result ≡ (map_outcome pages golden.now (lent memory.old ledger.old) block index target rights first_kind).answer }
    ensures hashed_after { hashed.new ≡ (map_outcome pages golden.now (lent memory.old ledger.old) block index target rights first_kind).hashed }
    ensures ledger_after { lent memory.new ledger.new ≡ (map_outcome pages golden.now (lent memory.old ledger.old) block index target rights first_kind).after }
{
    pagemon_map_l2_kind(
        memory, ledger, golden, block, index, target, rights, FIRST_KIND, hashed,
    )
}

// Map large with a kind: a large page of sixteen blocks with these rights and the memory kind of this number, in the sixteen words from an index of an L2 block.
pub fn pagemon_map_large_kind(
    memory: &mut [u8],
    ledger: &mut [u8],
    golden: &[u8],
    block: u32,
    index: u32,
    target: u32,
    rights: u32,
    kind: u32,
    hashed: &mut u32,
) -> u32
    ensures value { result ≡ (map_outcome larges golden.now (lent memory.old ledger.old) block index target rights kind).answer }
    ensures hashed_after { hashed.new ≡ (map_outcome larges golden.now (lent memory.old ledger.old) block index target rights kind).hashed }
    ensures ledger_after { lent memory.new ledger.new ≡ (map_outcome larges golden.now (lent memory.old ledger.old) block index target rights kind).after }
{
    let request = Request {
        block,
        index,
        target,
        rights,
        kind,
    };
    let outcome = mapping::map::map(Form::Larges, memory, ledger, golden, request);
    give(outcome, 0, hashed)
}

// Map large: the same with kind 0.
pub fn pagemon_map_large(
    memory: &mut [u8],
    ledger: &mut [u8],
    golden: &[u8],
    block: u32,
    index: u32,
    target: u32,
    rights: u32,
    hashed: &mut u32,
) -> u32
    ensures value { result ≡ (map_outcome larges golden.now (lent memory.old ledger.old) block index target rights first_kind).answer }
    ensures hashed_after { hashed.new ≡ (map_outcome larges golden.now (lent memory.old ledger.old) block index target rights first_kind).hashed }
    ensures ledger_after { lent memory.new ledger.new ≡ (map_outcome larges golden.now (lent memory.old ledger.old) block index target rights first_kind).after }
{
    pagemon_map_large_kind(
        memory, ledger, golden, block, index, target, rights, FIRST_KIND, hashed,
    )
}

// Link: an L2 table, at an index of an L1 table.
pub fn pagemon_link(
    memory: &mut [u8],
    ledger: &mut [u8],
    block: u32,
    index: u32,
    target: u32,
    table: u32,
) -> u32
    ensures value { result ≡ (link_outcome (lent memory.old ledger.old) block index target table).answer }
    ensures ledger_after { lent memory.new ledger.new ≡ (link_outcome (lent memory.old ledger.old) block index target table).after }
{
    answer(mapping::link::link(memory, ledger, block, index, target, table))
}

// Unmap L1: the entry at an index of an L1 table becomes a fault.
pub fn pagemon_unmap_l1(memory: &mut [u8], ledger: &mut [u8], block: u32, index: u32) -> u32
    ensures value { result ≡ (unmap_outcome sections (lent memory.old ledger.old) block index).answer }
    ensures ledger_after { lent memory.new ledger.new ≡ (unmap_outcome sections (lent memory.old ledger.old) block index).after }
{
    answer(mapping::unmap::unmap(Form::Sections, memory, ledger, block, index))
}

// Unmap L2: the entry at an index of an L2 block becomes a fault.
pub fn pagemon_unmap_l2(memory: &mut [u8], ledger: &mut [u8], block: u32, index: u32) -> u32
    ensures value { result ≡ (unmap_outcome pages (lent memory.old ledger.old) block index).answer }
    ensures ledger_after { lent memory.new ledger.new ≡ (unmap_outcome pages (lent memory.old ledger.old) block index).after }
{
    answer(mapping::unmap::unmap(Form::Pages, memory, ledger, block, index))
}

// Unmap large: the sixteen entries of the large page at an index of an L2 block become faults.
pub fn pagemon_unmap_large(memory: &mut [u8], ledger: &mut [u8], block: u32, index: u32) -> u32
    ensures value { result ≡ (unmap_outcome larges (lent memory.old ledger.old) block index).answer }
    ensures ledger_after { lent memory.new ledger.new ≡ (unmap_outcome larges (lent memory.old ledger.old) block index).after }
{
    answer(mapping::unmap::unmap(Form::Larges, memory, ledger, block, index))
}

// Switch: the L1 table at a block is put in use.
pub fn pagemon_switch(memory: &[u8], ledger: &mut [u8], block: u32) -> u32
    ensures value { result ≡ (switch_outcome (lent memory.now ledger.old) block).answer }
    ensures ledger_after { lent memory.now ledger.new ≡ (switch_outcome (lent memory.now ledger.old) block).after }
{
    answer(mapping::switch::switch(memory, ledger, block))
}

// The guest reads the byte at an address; the registers tell of a fault.
pub fn pagemon_read(
    memory: &[u8],
    ledger: &[u8],
    registers: &mut [u8],
    address: u32,
    byte: &mut u8,
) -> u32
    ensures value { result ≡ (guest_outcome reads (lent memory.now ledger.now) registers.old address).answer }
    ensures byte_after { byte.new ≡ (guest_outcome reads (lent memory.now ledger.now) registers.old address).byte }
    ensures ledger_value { lent memory.now ledger.now ≡ (guest_outcome reads (lent memory.now ledger.now) registers.old address).after }
    ensures registers_after { registers.new ≡ guest_registers reads (lent memory.now ledger.now) registers.old address }
{
    give(access::read(memory, ledger, registers, address), 0, byte)
}

// The guest fetches the byte at an address, to execute it.
pub fn pagemon_fetch(
    memory: &[u8],
    ledger: &[u8],
    registers: &mut [u8],
    address: u32,
    byte: &mut u8,
) -> u32
    ensures value { result ≡ (guest_outcome fetches (lent memory.now ledger.now) registers.old address).answer }
    ensures byte_after { byte.new ≡ (guest_outcome fetches (lent memory.now ledger.now) registers.old address).byte }
    ensures ledger_value { lent memory.now ledger.now ≡ (guest_outcome fetches (lent memory.now ledger.now) registers.old address).after }
    ensures registers_after { registers.new ≡ guest_registers fetches (lent memory.now ledger.now) registers.old address }
{
    give(access::fetch(memory, ledger, registers, address), 0, byte)
}

// The guest writes a byte at an address.
pub fn pagemon_write(
    memory: &mut [u8],
    ledger: &mut [u8],
    registers: &mut [u8],
    address: u32,
    byte: u32,
) -> u32
    ensures value { result ≡ (guest_outcome (writes byte) (lent memory.old ledger.old) registers.old address).answer }
    ensures ledger_after { lent memory.new ledger.new ≡ (guest_outcome (writes byte) (lent memory.old ledger.old) registers.old address).after }
    ensures registers_after { registers.new ≡ guest_registers (writes byte) (lent memory.old ledger.old) registers.old address }
{
    answer(access::write(memory, ledger, registers, address, byte))
}

// Acknowledge: the pending byte of the fault registers is given and cleared. It is lent no store, so that its promise is the same for every one.
pub fn pagemon_acknowledge(registers: &mut [u8], pending: &mut u8) -> u32
    ensures value { (s : Store) → result ≡ (acknowledge_outcome s registers.old).answer }
    ensures pending_after { (s : Store) → pending.new ≡ (acknowledge_outcome s registers.old).byte }
    ensures registers_after { registers.new ≡ acknowledge_registers registers.old }
{
    give(guest::registers::acknowledge(registers), 0, pending)
}

// Forget: the marks of adjacent blocks are cleared.
pub fn pagemon_forget(memory: &[u8], ledger: &mut [u8], block: u32, count: u32) -> u32
    ensures value { result ≡ (forget_outcome (lent memory.now ledger.old) block count).answer }
    ensures ledger_after { lent memory.now ledger.new ≡ (forget_outcome (lent memory.now ledger.old) block count).after }
{
    answer(tables::forget::forget(memory, ledger, block, count))
}
