// The guest's accesses (RULES: guest): all is judged before the byte is read or stored.
ghost use Rattle.std.specs.Int.{from_bool};
ghost use Rattle.std.specs.Prelude.{[], ◌∷◌, ◌≡◌, ◌+◌, ◌/◌, ◌<◌, ◌≤◌, IfErr, IfOk, length};
ghost use Rattle.entries.specs.Entries.{l1};
ghost use Rattle.entries.specs.Meaning.{level_of, right_of};
ghost use Rattle.rules.specs.Guest.{active_walk, byte_index, fetches, guest_outcome, guest_refusals, guest_registers, needed, no_active_table, raised, reads, registers_after, walk_level, walk_refusals, write_bit, writes};
ghost use Rattle.rules.specs.Refusals.{◌if◌, answer_of};
ghost use Rattle.rules.specs.Registers.{registers_bytes};
ghost use Rattle.rules.specs.Store.{active, base, block_bytes, lent};
ghost use Rattle.rules.specs.Tables.{table_blocks};
ghost use Rattle.ledger.specs.Needs.{InLedger};
ghost use Rattle.ledger.specs.Refusals.{answered, given, number_of};
ghost use Rattle.ledger.specs.Regions.{store_of};
ghost use Rattle.guest.specs.Meaning.{abort_of, access_of, count_of, stopped, walk_in};
ghost use Rattle.guest.specs.Needs.{Loads};

use crate::registers::{Abort, Fault, is_misfit_registers, put_fault, status_word};
use crate::walk::{Blocks, Stop};
use entries::rights::{Right, allows};
use ledger::layout::BLOCK_BYTES;
use ledger::marks::clear_mark;
use ledger::refusals::Refusal;
use ledger::region::Region;
use ledger::table::L1_BLOCKS;

#[derive(Clone, Copy)]
enum Access {
    Read,
    Fetch,
    // The byte to be stored.
    Write(u32),
}

impl Access {
    // The right that the access needs (guest 23).
    #[tactic(auto, unfolding(rules::specs::Guest::needed))]
    fn needed(self) -> Right
        ensures { right_of result ≡ needed (access_of self) }
    {
        match self {
            Access::Read => Right::Read,
            Access::Fetch => Right::Execute,
            Access::Write(_) => Right::Write,
        }
    }

    // The abort that its fault raises (registers 6).
    fn raised(self) -> Abort
        ensures { abort_of result ≡ raised (access_of self) }
    {
        match self {
            Access::Read => Abort::Data,
            Access::Fetch => Abort::Prefetch,
            Access::Write(_) => Abort::Data,
        }
    }

    // Whether its status tells of a write (registers 4).
    fn is_write(self) -> bool
        ensures { from_bool result ≡ write_bit (access_of self) }
    {
        matches!(self, Access::Write(_))
    }
}

// The block of the table in use, if an L1 table can lie there (guest 21).
#[tactic(auto, using(words::proofs::Bounded::differ, words::proofs::Bounded::same), unfolding(rules::specs::Refusals::answer_of))]
fn active_table(region: &Region<'_>) -> Result<u32, Refusal>
    ensures value { answered result ≡ answer_of (21 if no_active_table (store_of region.now) ∷ []) }
    ensures table { IfOk result (λ t. t ≡ active (store_of region.now)) }
{
    let table = region.active();
    if region.is_outside(table, L1_BLOCKS) || table % L1_BLOCKS != 0 {
        return Err(Refusal::NoActiveTable);
    }
    Ok(table)
}

// Where in memory the byte of an access lies (guest end), unless its walk stops or ends without the right (guest 23).
#[tactic(auto, unfolding(rules::specs::Refusals::answer_of, rules::specs::Guest::walk_refusals, rules::specs::Guest::walk_level, rules::specs::Guest::byte_index))]
fn locate(blocks: &Blocks<'_>, table: u32, access: Access, address: u32) -> Result<usize, Stop>
    requires { (blocks.now.first ≤ table) × (table + table_blocks l1 ≤ blocks.now.first + count_of blocks.now) }
    ensures value { stopped result ≡ answer_of (walk_refusals (access_of access) (walk_in blocks.now table address)) }
    ensures level { IfErr result (λ s. level_of s.level ≡ walk_level (walk_in blocks.now table address)) }
    ensures place { IfOk result (λ j. j ≡ byte_index blocks.now.first address (walk_in blocks.now table address)) }
{
    let end = blocks.walk(table, address)?;
    if !allows(end.rights, access.needed()) {
        return Err(Stop {
            refusal: Refusal::RightLacking,
            level: end.level,
        });
    }
    Ok(BLOCK_BYTES * (end.block - blocks.first) as usize + address as usize % BLOCK_BYTES)
}

// Tells of a refusal at an entry: 22 and 23 are faults of its level, and any other leaves the registers (registers 6, registers 7).
#[tactic(auto, unfolding(rules::specs::Guest::registers_after))]
fn tell(registers: &mut [u8], access: Access, stop: Stop, address: u32)
    requires { length registers.old ≡ registers_bytes }
    ensures { registers.new ≡ registers_after (access_of access) registers.old address (level_of stop.level) (number_of stop.refusal) }
{
    let fault = match stop.refusal {
        Refusal::FaultEntry => Fault::Translation(stop.level),
        Refusal::RightLacking => Fault::Permission(stop.level),
        _ => return,
    };
    put_fault(
        registers,
        access.raised(),
        status_word(fault.code(), access.is_write()),
        address,
    );
}

// Where in memory the byte of an access lies, or the refusal, of which the registers tell if it is a fault. Their length is looked at before, which is
// faster where it is wrong. The buffers stand apart here and below, as C
// lends them: a write changes what a read and a fetch only look at.
fn judge(
    memory: &[u8],
    ledger: &[u8],
    registers: &mut [u8],
    access: Access,
    address: u32,
) -> Result<usize, Refusal>
    requires { length registers.old ≡ registers_bytes }
    ensures value { answered result ≡ answer_of (guest_refusals (access_of access) (lent memory.now ledger.now) registers.old address) }
    ensures registers_after { registers.new ≡ guest_registers (access_of access) (lent memory.now ledger.now) registers.old address }
    ensures place { IfOk result (λ j. j ≡ byte_index (base (lent memory.now ledger.now)) address (active_walk (lent memory.now ledger.now) address)) }
    ensures in_memory { IfOk result (λ j. j < length memory.now) }
    ensures recorded { IfOk result (λ j. InLedger ledger.now (j / block_bytes + 1)) }
{
    let region = Region::new(memory, ledger)?;
    let table = active_table(&region)?;
    let blocks = Blocks {
        memory,
        first: region.base(),
    };
    match locate(&blocks, table, access, address) {
        Ok(at) => Ok(at),
        Err(stop) => {
            tell(registers, access, stop, address);
            Err(stop.refusal)
        }
    }
}

// The byte of a read or a fetch (guest byte).
#[tactic(auto, using(crate::proofs::Accesses::outcomes), unfolding(rules::specs::Guest::written, rules::specs::Guest::unmarked))]
fn load(
    memory: &[u8],
    ledger: &[u8],
    registers: &mut [u8],
    access: Access,
    address: u32,
) -> Result<u8, Refusal>
    requires { Loads access }
    ensures value { answered result ≡ (guest_outcome (access_of access) (lent memory.now ledger.now) registers.old address).answer }
    ensures byte { given result ≡ (guest_outcome (access_of access) (lent memory.now ledger.now) registers.old address).byte }
    ensures ledger_value { lent memory.now ledger.now ≡ (guest_outcome (access_of access) (lent memory.now ledger.now) registers.old address).after }
    ensures registers_after { registers.new ≡ guest_registers (access_of access) (lent memory.now ledger.now) registers.old address }
{
    if is_misfit_registers(registers) {
        return Err(Refusal::Misfit);
    }
    let at = judge(memory, ledger, registers, access, address)?;
    Ok(memory[at])
}

// Reads a byte.
pub fn read(memory: &[u8], ledger: &[u8], registers: &mut [u8], address: u32) -> Result<u8, Refusal>
    ensures value { answered result ≡ (guest_outcome reads (lent memory.now ledger.now) registers.old address).answer }
    ensures byte { given result ≡ (guest_outcome reads (lent memory.now ledger.now) registers.old address).byte }
    ensures ledger_value { lent memory.now ledger.now ≡ (guest_outcome reads (lent memory.now ledger.now) registers.old address).after }
    ensures registers_after { registers.new ≡ guest_registers reads (lent memory.now ledger.now) registers.old address }
{
    load(memory, ledger, registers, Access::Read, address)
}

// Fetches a byte, to execute it.
pub fn fetch(
    memory: &[u8],
    ledger: &[u8],
    registers: &mut [u8],
    address: u32,
) -> Result<u8, Refusal>
    ensures value { answered result ≡ (guest_outcome fetches (lent memory.now ledger.now) registers.old address).answer }
    ensures byte { given result ≡ (guest_outcome fetches (lent memory.now ledger.now) registers.old address).byte }
    ensures ledger_value { lent memory.now ledger.now ≡ (guest_outcome fetches (lent memory.now ledger.now) registers.old address).after }
    ensures registers_after { registers.new ≡ guest_registers fetches (lent memory.now ledger.now) registers.old address }
{
    load(memory, ledger, registers, Access::Fetch, address)
}

// Stores the low 8 bits of the byte and clears the mark of its block (guest leaves).
#[tactic(auto, using(crate::proofs::Accesses::outcomes), unfolding(rules::specs::Guest::written, rules::specs::Guest::unmarked))]
pub fn write(
    memory: &mut [u8],
    ledger: &mut [u8],
    registers: &mut [u8],
    address: u32,
    byte: u32,
) -> Result<(), Refusal>
    ensures value { answered result ≡ (guest_outcome (writes byte) (lent memory.old ledger.old) registers.old address).answer }
    ensures ledger_after { lent memory.new ledger.new ≡ (guest_outcome (writes byte) (lent memory.old ledger.old) registers.old address).after }
    ensures registers_after { registers.new ≡ guest_registers (writes byte) (lent memory.old ledger.old) registers.old address }
{
    if is_misfit_registers(registers) {
        return Err(Refusal::Misfit);
    }
    let at = judge(memory, ledger, registers, Access::Write(byte), address)?;
    memory[at] = (byte % 0x100) as u8;
    clear_mark(ledger, at / BLOCK_BYTES);
    Ok(())
}
