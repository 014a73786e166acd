// The fault registers (RULES: registers, acknowledge).
ghost use Rattle.std.specs.Int.{from_bool};
ghost use Rattle.std.specs.Prelude.{◌≡◌, length};
ghost use Rattle.rules.specs.Registers.{acknowledge_outcome, acknowledge_registers, address_place, fault_code, misfit_registers, put_fault, registers_bytes, status_place, status_word};
ghost use Rattle.rules.specs.Store.{Store};
ghost use Rattle.ledger.specs.Refusals.{answered, given};
ghost use Rattle.guest.specs.Meaning.{abort_of, fault_of};

use entries::entry::Level;
use ledger::refusals::Refusal;
use words::put_word;

// A slice of this length, and no array: the archives for ARMv7 take no function that returns an address (tools/portable.py), as as_mut_array does.
pub const REGISTERS_BYTES: usize = 17;

const DFSR: usize = 0;

const DFAR: usize = 4;

const IFSR: usize = 8;

const IFAR: usize = 12;

const PENDING: usize = 16;

// What a fault becomes: of a read or a write a data abort, of a fetch a prefetch abort.
#[derive(Clone, Copy)]
pub enum Abort {
    Data,
    Prefetch,
}

impl Abort {
    // Where its status and its address stand.
    fn places(self) -> (usize, usize)
        ensures { (result.0 ≡ status_place (abort_of self)) × (result.1 ≡ address_place (abort_of self)) }
    {
        match self {
            Abort::Data => (DFSR, DFAR),
            Abort::Prefetch => (IFSR, IFAR),
        }
    }
}

// A fault at an entry of a level (registers 2).
#[derive(Clone, Copy)]
pub enum Fault {
    Translation(Level),
    Permission(Level),
}

impl Fault {
    // ARM's code of it (registers 3).
    pub fn code(self) -> u32
        ensures { result ≡ fault_code (fault_of self) }
    {
        match self {
            Fault::Translation(Level::L1) => 0b00101,
            Fault::Translation(Level::L2) => 0b00111,
            Fault::Permission(Level::L1) => 0b01101,
            Fault::Permission(Level::L2) => 0b01111,
        }
    }
}

// The status of a code (registers 4).
#[tactic(auto, unfolding(rules::specs::Registers::status_word))]
pub fn status_word(code: u32, write: bool) -> u32
    ensures { result ≡ status_word code (from_bool write) }
{
    words::bits(code, 0, 4) + words::bits(code, 4, 1) * 0x400 + u32::from(write) * 0x800
}

// Stores a fault: its status, its address, and that it is pending (registers 6).
#[tactic(auto, unfolding(rules::specs::Registers::put_fault))]
pub fn put_fault(registers: &mut [u8], abort: Abort, status: u32, address: u32)
    requires { length registers.old ≡ registers_bytes }
    ensures { registers.new ≡ put_fault registers.old (abort_of abort) status address }
{
    let (status_at, address_at) = abort.places();
    put_word(registers, status_at, status);
    put_word(registers, address_at, address);
    registers[PENDING] = 1;
}

// Their length is not that of the registers (refusal 1).
pub fn is_misfit_registers(registers: &[u8]) -> bool
    ensures { result ≡ misfit_registers registers.now }
{
    registers.len() != REGISTERS_BYTES
}

// Gives the pending byte as it was, and makes it 0 (acknowledge byte, acknowledge leaves).
pub fn acknowledge(registers: &mut [u8]) -> Result<u8, Refusal>
    ensures value { (s : Store) → answered result ≡ (acknowledge_outcome s registers.old).answer }
    ensures pending { (s : Store) → given result ≡ (acknowledge_outcome s registers.old).byte }
    ensures registers_after { registers.new ≡ acknowledge_registers registers.old }
{
    if is_misfit_registers(registers) {
        return Err(Refusal::Misfit);
    }
    let pending = registers[PENDING];
    registers[PENDING] = 0;
    Ok(pending)
}
