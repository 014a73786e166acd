// One step: a call of the monitor with its arguments.
ghost use Rattle.std.specs.Prelude.{◌≡◌};
ghost use Rattle.rules.specs.Registers.{clear_registers};
ghost use Rattle.rules.specs.Steps.{obey};
ghost use Rattle.rules.specs.Store.{lent};
ghost use Rattle.steps.specs.Meaning.{meaning};

// The fault registers that a guest step is lent (runner 2).
const CLEAR_REGISTERS: [u8; 17] = [0; 17];

// The calls in the order of their call bytes, with their arguments in the order of a record's words.
#[derive(Clone, Copy)]
pub enum Step {
    Begin(u32),
    CreateL1(u32),
    CreateL2(u32),
    FreeL1(u32),
    FreeL2(u32),
    // Block, index, target and rights.
    MapL1(u32, u32, u32, u32),
    MapL2(u32, u32, u32, u32),
    // Block, index, target block and table.
    Link(u32, u32, u32, u32),
    // Block and index.
    UnmapL1(u32, u32),
    UnmapL2(u32, u32),
    Switch(u32),
    Read(u32),
    // Address and byte.
    Write(u32, u32),
    Fetch(u32),
    // As MapL2 and UnmapL2.
    MapLarge(u32, u32, u32, u32),
    UnmapLarge(u32, u32),
}

// A step's answer and the byte that it gives. Where it gives none, 0 stands there, as in the buffer of bytes that C lends.
#[derive(Clone, Copy)]
pub struct Reply {
    pub answer: u32,
    pub byte: u8,
}

// Obeys a step; a guest step is lent fault registers of its own. How many blocks it hashed and what the registers tell is not handed on.
// Memory, ledger and image are three parameters, since each arm hands them to a call of the monitor one by one.
pub fn obey(step: Step, memory: &mut [u8], ledger: &mut [u8], golden: &[u8]) -> Reply
    ensures answer_value { result.answer ≡ (obey golden.now (lent memory.old ledger.old) (meaning step)).answer }
    ensures byte_value { result.byte ≡ (obey golden.now (lent memory.old ledger.old) (meaning step)).byte }
    ensures ledger_after { lent memory.new ledger.new ≡ (obey golden.now (lent memory.old ledger.old) (meaning step)).after }
{
    let mut registers = CLEAR_REGISTERS;
    let mut byte = 0;
    let mut hashed = 0;
    let answer = match step {
        Step::Begin(first) => monitor::pagemon_begin(memory, ledger, first),
        Step::CreateL1(block) => monitor::pagemon_create_l1(
            memory,
            ledger,
            golden,
            block,
            &mut hashed,
        ),
        Step::CreateL2(block) => monitor::pagemon_create_l2(
            memory,
            ledger,
            golden,
            block,
            &mut hashed,
        ),
        Step::FreeL1(block) => monitor::pagemon_free_l1(memory, ledger, block),
        Step::FreeL2(block) => monitor::pagemon_free_l2(memory, ledger, block),
        Step::MapL1(block, index, target, rights) => monitor::pagemon_map_l1(
            memory,
            ledger,
            golden,
            block,
            index,
            target,
            rights,
            &mut hashed,
        ),
        Step::MapL2(block, index, target, rights) => monitor::pagemon_map_l2(
            memory,
            ledger,
            golden,
            block,
            index,
            target,
            rights,
            &mut hashed,
        ),
        Step::Link(block, index, target, table) => monitor::pagemon_link(
            memory, ledger, block, index, target, table,
        ),
        Step::UnmapL1(block, index) => monitor::pagemon_unmap_l1(memory, ledger, block, index),
        Step::UnmapL2(block, index) => monitor::pagemon_unmap_l2(memory, ledger, block, index),
        Step::Switch(block) => monitor::pagemon_switch(memory, ledger, block),
        Step::Read(address) => monitor::pagemon_read(
            memory,
            ledger,
            &mut registers,
            address,
            &mut byte,
        ),
        Step::Write(address, byte) => monitor::pagemon_write(
            memory,
            ledger,
            &mut registers,
            address,
            byte,
        ),
        Step::Fetch(address) => monitor::pagemon_fetch(
            memory,
            ledger,
            &mut registers,
            address,
            &mut byte,
        ),
        Step::MapLarge(block, index, target, rights) => monitor::pagemon_map_large(
            memory,
            ledger,
            golden,
            block,
            index,
            target,
            rights,
            &mut hashed,
        ),
        Step::UnmapLarge(block, index) => monitor::pagemon_unmap_large(
            memory, ledger, block, index,
        ),
    };
    Reply { answer, byte }
}
