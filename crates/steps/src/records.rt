// The records of a list (program 2, program 3). A place in the list stands beside it, as in step_at and spoilt, of which the clauses speak.
ghost use Rattle.std.specs.Prelude.{◌≡◌, ◌≤◌, get_or, length};
ghost use Rattle.steps.specs.Meaning.{held};
ghost use Rattle.steps.specs.Records.{step_at, step_of};
ghost use Rattle.steps.specs.Spoilt.{spoilt};

use crate::step::Step;
use words::word;

pub const RECORD_BYTES: usize = 19;

// The call byte's place in a record.
pub const CALL_PLACE: usize = 2;

// A call byte of the table.
const BEGIN: u8 = 1;

const FIRST_MARK: u8 = 0x50;

const SECOND_MARK: u8 = 0x54;

// The step of a call byte and four argument words.
#[tactic(auto, using(crate::proofs::Decoding::unlisted), unfolding(crate::specs::Records::step_of))]
fn step_of(call: u8, a: u32, b: u32, c: u32, d: u32) -> Option<Step>
    ensures { held result ≡ step_of call a b c d }
{
    match call {
        1 => Some(Step::Begin(a)),
        2 => Some(Step::CreateL1(a)),
        3 => Some(Step::CreateL2(a)),
        4 => Some(Step::FreeL1(a)),
        5 => Some(Step::FreeL2(a)),
        6 => Some(Step::MapL1(a, b, c, d)),
        7 => Some(Step::MapL2(a, b, c, d)),
        8 => Some(Step::Link(a, b, c, d)),
        9 => Some(Step::UnmapL1(a, b)),
        10 => Some(Step::UnmapL2(a, b)),
        11 => Some(Step::Switch(a)),
        12 => Some(Step::Read(a)),
        13 => Some(Step::Write(a, b)),
        14 => Some(Step::Fetch(a)),
        15 => Some(Step::MapLarge(a, b, c, d)),
        16 => Some(Step::UnmapLarge(a, b)),
        _ => None,
    }
}

// The step that the record at a place holds, if any.
#[tactic(auto, using(crate::proofs::Arrivals::step_alone, crate::proofs::Arrivals::step_short))]
pub fn decode(records: &[u8], at: usize) -> Option<Step>
    ensures { held result ≡ step_at records.now at }
{
    let last = records.len().checked_sub(RECORD_BYTES)?;
    if last < at {
        return None;
    }
    let record = &records[at..at + RECORD_BYTES];
    let [FIRST_MARK, SECOND_MARK, call, ..] = record else {
        return None;
    };
    step_of(
        *call,
        word(record, 3),
        word(record, 7),
        word(record, 11),
        word(record, 15),
    )
}

// The byte at a place, or another where there is none.
fn byte_or(bytes: &[u8], at: usize, other: u8) -> u8
    ensures { result ≡ get_or bytes.now at other }
{
    bytes.get(at).copied().unwrap_or(other)
}

// Whether no record that holds a step begins with the bytes from a place on (program 9).
#[tactic(auto, unfolding(crate::specs::Spoilt::spoilt, crate::specs::Turns::is_step))]
pub fn is_spoilt(records: &[u8], at: usize) -> bool
    requires { at ≤ length records.now }
    ensures { result ≡ spoilt records.now at }
{
    byte_or(records, at, FIRST_MARK) != FIRST_MARK
        || byte_or(records, at + 1, SECOND_MARK) != SECOND_MARK
        || step_of(byte_or(records, at + CALL_PLACE, BEGIN), 0, 0, 0, 0).is_none()
}
