// What the program prints of its input as it arrives (program 4 to 6, program 9).
#![tactic(auto)]

ghost use Rattle.std.specs.Prelude.{cond, [], ◌≡◌, ◌+◌, ◌-◌, ◌*◌, ◌^◌, ◌<◌, ◌≤◌, length, take};
ghost use Rattle.lines.specs.Added.{Added};
ghost use Rattle.lines.specs.Lines.{longest_line, text_of};
ghost use Rattle.lines.specs.Stored.{Stored};
ghost use Rattle.rules.specs.Store.{lent};
ghost use Rattle.steps.specs.Records.{record_bytes};
ghost use Rattle.steps.specs.Spoilt.{spoilt};
ghost use Rattle.transcript.specs.Needs.{Advance};
ghost use Rattle.transcript.specs.Sessions.{answered, count, ending, obeyed, session, told, turned};
ghost use Rattle.transcript.specs.Transcript.{batch, line_of, transcript};

use lines::{Line, Text};
use steps::pagemon_run;
use steps::records::{CALL_PLACE, RECORD_BYTES, is_spoilt};

// The calls that give a byte. Call bytes and answers stay numbers: they are those of records and of the runner, which C calls too.
const READ: u8 = 12;

const FETCH: u8 = 14;

const ACCEPTED: u32 = 0;

// The line of a call, its answer and its byte.
#[tactic(auto, unfolding(crate::specs::Transcript::line_of))]
fn line_of(call: u8, answer: u32, byte: u8) -> Line
    ensures { result ≡ line_of call answer byte }
{
    match (answer, call) {
        (ACCEPTED, READ | FETCH) => Line::AnswerWithByte(call, answer, byte),
        _ => Line::Answer(call, answer),
    }
}

// Adds the lines of the first records, of as many as there are answers. Answers and bytes come apart, as the runner gives them to C.
fn push_lines(text: &mut Text, records: &[u8], answers: &[u32], bytes: &[u8])
    requires whole_records { record_bytes * length answers.now ≤ length records.now }
    requires byte_for_each { length bytes.now ≡ length answers.now }
    requires room { text.old.end + longest_line * length answers.now ≤ length text.old.bytes.now }
    ensures same_reference { text.new.bytes.ghost_name ≡ text.old.bytes.ghost_name }
    ensures added { Added text.old text.new (transcript records.now answers.now bytes.now (length answers.now)) }
    ensures upper_bound { text.new.end ≤ text.old.end + longest_line * length answers.now }
{
    for ((record, answer), byte) in records.chunks_exact(RECORD_BYTES).zip(answers).zip(bytes) {
        text.push_line(line_of(record[CALL_PLACE], *answer, *byte));
    }
}

// The most records that are obeyed at a time.
pub const BATCH: usize = 2048;

// Obeys records up to the first that holds no step, adds their lines, and says how many they were. Memory, ledger and image are lent as to the
// runner, which C calls too.
fn obey_batch(
    memory: &mut [u8],
    ledger: &mut [u8],
    golden: &[u8],
    records: &[u8],
    text: &mut Text,
) -> usize
    requires records_len_bound { length records.now ≤ record_bytes * batch }
    requires room { text.old.end + longest_line * batch ≤ length text.old.bytes.now }
    ensures value { result ≡ count records.now }
    ensures ledger_after { lent memory.new ledger.new ≡ (obeyed golden.now (lent memory.old ledger.old) records.now).reached }
    ensures same_reference { text.new.bytes.ghost_name ≡ text.old.bytes.ghost_name }
    ensures added { Added text.old text.new (answered golden.now (lent memory.old ledger.old) records.now) }
    ensures upper_bounds { (result ≤ batch) × (record_bytes * result ≤ length records.now) × (text.new.end ≤ text.old.end + longest_line * batch) }
{
    let mut answers = [0u32; BATCH];
    let mut bytes = [0u8; BATCH];
    let obeyed = pagemon_run(memory, ledger, golden, records, &mut answers, &mut bytes);
    push_lines(text, records, &answers[..obeyed], &bytes[..obeyed]);
    obeyed
}

// Adds the line that says bad, if the bytes from a place on begin no record, and says whether.
fn judge_rest(text: &mut Text, arrived: &[u8], at: usize, obeyed: u64) -> bool
    requires at_in_bounds { at ≤ length arrived.now }
    requires room { longest_line ≤ length text.old.bytes.now - text.old.end }
    ensures value { result ≡ spoilt arrived.now at }
    ensures same_reference { text.new.bytes.ghost_name ≡ text.old.bytes.ghost_name }
    ensures added { Added text.old text.new (cond (spoilt arrived.now at) (text_of (Line.Bad obeyed)) []) }
    ensures end_in_bounds { text.new.end ≤ length text.new.bytes.now }
{
    if !is_spoilt(arrived, at) {
        return false;
    }
    text.push_line(Line::Bad(obeyed));
    true
}

// A session beside its memory and ledger, and what is to be printed: how many bytes in front of the input are not obeyed yet, how many records
// were obeyed, whether bad was said, and the place after the text (`stored` of `hear` is about the caller's bytes and this place).
#[derive(Drop)]
pub struct Heard {
    pub kept: usize,
    pub obeyed: u64,
    pub is_over: bool,
    pub end: usize,
}

// Obeys the records that stand whole in front of the input, after so many before them, stores what is to be printed, and moves the bytes that are
// left over to the front (program 9). The filled part does not come as a slice: a part of an array field cannot be lent beside other fields yet.
pub fn hear(
    memory: &mut [u8],
    ledger: &mut [u8],
    golden: &[u8],
    input: &mut [u8],
    filled: usize,
    earlier: u64,
    text: &mut [u8],
) -> Heard
    requires filled_in_bounds { (filled ≤ length input.old) × (length input.old ≤ record_bytes * batch) }
    requires batch_bound { earlier + batch < 2 ^ 64 }
    requires batch_in_bounds { longest_line * (batch + 1) ≤ length text.old }
    ensures is_over_after { session (lent memory.new ledger.new) (take result.kept input.new) result.obeyed result.is_over ≡ turned golden.now (lent memory.old ledger.old) earlier (take filled input.old) }
    ensures stored { Stored text.old 0 (told golden.now (lent memory.old ledger.old) earlier (take filled input.old)) text.new result.end }
    ensures advance { Advance earlier filled result.kept result.obeyed result.is_over }
    ensures end_in_bounds { result.end ≤ length text.new }
{
    let arrived = &input[..filled];
    let mut text = Text {
        bytes: text,
        end: 0,
    };
    let done = obey_batch(memory, ledger, golden, arrived, &mut text);
    let at = RECORD_BYTES * done;
    let obeyed = earlier + done as u64;
    let is_over = judge_rest(&mut text, arrived, at, obeyed);
    let end = text.end;
    input.copy_within(at..filled, 0);
    Heard {
        kept: filled - at,
        obeyed,
        is_over,
        end,
    }
}

// Stores what is to be printed where the input ends, with so many bytes left over (program 5, program 6).
pub fn close(kept: usize, obeyed: u64, text: &mut [u8]) -> usize
    requires { longest_line ≤ length text.old }
    ensures stored { Stored text.old 0 (ending kept obeyed) text.new result }
    ensures upper_bound { result ≤ length text.new }
{
    if kept == 0 {
        return 0;
    }
    let mut text = Text {
        bytes: text,
        end: 0,
    };
    text.push_line(Line::Bad(obeyed));
    text.end
}
