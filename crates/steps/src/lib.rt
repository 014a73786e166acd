// Lists of steps: records of calls, obeyed one after the other by the monitor's calls (RULES: runner); steps_c exports the call to C.
#![tactic(auto)]

ghost use Rattle.std.specs.Prelude.{◌≡◌, length, take};
ghost use Rattle.words.specs.Lists.{put_list};
ghost use Rattle.rules.specs.Store.{lent};
ghost use Rattle.rules.specs.Upheld.{Upholds};
ghost use Rattle.steps.specs.Records.{ran, room, steps_in};

use crate::records::{RECORD_BYTES, decode};
use crate::runner::obey_record;

pub mod records; // records.rt: the step that a record holds
pub mod runner; // runner.rt: a record is obeyed
pub mod step; // step.rt: a step calls the monitor

// Obeys the records up to the first that holds no step, as many as there is room for their answers and bytes, and says how many they were (runner 1,
// runner 2). Lists 7 to 12 and 14 to 16 hold of what is left and handed out (runner 3).
// The buffers come one by one, and the answers apart from their bytes, as C lends them (include/steps.h).
pub fn pagemon_run(
    memory: &mut [u8],
    ledger: &mut [u8],
    golden: &[u8],
    records: &[u8],
    answers: &mut [u32],
    bytes: &mut [u8],
) -> usize
    ensures value { result ≡ length (steps_in records.now (room answers.old bytes.old)) }
    ensures ledger_after { lent memory.new ledger.new ≡ (ran golden.now (lent memory.old ledger.old) records.now answers.old bytes.old).reached }
    ensures answers_after { answers.new ≡ put_list answers.old 0 (ran golden.now (lent memory.old ledger.old) records.now answers.old bytes.old).answers }
    ensures bytes_after { bytes.new ≡ put_list bytes.old 0 (ran golden.now (lent memory.old ledger.old) records.now answers.old bytes.old).bytes }
    ensures upholds { Upholds golden.now (lent memory.old ledger.old) (steps_in records.now (room answers.old bytes.old)) (lent memory.new ledger.new) (take result answers.new) (take result bytes.new) }
{
    let room = answers.len().min(bytes.len());
    for i in 0..room {
        let Some(reply) = obey_record(decode(records, i * RECORD_BYTES), memory, ledger, golden)
        else {
            return i;
        };
        answers[i] = reply.answer;
        bytes[i] = reply.byte;
    }
    room
}
