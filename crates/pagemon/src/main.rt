// Reads records from standard input, obeys them on 16 blocks of zeros with an image without a digest, and prints a line for each (RULES: program).
#![tactic(auto)]

use crate::conversation::converse;
use crate::output::report;

mod arrival; // arrival.rt: what arrives on the input
mod conversation; // conversation.rt: what arrives is obeyed and answered
mod output; // output.rt: the output, and standard error

const MEMORY_BYTES: usize = 65536;

const LEDGER_BYTES: usize = 344;

fn main(rt: HostRuntime) {
    let mut memory = [0u8; MEMORY_BYTES];
    let mut ledger = [0u8; LEDGER_BYTES];
    let end = converse(&mut rt.stdin(), &mut rt.stdout(), &mut memory, &mut ledger);
    report(&rt, end.state, end.obeyed);
}
