// A turn of the runner: one record is obeyed, if it holds a step.
ghost use Rattle.std.specs.Prelude.{◌≡◌, is_some};
ghost use Rattle.rules.specs.Store.{lent};
ghost use Rattle.steps.specs.Meaning.{answer_in, byte_in, held};
ghost use Rattle.steps.specs.Turns.{attempt, is_step};

use crate::step::{Reply, Step, obey};

// Obeys a record, if it holds a step; of one that holds none answer and byte are 0.
#[tactic(auto, unfolding(crate::specs::Turns::attempt, crate::specs::Turns::is_step))]
pub fn obey_record(
    next: Option<Step>,
    memory: &mut [u8],
    ledger: &mut [u8],
    golden: &[u8],
) -> Option<Reply>
    ensures obeyed_value { is_some result ≡ is_step (held next) }
    ensures answer_value { answer_in result ≡ (attempt golden.now (lent memory.old ledger.old) (held next)).answer }
    ensures byte_value { byte_in result ≡ (attempt golden.now (lent memory.old ledger.old) (held next)).byte }
    ensures ledger_after { lent memory.new ledger.new ≡ (attempt golden.now (lent memory.old ledger.old) (held next)).after }
{
    Some(obey(next?, memory, ledger, golden))
}
