// Refusals 8, 10, 11 and 12 of a table's m entries from word j of the memory on: a lower number of any entry comes before a higher one of any other.
ghost use Rattle.std.specs.Prelude.{IfOk, ◌≡◌};
ghost use Rattle.entries.specs.Meaning.{level_of};
ghost use Rattle.rules.specs.Refusals.{answer_of};
ghost use Rattle.ledger.specs.Refusals.{answered};
ghost use Rattle.ledger.specs.Regions.{store_of};
ghost use Rattle.validation.specs.Needs.{HoldsWords};
ghost use Rattle.validation.specs.Pieces.{new_entries, old_entries};
ghost use Rattle.validation.specs.Sets.{Admitted, EmptySet};
ghost use Rattle.validation.specs.Tests.{entry_from};

use crate::finding::Finding;
use crate::set::BlockSet;
use crate::table::Table;
use entries::entry::Level;
use ledger::refusals::Refusal;
use ledger::region::Region;

// The table is created at a block. If it may be, the set, empty before, is that of the blocks that its entries execute, and the number is that of those
// that are not marked.
pub fn check_new_entries(
    level: Level,
    region: &Region<'_>,
    golden: &[u8],
    members: &mut BlockSet,
    block: u32,
    j: usize,
    m: usize,
) -> Result<u32, Refusal>
    requires holds_words { HoldsWords region.now.memory.now j m }
    requires empty { EmptySet members.old.bits }
    ensures value { answered result ≡ answer_of (new_entries (level_of level) golden.now (store_of region.now) block m (entry_from (level_of level) region.now.memory.now j)) }
    ensures admitted { IfOk result (λ n. Admitted (store_of region.now) m (entry_from (level_of level) region.now.memory.now j) members.new.bits n) }
{
    let table = Table {
        level,
        region: *region,
        first: j,
        entries: m,
    };
    let survey = table.survey_new(block, members);
    match survey.found {
        Finding::Unaccepted => Err(Refusal::WrongEntry),
        Finding::Misplaced => Err(Refusal::UnfitTarget),
        Finding::MeetsCount => Err(Refusal::Clash),
        Finding::Executes => table.check_executed(golden, members, survey.writes),
        Finding::Fine => Ok(0),
    }
}

// The table is freed.
pub fn check_old_entries(
    level: Level,
    region: &Region<'_>,
    j: usize,
    m: usize,
) -> Result<(), Refusal>
    requires { HoldsWords region.now.memory.now j m }
    ensures { answered result ≡ answer_of (old_entries (store_of region.now) m (entry_from (level_of level) region.now.memory.now j)) }
{
    let table = Table {
        level,
        region: *region,
        first: j,
        entries: m,
    };
    match table.survey_old() {
        Finding::Unaccepted => Err(Refusal::WrongEntry),
        Finding::Misplaced => Err(Refusal::UnfitTarget),
        _ => Ok(()),
    }
}
