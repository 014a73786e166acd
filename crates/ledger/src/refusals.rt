// The refusals of the calls, by the numbers that they answer (calls 2).
ghost use Rattle.std.specs.Prelude.{◌≡◌};
ghost use Rattle.ledger.specs.Refusals.{answered, number_of};

#[derive(Clone, Copy, PartialEq, Eq)]
pub enum Refusal {
    // A length, the first block's number or a memory kind is not lawful (refusal 1).
    Misfit = 1,
    OutsideRegion = 2,
    Misaligned = 3,
    // An index, the number of a table or that of a kind is too high.
    BeyondTable = 4,
    WrongType = 5,
    // A block to be typed is counted, or a table to be freed is active or linked (create 6, free 6).
    InUse = 6,
    ExecutableHolder = 7,
    // An entry that is not accepted, or that is no fault where one is needed.
    WrongEntry = 8,
    UnlawfulRights = 9,
    // A place outside the region, or a target that may not be linked, written or executed.
    UnfitTarget = 10,
    // A block would be both writable and executable.
    Clash = 11,
    Unsigned = 12,
    // A counter would overrun (refusal 13).
    Overrun = 13,
    NoActiveTable = 21,
    FaultEntry = 22,
    RightLacking = 23,
    // An entry of a walk is not accepted or leads outside the region.
    BrokenWalk = 24,
}

impl From<Refusal> for u32 {
    ghost from_gives = { λ r n. n ≡ number_of r };

    fn from(refusal: Refusal) -> u32 {
        refusal as u32
    }
}

// The number of an accepted call.
const ACCEPTED: u32 = 0;

// The number with which a call answers.
pub fn answer<T: Drop>(outcome: Result<T, Refusal>) -> u32
    ensures { result ≡ answered outcome }
{
    match outcome {
        Ok(_) => ACCEPTED,
        Err(refusal) => u32::from(refusal),
    }
}
