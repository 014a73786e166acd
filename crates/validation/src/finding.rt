// What is found of an entry, and of a table: the greatest of what is found of its entries, which decides.
#[derive(Clone, Copy, PartialEq, Eq, PartialOrd, Ord)]
pub enum Finding {
    Fine,
    Executes,
    // It writes where the ledger has execute counted, or the other way round (create 11).
    MeetsCount,
    // Its place or its target is unfit (create 10, free 10).
    Misplaced,
    // It is not accepted (create 8, free 8).
    Unaccepted,
}
