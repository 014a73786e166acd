// Whether the entries of a table may stand: their forms, places, targets, clashes and signatures.
#![tactic(auto)]

pub mod cover; // cover.rt: tests of the blocks that one entry covers
pub mod executed; // executed.rt: refusals 11 and 12 where some entry executes, and the marks of what is executed
pub mod finding; // finding.rt: what is found of an entry
pub mod hash; // hash.rt: the blocks of a set are hashed
pub mod refusal; // refusal.rt: the refusals of a whole table
pub mod set; // set.rt: a set of blocks
pub mod survey; // survey.rt: one look at all the entries of a table
pub mod table; // table.rt: the entries of a table
pub mod target; // target.rt: tests of one entry against the ledger
