// The ledger in lent bytes: its words, its counters and marks, and the tests that many calls share.
#![tactic(auto)]

pub mod bounds; // bounds.rt: whether counters are within bounds
pub mod counters; // counters.rt: what an entry adds to the counters or takes away
pub mod image; // image.rt: the refusals of a golden image
pub mod kinds; // kinds.rt: the eight memory kinds
pub mod layout; // layout.rt: where the ledger keeps what
pub mod marks; // marks.rt: which blocks are marked
pub mod refusals; // refusals.rt: the numbers that the calls answer
pub mod region; // region.rt: refusal 1, and places in the region
pub mod scan; // scan.rt: tests of adjacent blocks
pub mod table; // table.rt: where a table lies and its type
