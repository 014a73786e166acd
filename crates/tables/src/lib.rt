// The calls that change records of the ledger and leave the memory: begin, create, free and forget.
#![tactic(auto)]

pub mod begin; // begin.rt: no block is a table
pub mod count; // count.rt: the entries of a table, in the counters
pub mod create; // create.rt: data becomes a table
pub mod forget; // forget.rt: blocks lose their marks
pub mod free; // free.rt: a table becomes data
pub mod own; // own.rt: the blocks of a table
