// The guest's read, write and fetch of a byte through the tables, and the registers that tell of their faults.
#![tactic(auto)]

pub mod access;
pub mod registers;
pub mod walk;
