// What a word of a page table means, and what word is written.
#![tactic(auto)]

pub mod entry; // entry.rt: the cases of an entry, and what each gives
pub mod rights; // rights.rt: what rights allow, and the access bits that give them
mod layout; // layout.rt: where a word has its fields
pub mod table; // table.rt: the rights of a page by the low bits of its word
pub mod decode; // decode.rt: from a word to an entry
pub mod encode; // encode.rt: from a place and rights to the word that is written
