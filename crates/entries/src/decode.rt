// What a word of a table means: ARMv7-A short descriptors (processor 1, entries 4 to 11).
ghost use Rattle.std.specs.Prelude.{◌≡◌, false, true, ◌≢◌, ◌+◌, ◌*◌, ◌%◌};
ghost use Rattle.words.specs.Words.{bits, word};
ghost use Rattle.entries.specs.Rights.{rights_of};
ghost use Rattle.entries.specs.Entries.{entry_at, is_fault, is_large_form, is_link_form, is_page_form, is_run, is_section_form, is_unaccepted, l1, l1_entry, l2, l2_entry, large_blocks, large_xn, page_ap, page_xn, run_words, section_ap, section_blocks, section_xn, section_zeros, word_code};
ghost use Rattle.entries.specs.Entries as specified;
ghost use Rattle.entries.specs.Meaning.{level_of, meaning};
ghost use Rattle.entries.specs.Needs.{HoldsRun, HoldsWord, accepted_at, has_page_bit};

use crate::entry::{Entry, LARGE_BLOCKS, Level, Mapping, SECTION_BLOCKS};
use crate::layout::{LARGE, LINK_FORM, PAGE, SECTION};
use crate::table::page_rights_at;
use words::WORD_BYTES;

// Bits 1..0 of a fault. Those of the other forms stand in the layouts.
const FAULT_FORM: u32 = 0b00;

// The numbers of the page rights, which entries 13 fixes and `word_code` answers: from 8 on those of pages, large or not.
const FAULT_CODE: u8 = 0;

const UNACCEPTED_CODE: u8 = 7;

const LEAST_ACCEPTED: u8 = 8;

const RUN_WORDS: usize = crate::entry::RUN_WORDS as usize;

// The word is a link (entries 6).
#[tactic(auto, unfolding(crate::specs::Entries::is_link_form))]
fn is_link_form(w: u32) -> bool
    ensures { result ≡ is_link_form w }
{
    words::bits(w, 0, 2) == LINK_FORM && words::bits(w, 2, 8) == 0
}

// The bits that are 0 in a section (entries 7).
fn has_section_zeros(w: u32) -> bool
    ensures { result ≡ section_zeros w }
{
    words::bits(w, 18, 2) == 0 && words::bits(w, 5, 5) == 0
}

// The word is a section, with an AP that is accepted (entries 7, entries 9).
#[tactic(auto, unfolding(crate::specs::Entries::is_section_form))]
fn is_section_form(w: u32) -> bool
    ensures { result ≡ is_section_form w }
{
    words::bits(w, 0, 2) == SECTION.form && has_section_zeros(w) && SECTION.is_accepted(w)
}

// The first block and the rights of a section.
fn section_mapping(w: u32) -> Mapping
    ensures { (result.first ≡ section_blocks * bits w 20 12) × (result.rights ≡ rights_of (section_ap w) (section_xn w)) }
{
    Mapping {
        first: SECTION_BLOCKS * words::bits(w, 20, 12),
        rights: SECTION.rights(w),
    }
}

#[tactic(auto, unfolding(crate::specs::Entries::l1_entry))]
fn l1_entry(w: u32) -> Entry
    ensures { meaning result ≡ l1_entry w }
{
    if words::bits(w, 0, 2) == FAULT_FORM {
        return Entry::Fault;
    }
    if is_link_form(w) {
        return Entry::Link(words::bits(w, 10, 22));
    }
    if is_section_form(w) {
        return Entry::Section(section_mapping(w));
    }
    Entry::Unaccepted
}

// The word is a page, with an AP that is accepted (entries 8, entries 9).
#[tactic(auto, unfolding(crate::specs::Entries::is_page_form))]
fn is_page_form(w: u32) -> bool
    ensures { result ≡ is_page_form w }
{
    words::bits(w, 1, 1) == 1 && PAGE.is_accepted(w)
}

// The block and the rights of a page.
fn page_mapping(w: u32) -> Mapping
    requires { is_page_form w ≡ true }
    ensures { (result.first ≡ bits w 12 20) × (result.rights ≡ rights_of (page_ap w) (page_xn w)) }
{
    let code = page_rights_at(words::bits(w, 0, 10) as usize);
    Mapping {
        first: words::bits(w, 12, 20),
        rights: u32::from(code - LEAST_ACCEPTED),
    }
}

// The word has the form of a large page, with an AP that is accepted (entries 20, entries 9).
#[tactic(auto, unfolding(crate::specs::Entries::is_large_form))]
fn is_large_form(w: u32) -> bool
    ensures { result ≡ is_large_form w }
{
    words::bits(w, 0, 2) == LARGE.form && words::bits(w, 6, 3) == 0 && LARGE.is_accepted(w)
}

// The page rights of an L2 word (entries 13). The table has those of pages; for low bits 01 it has 6, since bits 9..0 do not decide there.
pub fn word_code(w: u32) -> u8
    ensures { result ≡ word_code w }
{
    let form = words::bits(w, 0, 2);
    if form == FAULT_FORM {
        FAULT_CODE
    } else if form != LARGE.form {
        page_rights_at(words::bits(w, 0, 10) as usize)
    } else if is_large_form(w) {
        LEAST_ACCEPTED + LARGE.rights(w) as u8
    } else {
        UNACCEPTED_CODE
    }
}

// A word of a lent memory that holds the aligned sixteen words around it too.
#[derive(Clone, Copy)]
struct Position<'a> {
    memory: &'a [u8],
    index: usize,
    value: u32,
    ghost holds_run: { HoldsRun memory.now index },
    ghost is_word: { value ≡ word memory.now (4 * index) },
}

impl Position<'_> {
    // The aligned sixteen words around the word are equal to it (entries 21).
    fn is_run(self) -> bool
        ensures { result ≡ is_run self.entry.memory.now self.entry.index }
    {
        let start = self.index / RUN_WORDS * RUN_WORDS;
        (0..RUN_WORDS).all(move |k| words::word(self.memory, WORD_BYTES * (start + k))
            == self.value)
    }

    // The entry of an L2 table that the word is, which is neither a fault nor a page.
    #[tactic(auto, using(crate::proofs::Decoding::entry_at_large, crate::proofs::Decoding::entry_at_unaccepted))]
    fn large_entry(self) -> Entry
        requires { (bits self.value 0 2 ≢ 0b00) × (is_page_form self.value ≡ false) }
        ensures { meaning result ≡ entry_at l2 self.entry.memory.now self.entry.index }
    {
        if is_large_form(self.value) && self.is_run() {
            Entry::Large(large_mapping(self.index, self.value))
        } else {
            Entry::Unaccepted
        }
    }

    // The entry of an L2 table that the word is.
    #[tactic(auto, using(crate::proofs::Decoding::entry_at_fault, crate::proofs::Decoding::entry_at_page))]
    fn l2_entry(self) -> Entry
        ensures { meaning result ≡ entry_at l2 self.entry.memory.now self.entry.index }
    {
        if words::bits(self.value, 0, 2) == FAULT_FORM {
            Entry::Fault
        } else if is_page_form(self.value) {
            Entry::Page(page_mapping(self.value))
        } else {
            self.large_entry()
        }
    }

    // The entry of a table of this level that the word is.
    #[tactic(auto, unfolding(crate::specs::Entries::entry_at))]
    fn entry(self, level: Level) -> Entry
        ensures { meaning result ≡ entry_at (level_of level) self.entry.memory.now self.entry.index }
    {
        match level {
            Level::L1 => l1_entry(self.value),
            Level::L2 => self.l2_entry(),
        }
    }
}

// The block and the rights of an entry of a large page, which is w and word j of the memory.
fn large_mapping(j: usize, w: u32) -> Mapping
    ensures { (result.first ≡ large_blocks * bits w 16 16 + j % run_words) × (result.rights ≡ rights_of (page_ap w) (large_xn w)) }
{
    Mapping {
        first: LARGE_BLOCKS * words::bits(w, 16, 16) + (j % RUN_WORDS) as u32,
        rights: LARGE.rights(w),
    }
}

// Word j of the memory, which is w, read as an entry of a table of this level. What is compiled apart from its callers is handed numbers, which go in
// registers: a `Position` would go through the stack.
fn entry_of(level: Level, mem: &[u8], j: usize, w: u32) -> Entry
    requires { HoldsRun mem.now j × (w ≡ word mem.now (4 * j)) }
    ensures { meaning result ≡ entry_at (level_of level) mem.now j }
{
    let position = Position {
        memory: mem,
        index: j,
        value: w,
    };
    position.entry(level)
}

// Word j of the memory, read as an entry of an L1 table. `entry_at` would ask for the words around it too.
#[tactic(auto, unfolding(crate::specs::Entries::entry_at))]
pub fn l1_entry_at(mem: &[u8], j: usize) -> Entry
    requires { HoldsWord mem.now j }
    ensures { meaning result ≡ entry_at l1 mem.now j }
{
    l1_entry(words::word(mem, WORD_BYTES * j))
}

// Word j of the memory, read as an entry of a table of whichever level, is a fault (entries 5).
pub fn is_fault_at(mem: &[u8], j: usize) -> bool
    requires { HoldsWord mem.now j }
    ensures { (v : specified.Level) → result ≡ is_fault (entry_at v mem.now j) }
{
    words::bits(words::word(mem, WORD_BYTES * j), 0, 2) == FAULT_FORM
}

// Word j of the memory, read as an entry of an L2 table. By `entry_of`, which is then compiled once, and not into the loops that call `entry_at`.
pub fn l2_entry_at(mem: &[u8], j: usize) -> Entry
    requires { HoldsRun mem.now j }
    ensures { meaning result ≡ entry_at l2 mem.now j }
{
    entry_of(Level::L2, mem, j, words::word(mem, WORD_BYTES * j))
}

// Word j of the memory, read as an entry of a table of this level. Faults, which fill most tables, are told apart first: a test that is small enough to be
// compiled into the loops over a table, as `entry_of` is not.
#[tactic(auto, using(crate::proofs::Decoding::entry_at_fault))]
pub fn entry_at(level: Level, mem: &[u8], j: usize) -> Entry
    requires { HoldsRun mem.now j }
    ensures { meaning result ≡ entry_at (level_of level) mem.now j }
{
    let w = words::word(mem, WORD_BYTES * j);
    if words::bits(w, 0, 2) == FAULT_FORM {
        return Entry::Fault;
    }
    entry_of(level, mem, j, w)
}

// A word of an L1 table that is accepted, and no fault: bits 1..0 tell a link from a section.
#[tactic(auto, using(crate::proofs::Decoding::accepted_link, crate::proofs::Decoding::accepted_section, crate::proofs::Decoding::l1_entry_link, crate::proofs::Decoding::l1_entry_section))]
fn accepted_l1_entry(w: u32) -> Entry
    requires { (bits w 0 2 ≢ 0b00) × (is_unaccepted (l1_entry w) ≡ false) }
    ensures { meaning result ≡ l1_entry w }
{
    if words::bits(w, 0, 2) == LINK_FORM {
        Entry::Link(words::bits(w, 10, 22))
    } else {
        Entry::Section(section_mapping(w))
    }
}

// Word w of an L2 table that is accepted at index j, and no fault: bit 1 tells a page from a large page.
#[tactic(auto, using(crate::proofs::Decoding::page_alone, crate::proofs::Decoding::large_alone, crate::proofs::Decoding::l2_entry_page, crate::proofs::Decoding::l2_entry_large))]
fn accepted_l2_entry(j: usize, w: u32) -> Entry
    requires { (bits w 0 2 ≢ 0b00) × (is_unaccepted (l2_entry true (j % run_words) w) ≡ false) }
    ensures { meaning result ≡ l2_entry true (j % run_words) w }
{
    if words::bits(w, 1, 1) == 1 {
        Entry::Page(page_mapping(w))
    } else {
        Entry::Large(large_mapping(j, w))
    }
}

// Word w of a table of this level that is accepted at index j: zeros, an AP of 100 and the run are not tested again.
#[tactic(auto, using(crate::proofs::Decoding::accepted_fault))]
fn accepted_entry_of(level: Level, j: usize, w: u32) -> Entry
    requires { is_unaccepted (accepted_at (level_of level) j w) ≡ false }
    ensures { meaning result ≡ accepted_at (level_of level) j w }
{
    if words::bits(w, 0, 2) == FAULT_FORM {
        return Entry::Fault;
    }
    match level {
        Level::L1 => accepted_l1_entry(w),
        Level::L2 => accepted_l2_entry(j, w),
    }
}

// Word j of the memory, read as an entry of a table of this level, where it is known to be accepted.
#[tactic(auto, using(crate::proofs::Decoding::accepted_is))]
pub fn accepted_entry(level: Level, mem: &[u8], j: usize) -> Entry
    requires holds_word { HoldsWord mem.now j }
    requires j_value { is_unaccepted (entry_at (level_of level) mem.now j) ≡ false }
    ensures { meaning result ≡ entry_at (level_of level) mem.now j }
{
    accepted_entry_of(level, j, words::word(mem, WORD_BYTES * j))
}

// At level 2, bit 1: a word that is accepted is then a page (entries 8).
fn has_page_bit(level: Level, w: u32) -> bool
    ensures { result ≡ has_page_bit (level_of level) w }
{
    match level {
        Level::L1 => false,
        Level::L2 => words::bits(w, 1, 1) == 1,
    }
}

// The same as `accepted_entry`. Faults and pages are told apart first: small enough to be compiled into the loops over a table, as `accepted_entry_of`,
// which has more than one caller, is not.
#[tactic(auto, using(crate::proofs::Decoding::entry_at_fault, crate::proofs::Decoding::accepted_is))]
pub fn accepted_entry_at(level: Level, mem: &[u8], j: usize) -> Entry
    requires holds_word { HoldsWord mem.now j }
    requires j_value { is_unaccepted (entry_at (level_of level) mem.now j) ≡ false }
    ensures { meaning result ≡ entry_at (level_of level) mem.now j }
{
    let w = words::word(mem, WORD_BYTES * j);
    if words::bits(w, 0, 2) == FAULT_FORM {
        return Entry::Fault;
    }
    if has_page_bit(level, w) {
        return Entry::Page(page_mapping(w));
    }
    accepted_entry_of(level, j, w)
}
