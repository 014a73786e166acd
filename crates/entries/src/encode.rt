// The words that are written: place, access bits and memory kind (entries 15, entries 16).
ghost use Rattle.std.specs.Prelude.{◌≡◌, ℕ, ◌+◌, ◌*◌, ◌<◌, ◌≤◌, ◌^◌};
ghost use Rattle.entries.specs.Entries.{large, link, page, section};
ghost use Rattle.entries.specs.Written.{kind_bits, word_of, written_ap, written_xn};
ghost use Rattle.entries.specs.Needs.{IsBlock, IsLargeStart, IsSectionStart, IsTablePlace};

use crate::layout::{LARGE, LINK_FORM, Layout, PAGE, SECTION};
use crate::rights::{Right, allows};

const READ_WRITE_AP: u32 = 0b011;

const READ_AP: u32 = 0b010;

const NOTHING_AP: u32 = 0b001;

// B, and C above it, in each form.
const B: u32 = 2;

const BLOCK_BYTES: u32 = signature::golden::BLOCK_BYTES as u32;

const TABLE_BYTES: u32 = 1024;

// The access bits for rights in a call: the third, bit 9 of a page's word and bit 15 of a section's, stays clear.
#[tactic(auto, unfolding(crate::specs::Rights::allows))]
fn written_ap(rights: u32) -> u32
    ensures { (result ≡ written_ap rights) × (result < 4) }
{
    if allows(rights, Right::Write) {
        READ_WRITE_AP
    } else if allows(rights, Right::Read) {
        READ_AP
    } else {
        NOTHING_AP
    }
}

#[tactic(auto, unfolding(crate::specs::Rights::allows))]
fn written_xn(rights: u32) -> u32
    ensures { (result ≡ written_xn rights) × (result < 2) }
{
    u32::from(!allows(rights, Right::Execute))
}

// A field of three bits at most, at its place.
fn placed(field: u32, place: u32) -> u32
    requires { (field < 8) × (place ≤ 17) }
    ensures { (result ≡ 2 ^ place * field) × (result < 2 ^ 20) }
{
    field << place
}

// The bits of a memory kind at their places.
fn kind_bits(layout: Layout, kind: u32) -> u32
    ensures { (result ≡ kind_bits (2 ^ layout.tex) (2 ^ layout.s) kind) × (result < 2 ^ 22) }
{
    let s_bit = placed(words::bits(kind, 5, 1), layout.s);
    let ng_bit = placed(words::bits(kind, 6, 1), layout.s + 1);
    placed(words::bits(kind, 0, 2), B)
        + placed(words::bits(kind, 2, 3), layout.tex)
        + s_bit
        + ng_bit
}

// The bits of a word below its address.
fn low_bits(layout: Layout, kind: u32, rights: u32) -> u32
    ensures { result ≡ kind_bits (2 ^ layout.tex) (2 ^ layout.s) kind + 2 ^ layout.ap * written_ap rights + 2 ^ layout.xn * written_xn rights + layout.form }
{
    kind_bits(layout, kind)
        + placed(written_ap(rights), layout.ap)
        + placed(written_xn(rights), layout.xn)
        + layout.form
}

// The word of a page at a block.
#[tactic(auto, unfolding(crate::specs::Written::word_of, crate::specs::Written::page_bits))]
pub fn page_word(kind: u32, block: u32, rights: u32) -> u32
    requires { IsBlock block }
    ensures { result ≡ word_of kind (page block rights) }
{
    BLOCK_BYTES * block + low_bits(PAGE, kind, rights)
}

// The word of a large page that starts at a block.
#[tactic(auto, unfolding(crate::specs::Written::word_of, crate::specs::Written::large_bits))]
pub fn large_word(kind: u32, block: u32, rights: u32) -> u32
    requires { IsLargeStart block }
    ensures { result ≡ word_of kind (large block rights) }
{
    BLOCK_BYTES * block + low_bits(LARGE, kind, rights)
}

// The word of a section that starts at a block.
#[tactic(auto, unfolding(crate::specs::Written::word_of, crate::specs::Written::section_bits))]
pub fn section_word(kind: u32, block: u32, rights: u32) -> u32
    requires { IsSectionStart block }
    ensures { result ≡ word_of kind (section block rights) }
{
    BLOCK_BYTES * block + low_bits(SECTION, kind, rights)
}

// The word of a link to an L2 table, by the table's number (entries 16).
#[tactic(auto, unfolding(crate::specs::Written::word_of))]
pub fn link_word(place: u32) -> u32
    requires { IsTablePlace place }
    ensures { (kind : ℕ) → result ≡ word_of kind (link place) }
{
    TABLE_BYTES * place + LINK_FORM
}
