// What can be mapped: sections in an L1 table, pages and large pages in an L2 block.
ghost use Rattle.std.specs.Prelude.{◌≡◌, ◌%◌, ◌^◌, ◌<◌};
ghost use Rattle.entries.specs.Meaning.{level_of, meaning};
ghost use Rattle.entries.specs.Written.{word_of};
ghost use Rattle.rules.specs.Tables as tables;
ghost use Rattle.mapping.specs.Meaning.{form_of};
ghost use Rattle.mapping.specs.Needs.{Positive};

use entries::encode::{large_word, page_word, section_word};
use entries::entry::{Entry, LARGE_BLOCKS, Level, Mapping, RUN_WORDS, SECTION_BLOCKS};

#[derive(Clone, Copy)]
pub enum Form {
    Sections,
    Pages,
    Larges,
}

impl Form {
    pub fn level(self) -> Level
        ensures { level_of result ≡ tables.level (form_of self) }
    {
        match self {
            Form::Sections => Level::L1,
            Form::Pages | Form::Larges => Level::L2,
        }
    }

    // The blocks of a target, of which its first block is a multiple.
    pub fn target_blocks(self) -> u32
        ensures { Positive (tables.target_blocks (form_of self)) 257 result }
    {
        match self {
            Form::Sections => SECTION_BLOCKS,
            Form::Pages => 1,
            Form::Larges => LARGE_BLOCKS,
        }
    }

    // The words of a table that a mapping takes, of which its index is a multiple.
    pub fn mapping_words(self) -> u32
        ensures { Positive (tables.mapping_words (form_of self)) 1025 result }
    {
        match self {
            Form::Sections | Form::Pages => 1,
            Form::Larges => RUN_WORDS,
        }
    }

    // The entry of the first word of a mapping of these rights onto the target.
    pub fn mapping(self, target: u32, rights: u32) -> Entry
        ensures { meaning result ≡ tables.mapping (form_of self) target rights 0 }
    {
        let m = Mapping {
            first: target,
            rights,
        };
        match self {
            Form::Sections => Entry::Section(m),
            Form::Pages => Entry::Page(m),
            Form::Larges => Entry::Large(m),
        }
    }

    // The word of that entry, of this memory kind.
    pub fn mapping_word(self, kind: u32, target: u32, rights: u32) -> u32
        requires { (target < 2 ^ 20) × (target % tables.target_blocks (form_of self) ≡ 0) }
        ensures { result ≡ word_of kind (tables.mapping (form_of self) target rights 0) }
    {
        match self {
            Form::Sections => section_word(kind, target, rights),
            Form::Pages => page_word(kind, target, rights),
            Form::Larges => large_word(kind, target, rights),
        }
    }

    // The form's unmap takes the entry away.
    #[tactic(auto, unfolding(rules::specs::Tables::takes, entries::specs::Entries::is_fault, entries::specs::Entries::is_section, entries::specs::Entries::is_link, entries::specs::Entries::is_page, entries::specs::Entries::is_large))]
    pub fn takes(self, e: Entry) -> bool
        ensures { result ≡ tables.takes (form_of self) (meaning e) }
    {
        match self {
            Form::Sections => e.is_fault() || e.is_section() || e.is_link(),
            Form::Pages => e.is_fault() || e.is_page(),
            Form::Larges => e.is_large(),
        }
    }
}
