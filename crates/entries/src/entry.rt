// What a word of a table can be (entries 4, forms 8).
ghost use Rattle.std.specs.Prelude.{◌≡◌};
ghost use Rattle.entries.specs.Entries.{cover_blocks, cover_first, is_fault, is_large, is_link, is_page, is_section, is_unaccepted, place_blocks, place_first, rights};
ghost use Rattle.entries.specs.Meaning.{meaning};

// What the guest may do in a section or a page, and its first block; for an entry of a large page, its own one of the sixteen blocks.
#[derive(Clone, Copy)]
pub struct Mapping {
    pub first: u32,
    pub rights: u32,
}

#[derive(Clone, Copy)]
pub enum Entry {
    Fault,
    // Not accepted.
    Unaccepted,
    // The number of an L2 table: its address / 1,024 (entries 6).
    Link(u32),
    Section(Mapping),
    Page(Mapping),
    Large(Mapping),
}

// The level of a table.
#[derive(Clone, Copy, PartialEq, Eq)]
pub enum Level {
    L1,
    L2,
}

pub const BLOCK_TABLES: u32 = 4;

pub const SECTION_BLOCKS: u32 = 256;

pub const LARGE_BLOCKS: u32 = 16;

// The words of a run, one for each block of a large page (entries 21).
pub const RUN_WORDS: u32 = 16;

impl Entry {
    #[tactic(auto, unfolding(crate::specs::Entries::is_fault))]
    pub fn is_fault(self) -> bool
        ensures { result ≡ is_fault (meaning self) }
    {
        matches!(self, Entry::Fault)
    }

    #[tactic(auto, unfolding(crate::specs::Entries::is_unaccepted))]
    pub fn is_unaccepted(self) -> bool
        ensures { result ≡ is_unaccepted (meaning self) }
    {
        matches!(self, Entry::Unaccepted)
    }

    #[tactic(auto, unfolding(crate::specs::Entries::is_link))]
    pub fn is_link(self) -> bool
        ensures { result ≡ is_link (meaning self) }
    {
        matches!(self, Entry::Link(_))
    }

    #[tactic(auto, unfolding(crate::specs::Entries::is_section))]
    pub fn is_section(self) -> bool
        ensures { result ≡ is_section (meaning self) }
    {
        matches!(self, Entry::Section(_))
    }

    #[tactic(auto, unfolding(crate::specs::Entries::is_page))]
    pub fn is_page(self) -> bool
        ensures { result ≡ is_page (meaning self) }
    {
        matches!(self, Entry::Page(_))
    }

    #[tactic(auto, unfolding(crate::specs::Entries::is_large))]
    pub fn is_large(self) -> bool
        ensures { result ≡ is_large (meaning self) }
    {
        matches!(self, Entry::Large(_))
    }

    #[tactic(auto, unfolding(crate::specs::Entries::rights))]
    pub fn rights(self) -> u32
        ensures { result ≡ rights (meaning self) }
    {
        match self {
            Entry::Fault | Entry::Unaccepted | Entry::Link(_) => 0,
            Entry::Section(m) | Entry::Page(m) | Entry::Large(m) => m.rights,
        }
    }

    // The first block of the entry's place (entries 17).
    #[tactic(auto, unfolding(crate::specs::Entries::place_first))]
    pub fn place_first(self) -> u32
        ensures { result ≡ place_first (meaning self) }
    {
        match self {
            Entry::Fault | Entry::Unaccepted => 0,
            Entry::Link(place) => place / BLOCK_TABLES,
            Entry::Section(m) | Entry::Page(m) => m.first,
            Entry::Large(m) => m.first / LARGE_BLOCKS * LARGE_BLOCKS,
        }
    }

    // The number of blocks of the entry's place.
    #[tactic(auto, unfolding(crate::specs::Entries::place_blocks))]
    pub fn place_blocks(self) -> u32
        ensures { result ≡ place_blocks (meaning self) }
    {
        match self {
            Entry::Fault | Entry::Unaccepted => 0,
            Entry::Link(_) | Entry::Page(_) => 1,
            Entry::Section(_) => SECTION_BLOCKS,
            Entry::Large(_) => LARGE_BLOCKS,
        }
    }

    // The first of the blocks on which the entry counts (entries 18): as of its place, but for a large page.
    #[tactic(auto, unfolding(crate::specs::Entries::cover_first))]
    pub fn cover_first(self) -> u32
        ensures { result ≡ cover_first (meaning self) }
    {
        match self {
            Entry::Fault | Entry::Unaccepted => 0,
            Entry::Link(place) => place / BLOCK_TABLES,
            Entry::Section(m) | Entry::Page(m) | Entry::Large(m) => m.first,
        }
    }

    // The number of these blocks.
    #[tactic(auto, unfolding(crate::specs::Entries::cover_blocks))]
    pub fn cover_blocks(self) -> u32
        ensures { result ≡ cover_blocks (meaning self) }
    {
        match self {
            Entry::Fault | Entry::Unaccepted => 0,
            Entry::Link(_) | Entry::Page(_) | Entry::Large(_) => 1,
            Entry::Section(_) => SECTION_BLOCKS,
        }
    }
}
