// Where the forms of a word with an address and rights have their fields (entries 7, entries 8, entries 15, entries 20).
ghost use Rattle.std.specs.Prelude.{◌≡◌, ◌+◌, ◌*◌, ◌<◌, ◌≤◌};
ghost use Rattle.words.specs.Words.{bits};
ghost use Rattle.entries.specs.Rights.{accepted_ap, rights_of};

use crate::rights::rights_of;

const UNACCEPTED_AP: u32 = 0b100;

// The lowest bit of each field. AP has its third bit apart, and nG stands above S. B and C, which stand at bit 2 of each form, are left out.
#[derive(Clone, Copy)]
pub(crate) struct Layout {
    // Bits 1..0.
    pub(crate) form: u32,
    pub(crate) ap: u32,
    pub(crate) ap_high: u32,
    pub(crate) xn: u32,
    pub(crate) tex: u32,
    pub(crate) s: u32,
    ghost in_word: { (form < 4) × (ap ≤ 10) × (ap_high ≤ 15) × (xn ≤ 15) × (tex ≤ 12) × (s ≤ 16) },
}

// Bits 1..0 of a link, which has neither rights nor a kind.
pub(crate) const LINK_FORM: u32 = 0b01;

pub(crate) const SECTION: Layout = Layout {
    form: 0b10,
    ap: 10,
    ap_high: 15,
    xn: 4,
    tex: 12,
    s: 16,
};

// XN is bit 0 of the form.
pub(crate) const PAGE: Layout = Layout {
    form: 0b10,
    ap: 4,
    ap_high: 9,
    xn: 0,
    tex: 6,
    s: 10,
};

pub(crate) const LARGE: Layout = Layout {
    form: 0b01,
    ap: 4,
    ap_high: 9,
    xn: 15,
    tex: 12,
    s: 10,
};

impl Layout {
    // The access bits of a word of this form.
    pub(crate) fn access(self, w: u32) -> u32
        ensures { result ≡ 4 * bits w self.ap_high 1 + bits w self.ap 2 }
    {
        4 * words::bits(w, self.ap_high, 1) + words::bits(w, self.ap, 2)
    }

    // They are accepted (entries 9).
    pub(crate) fn is_accepted(self, w: u32) -> bool
        ensures { result ≡ accepted_ap (4 * bits w self.ap_high 1 + bits w self.ap 2) }
    {
        self.access(w) != UNACCEPTED_AP
    }

    // The rights that they give, with the execute-never bit.
    pub(crate) fn rights(self, w: u32) -> u32
        ensures { result ≡ rights_of (4 * bits w self.ap_high 1 + bits w self.ap 2) (bits w self.xn 1) }
    {
        rights_of(self.access(w), words::bits(w, self.xn, 1))
    }
}
