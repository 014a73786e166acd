// The eight memory kinds of the ledger (ledger 11, ledger 12).
ghost use Rattle.std.specs.Prelude.{◌≡◌, ◌<◌, ◌≤◌, length};
ghost use Rattle.words.specs.Lists.{put_list};
ghost use Rattle.rules.specs.Store.{kind_at, kind_count, kinds_bytes, kinds_of, kinds_place, ledger_head_bytes, unlawful_kinds};
ghost use Rattle.ledger.specs.Pieces.{unlawful_pair};

use crate::layout::{KIND_BYTES, KINDS_BYTES, KINDS_PLACE, LEDGER_HEAD_BYTES};
use words::WORD_BYTES;

const KINDS_WORDS: usize = KINDS_BYTES / WORD_BYTES;

// One of the two kinds that stand in a word has a bit above bit 6.
fn is_unlawful_pair(w: u32) -> bool
    ensures { result ≡ unlawful_pair w }
{
    words::bits(w, 7, 9) != 0 || words::bits(w, 23, 9) != 0
}

// One of eight kinds is not lawful. All are looked at, two at a time: that takes one branch, and lawful kinds are what there is.
pub fn some_unlawful(kinds: &[u8]) -> bool
    requires { length kinds.now ≡ kinds_bytes }
    ensures { result ≡ unlawful_kinds kinds.now }
{
    let mut found = false;
    for i in 0..KINDS_WORDS {
        found |= is_unlawful_pair(words::word(kinds, WORD_BYTES * i));
    }
    found
}

// One of the kinds that the ledger has is not.
pub fn some_unlawful_stored(ledger: &[u8]) -> bool
    requires { ledger_head_bytes ≤ length ledger.now }
    ensures { result ≡ unlawful_kinds (kinds_of ledger.now) }
{
    some_unlawful(&ledger[KINDS_PLACE..LEDGER_HEAD_BYTES])
}

// Kind k of the ledger.
pub fn stored_kind(ledger: &[u8], k: u32) -> u32
    requires { (ledger_head_bytes ≤ length ledger.now) × (k < kind_count) }
    ensures { result ≡ kind_at (kinds_of ledger.now) k }
{
    words::half(ledger, KINDS_PLACE + KIND_BYTES * k as usize)
}

pub fn put_kinds(ledger: &mut [u8], kinds: &[u8])
    requires { (ledger_head_bytes ≤ length ledger.old) × (length kinds.now ≡ kinds_bytes) }
    ensures { ledger.new ≡ put_list ledger.old kinds_place kinds.now }
{
    words::put_bytes(ledger, KINDS_PLACE, kinds);
}
