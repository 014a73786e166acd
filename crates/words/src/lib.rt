// Words of 32 bits and numbers of 16 in lent bytes, and the mathematics of lists and bounded sums under all layers.
#![tactic(auto)]

ghost use Rattle.std.specs.Prelude.{Bool, ℕ, ◌≡◌, ◌+◌, ◌*◌, ◌^◌, ◌<◌, ◌≤◌, length};
ghost use Rattle.words.specs.Bounded.{among, any};
ghost use Rattle.words.specs.Lists.{put_list};
ghost use Rattle.words.specs.Words.{bits, half, word, put_word};

pub const WORD_BYTES: usize = 4;

// The number of two bytes at a place, the lower first.
#[tactic(auto, unfolding(crate::specs::Words::half))]
pub fn half(s: &[u8], at: usize) -> u32
    requires { at + 2 ≤ length s.now }
    ensures { result ≡ half s.now at }
{
    u16::from_le_bytes([s[at], s[at + 1]]).into()
}

// The word at a place, its lowest byte first.
#[tactic(auto, unfolding(crate::specs::Words::word))]
pub fn word(s: &[u8], at: usize) -> u32
    requires { at + 4 ≤ length s.now }
    ensures { result ≡ word s.now at }
{
    u32::from_le_bytes([s[at], s[at + 1], s[at + 2], s[at + 3]])
}

// Stores the word v at a place.
pub fn put_word(s: &mut [u8], at: usize, v: u32)
    requires { at + 4 ≤ length s.old }
    ensures { s.new ≡ put_word s.old at v }
{
    let [a, b, c, d] = v.to_le_bytes();
    s[at] = a;
    s[at + 1] = b;
    s[at + 2] = c;
    s[at + 3] = d;
}

// The n bits of v from bit lo on.
pub fn bits(v: u32, lo: u32, n: u32) -> u32
    requires { (lo < 32) × (n < 32) }
    ensures { result ≡ bits v lo n }
{
    (v >> lo) % (1 << n)
}

// Stores the bytes from a place on.
pub fn put_bytes(s: &mut [u8], at: usize, bytes: &[u8])
    requires { at + length bytes.now ≤ length s.old }
    ensures { s.new ≡ put_list s.old at bytes.now }
{
    // Not by copy_from_slice: the archives for ARMv7 take no function that returns an address (tools/portable.py).
    for i in 0..bytes.len() {
        s[at + i] = bytes[i];
    }
}

// b is one of the m numbers from p on. The end of these need not fit a word.
pub fn is_among(p: u32, m: u32, b: u32) -> bool
    ensures { result ≡ among p m b }
{
    p <= b && b - p < m
}

// Some number below m passes the test. Compiled into its callers this is a loop written out: a range's own `any` takes one or two instructions more a number.
pub fn some_below<F: Fn(usize) -> bool>(m: usize, test: F) -> bool
    requires { (i : ℕ) → i < m → F.pre test i }
    ensures { (p : ℕ → Bool) → ((i : ℕ) (b : Bool) → i < m → F.post test i b → b ≡ p i) → result ≡ any m p }
{
    for i in 0..m {
        if test(i) {
            return true;
        }
    }
    false
}
