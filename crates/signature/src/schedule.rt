// The message schedule of a block of 64 bytes (FIPS 180-4, 5.2.1 and 6.2.2, step 1).
ghost use Rattle.std.specs.Prelude.{◌≡◌, length, take};
ghost use Rattle.signature.specs.Sha256.{◌⊞◌, σ₀, σ₁, schedule};

use crate::functions::{small_sigma0, small_sigma1};

// W(t) from W(t - 2), W(t - 7), W(t - 15) and W(t - 16).
fn next_word(w2: u32, w7: u32, w15: u32, w16: u32) -> u32
    ensures { result ≡ σ₁ w2 ⊞ w7 ⊞ σ₀ w15 ⊞ w16 }
{
    small_sigma1(w2)
        .wrapping_add(w7)
        .wrapping_add(small_sigma0(w15))
        .wrapping_add(w16)
}

fn block_words(b: &[u8]) -> [u32; 64]
    requires { length b.now ≡ 64 }
    ensures { take 16 result ≡ schedule b.now 16 }
{
    let mut w = [0u32; 64];
    // An index loop: calls that give chunks return addresses, which tools/portable.py refuses.
    for t in 0..16 {
        let i = 4 * t;
        w[t] = u32::from_be_bytes([b[i], b[i + 1], b[i + 2], b[i + 3]]);
    }
    w
}

pub fn schedule_of(b: &[u8]) -> [u32; 64]
    requires { length b.now ≡ 64 }
    ensures { result ≡ schedule b.now 64 }
{
    let mut w = block_words(b);
    // An index loop: each word is made from words that earlier turns stored.
    for t in 16..64 {
        w[t] = next_word(w[t - 2], w[t - 7], w[t - 15], w[t - 16]);
    }
    w
}
