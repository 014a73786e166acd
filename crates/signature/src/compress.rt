// The compression of one block (FIPS 180-4, 6.2.2, steps 2 to 4), with hash value and schedule by value (forms 1).
ghost use Rattle.std.specs.Prelude.{◌≡◌, ◌+◌, ◌≤◌};
ghost use Rattle.signature.specs.Sha256.{K, T₁, T₂, round, rounds, compress};

use crate::functions::{big_sigma0, big_sigma1, ch, maj};

fn temp1(s: [u32; 8], k: u32, w: u32) -> u32
    ensures { result ≡ T₁ s k w }
{
    s[7].wrapping_add(big_sigma1(s[4]))
        .wrapping_add(ch(s[4], s[5], s[6]))
        .wrapping_add(k)
        .wrapping_add(w)
}

fn temp2(s: [u32; 8]) -> u32
    ensures { result ≡ T₂ s }
{
    big_sigma0(s[0]).wrapping_add(maj(s[0], s[1], s[2]))
}

fn round_of(s: [u32; 8], k: u32, w: u32) -> [u32; 8]
    ensures { result ≡ round s k w }
{
    let t1 = temp1(s, k, w);
    let t2 = temp2(s);
    [
        t1.wrapping_add(t2),
        s[0],
        s[1],
        s[2],
        s[3].wrapping_add(t1),
        s[4],
        s[5],
        s[6],
    ]
}

// That k is the table is asked for here and below: it is lent, since a static of words, whose type would say it, is no form that the archives for ARMv7
// take (tools/portable.py).
// Eight rounds from round t on: after eight, each working variable stands in its own place again.
fn eight_rounds(s: [u32; 8], k: &[u32; 64], w: &[u32; 64], t: usize) -> [u32; 8]
    requires { (k.now ≡ K) × (t + 8 ≤ 64) }
    ensures { result ≡ rounds s w.now t 8 }
{
    let mut v = s;
    // An index loop: calls of an iterator over both arrays return addresses, which tools/portable.py refuses.
    for j in 0..8 {
        let r = round_of(v, k[t + j], w[t + j]);
        v = r;
    }
    v
}

fn all_rounds(h: [u32; 8], k: &[u32; 64], w: [u32; 64]) -> [u32; 8]
    requires { k.now ≡ K }
    ensures { result ≡ rounds h w 0 64 }
{
    let mut s = h;
    for i in 0..8 {
        let r = eight_rounds(s, k, &w, 8 * i);
        s = r;
    }
    s
}

pub fn compress_block(h: [u32; 8], k: &[u32; 64], w: [u32; 64]) -> [u32; 8]
    requires { k.now ≡ K }
    ensures { result ≡ compress h w }
{
    let s = all_rounds(h, k, w);
    let mut r = [0u32; 8];
    for (j, word) in r.iter_mut().enumerate() {
        *word = s[j].wrapping_add(h[j]);
    }
    r
}
