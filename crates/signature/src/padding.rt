// The padded message (FIPS 180-4, 5.1.1), byte by byte and block by block. The message is lent in two pieces, a head of a few bytes and a body that
// lies elsewhere: what is said of it is said of both, joined. Whole blocks of the body are read where they lie.
ghost use Rattle.std.specs.Prelude.{◌≡◌, ◌+◌, ◌^◌, ◌<◌, ◌≤◌, ◌++◌, length};
ghost use Rattle.signature.specs.Needs.{Paddable};

use crate::schedule::schedule_of;

#[derive(Clone, Copy)]
pub struct Message<'a> {
    head: &'a [u8],
    body: &'a [u8],
    ghost paddable: { Paddable (length head.now + length body.now) },
}

impl<'a> Message<'a> {
    ghost use Rattle.std.specs.Prelude.{◌≡◌, ◌+◌, ◌*◌, ◌^◌, ◌<◌, ◌≤◌, ◌++◌, length, slice_index};
    ghost use Rattle.words.specs.Lists.{part};
    ghost use Rattle.signature.specs.Needs.{Paddable};
    ghost use Rattle.signature.specs.Message.{joined};
    ghost use Rattle.signature.specs.Sha256.{zeros, big_endian, padded, schedule};

    pub fn new(head: &'a [u8], body: &'a [u8]) -> Self
        requires { Paddable (length head.now + length body.now) }
        ensures { joined result ≡ head.now ++ body.now }
    {
        Message { head, body }
    }

    fn len(self) -> usize
        ensures { result ≡ length (joined self.entry) }
    {
        self.head.len() + self.body.len()
    }

    fn zeros(self) -> usize
        ensures value { result ≡ zeros (length (joined self.entry)) }
        ensures below { result < 64 }
    {
        (119 - self.len() % 64) % 64
    }

    pub fn padded_len(self) -> usize
        ensures { result ≡ length (padded (joined self.entry)) }
    {
        self.len() + 9 + self.zeros()
    }

    fn byte(self, i: usize) -> u8
        requires { i < length (joined self) }
        ensures { result ≡ slice_index (joined self.entry) i }
    {
        let head = self.head.len();
        if i < head {
            self.head[i]
        } else {
            self.body[i - head]
        }
    }

    // Byte j of the length in bits. The standard takes a length below 2^64 bits.
    fn length_byte(self, j: usize) -> u8
        requires { j < 8 }
        ensures { result ≡ slice_index (big_endian 8 (8 * length (joined self.entry))) j }
    {
        // Shifted out, and not one of the bytes of to_be_bytes: these would be laid on the stack, at an index that tools/stack cannot bound.
        let bits = 8 * (self.len() % 0x2000_0000_0000_0000);
        ((bits >> (8 * (7 - j))) % 256) as u8
    }

    fn padded_byte(self, i: usize) -> u8
        requires { i < length (padded (joined self)) }
        ensures { result ≡ slice_index (padded (joined self.entry)) i }
    {
        let n = self.len();
        if i < n {
            return self.byte(i);
        }
        if i == n {
            return 0x80;
        }
        let e = n + 1 + self.zeros();
        if i < e {
            return 0;
        }
        self.length_byte(i - e)
    }

    fn padded_block(self, a: usize) -> [u8; 64]
        requires { a + 64 ≤ length (padded (joined self)) }
        ensures { result ≡ part (padded (joined self.entry)) a 64 }
    {
        let mut b = [0u8; 64];
        for (i, byte) in b.iter_mut().enumerate() {
            *byte = self.padded_byte(a + i);
        }
        b
    }

    // The schedule of block k. The block lies in the body if neither the head nor the padding reaches into it.
    pub fn block_schedule(self, k: usize) -> [u32; 64]
        requires { 64 * k + 64 ≤ length (padded (joined self)) }
        ensures { result ≡ schedule (part (padded (joined self.entry)) (64 * k) 64) 64 }
    {
        let a = 64 * k;
        let head = self.head.len();
        if head <= a {
            let start = a - head;
            let end = start + 64;
            if end <= self.body.len() {
                return schedule_of(&self.body[start..end]);
            }
        }
        schedule_of(&self.padded_block(a))
    }
}
