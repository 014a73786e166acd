// The digest of a message of whole bytes (FIPS 180-4, 6.2.2), lent in one piece or in two.
ghost use Rattle.std.specs.Prelude.{◌≡◌, ◌+◌, ◌++◌, length};
ghost use Rattle.signature.specs.Message.{joined};
ghost use Rattle.signature.specs.Needs.{Paddable};
ghost use Rattle.signature.specs.Sha256.{hash, sha256};

use crate::compress::compress_block;
use crate::constants::{initial_hash, round_constants};
use crate::padding::Message;

fn hash_of(message: Message) -> [u32; 8]
    ensures { result ≡ hash (joined message.entry) }
{
    let constants = round_constants();
    let mut h = initial_hash();
    for k in 0..message.padded_len() / 64 {
        // With a name, since no proof is made of a call whose result is laid in an array that has a value.
        let next = compress_block(h, &constants, message.block_schedule(k));
        h = next;
    }
    h
}

// The digest of head and body, joined.
pub fn joined_sha_256(head: &[u8], body: &[u8]) -> [u8; 32]
    requires { Paddable (length head.now + length body.now) }
    ensures { result ≡ sha256 (head.now ++ body.now) }
{
    let h = hash_of(Message::new(head, body));
    let mut d = [0u8; 32];
    for (i, byte) in d.iter_mut().enumerate() {
        *byte = h[i / 4].to_be_bytes()[i % 4];
    }
    d
}

pub fn sha_256(m: &[u8]) -> [u8; 32]
    ensures { result ≡ sha256 m.now }
{
    joined_sha_256(&m[..0], m)
}
