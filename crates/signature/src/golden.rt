// The digest of a block in its place, and the golden image: its length, and the search for a digest.
ghost use Rattle.std.specs.Prelude.{◌≡◌, ◌+◌, ◌≤◌, length};
ghost use Rattle.words.specs.Lists.{part};
ghost use Rattle.signature.specs.Signed.{block_bytes, block_digest, listed, misfit_image, signed};

use crate::digest::joined_sha_256;

pub const BLOCK_BYTES: usize = 4096;

const DIGEST_BYTES: usize = 32;

const MOST_DIGESTS: usize = 1024;

// The image has part of a digest, or too many (signature 2).
pub fn is_misfit_image(golden: &[u8]) -> bool
    ensures { result ≡ misfit_image golden.now }
{
    !golden.len().is_multiple_of(DIGEST_BYTES) || golden.len() / DIGEST_BYTES > MOST_DIGESTS
}

fn is_listed(digest: &[u8; DIGEST_BYTES], golden: &[u8]) -> bool
    ensures { result ≡ listed digest.now golden.now }
{
    let mut found = false;
    // Index loops: calls that give chunks, or compare slices, return and store addresses, which tools/portable.py refuses.
    'search: for k in 0..golden.len() / DIGEST_BYTES {
        for j in 0..DIGEST_BYTES {
            if digest[j] != golden[DIGEST_BYTES * k + j] {
                continue 'search;
            }
        }
        found = true;
        break 'search;
    }
    found
}

// The digest of block p. Its number stands apart from the contents, which stay where they are.
pub fn block_digest(contents: &[u8], p: u32) -> [u8; 32]
    ensures { result ≡ block_digest p contents.now }
{
    joined_sha_256(&p.to_be_bytes(), contents)
}

pub fn is_signed(contents: &[u8], golden: &[u8], p: u32) -> bool
    ensures { result ≡ signed p contents.now golden.now }
{
    is_listed(&block_digest(contents, p), golden)
}

// Block p is signed, with the contents that start at byte a of the memory.
pub fn is_signed_at(memory: &[u8], a: usize, golden: &[u8], p: u32) -> bool
    requires { a + block_bytes ≤ length memory.now }
    ensures { result ≡ signed p (part memory.now a block_bytes) golden.now }
{
    is_signed(&memory[a..a + BLOCK_BYTES], golden, p)
}
