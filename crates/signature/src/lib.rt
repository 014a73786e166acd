// The signature of a block in its place: SHA-256 (FIPS 180-4), and the search of a golden image. signature_c exports the calls to C.
#![tactic(auto)]

mod compress;
mod constants;
pub mod digest;
mod functions;
pub mod golden;
mod padding;
mod schedule;

ghost use Rattle.std.specs.Prelude.{◌≡◌};
ghost use Rattle.signature.specs.Sha256.{sha256};
ghost use Rattle.signature.specs.Signed.{block_digest, signed};

// For C and Rust: the digest of a message.
pub fn signature_sha256(message: &[u8], digest: &mut [u8; 32])
    ensures { digest.new ≡ sha256 message.now }
{
    *digest = digest::sha_256(message);
}

// For C and Rust: the digest of block p with these contents.
pub fn signature_block_digest(contents: &[u8], p: u32, digest: &mut [u8; 32])
    ensures { digest.new ≡ block_digest p contents.now }
{
    *digest = golden::block_digest(contents, p);
}

// For C and Rust: does the golden image sign block p with these contents?
pub fn signature_is_signed(contents: &[u8], golden: &[u8], p: u32) -> bool
    ensures { result ≡ signed p contents.now golden.now }
{
    golden::is_signed(contents, golden, p)
}
