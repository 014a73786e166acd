// The calls of `signature` for C (include/signature.h): each has the name and the contract of the function that it calls.
#![tactic(auto)]

ghost use Rattle.std.specs.Prelude.{◌≡◌};
ghost use Rattle.signature.specs.Sha256.{sha256};
ghost use Rattle.signature.specs.Signed.{block_digest, signed};

// The digest of a message.
#[unsafe(no_mangle)]
pub extern "C" fn signature_sha256(message: &[u8], digest: &mut [u8; 32])
    ensures { digest.new ≡ sha256 message.now }
{
    signature::signature_sha256(message, digest);
}

// The digest of block p with these contents.
#[unsafe(no_mangle)]
pub extern "C" fn signature_block_digest(contents: &[u8], p: u32, digest: &mut [u8; 32])
    ensures { digest.new ≡ block_digest p contents.now }
{
    signature::signature_block_digest(contents, p, digest);
}

// Does the golden image sign block p with these contents?
#[unsafe(no_mangle)]
pub extern "C" fn signature_is_signed(contents: &[u8], golden: &[u8], p: u32) -> bool
    ensures { result ≡ signed p contents.now golden.now }
{
    signature::signature_is_signed(contents, golden, p)
}
