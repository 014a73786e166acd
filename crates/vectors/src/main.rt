// FIPS 180-4's published example messages, blocks in their places, and searches of golden images. What is printed is compared with stored output.
#![tactic(auto)]

ghost use Rattle.std.specs.Prelude.{◌<◌, ◌≤◌, length};

use signature::digest::sha_256;
use signature::golden::{block_digest, is_signed, is_signed_at};
use std::{array, fmt, io};

// A digest as it is printed, in hexadecimal digits.
#[derive(Drop)]
struct Hex([u8; 32]);

impl fmt::Display for Hex {
    fn fmt<W: fmt::Write>(&self, f: &mut fmt::Formatter<W>) -> fmt::Result {
        for b in &self.0 {
            write!(f, "{b:02x}")?;
        }
        Ok(())
    }
}

fn print_digest(rt: &impl Print, name: &str, d: [u8; 32]) -> io::Result<()> {
    println!(rt; "{name} {}", Hex(d))
}

fn print_answer(rt: &impl Print, name: &str, signed: bool) -> io::Result<()> {
    if signed {
        println!(rt; "{name} signed")
    } else {
        println!(rt; "{name} not signed")
    }
}

// The digest with its last bit turned over.
fn damaged(mut d: [u8; 32]) -> [u8; 32] {
    d[31] ^= 1;
    d
}

fn print_search(
    rt: &impl Print,
    name: &str,
    block: &[u8; 4096],
    image: &[[u8; 32]; 3],
    p: u32,
) -> io::Result<()> {
    print_answer(rt, name, is_signed(block, image.as_flattened(), p))
}

// Blocks 1, 2 and 3.
fn print_searches(rt: &impl Print, a: [u8; 4096], b: [u8; 4096], c: [u8; 4096]) -> io::Result<()> {
    let da = block_digest(&a, 1);
    let db = block_digest(&b, 2);
    let dc = block_digest(&c, 3);
    let image = [da, db, dc];
    print_search(rt, "first", &a, &image, 1)?;
    print_search(rt, "middle", &b, &image, 2)?;
    print_search(rt, "last", &c, &image, 3)?;
    print_search(rt, "first-in-the-place-of-the-middle", &a, &image, 2)?;
    print_search(rt, "middle-in-the-place-of-the-first", &b, &image, 1)?;
    let repeated = [db, da, da];
    print_search(rt, "repeated", &a, &repeated, 1)?;
    print_search(rt, "absent", &c, &repeated, 3)?;
    let wrong = [db, dc, damaged(da)];
    print_search(rt, "last-byte-differs", &a, &wrong, 1)
}

// An image that is the first n bytes of a digest.
fn print_prefix(
    rt: &impl Print,
    name: &str,
    block: &[u8],
    digest: &[u8],
    n: usize,
) -> io::Result<()>
    requires { n ≤ length digest.now }
{
    print_answer(rt, name, is_signed(block, &digest[..n], 0x104))
}

fn print_prefixes(rt: &impl Print, block: [u8; 4096]) -> io::Result<()> {
    let d = block_digest(&block, 0x104);
    print_prefix(rt, "whole-digest", &block, &d, 32)?;
    print_prefix(rt, "cut-digest", &block, &d, 31)?;
    print_prefix(rt, "empty-image", &block, &d, 0)
}

// A memory of three blocks from block 0x100 on, of which the one in the middle is altered. The image signs zeros in each place but 0x102.
fn print_places(rt: &impl Print, zeros: [u8; 4096]) -> io::Result<()> {
    let d0 = block_digest(&zeros, 0x100);
    let d1 = block_digest(&zeros, 0x101);
    let d3 = block_digest(&zeros, 0x103);
    let digests = [d0, d1, d3];
    let image = digests.as_flattened();
    let mut memory = [0u8; 12288];
    memory[4096] = 1;
    print_answer(rt, "block-0x100", is_signed_at(&memory, 0, image, 0x100))?;
    print_answer(rt, "block-0x101", is_signed_at(&memory, 4096, image, 0x101))?;
    print_answer(rt, "block-0x102", is_signed_at(&memory, 8192, image, 0x102))?;
    print_answer(
        rt,
        "as-block-0x103",
        is_signed_at(&memory, 8192, image, 0x103),
    )
}

fn print_block_digests(rt: &impl Print, zeros: [u8; 4096], b: [u8; 4096]) -> io::Result<()> {
    print_digest(rt, "block-0-of-zeros", block_digest(&zeros, 0))?;
    print_digest(rt, "block-1-of-zeros", block_digest(&zeros, 1))?;
    print_digest(rt, "block-0x104", block_digest(&b, 0x104))?;
    print_digest(rt, "block-0x1020304", block_digest(&b, 0x0102_0304))?;
    print_digest(rt, "block-0xFFFFFFFF", block_digest(&b, 0xFFFF_FFFF))?;
    print_digest(rt, "number-alone", block_digest(b"", 0x104))
}

// The bytes shift, shift + 1, .., each modulo 251.
fn block_of(shift: usize) -> [u8; 4096]
    requires { shift < 251 }
{
    array::from_fn(|i| ((i + shift) % 251) as u8)
}

fn main(rt: HostRuntime) -> io::Result<()> {
    print_digest(&rt, "abc", sha_256(b"abc"))?;
    print_digest(
        &rt,
        "448-bits",
        sha_256(b"abcdbcdecdefdefgefghfghighijhijkijkljklmklmnlmnomnopnopq"),
    )?;
    print_digest(&rt, "empty", sha_256(b""))?;
    let a = [0u8; 4096];
    let b = block_of(0);
    let c = block_of(7);
    print_digest(&rt, "zeros", sha_256(&a))?;
    print_digest(&rt, "bytes", sha_256(&b))?;
    print_block_digests(&rt, a, b)?;
    print_searches(&rt, a, b, c)?;
    print_prefixes(&rt, b)?;
    print_places(&rt, a)
}
