// Refusal 12 of a set of blocks: those that are not marked are hashed and counted. Bytes of the set that are 0 are passed over.
ghost use Rattle.std.specs.Prelude.{◌≡◌, ◌*◌, ◌+◌, ◌<◌, ◌≤◌};
ghost use Rattle.rules.specs.Store as store;
ghost use Rattle.ledger.specs.Regions.{store_of};
ghost use Rattle.validation.specs.Sets.{InRegionOnly, hash_number};

use crate::set::{BYTE_BITS, BlockSet};
use ledger::marks::is_marked;
use ledger::region::Region;
use ledger::scan::is_signed_block;

// 1 for a block of the set that is not marked and is signed, None for one that is neither, 0 for any other. The set has no block behind the region.
fn hash_block(region: &Region<'_>, golden: &[u8], members: &BlockSet, b: usize) -> Option<u32>
    requires { InRegionOnly (store_of region.now) members.now.bits × (b < store.most_blocks) }
    ensures { result ≡ hash_number golden.now (store_of region.now) members.now.bits b 1 }
{
    if !members.contains(b) {
        return Some(0);
    }
    if is_marked(region.ledger, b) {
        return Some(0);
    }
    let memory = region.memory;
    let first = region.base();
    if is_signed_block(memory, golden, first, first + b as u32) {
        return Some(1);
    }
    None
}

// How many blocks of byte i of the set are not marked, or None if one of these is not signed.
fn hash_eight(region: &Region<'_>, golden: &[u8], members: &BlockSet, i: usize) -> Option<u32>
    requires { InRegionOnly (store_of region.now) members.now.bits × (8 * i + 8 ≤ store.most_blocks) }
    ensures { result ≡ hash_number golden.now (store_of region.now) members.now.bits (8 * i) 8 }
{
    let mut n = 0;
    for k in 0..BYTE_BITS {
        n += hash_block(region, golden, members, BYTE_BITS * i + k)?;
    }
    Some(n)
}

// How many blocks of the set are not marked, or None if one of these is not signed. Most bytes have no block, and are passed over.
pub fn hash_members(region: &Region<'_>, golden: &[u8], members: &BlockSet) -> Option<u32>
    requires { InRegionOnly (store_of region.now) members.now.bits }
    ensures { result ≡ hash_number golden.now (store_of region.now) members.now.bits 0 (store.blocks (store_of region.now)) }
{
    let mut n = 0;
    for (i, byte) in members.bits.iter().enumerate() {
        if *byte != 0 {
            n += hash_eight(region, golden, members, i)?;
        }
    }
    Some(n)
}
