//! Helpers for dense bitmaps: one made from digits, its bits and its hash.

ghost use Rattle.std.specs.Prelude.{◌*◌, ◌^◌, ◌<◌};

use crate::checks::ok;
use bitmap_core::bitmap::BitMap;
use std::alloc::{AllocError, Global};
use std::hash::{DefaultHasher, Hash, Hasher};
use std::process::Abort;

/// Returns whether the bits of `map` are those of `first` followed by those of `then`.
pub fn holds<const N: usize>(map: &BitMap<N>, first: &[bool], then: &[bool]) -> bool {
    map.iter().eq(first.iter().chain(then).copied())
}

/// Returns the hash of a bitmap.
pub fn hash_of<const N: usize>(map: &BitMap<N>) -> u64 {
    let mut state = DefaultHasher::new();
    map.hash(&mut state);
    state.finish()
}

// One bit per digit, set for `1`.
fn bits(alloc: Global, digits: &[u8]) -> Result<Vec<bool>, AllocError> {
    digits.iter().map(|digit| *digit == b'1').collect(alloc)
}

/// Returns a bitmap with one bit per digit, set for `1`.
pub fn bitmap<const N: usize>(rt: &impl Abort, alloc: Global, digits: &[u8]) -> BitMap<N>
    requires positive { 0 < N }
    requires fits { 8 * N < 2 ^ 64 }
{
    let bits = ok(rt, bits(alloc, digits));
    ok(rt, BitMap::from_bools(alloc, bits.as_slice()))
}
