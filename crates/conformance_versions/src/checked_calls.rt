//! Calls that have a condition, or that allocate. Each asserts its condition first, so that callers need not prove it, and fails the test if an
//! allocation fails.

ghost use Rattle.std.specs.Prelude.{◌≡◌};
ghost use Rattle.bitmap_core.specs.PrunedBits.{pruned_bits};
ghost use Rattle.historical_bitmap.specs.View.{pending_of};

use crate::checks::ok;
use historical_bitmap::bitmap::historical::{CleanBitMap, DirtyBitMap};
use std::ops::Range;
use std::process::Abort;

/// Returns the number of pruned bits of the pending bitmap.
pub fn pending_pruned_bits<const N: usize>(rt: &impl Abort, map: &DirtyBitMap<N>) -> u64
    ensures { result ≡ pruned_bits N (pending_of N map.now) }
{
    // The prover learns the bounds of `N` from this call.
    let _ = map.len();
    let bits = (8 * N as u64).checked_mul(map.pruned_chunks() as u64);
    assert!(rt; bits.is_some());
    bits.unwrap_or(0)
}

/// Sets the bit of the pending bitmap at a retained position to `value`.
pub fn set_bit<const N: usize>(rt: &impl Abort, map: &mut DirtyBitMap<N>, bit: u64, value: bool) {
    assert!(rt; pending_pruned_bits(rt, map) <= bit && bit < map.len());
    assert!(rt; map.set_bit(bit, value).is_ok());
}

/// Sets the bits of the pending bitmap in a range of retained positions to `value`.
pub fn set_range<const N: usize>(
    rt: &impl Abort,
    map: &mut DirtyBitMap<N>,
    range: Range<u64>,
    value: bool,
) {
    assert!(rt; pending_pruned_bits(rt, map) <= range.start && range.end <= map.len());
    assert!(rt; map.set_range(range, value).is_ok());
}

/// Appends unset bits until the pending bitmap has `n` bits, if it has fewer.
pub fn extend_to<const N: usize>(rt: &impl Abort, map: &mut DirtyBitMap<N>, n: u64) {
    assert!(rt; map.extend_to(n).is_ok());
}

/// Appends the bits of a byte.
pub fn push_byte<const N: usize>(rt: &impl Abort, map: &mut DirtyBitMap<N>, byte: u8) {
    assert!(rt; u64::MAX - map.len() >= 8);
    assert!(rt; map.push_byte(byte).is_ok());
}

/// Appends the bits of a chunk.
pub fn push_chunk<const N: usize>(rt: &impl Abort, map: &mut DirtyBitMap<N>, chunk: &[u8; N]) {
    assert!(rt; u64::MAX - map.len() >= 8 * N as u64);
    assert!(rt; map.push_chunk(chunk).is_ok());
}

/// Appends `count` bits equal to `bit`.
pub fn push_run<const N: usize>(rt: &impl Abort, map: &mut DirtyBitMap<N>, count: u64, bit: bool) {
    for _ in 0..count {
        assert!(rt; map.len() < u64::MAX);
        assert!(rt; map.push(bit).is_ok());
    }
}

/// Removes and returns the last bit of the pending bitmap, which is retained.
pub fn pop<const N: usize>(rt: &impl Abort, map: &mut DirtyBitMap<N>) -> bool {
    assert!(rt; pending_pruned_bits(rt, map) < map.len());
    map.pop()
}

/// Shortens the pending bitmap to `n` bits, which is at least its pruned bits and at most its length.
pub fn truncate<const N: usize>(rt: &impl Abort, map: &mut DirtyBitMap<N>, n: u64) {
    assert!(rt; pending_pruned_bits(rt, map) <= n && n <= map.len());
    map.truncate(n);
}

/// Prunes each chunk before the one that contains `bit`, which is at most the pending length.
pub fn prune_to_bit<const N: usize>(rt: &impl Abort, map: &mut DirtyBitMap<N>, bit: u64) {
    assert!(rt; bit <= map.len());
    assert!(rt; map.prune_to_bit(bit).is_ok());
}

/// Commits at a number that is allowed.
pub fn commit<const N: usize>(rt: &impl Abort, map: DirtyBitMap<N>, number: u64) -> CleanBitMap<N> {
    match map.commit(number) {
        Ok(map) => map,
        Err((_, why)) => panic!(rt; "{number}: {why}"),
    }
}

/// Rewinds to a kept commit.
pub fn rewind<const N: usize>(rt: &impl Abort, map: CleanBitMap<N>, number: u64) -> CleanBitMap<N> {
    ok(rt, map.rewind_to(number))
}
