//! Calls of the historical bitmaps that have a condition. Each asserts its condition first, so that callers need not prove it.
//!
//! A call that allocates comes in two forms: `try_push` returns the error, and `push` fails the test on an error.

ghost use Rattle.std.specs.Prelude.{◌≡◌};
ghost use Rattle.bitmap_core.specs.PrunedBits.{pruned_bits};
ghost use Rattle.historical_bitmap.specs.View.{pending_of};

use crate::checks::ok;
use bitmap_core::bitmap::BitMap;
use historical_bitmap::bitmap::Readable;
use historical_bitmap::bitmap::historical::{CleanBitMap, DirtyBitMap, Error, RewindError};
use std::alloc::AllocError;
use std::ops::Range;
use std::process::Abort;
use test_support::compare::has_bits;

/// Returns the bit of the current bitmap at a retained position.
pub fn current_bit<const N: usize>(rt: &impl Abort, map: &CleanBitMap<N>, bit: u64) -> bool {
    assert!(rt; map.current().pruned_bits() <= bit && bit < map.current().len());
    map.get_bit(bit)
}

/// Returns a copy of the current bitmap's chunk that contains a retained position.
pub fn current_chunk<const N: usize>(rt: &impl Abort, map: &CleanBitMap<N>, bit: u64) -> [u8; N] {
    assert!(rt; map.current().pruned_bits() <= bit && bit < map.current().len());
    *map.get_chunk_containing(bit)
}

/// Returns the number of pruned bits of the pending bitmap.
pub fn pending_pruned_bits<const N: usize>(rt: &impl Abort, map: &DirtyBitMap<N>) -> u64
    ensures { result ≡ pruned_bits N (pending_of N map.now) }
{
    // The prover learns the bounds of `N` from this call.
    let _ = map.len();
    let bits = (8 * N as u64).checked_mul(map.pruned_chunks() as u64);
    assert!(rt; bits.is_some());
    bits.unwrap_or(0)
}

/// Returns the bit of the pending bitmap at a retained position.
pub fn pending_bit<const N: usize>(rt: &impl Abort, map: &DirtyBitMap<N>, bit: u64) -> bool {
    assert!(rt; pending_pruned_bits(rt, map) <= bit && bit < map.len());
    map.get_bit(bit)
}

/// Returns the pending bitmap's chunk that contains a retained position.
pub fn pending_chunk<const N: usize>(rt: &impl Abort, map: &DirtyBitMap<N>, bit: u64) -> [u8; N] {
    assert!(rt; pending_pruned_bits(rt, map) <= bit && bit < map.len());
    map.get_chunk(bit)
}

/// Sets the bit of the pending bitmap at a retained position to `value`.
pub fn try_set_bit<const N: usize>(
    rt: &impl Abort,
    map: &mut DirtyBitMap<N>,
    bit: u64,
    value: bool,
) -> Result<(), AllocError> {
    assert!(rt; pending_pruned_bits(rt, map) <= bit && bit < map.len());
    map.set_bit(bit, value)?;
    Ok(())
}

/// The same, but fails the test if an allocation fails.
pub fn set_bit<const N: usize>(rt: &impl Abort, map: &mut DirtyBitMap<N>, bit: u64, value: bool) {
    ok(rt, try_set_bit(rt, map, bit, value));
}

/// Sets the bits of the pending bitmap in a range of retained positions to `value`.
pub fn try_set_range<const N: usize>(
    rt: &impl Abort,
    map: &mut DirtyBitMap<N>,
    range: Range<u64>,
    value: bool,
) -> Result<(), AllocError> {
    assert!(rt; pending_pruned_bits(rt, map) <= range.start && range.end <= map.len());
    map.set_range(range, value)?;
    Ok(())
}

/// The same, but fails the test if an allocation fails.
pub fn set_range<const N: usize>(
    rt: &impl Abort,
    map: &mut DirtyBitMap<N>,
    range: Range<u64>,
    value: bool,
) {
    ok(rt, try_set_range(rt, map, range, value));
}

/// Replaces the bits of a chunk of which the pending bitmap retains a bit.
pub fn try_set_chunk<const N: usize>(
    rt: &impl Abort,
    map: &mut DirtyBitMap<N>,
    index: usize,
    chunk: &[u8; N],
) -> Result<(), AllocError> {
    // The prover learns the bounds of `N` from this call.
    let _ = map.len();
    let start = (8 * N as u64).checked_mul(index as u64);
    assert!(rt; start.is_some());
    assert!(rt; map.pruned_chunks() <= index && start.unwrap_or(0) < map.len());
    map.set_chunk(index, chunk)?;
    Ok(())
}

/// The same, but fails the test if an allocation fails.
pub fn set_chunk<const N: usize>(
    rt: &impl Abort,
    map: &mut DirtyBitMap<N>,
    index: usize,
    chunk: &[u8; N],
) {
    ok(rt, try_set_chunk(rt, map, index, chunk));
}

/// Appends a bit.
pub fn try_push<const N: usize>(
    rt: &impl Abort,
    map: &mut DirtyBitMap<N>,
    bit: bool,
) -> Result<(), AllocError> {
    assert!(rt; map.len() < u64::MAX);
    map.push(bit)?;
    Ok(())
}

/// The same, but fails the test if an allocation fails.
pub fn push<const N: usize>(rt: &impl Abort, map: &mut DirtyBitMap<N>, bit: bool) {
    ok(rt, try_push(rt, map, bit));
}

/// Appends the bits of a byte.
pub fn try_push_byte<const N: usize>(
    rt: &impl Abort,
    map: &mut DirtyBitMap<N>,
    byte: u8,
) -> Result<(), AllocError> {
    assert!(rt; u64::MAX - map.len() >= 8);
    map.push_byte(byte)?;
    Ok(())
}

/// The same, but fails the test if an allocation fails.
pub fn push_byte<const N: usize>(rt: &impl Abort, map: &mut DirtyBitMap<N>, byte: u8) {
    ok(rt, try_push_byte(rt, map, byte));
}

/// Appends the bits of a chunk.
pub fn try_push_chunk<const N: usize>(
    rt: &impl Abort,
    map: &mut DirtyBitMap<N>,
    chunk: &[u8; N],
) -> Result<(), AllocError> {
    assert!(rt; u64::MAX - map.len() >= 8 * N as u64);
    map.push_chunk(chunk)?;
    Ok(())
}

/// The same, but fails the test if an allocation fails.
pub fn push_chunk<const N: usize>(rt: &impl Abort, map: &mut DirtyBitMap<N>, chunk: &[u8; N]) {
    ok(rt, try_push_chunk(rt, map, chunk));
}

/// Appends zeros up to a length.
pub fn try_extend_to<const N: usize>(map: &mut DirtyBitMap<N>, n: u64) -> Result<(), AllocError> {
    map.extend_to(n)?;
    Ok(())
}

/// The same, but fails the test if an allocation fails.
pub fn extend_to<const N: usize>(rt: &impl Abort, map: &mut DirtyBitMap<N>, n: u64) {
    ok(rt, try_extend_to(map, n));
}

/// Appends the bits of a dense bitmap.
pub fn try_extend_from_bitmap<const N: usize>(
    rt: &impl Abort,
    map: &mut DirtyBitMap<N>,
    other: &BitMap<N>,
) -> Result<(), AllocError> {
    assert!(rt; u64::MAX - map.len() >= other.len());
    map.extend_from_bitmap(other)?;
    Ok(())
}

/// The same, but fails the test if an allocation fails.
pub fn extend_from_bitmap<const N: usize>(
    rt: &impl Abort,
    map: &mut DirtyBitMap<N>,
    other: &BitMap<N>,
) {
    ok(rt, try_extend_from_bitmap(rt, map, other));
}

/// Removes and returns the last bit of the pending bitmap, which is retained.
pub fn pop<const N: usize>(rt: &impl Abort, map: &mut DirtyBitMap<N>) -> bool {
    assert!(rt; pending_pruned_bits(rt, map) < map.len());
    map.pop()
}

/// Shortens the pending bitmap to `n` bits, which is at least its pruned bits and at most its length.
pub fn truncate<const N: usize>(rt: &impl Abort, map: &mut DirtyBitMap<N>, n: u64) {
    assert!(rt; pending_pruned_bits(rt, map) <= n && n <= map.len());
    map.truncate(n);
}

/// Prunes each chunk before the one that contains `bit`, which is at most the pending length.
pub fn try_prune_to_bit<const N: usize>(
    rt: &impl Abort,
    map: &mut DirtyBitMap<N>,
    bit: u64,
) -> Result<(), AllocError> {
    assert!(rt; bit <= map.len());
    map.prune_to_bit(bit)?;
    Ok(())
}

/// The same, but fails the test if an allocation fails.
pub fn prune_to_bit<const N: usize>(rt: &impl Abort, map: &mut DirtyBitMap<N>, bit: u64) {
    ok(rt, try_prune_to_bit(rt, map, bit));
}

/// Appends `count` bits equal to `bit`.
pub fn try_push_run<const N: usize>(
    rt: &impl Abort,
    map: &mut DirtyBitMap<N>,
    count: u64,
    bit: bool,
) -> Result<(), AllocError> {
    for _ in 0..count {
        try_push(rt, map, bit)?;
    }
    Ok(())
}

/// The same, but fails the test if an allocation fails.
pub fn push_run<const N: usize>(rt: &impl Abort, map: &mut DirtyBitMap<N>, count: u64, bit: bool) {
    ok(rt, try_push_run(rt, map, count, bit));
}

/// Removes `count` bits, all equal to `bit`.
pub fn pop_run<const N: usize>(rt: &impl Abort, map: &mut DirtyBitMap<N>, count: u64, bit: bool) {
    for _ in 0..count {
        assert_eq!(rt; pop(rt, map), bit);
    }
}

/// Commits at a number that is allowed.
pub fn try_commit<const N: usize>(
    rt: &impl Abort,
    map: DirtyBitMap<N>,
    number: u64,
) -> Result<CleanBitMap<N>, AllocError> {
    match map.commit(number) {
        Ok(map) => Ok(map),
        Err((_, why)) => {
            assert!(rt; why == Error::Memory(AllocError), "{number}");
            Err(AllocError)
        }
    }
}

/// The same, but fails the test if an allocation fails.
pub fn commit<const N: usize>(rt: &impl Abort, map: DirtyBitMap<N>, number: u64) -> CleanBitMap<N> {
    ok(rt, try_commit(rt, map, number))
}

/// Commits at a number that is not allowed, checks that the error is `why`, and returns the bitmap that it hands back.
pub fn failed_commit<const N: usize>(
    rt: &impl Abort,
    map: DirtyBitMap<N>,
    number: u64,
    why: Error,
) -> DirtyBitMap<N> {
    match map.commit(number) {
        Ok(map) => {
            assert!(rt; false, "{number}");
            map.into_dirty()
        }
        Err((map, found)) => {
            assert!(rt; found == why, "{number}");
            map
        }
    }
}

/// Rewinds to a kept commit, and fails the test if an allocation fails.
pub fn rewind<const N: usize>(rt: &impl Abort, map: CleanBitMap<N>, number: u64) -> CleanBitMap<N> {
    ok(rt, map.rewind_to(number))
}

/// Rewinds to a number that is not kept, and returns the bitmap that the error hands back.
pub fn failed_rewind<const N: usize>(
    rt: &impl Abort,
    map: CleanBitMap<N>,
    number: u64,
) -> CleanBitMap<N> {
    match map.rewind_to(number) {
        Ok(map) => {
            assert!(rt; false, "{number}");
            map
        }
        Err((map, why)) => {
            assert!(rt; why == RewindError::NoSuchCommit, "{number}");
            map
        }
    }
}

/// Returns whether the pending bitmap has `pruned_chunks` pruned chunks and the retained bits `digits`, where `1` is a set bit.
pub fn has_pending_bits<const N: usize>(
    rt: &impl Abort,
    map: &DirtyBitMap<N>,
    pruned_chunks: usize,
    digits: &[u8],
) -> bool {
    let mut at = pending_pruned_bits(rt, map);
    for digit in digits {
        if at >= map.len() || pending_bit(rt, map, at) != (*digit == b'1') {
            return false;
        }
        at = at.saturating_add(1);
    }
    at == map.len() && map.pruned_chunks() == pruned_chunks
}

/// Returns whether `number` is a kept commit whose bitmap has these pruned chunks and digits.
pub fn try_had_bits<const N: usize>(
    map: &CleanBitMap<N>,
    number: u64,
    pruned_chunks: usize,
    digits: &[u8],
) -> Result<bool, AllocError> {
    match map.get_at_commit(number)? {
        Some(old) => Ok(has_bits(&old, pruned_chunks, digits)),
        None => Ok(false),
    }
}

/// The same, but fails the test if an allocation fails.
pub fn had_bits<const N: usize>(
    rt: &impl Abort,
    map: &CleanBitMap<N>,
    number: u64,
    pruned_chunks: usize,
    digits: &[u8],
) -> bool {
    ok(rt, try_had_bits(map, number, pruned_chunks, digits))
}

/// Returns the bit of any readable bitmap at a retained position.
pub fn read_bit<B: Readable<N>, const N: usize>(rt: &impl Abort, map: &B, bit: u64) -> bool {
    assert!(rt; map.pruned_bits() <= bit && bit < map.len());
    map.get_bit(bit)
}

/// Returns whether `numbers` are the kept commits, in order.
pub fn keeps<const N: usize>(map: &CleanBitMap<N>, numbers: &[u64]) -> bool {
    map.commits().eq(numbers.iter().copied())
}
