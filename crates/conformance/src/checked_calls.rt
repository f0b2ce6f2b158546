//! Calls of `Prunable` that have a condition. Each asserts its condition first, so that callers need not prove it.
//!
//! A call that allocates comes in two forms: `try_push` returns the error, and `push` fails the test on an error.

ghost use Rattle.std.specs.Prelude.{◌*◌, ◌^◌, ◌<◌};

use crate::checks::ok;
use bitmap_core::bitmap::BitMap;
use bitmap_core::bitmap::prunable::Prunable;
use std::alloc::{AllocError, Global};
use std::ops::Range;
use std::process::Abort;

/// Returns the bit at a retained position.
pub fn get_bit<const N: usize>(rt: &impl Abort, map: &Prunable<N>, bit: u64) -> bool {
    assert!(rt; map.pruned_bits() <= bit && bit < map.len());
    map.get_bit(bit)
}

/// Returns a copy of the retained chunk at `index`.
pub fn get_chunk<const N: usize>(rt: &impl Abort, map: &Prunable<N>, index: usize) -> [u8; N] {
    assert!(rt; map.len() > 0 && map.pruned_chunks() <= index && index < map.chunks_len());
    *map.get_chunk(index)
}

/// Returns a copy of the chunk that contains a retained position.
pub fn chunk_at<const N: usize>(rt: &impl Abort, map: &Prunable<N>, bit: u64) -> [u8; N] {
    assert!(rt; map.pruned_bits() <= bit && bit < map.len());
    *map.get_chunk_containing(bit)
}

/// Returns a copy of the last chunk, and how many of its bits are in use. At least one bit is retained.
pub fn last_chunk<const N: usize>(rt: &impl Abort, map: &Prunable<N>) -> ([u8; N], u64) {
    assert!(rt; map.pruned_bits() < map.len());
    let (chunk, used) = map.last_chunk();
    (*chunk, used)
}

/// Sets the bit at a retained position to `value`.
pub fn set_bit<const N: usize>(rt: &impl Abort, map: &mut Prunable<N>, bit: u64, value: bool) {
    assert!(rt; map.pruned_bits() <= bit && bit < map.len());
    map.set_bit(bit, value);
}

/// Returns whether no bit of a range of retained positions is set.
pub fn is_unset<const N: usize>(rt: &impl Abort, map: &Prunable<N>, range: Range<u64>) -> bool {
    assert!(rt; map.pruned_bits() <= range.start && range.end <= map.len());
    map.is_unset(range)
}

/// Sets the bits of a range of retained positions to `value`.
pub fn set_range<const N: usize>(
    rt: &impl Abort,
    map: &mut Prunable<N>,
    range: Range<u64>,
    value: bool,
) {
    assert!(rt; map.pruned_bits() <= range.start && range.end <= map.len());
    map.set_range(range, value);
}

/// Removes and returns the last bit, which is retained.
pub fn pop<const N: usize>(rt: &impl Abort, map: &mut Prunable<N>) -> bool {
    assert!(rt; map.pruned_bits() < map.len());
    map.pop()
}

/// Shortens the bitmap to `len` bits, from the pruned bits up to the current length.
pub fn truncate<const N: usize>(rt: &impl Abort, map: &mut Prunable<N>, len: u64) {
    assert!(rt; map.pruned_bits() <= len && len <= map.len());
    map.truncate(len);
}

/// Removes and returns the last chunk, which is retained and full.
pub fn pop_chunk<const N: usize>(rt: &impl Abort, map: &mut Prunable<N>) -> [u8; N] {
    assert!(rt; map.is_chunk_aligned() && map.pruned_bits() < map.len());
    map.pop_chunk()
}

/// Prunes each chunk before the one that contains `bit`, which is at most the length.
pub fn prune_to_bit<const N: usize>(rt: &impl Abort, map: &mut Prunable<N>, bit: u64) {
    assert!(rt; bit <= map.len());
    map.prune_to_bit(bit);
}

/// Replaces the retained full chunk at `index`.
pub fn set_full_chunk<const N: usize>(
    rt: &impl Abort,
    map: &mut Prunable<N>,
    index: usize,
    chunk: &[u8; N],
) {
    assert!(rt; map.len() > 0 && map.pruned_chunks() <= index && index < map.complete_chunks());
    map.set_chunk_by_index(index, chunk);
}

/// Appends a bit.
pub fn try_push<const N: usize>(
    rt: &impl Abort,
    map: &mut Prunable<N>,
    bit: bool,
) -> Result<(), AllocError> {
    assert!(rt; map.len() < u64::MAX);
    map.push(bit)
}

/// The same, but fails the test if an allocation fails.
pub fn push<const N: usize>(rt: &impl Abort, map: &mut Prunable<N>, bit: bool) {
    ok(rt, try_push(rt, map, bit));
}

/// Appends the eight bits of a byte. The length is a multiple of eight.
pub fn try_push_byte<const N: usize>(
    rt: &impl Abort,
    map: &mut Prunable<N>,
    byte: u8,
) -> Result<(), AllocError> {
    assert!(rt; map.len() % 8 == 0 && u64::MAX - map.len() >= 8);
    map.push_byte(byte)
}

/// The same, but fails the test if an allocation fails.
pub fn push_byte<const N: usize>(rt: &impl Abort, map: &mut Prunable<N>, byte: u8) {
    ok(rt, try_push_byte(rt, map, byte));
}

/// Appends the bits of a chunk. The length is a multiple of the width of a chunk.
pub fn try_push_chunk<const N: usize>(
    rt: &impl Abort,
    map: &mut Prunable<N>,
    chunk: &[u8; N],
) -> Result<(), AllocError> {
    assert!(rt; map.is_chunk_aligned() && u64::MAX - map.len() >= 8 * N as u64);
    map.push_chunk(chunk)
}

/// The same, but fails the test if an allocation fails.
pub fn push_chunk<const N: usize>(rt: &impl Abort, map: &mut Prunable<N>, chunk: &[u8; N]) {
    ok(rt, try_push_chunk(rt, map, chunk));
}

/// Appends the bits of a dense bitmap.
pub fn try_extend_from_bitmap<const N: usize, const M: usize>(
    rt: &impl Abort,
    map: &mut Prunable<N>,
    other: &BitMap<M>,
) -> Result<(), AllocError> {
    assert!(rt; u64::MAX - map.len() >= other.len());
    map.extend_from_bitmap(other)
}

/// The same, but fails the test if an allocation fails.
pub fn extend_from_bitmap<const N: usize, const M: usize>(
    rt: &impl Abort,
    map: &mut Prunable<N>,
    other: &BitMap<M>,
) {
    ok(rt, try_extend_from_bitmap(rt, map, other));
}

/// Restores the last pruned chunks.
pub fn try_unprune<const N: usize>(
    rt: &impl Abort,
    map: &mut Prunable<N>,
    chunks: &[[u8; N]],
) -> Result<(), AllocError> {
    assert!(rt; map.len() > 0 && chunks.len() <= map.pruned_chunks());
    map.unprune(chunks)
}

/// The same, but fails the test if an allocation fails.
pub fn unprune<const N: usize>(rt: &impl Abort, map: &mut Prunable<N>, chunks: &[[u8; N]]) {
    ok(rt, try_unprune(rt, map, chunks));
}

/// Returns the bitmap of these whole chunks.
pub fn of_chunks<const N: usize>(rt: &impl Abort, alloc: Global, chunks: &[[u8; N]]) -> Prunable<N>
    requires positive { 0 < N }
    requires fits { 8 * N < 2 ^ 64 }
{
    let mut map = Prunable::new(alloc);
    for chunk in chunks {
        push_chunk(rt, &mut map, chunk);
    }
    map
}

/// Appends one bit per digit, set for `1`.
pub fn try_push_digits<const N: usize>(
    rt: &impl Abort,
    map: &mut Prunable<N>,
    digits: &[u8],
) -> Result<(), AllocError> {
    for digit in digits {
        try_push(rt, map, *digit == b'1')?;
    }
    Ok(())
}

/// The same, but fails the test if an allocation fails.
pub fn push_digits<const N: usize>(rt: &impl Abort, map: &mut Prunable<N>, digits: &[u8]) {
    ok(rt, try_push_digits(rt, map, digits));
}
