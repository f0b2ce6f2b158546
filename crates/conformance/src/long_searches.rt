//! Searches and counts over many chunks: in one slice, in two slices, and after a pruned prefix.
//!
//! Each result is compared with positions that are found one bit at a time.

ghost use Rattle.std.specs.Prelude.{◌*◌, ◌^◌, ◌<◌};

use crate::checked_calls::{extend_from_bitmap, get_chunk, prune_to_bit};
use crate::checks::{equal, equal_at, expect, expect_at, ok};
use crate::readers::is_bit;
use bitmap_core::bitmap::BitMap;
use bitmap_core::bitmap::prunable::Prunable;
use bitmap_core::bitmap::readable::Readable;
use std::alloc::{AllocError, Global};
use std::process::Abort;

/// Returns the retained positions whose bit is `bit`.
pub fn positions<B: Readable<N>, const N: usize>(
    alloc: Global,
    map: &B,
    bit: bool,
) -> Result<Vec<u64>, AllocError> {
    (0..map.len())
        .filter(|it| is_bit(map, *it, bit))
        .collect(alloc)
}

// The number of ascending `positions` below `end`.
fn count_below(positions: &[u64], end: u64) -> usize {
    positions.partition_point(|it| *it < end)
}

// The last of ascending `positions` below `end`.
fn last_below(positions: &[u64], end: u64) -> Option<u64> {
    let index = count_below(positions, end).checked_sub(1)?;
    positions.get(index).copied()
}

// The searches from and to `at`, and the counts below and above it.
fn check_at<B: Readable<N>, const N: usize>(
    rt: &impl Abort,
    map: &B,
    ones: &[u64],
    zeros: &[u64],
    at: u64,
) {
    let next_one = ones.get(count_below(ones, at)).copied();
    equal_at(rt, ("next one", at, N), map.next_one(at), next_one);
    let next_zero = zeros.get(count_below(zeros, at)).copied();
    equal_at(rt, ("next zero", at, N), map.next_zero(at), next_zero);
    let before = last_below(ones, at);
    equal_at(rt, ("previous one", at, N), map.prev_one(at), before);
    let before = last_below(zeros, at);
    equal_at(rt, ("previous zero", at, N), map.prev_zero(at), before);
    let below = count_below(ones, at) as u64;
    equal_at(rt, ("below", at, N), map.count_ones_range(0..at), below);
    let above = (ones.len() as u64).saturating_sub(below);
    equal_at(
        rt,
        ("above", at, N),
        map.count_ones_range(at..u64::MAX),
        above,
    );
}

// The searches at some positions, and the selection of every `period`th set position.
fn check_long<B: Readable<N>, const N: usize>(
    rt: &impl Abort,
    alloc: Global,
    map: &B,
    period: usize,
) {
    expect(rt, period > 0);
    let len = map.len();
    let ones = ok(rt, positions(alloc, map, true));
    let zeros = ok(rt, positions(alloc, map, false));
    for at in (0..len).step_by(9973) {
        check_at(rt, map, ones.as_slice(), zeros.as_slice(), at);
    }
    for (k, position) in ones.iter().enumerate().step_by(period) {
        let selected = map.select_one(k as u64);
        equal_at(rt, ("selected", k, N), selected, Some(*position));
        check_at(rt, map, ones.as_slice(), zeros.as_slice(), *position);
        let next = position.saturating_add(1);
        check_at(rt, map, ones.as_slice(), zeros.as_slice(), next);
    }
    equal(rt, map.select_one(ones.len() as u64), None);
}

/// Returns a bitmap of `len` bits, of which every `period`th is set.
pub fn spread_bits<const N: usize>(
    rt: &impl Abort,
    alloc: Global,
    len: u64,
    period: u64,
) -> BitMap<N>
    requires positive { 0 < N }
    requires fits { 8 * N < 2 ^ 64 }
{
    expect(rt, period > 0);
    let bits: Vec<bool> = ok(rt, (0..len).map(|it| it % period == 3).collect(alloc));
    ok(rt, BitMap::from_bools(alloc, bits.as_slice()))
}

/// Returns the last 700 chunks of `map`, and its bits once more. A clone has no spare capacity, so the latter begin in the space of pruned chunks.
pub fn in_two_slices<const N: usize>(
    rt: &impl Abort,
    alloc: Global,
    map: &BitMap<N>,
) -> Prunable<N> {
    // The prover learns the bounds of `N` from this call.
    let _ = map.len();
    expect(rt, N <= 64);
    let mut grown = Prunable::<N>::new(alloc);
    extend_from_bitmap(rt, &mut grown, map);
    extend_from_bitmap(rt, &mut grown, map);
    let mut pruned = ok(rt, grown.clone());
    let first = pruned.len().saturating_sub(8 * N as u64 * 700);
    prune_to_bit(rt, &mut pruned, first);
    extend_from_bitmap(rt, &mut pruned, map);
    pruned
}

/// Fails the test unless each retained chunk is in its slice, and there are two slices.
pub fn check_slices<const N: usize>(rt: &impl Abort, map: &Prunable<N>) {
    // The prover learns the bounds of `N` from this call.
    let _ = map.len();
    let mut starts = 0u64;
    for index in map.pruned_chunks()..map.chunks_len() {
        let chunk = get_chunk(rt, map, index);
        let (chunks, first) = map.chunks_around(index);
        let place = index.wrapping_sub(first);
        expect_at(rt, (index, N), chunks.get(place) == Some(&chunk));
        starts = starts.wrapping_add(u64::from(place == 0));
    }
    equal_at(rt, N, starts, 2);
}

// Bitmaps of which few bits are set, few bits are not set, and many bits are set.
fn check_patterns<const N: usize>(rt: &impl Abort, alloc: Global)
    requires positive { 0 < N }
    requires fits { 8 * N < 2 ^ 64 }
{
    expect(rt, N <= 64);
    let width = 8 * N as u64;
    let mut map = spread_bits::<N>(rt, alloc, width * 1300 + 13, width * 600 + 1);
    let pruned = in_two_slices(rt, alloc, &map);
    check_slices(rt, &pruned);
    check_long(rt, alloc, &map, 1);
    check_long(rt, alloc, &pruned, 1);
    map.flip_all();
    check_long(rt, alloc, &map, 99991);
    check_long(rt, alloc, &in_two_slices(rt, alloc, &map), 99991);
    let map = spread_bits::<N>(rt, alloc, width * 1300 + 13, 5);
    check_long(rt, alloc, &map, 4999);
    check_long(rt, alloc, &in_two_slices(rt, alloc, &map), 4999);
}

// Searches and counts that take up to 256 chunks per step, at seven widths.
#[test]
fn long_searches_at_each_width(rt: HostRuntime) {
    check_patterns::<1>(&rt, rt.alloc());
    check_patterns::<3>(&rt, rt.alloc());
    check_patterns::<7>(&rt, rt.alloc());
    check_patterns::<8>(&rt, rt.alloc());
    check_patterns::<9>(&rt, rt.alloc());
    check_patterns::<32>(&rt, rt.alloc());
    check_patterns::<64>(&rt, rt.alloc());
}
