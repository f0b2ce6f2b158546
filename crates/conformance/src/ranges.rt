//! `set_range` at seven widths, on every range of a short bitmap and on some ranges of a long one, with and without a pruned prefix.

ghost use Rattle.std.specs.Prelude.{◌*◌, ◌^◌, ◌<◌};

use crate::checked_calls::{is_unset, prune_to_bit, set_range};
use crate::checks::{equal_at, expect, expect_at, ok};
use bitmap_core::bitmap::BitMap;
use bitmap_core::bitmap::prunable::Prunable;
use std::alloc::{AllocError, Global};
use std::process::Abort;

// The bit at `position` of a pattern whose period divides the bits of no chunk.
fn pattern(position: u64) -> bool {
    position % 3 == 0 || position % 7 == 2
}

fn pattern_bits(alloc: Global, len: u64) -> Result<Vec<bool>, AllocError> {
    (0..len).map(pattern).collect(alloc)
}

// A bitmap of the first `len` bits of the pattern.
fn patterned<const N: usize>(rt: &impl Abort, alloc: Global, len: u64) -> BitMap<N>
    requires positive { 0 < N }
    requires fits { 8 * N < 2 ^ 64 }
{
    let bits = ok(rt, pattern_bits(alloc, len));
    ok(rt, BitMap::from_bools(alloc, bits.as_slice()))
}

// Each range that begins at `start`, and reversed ones, on bits that all differ from `value`. The positions are also set one by one.
fn check_from<const N: usize>(
    rt: &impl Abort,
    map: &mut BitMap<N>,
    one_by_one: &mut BitMap<N>,
    start: u64,
    value: bool,
) {
    let len = map.len();
    expect(rt, start <= len && len < 10000);
    for end in 0..start + 1 {
        expect(rt, end <= map.len());
        map.set_range(start..end, value);
    }
    expect_at(rt, (start, value, N), map == one_by_one);
    for end in start + 1..len + 1 {
        expect(rt, end <= one_by_one.len() && end <= map.len());
        one_by_one.set(end - 1, value);
        map.set_range(start..end, value);
        expect_at(rt, (start, end, value, N), map == one_by_one);
        expect(rt, end <= map.len());
        map.set_range(start..end, !value);
    }
    one_by_one.set_all(!value);
}

// Each range of a chunk and 66 bits: set among zeros, and cleared among ones.
fn check_short<const N: usize>(rt: &impl Abort, alloc: Global)
    requires positive { 0 < N }
    requires fits { 8 * N < 2 ^ 64 }
{
    expect(rt, N <= 64);
    let len = 8 * N as u64 + 66;
    let mut zeros = ok(rt, BitMap::<N>::zeroes(alloc, len));
    let mut ones = ok(rt, BitMap::<N>::ones(alloc, len));
    let mut set = ok(rt, zeros.clone());
    let mut cleared = ok(rt, ones.clone());
    for start in 0..len + 1 {
        check_from(rt, &mut zeros, &mut set, start, true);
        check_from(rt, &mut ones, &mut cleared, start, false);
    }
}

// One range of `len` bits of the pattern, compared with each position.
fn check_range<const N: usize>(
    rt: &impl Abort,
    alloc: Global,
    len: u64,
    start: u64,
    end: u64,
    value: bool,
)
    requires positive { 0 < N }
    requires fits { 8 * N < 2 ^ 64 }
{
    let mut map = patterned::<N>(rt, alloc, len);
    expect(rt, end <= map.len());
    map.set_range(start..end, value);
    let expected = (0..len).map(|it| {
        if start <= it && it < end {
            value
        } else {
            pattern(it)
        }
    });
    expect_at(rt, (start, end, value, N), map.iter().eq(expected));
}

// Ranges of 33 chunks and five bits that begin and end near the ends of chunks.
fn check_long<const N: usize>(rt: &impl Abort, alloc: Global)
    requires positive { 0 < N }
    requires fits { 8 * N < 2 ^ 64 }
{
    expect(rt, N <= 64);
    let width = 8 * N as u64;
    let len = 33 * width + 5;
    for (start, end) in [
        (0, len),
        (3, len - 2),
        (width, 32 * width),
        (width - 1, 32 * width + 1),
        (width + 1, 32 * width - 1),
        (33 * width, len),
        (len, 0),
    ] {
        check_range::<N>(rt, alloc, len, start, end, true);
        check_range::<N>(rt, alloc, len, start, end, false);
    }
}

// One range of retained bits that are all zero, or a reversed one: it is set and cleared again.
fn check_retained_range<const N: usize>(
    rt: &impl Abort,
    map: &mut Prunable<N>,
    start: u64,
    end: u64,
) {
    let place = (map.pruned_chunks(), start, end, N);
    let (first, len) = (map.pruned_bits(), map.len());
    let count = end.saturating_sub(start);
    expect_at(rt, place, is_unset(rt, map, start..end));
    set_range(rt, map, start..end, true);
    equal_at(rt, place, map.count_ones(), count);
    equal_at(rt, place, is_unset(rt, map, start..end), count == 0);
    expect_at(rt, place, is_unset(rt, map, first..start));
    expect_at(rt, place, is_unset(rt, map, end.max(start)..len));
    set_range(rt, map, start..end, false);
    expect_at(rt, place, is_unset(rt, map, first..len));
}

// Each range of the retained bits, which are all zero.
fn check_retained_ranges<const N: usize>(rt: &impl Abort, map: &mut Prunable<N>) {
    let (first, len) = (map.pruned_bits(), map.len());
    expect(rt, first < len && len < 100000);
    for start in first..len + 1 {
        check_retained_range(rt, map, start, first);
        for end in start..len + 1 {
            check_retained_range(rt, map, start, end);
        }
    }
    expect(rt, map.count_zeros() == len - first);
}

// The ranges of `kept` chunks and five bits after a pruned chunk. Then the first chunk is pruned and another appended, twice, so that
// the chunks are at other places of the deque, also wrapped.
fn check_retained<const N: usize>(rt: &impl Abort, alloc: Global, kept: u64)
    requires positive { 0 < N }
    requires fits { 8 * N < 2 ^ 64 }
{
    expect(rt, N <= 64 && kept < 10);
    let width = 8 * N as u64;
    let mut map = ok(rt, Prunable::<N>::new_with_pruned_chunks(alloc, 1));
    for pruned in 1..4 {
        ok(rt, map.extend_to((pruned + kept) * width + 5));
        prune_to_bit(rt, &mut map, pruned * width);
        check_retained_ranges(rt, &mut map);
    }
}

// All ranges.
#[test]
fn each_range(rt: HostRuntime) {
    check_short::<1>(&rt, rt.alloc());
    check_short::<3>(&rt, rt.alloc());
    check_short::<7>(&rt, rt.alloc());
    check_short::<8>(&rt, rt.alloc());
    check_short::<9>(&rt, rt.alloc());
    check_short::<32>(&rt, rt.alloc());
    check_short::<64>(&rt, rt.alloc());
}

// Many whole chunks at once.
#[test]
fn ranges_of_many_chunks(rt: HostRuntime) {
    check_long::<1>(&rt, rt.alloc());
    check_long::<3>(&rt, rt.alloc());
    check_long::<7>(&rt, rt.alloc());
    check_long::<8>(&rt, rt.alloc());
    check_long::<9>(&rt, rt.alloc());
    check_long::<32>(&rt, rt.alloc());
    check_long::<64>(&rt, rt.alloc());
}

// All ranges of retained positions.
#[test]
fn retained_ranges(rt: HostRuntime) {
    check_retained::<1>(&rt, rt.alloc(), 5);
    check_retained::<3>(&rt, rt.alloc(), 2);
    check_retained::<7>(&rt, rt.alloc(), 1);
    check_retained::<8>(&rt, rt.alloc(), 1);
    check_retained::<9>(&rt, rt.alloc(), 1);
    check_retained::<32>(&rt, rt.alloc(), 1);
    check_retained::<64>(&rt, rt.alloc(), 1);
}
