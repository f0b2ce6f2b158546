//! Iterators over set and unset positions of many chunks: in one slice, in two slices, and after a pruned prefix.
//!
//! Each iterator is compared with positions that are found one bit at a time.

ghost use Rattle.std.specs.Prelude.{◌*◌, ◌^◌, ◌<◌};

use crate::checks::{expect, expect_at, ok};
use crate::long_searches::{check_slices, in_two_slices, positions, spread_bits};
use crate::readers::between;
use bitmap_core::bitmap::readable::Readable;
use std::alloc::Global;
use std::process::Abort;

// The iterator over the set or unset positions of a range.
fn check_range<B: Readable<N>, const N: usize>(
    rt: &impl Abort,
    map: &B,
    positions: &[u64],
    bit: bool,
    start: u64,
    end: u64,
) {
    let _ = map.len();
    let want = between(positions, start, end).iter().copied();
    let is_same = if bit {
        map.ones_iter_range(start..end).eq(want)
    } else {
        map.zeros_iter_range(start..end).eq(want)
    };
    expect_at(rt, (bit, start, end, N), is_same);
}

// The iterators over the set or unset positions from, up to and around every `step`th position.
fn check_ranges<B: Readable<N>, const N: usize>(
    rt: &impl Abort,
    alloc: Global,
    map: &B,
    bit: bool,
    step: usize,
) {
    expect(rt, step > 0);
    let len = map.len();
    let found = ok(rt, positions(alloc, map, bit));
    for at in (0..len).step_by(step) {
        let near = at.saturating_add(5003);
        check_range(rt, map, found.as_slice(), bit, at, u64::MAX);
        check_range(rt, map, found.as_slice(), bit, 0, at);
        check_range(rt, map, found.as_slice(), bit, at, near);
    }
}

// Few and many of the positions of a bitmap. `step` is that of the few ones, which are set.
fn check_both<B: Readable<N>, const N: usize>(
    rt: &impl Abort,
    alloc: Global,
    map: &B,
    step: usize,
) {
    check_ranges(rt, alloc, map, true, step);
    check_ranges(rt, alloc, map, false, 199999);
}

// Bitmaps of which few bits are set, and of which many bits are set.
fn check_patterns<const N: usize>(rt: &impl Abort, alloc: Global)
    requires positive { 0 < N }
    requires fits { 8 * N < 2 ^ 64 }
{
    expect(rt, N <= 64);
    let width = 8 * N as u64;
    let map = spread_bits::<N>(rt, alloc, width * 1300 + 13, width * 600 + 1);
    let pruned = in_two_slices(rt, alloc, &map);
    check_slices(rt, &pruned);
    check_both(rt, alloc, &map, 997);
    check_both(rt, alloc, &pruned, 997);
    let map = spread_bits::<N>(rt, alloc, width * 1300 + 13, 67);
    check_both(rt, alloc, &map, 9973);
    check_both(rt, alloc, &in_two_slices(rt, alloc, &map), 9973);
}

// Iterators that read many chunks in place, at seven widths.
#[test]
fn long_iterations_at_each_width(rt: HostRuntime) {
    check_patterns::<1>(&rt, rt.alloc());
    check_patterns::<3>(&rt, rt.alloc());
    check_patterns::<7>(&rt, rt.alloc());
    check_patterns::<8>(&rt, rt.alloc());
    check_patterns::<9>(&rt, rt.alloc());
    check_patterns::<32>(&rt, rt.alloc());
    check_patterns::<64>(&rt, rt.alloc());
}
