//! Equality of long dense bitmaps, of which one bit differs.
//!
//! The quarters of bitmaps of at least 16 KiB are compared side by side, 64 bytes of each at a time.

ghost use Rattle.std.specs.Prelude.{◌*◌, ◌^◌, ◌<◌};

use crate::checks::{expect, expect_at, ok};
use crate::long_searches::spread_bits;
use bitmap_core::bitmap::BitMap;
use std::alloc::Global;
use std::process::Abort;

// Inverts a bit of `map`, which equals `other`, for the time of two comparisons.
fn check_bit<const N: usize>(rt: &impl Abort, map: &mut BitMap<N>, other: &BitMap<N>, bit: u64) {
    expect(rt, bit < map.len());
    map.flip(bit);
    expect_at(rt, (bit, N), *map != *other && *other != *map);
    expect(rt, bit < map.len());
    map.flip(bit);
}

// Two bitmaps of `len` bits. The bits that are inverted are the last one and one in each 64 bytes.
fn check_length<const N: usize>(rt: &impl Abort, alloc: Global, len: u64)
    requires positive { 0 < N }
    requires fits { 8 * N < 2 ^ 64 }
{
    let mut map = spread_bits::<N>(rt, alloc, len, 67);
    let other = ok(rt, map.clone());
    expect_at(rt, (len, N), map == other && other == map);
    for bit in (0..len).step_by(509) {
        check_bit(rt, &mut map, &other, bit);
    }
    check_bit(rt, &mut map, &other, len.saturating_sub(1));
    expect_at(rt, (len, N), map == other && other == map);
}

// Bitmaps of a byte less than 16 KiB, of 16 KiB, and of almost 256 bytes more, which are left after the quarters.
fn check_lengths<const N: usize>(rt: &impl Abort, alloc: Global)
    requires positive { 0 < N }
    requires fits { 8 * N < 2 ^ 64 }
{
    check_length::<N>(rt, alloc, 131064);
    check_length::<N>(rt, alloc, 131072);
    check_length::<N>(rt, alloc, 133109);
}

#[test]
fn long_equality_at_each_width(rt: HostRuntime) {
    check_lengths::<1>(&rt, rt.alloc());
    check_lengths::<3>(&rt, rt.alloc());
    check_lengths::<8>(&rt, rt.alloc());
    check_lengths::<64>(&rt, rt.alloc());
}
