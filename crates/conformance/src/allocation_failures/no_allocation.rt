//! Calls that do not allocate.
//!
//! All allocations of a scenario here are those of its set-up. A table of the tools has their number, so a new allocation of a
//! call is noticed there, whether or not the call returns the error.

ghost use Rattle.std.specs.Prelude.{◌*◌, ◌^◌, ◌<◌};

mod codec;
mod pruned;
mod readable;

use crate::checks::{equal, expect};
use crate::dense_helpers::{hash_of, holds};
use bitmap_core::bitmap::BitMap;
use std::alloc::Global;
use std::fmt;
use std::fmt::Write;
use std::process::Abort;

// A sink for text that keeps only its length.
#[derive(Drop)]
struct Length {
    bytes: usize,
}

impl Write for Length {
    fn write_str(&mut self, s: &str) -> fmt::Result {
        self.bytes = self.bytes.wrapping_add(s.len());
        Ok(())
    }
}

// A bitmap of `len` bits, every third of them set, or `None` if an allocation fails.
fn thirds<const N: usize>(rt: &impl Abort, alloc: Global, len: u64) -> Option<BitMap<N>>
    requires positive { 0 < N }
    requires fits { 8 * N < 2 ^ 64 }
{
    let mut map = BitMap::zeroes(alloc, len).ok()?;
    for position in (0..len).step_by(3) {
        expect(rt, position < map.len());
        map.set(position, true);
    }
    Some(map)
}

// The reads of single bits, and the iterators, of such a bitmap.
fn check_each<const N: usize>(rt: &impl Abort, map: &BitMap<N>, len: u64) {
    expect(rt, map.len() == len);
    for position in 0..len {
        equal(rt, map.get(position), position % 3 == 0);
        expect(
            rt,
            map.is_unset(position..position + 1) != map.get(position),
        );
    }
    expect(
        rt,
        map.iter().eq((0..len).map(|position| position % 3 == 0)),
    );
    expect(rt, map.ones_iter().eq((0..len).step_by(3)));
}

// The reads of the whole of such a bitmap, or of a range.
fn check_reads<const N: usize>(rt: &impl Abort, map: &BitMap<N>, len: u64) {
    expect(rt, map.len() == len && len > 8);
    expect(
        rt,
        !map.is_empty() && map.is_chunk_aligned() == (len % (8 * N as u64) == 0),
    );
    expect(
        rt,
        map.is_unset(7..9) && map.is_unset(9..7) && !map.is_unset(1..len),
    );
    equal(rt, map.count_ones(), len.div_ceil(3));
    equal(rt, map.count_zeros(), len - len.div_ceil(3));
    expect(
        rt,
        map.iter().size_hint() == (len as usize, Some(len as usize)),
    );
    check_each(rt, map, len);
    let mut text = Length { bytes: 0 };
    expect(rt, write!(text, "{map:?}").is_ok());
    equal(rt, text.bytes as u64, if len > 64 { 75 } else { len + 8 });
}

// The reads of one bitmap, and the comparisons of two.
fn check_whole<const N: usize>(rt: &impl Abort, alloc: Global, len: u64)
    requires positive { 0 < N }
    requires fits { 8 * N < 2 ^ 64 }
{
    let Some(map) = thirds::<N>(rt, alloc, len) else {
        return;
    };
    let Some(mut other) = thirds::<N>(rt, alloc, len) else {
        return;
    };
    check_reads(rt, &map, len);
    expect(rt, map == other && hash_of(&map) == hash_of(&other));
    expect(rt, other.len() > 0);
    other.flip(0);
    expect(rt, map != other && map.len() == other.len());
    expect(rt, !map.is_subset(&other) && !map.is_disjoint(&other));
}

// Two bitmaps of the same length combined in place.
fn check_combined<const N: usize>(rt: &impl Abort, map: &mut BitMap<N>, other: &BitMap<N>) {
    map.flip_all();
    expect(rt, map.len() == other.len());
    map.or(other);
    expect(rt, map.count_zeros() == 0 && map.len() == other.len());
    map.and(other);
    expect(rt, *map == *other && map.len() == other.len());
    map.xor(other);
    expect(rt, map.count_ones() == 0 && map.len() == other.len());
    expect(rt, map.is_subset(other) && map.is_disjoint(other));
    map.or(other);
    expect(rt, map.len() == other.len());
    map.and_not(other);
    expect(rt, map.count_ones() == 0);
}

// Single bits changed, and bits removed from the end. Two bits are left.
fn check_changes<const N: usize>(rt: &impl Abort, map: &mut BitMap<N>, len: u64) {
    expect(rt, map.len() == len && len > 8);
    map.set_range(1..len, true);
    expect(rt, map.count_zeros() == 1 && map.len() == len);
    map.set_range(0..len, false);
    expect(rt, map.count_ones() == 0 && map.len() == len);
    map.set(0, true);
    map.flip(len - 1);
    expect(rt, map.count_ones() == 2 && map.len() == len);
    expect(rt, map.pop());
    expect(rt, map.len() >= 2);
    map.truncate(2);
    expect(rt, holds(map, &[true, false], &[]));
    map.set_all(true);
    expect(rt, holds(map, &[true, true], &[]));
}

// All edits in place.
fn check_edits<const N: usize>(rt: &impl Abort, alloc: Global, len: u64)
    requires positive { 0 < N }
    requires fits { 8 * N < 2 ^ 64 }
{
    let Some(mut map) = thirds::<N>(rt, alloc, len) else {
        return;
    };
    let Some(other) = thirds::<N>(rt, alloc, len) else {
        return;
    };
    check_combined(rt, &mut map, &other);
    check_changes(rt, &mut map, len);
}

// Each way to append bits to the last chunk, which has space for them.
fn check_appends<const N: usize>(rt: &impl Abort, alloc: Global, len: u64)
    requires positive { 0 < N }
    requires fits { 8 * N < 2 ^ 64 }
{
    let Some(mut map) = thirds::<N>(rt, alloc, len) else {
        return;
    };
    let Ok(two) = BitMap::<3>::ones(alloc, 2) else {
        return;
    };
    expect(rt, map.len() == len && len < 2000 && two.len() == 2);
    expect(rt, map.push(true).is_ok() && map.extend_to(len + 2).is_ok());
    expect(rt, map.len() == len + 2);
    expect(rt, map.extend_from_bitmap(&two).is_ok());
    expect(rt, map.extend_to(len).is_ok() && map.len() == len + 4);
    for want in [true, true, false, true] {
        expect(rt, !map.is_empty());
        equal(rt, map.pop(), want);
    }
    check_reads(rt, &map, len);
}

// Empty bitmaps.
fn check_no_bits<const N: usize>(rt: &impl Abort, alloc: Global)
    requires positive { 0 < N }
    requires fits { 8 * N < 2 ^ 64 }
{
    let mut map = BitMap::<N>::new(alloc);
    expect(rt, map.is_empty() && map == BitMap::<N>::default(alloc));
    expect(rt, BitMap::<N>::with_capacity(alloc, 0).is_ok());
    expect(rt, BitMap::<N>::zeroes(alloc, 0).is_ok());
    expect(rt, BitMap::<N>::ones(alloc, 0).is_ok());
    expect(rt, BitMap::<N>::from_bools(alloc, &[]).is_ok());
    expect(rt, map.extend_to(0).is_ok() && map.iter().next().is_none());
    expect(
        rt,
        map.ones_iter().next().is_none() && map.is_chunk_aligned(),
    );
    map.set_all(true);
    map.flip_all();
    map.truncate(0);
    expect(rt, map.is_empty());
    map.set_range(0..0, true);
    expect(
        rt,
        map.count_ones() == 0 && map.count_zeros() == 0 && map.is_unset(0..0),
    );
}

// Appends no bits to two full chunks.
fn check_full<const N: usize>(rt: &impl Abort, alloc: Global)
    requires positive { 0 < N }
    requires fits { 8 * N < 2 ^ 64 }
{
    expect(rt, N <= 64);
    let len = 16 * N as u64;
    let Some(mut map) = thirds::<N>(rt, alloc, len) else {
        return;
    };
    expect(rt, map.extend_to(len).is_ok());
    equal(rt, map.len(), len);
    expect(rt, map.extend_from_bitmap(&BitMap::<3>::new(alloc)).is_ok());
    check_reads(rt, &map, len);
}

#[test]
fn bits_read(rt: HostRuntime) {
    check_whole::<1>(&rt, rt.alloc(), 27);
    check_whole::<3>(&rt, rt.alloc(), 64);
    check_whole::<8>(&rt, rt.alloc(), 192);
    check_whole::<9>(&rt, rt.alloc(), 150);
    check_whole::<32>(&rt, rt.alloc(), 600);
}

#[test]
fn bits_edited(rt: HostRuntime) {
    check_edits::<1>(&rt, rt.alloc(), 27);
    check_edits::<3>(&rt, rt.alloc(), 64);
    check_edits::<8>(&rt, rt.alloc(), 192);
    check_edits::<9>(&rt, rt.alloc(), 150);
    check_edits::<32>(&rt, rt.alloc(), 600);
}

#[test]
fn bits_appended_to_an_open_chunk(rt: HostRuntime) {
    check_appends::<1>(&rt, rt.alloc(), 27);
    check_appends::<3>(&rt, rt.alloc(), 64);
    check_appends::<8>(&rt, rt.alloc(), 150);
    check_appends::<9>(&rt, rt.alloc(), 150);
    check_appends::<32>(&rt, rt.alloc(), 600);
}

#[test]
fn no_bits(rt: HostRuntime) {
    check_no_bits::<1>(&rt, rt.alloc());
    check_no_bits::<3>(&rt, rt.alloc());
    check_no_bits::<8>(&rt, rt.alloc());
    check_no_bits::<9>(&rt, rt.alloc());
    check_no_bits::<32>(&rt, rt.alloc());
}

#[test]
fn no_bits_appended(rt: HostRuntime) {
    check_full::<1>(&rt, rt.alloc());
    check_full::<3>(&rt, rt.alloc());
    check_full::<8>(&rt, rt.alloc());
    check_full::<9>(&rt, rt.alloc());
    check_full::<32>(&rt, rt.alloc());
}

// Functions without a bitmap.
#[test]
fn sizes_and_chunk_positions(rt: HostRuntime) {
    equal(&rt, BitMap::<1>::max_encode_size(17), 11);
    equal(&rt, BitMap::<9>::max_encode_size(145), 35);
    expect(&rt, BitMap::<1>::get_bit_from_chunk(&[4], 10));
    expect(
        &rt,
        BitMap::<9>::get_bit_from_chunk(&[0, 0, 0, 0, 0, 0, 0, 0, 2], 137),
    );
}
