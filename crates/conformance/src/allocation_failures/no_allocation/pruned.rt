//! Calls of a bitmap with a pruned prefix that do not allocate.

ghost use Rattle.std.specs.Prelude.{◌*◌, ◌^◌, ◌<◌};

use crate::checked_calls::{
    chunk_at, get_bit, get_chunk, is_unset, last_chunk, pop, pop_chunk, prune_to_bit, set_bit,
    set_full_chunk, set_range, truncate, try_extend_from_bitmap, try_push, try_push_byte,
    try_unprune,
};
use crate::checks::{equal, expect};
use bitmap_core::bitmap::BitMap;
use bitmap_core::bitmap::prunable::Prunable;
use std::alloc::Global;
use std::process::Abort;

// How often a bitmap slides below. Its chunks then have been at each place of the deque, also wrapped.
pub const SLIDES: u64 = 9;

// Three whole chunks after two pruned ones, every third position set, or `None` if an allocation fails.
pub fn thirds<const N: usize>(rt: &impl Abort, alloc: Global) -> Option<Prunable<N>>
    requires positive { 0 < N }
    requires fits { 8 * N < 2 ^ 64 }
{
    expect(rt, N <= 64);
    let mut map = Prunable::<N>::new_with_pruned_chunks(alloc, 2).ok()?;
    map.extend_to(40 * N as u64).ok()?;
    let first = map.pruned_bits();
    set_thirds(rt, &mut map, first);
    Some(map)
}

// Sets the positions from `first` on that are multiples of three, and clears the others.
fn set_thirds<const N: usize>(rt: &impl Abort, map: &mut Prunable<N>, first: u64) {
    for position in first..map.len() {
        set_bit(rt, map, position, position % 3 == 0);
    }
}

// Prunes the first of some whole chunks, and appends another, for which the deque has capacity.
pub fn slide<const N: usize>(rt: &impl Abort, map: &mut Prunable<N>) {
    let len = map.len();
    expect(
        rt,
        N > 0 && N <= 64 && len < 100_000 && map.is_chunk_aligned(),
    );
    let width = 8 * N as u64;
    let next = map.pruned_bits().saturating_add(width);
    prune_to_bit(rt, map, next);
    expect(rt, map.extend_to(len + width).is_ok());
    set_thirds(rt, map, len);
}

// The reads of three whole chunks.
fn check_reads<const N: usize>(rt: &impl Abort, map: &Prunable<N>) {
    let (first, len) = (map.pruned_bits(), map.len());
    let pruned = map.pruned_chunks();
    expect(
        rt,
        !map.is_empty() && map.is_chunk_aligned() && pruned < 100,
    );
    expect(
        rt,
        map.chunks_len() == pruned + 3 && map.complete_chunks() == pruned + 3,
    );
    for position in first..len {
        equal(rt, get_bit(rt, map, position), position % 3 == 0);
        let chunk = chunk_at(rt, map, position);
        expect(
            rt,
            Prunable::<N>::get_bit_from_chunk(&chunk, position) == (position % 3 == 0),
        );
    }
    let counted = map.count_ones().wrapping_add(map.count_zeros());
    expect(rt, counted == len.wrapping_sub(first));
    expect(rt, !is_unset(rt, map, first..len));
    expect(rt, get_chunk(rt, map, pruned) == chunk_at(rt, map, first));
    expect(rt, last_chunk(rt, map).0 == get_chunk(rt, map, pruned + 2));
}

// Each edit that adds no chunk. At the end the three chunks are as before.
fn check_edits<const N: usize>(rt: &impl Abort, map: &mut Prunable<N>, two: &BitMap<3>) {
    let (first, len) = (map.pruned_bits(), map.len());
    expect(rt, 9 < len && len < 100_000);
    expect(rt, try_unprune(rt, map, &[]).is_ok());
    let index = map.pruned_chunks();
    let chunk = get_chunk(rt, map, index);
    set_full_chunk(rt, map, index, &[0xff; N]);
    expect(
        rt,
        get_bit(rt, map, first) && get_bit(rt, map, first.saturating_add(1)),
    );
    set_full_chunk(rt, map, index, &chunk);
    set_range(rt, map, first..len, true);
    expect(rt, map.count_zeros() == 0);
    set_thirds(rt, map, first);
    set_bit(rt, map, len - 1, true);
    expect(rt, pop(rt, map));
    truncate(rt, map, len - 6);
    expect(
        rt,
        try_push(rt, map, true).is_ok() && map.extend_to(len - 4).is_ok(),
    );
    expect(rt, try_extend_from_bitmap(rt, map, two).is_ok());
    expect(
        rt,
        map.extend_to(len).is_ok() && map.extend_to(first).is_ok(),
    );
    set_thirds(rt, map, len - 6);
    prune_to_bit(rt, map, first);
}

// A bitmap that slides, and is read and edited at each place.
fn check_width<const N: usize>(rt: &impl Abort, alloc: Global)
    requires positive { 0 < N }
    requires fits { 8 * N < 2 ^ 64 }
{
    let Some(mut map) = thirds::<N>(rt, alloc) else {
        return;
    };
    let Ok(two) = BitMap::<3>::ones(alloc, 2) else {
        return;
    };
    for _ in 0..SLIDES {
        check_reads(rt, &map);
        check_edits(rt, &mut map, &two);
        check_reads(rt, &map);
        slide(rt, &mut map);
    }
    let chunk = last_chunk(rt, &map).0;
    expect(rt, pop_chunk(rt, &mut map) == chunk);
}

// Appends a byte to a chunk with space for it.
fn check_byte<const N: usize>(rt: &impl Abort, alloc: Global)
    requires positive { 0 < N }
    requires fits { 8 * N < 2 ^ 64 }
{
    let Some(mut map) = thirds::<N>(rt, alloc) else {
        return;
    };
    let len = map.len();
    expect(rt, len > 8);
    truncate(rt, &mut map, len - 8);
    expect(rt, try_push_byte(rt, &mut map, 0x80).is_ok());
    expect(
        rt,
        map.len() == len && pop(rt, &mut map) && !pop(rt, &mut map),
    );
}

#[test]
fn pruned_read_and_edited(rt: HostRuntime) {
    check_width::<1>(&rt, rt.alloc());
    check_width::<3>(&rt, rt.alloc());
    check_width::<8>(&rt, rt.alloc());
    check_width::<9>(&rt, rt.alloc());
    check_width::<32>(&rt, rt.alloc());
}

#[test]
fn byte_appended_to_an_open_chunk(rt: HostRuntime) {
    check_byte::<3>(&rt, rt.alloc());
    check_byte::<8>(&rt, rt.alloc());
    check_byte::<9>(&rt, rt.alloc());
    check_byte::<32>(&rt, rt.alloc());
}

// Bitmaps that are empty or completely pruned.
#[test]
fn nothing_retained(rt: HostRuntime) {
    expect(&rt, Prunable::<9>::new(rt.alloc()).is_empty());
    expect(&rt, Prunable::<9>::default(rt.alloc()).is_empty());
    expect(
        &rt,
        Prunable::<9>::new_with_pruned_chunks(rt.alloc(), usize::MAX).is_err(),
    );
    let Ok(mut map) = Prunable::<9>::new_with_pruned_chunks(rt.alloc(), 7) else {
        return;
    };
    expect(
        &rt,
        try_unprune(&rt, &mut map, &[]).is_ok() && map.extend_to(504).is_ok(),
    );
    prune_to_bit(&rt, &mut map, 504);
    truncate(&rt, &mut map, 504);
    expect(&rt, map.len() == 504 && map.pruned_chunks() == 7);
}

// Functions without a bitmap.
#[test]
fn byte_and_mask_of_positions(rt: HostRuntime) {
    equal(&rt, Prunable::<9>::to_chunk_index(145), 2);
    equal(&rt, Prunable::<9>::chunk_byte_offset(143), 8);
    equal(&rt, Prunable::<9>::chunk_byte_bitmask(143), 128);
    expect(&rt, Prunable::<1>::get_bit_from_chunk(&[4], 10));
}
