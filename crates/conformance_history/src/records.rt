//! The reverse records of batches that prune, set, append and remove chunks, at four widths.

ghost use Rattle.bitmap_bytes.specs.Chunk.{IsWidth};

use crate::checked_calls::{commit, pop, prune_to_bit, push, push_chunk, read_bit, set_bit};
use crate::checks::{expect_at, ok};
use historical_bitmap::bitmap::Readable;
use historical_bitmap::bitmap::historical::{CleanBitMap, DirtyBitMap};
use std::alloc::Global;
use std::process::Abort;

// Removes the bits of a chunk.
fn pop_chunk<const N: usize>(rt: &impl Abort, map: &mut DirtyBitMap<N>) {
    for _ in 0..N {
        for _ in 0..8 {
            let _ = pop(rt, map);
        }
    }
}

// Appends the chunks 0 to 5. The bytes of chunk i are i + 1.
fn push_six<const N: usize>(rt: &impl Abort, map: &mut DirtyBitMap<N>) {
    for byte in 1..7 {
        // The prover learns the bounds of `N` from this call.
        let _ = map.len();
        push_chunk(rt, map, &[byte; N]);
    }
}

// Prunes chunk 0, clears the first bits of the chunks 2 and 4, and appends the chunks 6 and 7.
fn prune_set_append<const N: usize>(rt: &impl Abort, map: &mut DirtyBitMap<N>, width: u64) {
    // The prover learns the bounds of `N` from this call.
    let _ = map.len();
    push_chunk(rt, map, &[0xaa; N]);
    set_bit(rt, map, width.saturating_mul(4), false);
    prune_to_bit(rt, map, width);
    set_bit(rt, map, width.saturating_mul(2), false);
    push_chunk(rt, map, &[0xaa; N]);
}

// Appends chunk 8, removes it with chunk 7 and three bits of chunk 6, appends a zero, sets the first bit of chunk 3, and prunes chunk 1.
fn remove_below_the_old_length<const N: usize>(
    rt: &impl Abort,
    map: &mut DirtyBitMap<N>,
    width: u64,
) {
    // The prover learns the bounds of `N` from this call.
    let _ = map.len();
    push_chunk(rt, map, &[0x55; N]);
    pop_chunk(rt, map);
    pop_chunk(rt, map);
    for _ in 0..3 {
        let _ = pop(rt, map);
    }
    push(rt, map, false);
    set_bit(rt, map, width.saturating_mul(3), true);
    prune_to_bit(rt, map, width.saturating_mul(2));
}

// Sets a bit of chunk 2, appends the bits of two chunks, which end in chunk 8, and prunes all chunks before that one.
fn prune_what_is_edited<const N: usize>(rt: &impl Abort, map: &mut DirtyBitMap<N>, width: u64) {
    // The prover learns the bounds of `N` from this call.
    let _ = map.len();
    set_bit(rt, map, width.saturating_mul(2), true);
    push_chunk(rt, map, &[0x0f; N]);
    push_chunk(rt, map, &[0x0f; N]);
    prune_to_bit(rt, map, width.saturating_mul(8));
}

// The bit at `position` of the bitmap at commit `number`, in chunks of `width` bits.
fn expected(number: u64, width: u64, position: u64) -> bool {
    if width == 0 {
        return false;
    }
    let chunk = position / width;
    let bit = position % width;
    match (chunk, bit) {
        (2, 0) | (4, 0) => number < 2,
        (3, 0) => number > 2,
        (8, _) => bit.saturating_add(2) % 8 < 4,
        (6, _) => bit % 2 == 1 && (number < 3 || bit.saturating_add(3) != width),
        (7, _) => bit % 2 == 1,
        _ => (chunk.saturating_add(1) >> (bit % 8)) % 2 == 1,
    }
}

// The pruned chunks, the length and each bit of the bitmap at commit `number`.
fn check_state<const N: usize>(
    rt: &impl Abort,
    map: &CleanBitMap<N>,
    number: u64,
    width: u64,
    pruned_chunks: usize,
    len: u64,
) {
    let Some(old) = ok(rt, map.get_at_commit(number)) else {
        expect_at(rt, (number, N), false);
        return;
    };
    expect_at(
        rt,
        (number, old.len(), N),
        old.len() == len && old.pruned_chunks() == pruned_chunks,
    );
    for position in old.pruned_bits()..old.len() {
        let bit = read_bit(rt, &old, position);
        expect_at(
            rt,
            (number, position, N),
            bit == expected(number, width, position),
        );
    }
}

// The number of entries of all records.
fn check_entries<const N: usize>(rt: &impl Abort, map: &CleanBitMap<N>, entries: u128) {
    expect_at(rt, (entries, N), map.reverse_entries() == entries);
}

// Four batches, the entries of each record, and the bitmap at each commit.
fn check_records<const N: usize>(rt: &impl Abort, alloc: Global, width: u64)
    requires { IsWidth N }
{
    let mut map = CleanBitMap::<N>::new(alloc).into_dirty();
    push_six(rt, &mut map);
    let map = commit(rt, map, 1);
    check_entries(rt, &map, 6);
    let mut map = map.into_dirty();
    prune_set_append(rt, &mut map, width);
    let map = commit(rt, map, 2);
    check_entries(rt, &map, 11);
    let mut map = map.into_dirty();
    remove_below_the_old_length(rt, &mut map, width);
    let map = commit(rt, map, 3);
    check_entries(rt, &map, 15);
    let mut map = map.into_dirty();
    prune_what_is_edited(rt, &mut map, width);
    let map = commit(rt, map, 4);
    check_entries(rt, &map, 22);
    check_state(rt, &map, 1, width, 0, width.saturating_mul(6));
    check_state(rt, &map, 2, width, 1, width.saturating_mul(8));
    let third = width.saturating_mul(7).saturating_sub(2);
    check_state(rt, &map, 3, width, 2, third);
    let fourth = width.saturating_mul(9).saturating_sub(2);
    check_state(rt, &map, 4, width, 8, fourth);
}

#[test]
fn chunks_of_1(rt: HostRuntime) {
    check_records::<1>(&rt, rt.alloc(), 8);
}

#[test]
fn chunks_of_3(rt: HostRuntime) {
    check_records::<3>(&rt, rt.alloc(), 24);
}

#[test]
fn chunks_of_8(rt: HostRuntime) {
    check_records::<8>(&rt, rt.alloc(), 64);
}

#[test]
fn chunks_of_32(rt: HostRuntime) {
    check_records::<32>(&rt, rt.alloc(), 256);
}
