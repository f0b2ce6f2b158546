//! Batches read as any readable bitmap before they are committed: chunks, searches and counts of the pending bitmap.

ghost use Rattle.bitmap_bytes.specs.Chunk.{IsWidth};

use crate::checked_calls::{
    commit, pending_pruned_bits, pop, prune_to_bit, push_byte, push_chunk, push_run, set_bit,
};
use crate::checks::{equal, expect, ok};
use historical_bitmap::bitmap::Readable;
use historical_bitmap::bitmap::historical::{CleanBitMap, DirtyBitMap};
use std::alloc::Global;
use std::process::Abort;
use test_support::compare::same_bits;

// A batch on 40 bits, of which 0 to 3, 16 to 23 and 32 are set. It sets two bits, pops three, appends twelve ones and prunes a chunk.
// It leaves 49 bits. Those from 16 on are retained: 16 to 19, 21 to 23, 25, 32 and 37 to 48 are set.
fn edited(rt: &impl Abort, alloc: Global) -> DirtyBitMap<2> {
    let mut map = CleanBitMap::<2>::new(alloc).into_dirty();
    for byte in [0x0f, 0, 0xff, 0, 0x01] {
        push_byte(rt, &mut map, byte);
    }
    let mut map = commit(rt, map, 1).into_dirty();
    set_bit(rt, &mut map, 20, false);
    set_bit(rt, &mut map, 25, true);
    for _ in 0..3 {
        let _ = pop(rt, &mut map);
    }
    push_run(rt, &mut map, 12, true);
    prune_to_bit(rt, &mut map, 31);
    map
}

// The bytes of a full chunk, if it is retained.
fn chunk_bytes<B: Readable<2>>(map: &B, chunk: usize) -> Option<[u8; 2]> {
    if map.pruned_chunks() <= chunk && chunk < map.complete_chunks() {
        Some(map.get_chunk(chunk))
    } else {
        None
    }
}

// The bytes of the last chunk, and the number of its bits that are used, if a bit is retained.
fn last_bytes<B: Readable<2>>(map: &B) -> Option<([u8; 2], u64)> {
    if map.pruned_bits() < map.len() {
        Some(map.last_chunk())
    } else {
        None
    }
}

// The chunks of the bitmap that the batch leaves.
fn check_chunks<B: Readable<2>>(rt: &impl Abort, map: &B) {
    equal(rt, (map.len(), map.pruned_chunks()), (49, 1));
    equal(rt, (map.complete_chunks(), map.pruned_bits()), (3, 16));
    equal(rt, chunk_bytes(map, 1), Some([0xef, 0x02]));
    equal(rt, chunk_bytes(map, 2), Some([0xe1, 0xff]));
    equal(rt, last_bytes(map), Some(([0x01, 0], 1)));
}

// Searches in it.
fn check_searches<B: Readable<2>>(rt: &impl Abort, map: &B) {
    equal(
        rt,
        (map.next_one(0), map.next_one(20)),
        (Some(16), Some(21)),
    );
    equal(rt, (map.next_one(26), map.next_one(49)), (Some(32), None));
    equal(
        rt,
        (map.next_zero(0), map.next_zero(21)),
        (Some(20), Some(24)),
    );
    equal(rt, map.next_zero(37), None);
    equal(
        rt,
        (map.prev_one(100), map.prev_one(37)),
        (Some(48), Some(32)),
    );
    equal(rt, (map.prev_one(16), map.prev_zero(20)), (None, None));
    equal(rt, map.prev_zero(49), Some(36));
    equal(
        rt,
        (map.select_one(0), map.select_one(4)),
        (Some(16), Some(21)),
    );
    equal(
        rt,
        (map.select_one(20), map.select_one(21)),
        (Some(48), None),
    );
}

// Counts of its set positions, and lists of positions.
fn check_lists<B: Readable<2>>(rt: &impl Abort, map: &B) {
    equal(rt, map.count_ones_range(0..100), 21);
    equal(rt, map.count_ones_range(20..33), 5);
    expect(
        rt,
        map.ones_iter_range(18..40)
            .eq([18, 19, 21, 22, 23, 25, 32, 37, 38, 39]),
    );
    expect(
        rt,
        map.zeros_iter_range(0..49)
            .eq([20, 24, 26, 27, 28, 29, 30, 31, 33, 34, 35, 36]),
    );
}

// The batch before its commit, and the bitmap after it.
#[test]
fn searches_by_hand(rt: HostRuntime) {
    let map = edited(&rt, rt.alloc());
    check_chunks(&rt, &map);
    check_searches(&rt, &map);
    check_lists(&rt, &map);
    let map = commit(&rt, map, 2);
    check_chunks(&rt, map.current());
    check_searches(&rt, map.current());
    check_lists(&rt, map.current());
}

// A batch without edits is read as the current bitmap.
#[test]
fn batch_without_edits(rt: HostRuntime) {
    let map = commit(&rt, edited(&rt, rt.alloc()), 2).into_dirty();
    check_chunks(&rt, &map);
    check_searches(&rt, &map);
    check_lists(&rt, &map);
}

// Copies of chunks by their index, of the pending bitmap and of the current one. A chunk past the end has no bytes.
#[test]
fn bytes_by_index(rt: HostRuntime) {
    let map = edited(&rt, rt.alloc());
    equal(&rt, map.newly_pruned_chunks(), 1);
    equal(&rt, map.retained_bytes(1), Some([0xef, 0x02]));
    equal(&rt, map.retained_bytes(2), Some([0xe1, 0xff]));
    equal(&rt, map.retained_bytes(3), Some([0x01, 0]));
    for chunk in [0, 4, usize::MAX] {
        equal(&rt, map.retained_bytes(chunk), None);
    }
    let map = map.abort();
    equal(&rt, map.retained_bytes(0), Some([0x0f, 0]));
    equal(&rt, map.retained_bytes(1), Some([0xff, 0]));
    equal(&rt, map.retained_bytes(2), Some([0x01, 0]));
    for chunk in [3, usize::MAX] {
        equal(&rt, map.retained_bytes(chunk), None);
    }
    equal(&rt, map.into_dirty().newly_pruned_chunks(), 0);
}

// Whether two bitmaps have the same bits, and the same lists of positions.
fn same_reads<A: Readable<N>, B: Readable<N>, const N: usize>(map: &A, other: &B) -> bool {
    // The prover learns the bounds of `N` from this call.
    let _ = map.len();
    same_bits(map, other)
        && map
            .ones_iter_range(0..u64::MAX)
            .eq(other.ones_iter_range(0..u64::MAX))
        && map
            .zeros_iter_range(0..u64::MAX)
            .eq(other.zeros_iter_range(0..u64::MAX))
}

// Sets the first retained bit, if there is one.
fn set_first_bit<const N: usize>(rt: &impl Abort, map: &mut DirtyBitMap<N>) {
    let first = pending_pruned_bits(rt, map);
    if first < map.len() {
        set_bit(rt, map, first, true);
    }
}

// A batch that pops, appends chunks, prunes one and sets a bit, and the bitmap that its commit leaves.
fn check_as_committed<const N: usize>(rt: &impl Abort, alloc: Global)
    requires { IsWidth N }
{
    let mut map = CleanBitMap::<N>::new(alloc).into_dirty();
    for _ in 0..3 {
        push_chunk(rt, &mut map, &[0x5a; N]);
    }
    push_run(rt, &mut map, 5, true);
    let mut map = commit(rt, map, 1).into_dirty();
    for _ in 0..7 {
        let _ = pop(rt, &mut map);
    }
    push_chunk(rt, &mut map, &[0xc9; N]);
    push_run(rt, &mut map, 3, true);
    let end = N as u64 * 8;
    prune_to_bit(rt, &mut map, end);
    set_first_bit(rt, &mut map);
    let committed = commit(rt, ok(rt, map.clone()), 2);
    expect(rt, same_reads(&map, committed.current()));
}

#[test]
fn chunks_of_1(rt: HostRuntime) {
    check_as_committed::<1>(&rt, rt.alloc());
}

#[test]
fn chunks_of_3(rt: HostRuntime) {
    check_as_committed::<3>(&rt, rt.alloc());
}

#[test]
fn chunks_of_32(rt: HostRuntime) {
    check_as_committed::<32>(&rt, rt.alloc());
}

#[test]
fn chunks_of_65(rt: HostRuntime) {
    check_as_committed::<65>(&rt, rt.alloc());
}
