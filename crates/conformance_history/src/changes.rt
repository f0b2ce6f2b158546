//! The chunks in which two kept states differ, and those in which a batch differs from the current bitmap, at seven widths.
//!
//! Each list is compared with the chunks that differ in a retained bit, found one bit at a time.

ghost use Rattle.bitmap_bytes.specs.Chunk.{IsWidth};

use crate::checked_calls::{commit, keeps, pop, prune_to_bit, push_run, rewind, set_bit};
use crate::checks::{equal, expect, expect_at, ok};
use crate::ranges::{grow, pattern};
use historical_bitmap::bitmap::Readable;
use historical_bitmap::bitmap::historical::{CleanBitMap, DirtyBitMap};
use std::alloc::{AllocError, Global};
use std::process::Abort;

// More chunks than any state below has.
const CHUNKS: usize = 8;

/// The number of the last batch of `edit`.
pub const LAST: u64 = 11;

// Removes bits down to length `to`.
fn shrink<const N: usize>(rt: &impl Abort, map: &mut DirtyBitMap<N>, to: u64) {
    for _ in to..map.len() {
        let _ = pop(rt, map);
    }
    equal(rt, map.len(), to);
}

/// The batch of a number. Batch 3 undoes batch 2. Chunks 2 to 3 are removed by batch 4, and are there again after batch 5.
/// Batch 6 removes chunks a second time. Batch 8 appends zeros within a chunk. Batch 11 has no edits.
pub fn edit<const N: usize>(rt: &impl Abort, map: &mut DirtyBitMap<N>, width: u64, number: u64) {
    expect(rt, 8 <= width && width <= 512);
    match number {
        1 => grow(rt, map, 3 * width + 5),
        2 => set_bit(rt, map, width + 3, !pattern(width + 3)),
        3 => {
            set_bit(rt, map, width + 3, pattern(width + 3));
            set_bit(rt, map, 0, pattern(0));
        }
        4 => shrink(rt, map, 2 * width - 1),
        5 => grow(rt, map, 5 * width + 3),
        6 => shrink(rt, map, 3 * width),
        7 => push_run(rt, map, 2, false),
        8 => push_run(rt, map, 1, false),
        9 => prune_to_bit(rt, map, width),
        10 => {
            prune_to_bit(rt, map, 2 * width + 1);
            grow(rt, map, 6 * width);
        }
        _ => {}
    }
}

// The bit at a position, or false if the position is not retained.
fn bit_at<B: Readable<N>, const N: usize>(map: &B, position: u64) -> bool {
    map.pruned_bits() <= position && position < map.len() && map.get_bit(position)
}

// Whether a bit of a chunk is retained.
fn has_chunk<B: Readable<N>, const N: usize>(map: &B, chunk: usize, width: u64) -> bool {
    map.pruned_chunks() <= chunk && width.saturating_mul(chunk as u64) < map.len()
}

// Whether a chunk is retained in one of two bitmaps alone, or a bit of it differs. Bits past the length are zero.
fn differs<A: Readable<N>, B: Readable<N>, const N: usize>(
    old: &A,
    new: &B,
    chunk: usize,
    width: u64,
) -> bool {
    if has_chunk(old, chunk, width) != has_chunk(new, chunk, width) {
        return true;
    }
    let start = width.saturating_mul(chunk as u64);
    for position in start..start.saturating_add(width) {
        if bit_at(old, position) != bit_at(new, position) {
            return true;
        }
    }
    false
}

// The chunks that differ.
fn changed<A: Readable<N>, B: Readable<N>, const N: usize>(
    alloc: Global,
    old: &A,
    new: &B,
    width: u64,
) -> Result<Vec<usize>, AllocError> {
    (0..CHUNKS)
        .filter(|it| differs(old, new, *it, width))
        .collect(alloc)
}

// The list of the chunks that a batch would change.
fn check_pending<const N: usize>(
    rt: &impl Abort,
    alloc: Global,
    current: &CleanBitMap<N>,
    batch: &DirtyBitMap<N>,
    width: u64,
) {
    let want = ok(rt, changed(alloc, current.current(), batch, width));
    let mut changes = batch.changed_chunks();
    expect_at(
        rt,
        ("pending", current.latest_commit(), N),
        changes.by_ref().eq(want.iter().copied()),
    );
    expect(rt, changes.next().is_none() && changes.next().is_none());
}

// The list of the chunks that differ between two numbers, or none unless both are kept and in order.
fn check_pair<const N: usize>(
    rt: &impl Abort,
    alloc: Global,
    map: &CleanBitMap<N>,
    width: u64,
    from: u64,
    to: u64,
) {
    let Some(mut changes) = map.changed_chunks(from, to) else {
        let none = to < from || !map.commit_exists(from) || !map.commit_exists(to);
        expect_at(rt, (from, to, N), none);
        return;
    };
    expect_at(rt, (from, to, N), from <= to);
    match (
        ok(rt, map.get_at_commit(from)),
        ok(rt, map.get_at_commit(to)),
    ) {
        (Some(old), Some(new)) => {
            let want = ok(rt, changed(alloc, &old, &new, width));
            let listed = changes.by_ref().eq(want.iter().copied());
            expect_at(rt, (from, to, N), listed);
        }
        _ => expect_at(rt, (from, to, N), false),
    }
    expect(rt, changes.next().is_none() && changes.next().is_none());
}

// All pairs of numbers, also of those that are not kept.
fn check_pairs<const N: usize>(rt: &impl Abort, alloc: Global, map: &CleanBitMap<N>, width: u64) {
    for from in 0..LAST + 2 {
        for to in 0..LAST + 2 {
            check_pair(rt, alloc, map, width, from, to);
        }
    }
    expect(rt, map.changed_chunks(LAST, u64::MAX).is_none());
}

// All pairs of numbers, without an index and with one. Between commits that are far apart, the chunks are then found in the index.
fn check_both<const N: usize>(rt: &impl Abort, alloc: Global, map: &CleanBitMap<N>, width: u64) {
    check_pairs(rt, alloc, map, width);
    let copy = ok(rt, map.clone());
    match copy.indexed() {
        Ok(indexed) => check_pairs(rt, alloc, &indexed, width),
        Err(_) => expect(rt, false),
    }
}

// Makes the batch of a number, and commits it under another number.
fn committed<const N: usize>(
    rt: &impl Abort,
    alloc: Global,
    map: CleanBitMap<N>,
    width: u64,
    batch: u64,
    number: u64,
) -> CleanBitMap<N> {
    let before = ok(rt, map.clone());
    let mut edits = map.into_dirty();
    edit(rt, &mut edits, width, batch);
    check_pending(rt, alloc, &before, &edits, width);
    commit(rt, edits, number)
}

// All batches. Then the first commits are dropped, the bitmap is rewound, and another batch is committed under a number used before.
fn check_width<const N: usize>(rt: &impl Abort, alloc: Global, width: u64)
    requires { IsWidth N }
{
    let mut map = CleanBitMap::<N>::new(alloc);
    for number in 1..LAST + 1 {
        map = committed(rt, alloc, map, width, number, number);
    }
    check_both(rt, alloc, &map, width);
    let _ = map.prune_commits_before(3);
    let map = rewind(rt, map, 6);
    let map = committed(rt, alloc, map, width, 9, 7);
    expect(rt, keeps(&map, &[3, 4, 5, 6, 7]));
    check_both(rt, alloc, &map, width);
}

#[test]
fn changes_at_each_width(rt: HostRuntime) {
    check_width::<1>(&rt, rt.alloc(), 8);
    check_width::<3>(&rt, rt.alloc(), 24);
    check_width::<7>(&rt, rt.alloc(), 56);
    check_width::<8>(&rt, rt.alloc(), 64);
    check_width::<9>(&rt, rt.alloc(), 72);
    check_width::<32>(&rt, rt.alloc(), 256);
    check_width::<64>(&rt, rt.alloc(), 512);
}
