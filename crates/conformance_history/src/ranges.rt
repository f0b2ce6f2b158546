//! `set_range` of a batch at seven widths: within a chunk, across chunks, of all retained bits, and of empty and reversed ranges; and
//! every range at width 1.
//!
//! The chunks of a range are edited, not edited, or appended by the batch. After each range the batch is searched and committed, both
//! commits are read in place, and the bitmap is rewound.

ghost use Rattle.bitmap_bytes.specs.Chunk.{IsWidth};

use crate::checked_calls::{
    commit, pending_bit, pending_pruned_bits, prune_to_bit, push, read_bit, rewind, set_bit,
    set_range,
};
use crate::checks::{equal, expect, expect_at, ok};
use historical_bitmap::bitmap::Readable;
use historical_bitmap::bitmap::historical::{CleanBitMap, DirtyBitMap};
use std::alloc::Global;
use std::process::Abort;
use test_support::compare::same_bits;

// A range of positions, and the value that it is set to.
#[derive(Clone, Copy)]
struct Filled {
    start: u64,
    end: u64,
    value: bool,
}

/// Returns the bit at a position before a range is set. The period divides the bits of no chunk.
pub fn pattern(position: u64) -> bool {
    position % 3 == 0 || position % 7 == 2
}

// The bit at a position after the range is set.
fn expected(position: u64, filled: Filled) -> bool {
    if filled.start <= position && position < filled.end {
        filled.value
    } else {
        pattern(position)
    }
}

/// Appends the bits of the pattern up to length `to`.
pub fn grow<const N: usize>(rt: &impl Abort, map: &mut DirtyBitMap<N>, to: u64) {
    for position in map.len()..to {
        push(rt, map, pattern(position));
    }
    equal(rt, map.len(), to);
}

/// Returns a bitmap of five chunks and five bits of the pattern, committed at 1.
pub fn committed<const N: usize>(rt: &impl Abort, alloc: Global, width: u64) -> CleanBitMap<N>
    requires { IsWidth N }
{
    let mut map = CleanBitMap::<N>::new(alloc).into_dirty();
    grow(rt, &mut map, width.saturating_mul(5).saturating_add(5));
    commit(rt, map, 1)
}

/// Returns a batch on it that prunes chunk 0, edits chunk 2, and appends up to bit 3 of chunk 7. All bits are still those of the pattern.
pub fn begun<const N: usize>(rt: &impl Abort, map: CleanBitMap<N>, width: u64) -> DirtyBitMap<N> {
    let mut map = map.into_dirty();
    prune_to_bit(rt, &mut map, width);
    let edited = width.saturating_mul(2);
    set_bit(rt, &mut map, edited, pattern(edited));
    grow(rt, &mut map, width.saturating_mul(7).saturating_add(3));
    map
}

// Each pending bit after the range is set.
fn check_pending<const N: usize>(rt: &impl Abort, map: &DirtyBitMap<N>, filled: Filled) {
    for position in pending_pruned_bits(rt, map)..map.len() {
        let bit = pending_bit(rt, map, position);
        expect_at(
            rt,
            ("pending", position, filled.start, filled.end, N),
            bit == expected(position, filled),
        );
    }
}

// The searches of the batch from each position, compared with a scan from the end.
fn check_searches<const N: usize>(rt: &impl Abort, map: &DirtyBitMap<N>, filled: Filled) {
    let (mut next_one, mut next_zero) = (None, None);
    for position in (pending_pruned_bits(rt, map)..map.len()).rev() {
        if expected(position, filled) {
            next_one = Some(position);
        } else {
            next_zero = Some(position);
        }
        expect_at(
            rt,
            ("next", position, filled.start, filled.end, N),
            map.next_one(position) == next_one && map.next_zero(position) == next_zero,
        );
    }
}

// Each bit of a readable bitmap after the range is set.
fn check_read<B: Readable<N>, const N: usize>(rt: &impl Abort, map: &B, filled: Filled) {
    for position in map.pruned_bits()..map.len() {
        let bit = read_bit(rt, map, position);
        expect_at(
            rt,
            ("read", position, filled.start, filled.end, N),
            bit == expected(position, filled),
        );
    }
}

// The bitmap at a commit, read in place.
fn check_at<const N: usize>(rt: &impl Abort, map: &CleanBitMap<N>, number: u64, filled: Filled) {
    match map.at(number) {
        Some(state) => check_read(rt, &state, filled),
        None => expect_at(rt, ("kept", number, N), false),
    }
}

// A range of a batch on `before`. The batch is committed at 2, and the bitmap is rewound.
fn check_range<const N: usize>(
    rt: &impl Abort,
    before: &CleanBitMap<N>,
    width: u64,
    filled: Filled,
) {
    let nothing = Filled {
        start: 0,
        end: 0,
        value: false,
    };
    let mut map = begun(rt, ok(rt, before.clone()), width);
    set_range(rt, &mut map, filled.start..filled.end, filled.value);
    check_pending(rt, &map, filled);
    check_searches(rt, &map, filled);
    let map = commit(rt, map, 2);
    check_read(rt, map.current(), filled);
    check_at(rt, &map, 1, nothing);
    check_at(rt, &map, 2, filled);
    let map = rewind(rt, map, 1);
    expect_at(
        rt,
        ("rewound", filled.start, filled.end, N),
        same_bits(map.current(), before.current()),
    );
}

// Ranges within one chunk and across chunks, of chunks that are edited, not edited and appended, and ranges without a position.
fn check_width<const N: usize>(rt: &impl Abort, alloc: Global, width: u64)
    requires { IsWidth N }
{
    let before = committed::<N>(rt, alloc, width);
    expect(rt, 8 <= width && width <= 512);
    for (start, end) in [
        (width + 2, width + 5),
        (2 * width, 3 * width),
        (2 * width + 1, 4 * width - 1),
        (3 * width - 1, 3 * width + 1),
        (4 * width + 3, 6 * width + 2),
        (6 * width, 7 * width + 3),
        (width, 7 * width + 3),
        (3 * width, 3 * width),
        (4 * width, 2 * width),
    ] {
        for value in [false, true] {
            check_range(rt, &before, width, Filled { start, end, value });
        }
    }
}

// Each range of retained bits that begins at `start`, with either value in turn.
fn check_from<const N: usize>(rt: &impl Abort, before: &CleanBitMap<N>, width: u64, start: u64) {
    expect(rt, width <= 24);
    for end in start..7 * width + 4 {
        let value = end % 2 == 0;
        check_range(rt, before, width, Filled { start, end, value });
    }
}

// Every range of the retained bits.
fn check_every_range<const N: usize>(rt: &impl Abort, alloc: Global, width: u64)
    requires { IsWidth N }
{
    let before = committed::<N>(rt, alloc, width);
    expect(rt, width <= 24);
    for start in width..7 * width + 4 {
        check_from(rt, &before, width, start);
    }
}

#[test]
fn every_range_of_a_batch(rt: HostRuntime) {
    check_every_range::<1>(&rt, rt.alloc(), 8);
}

#[test]
fn ranges_of_a_batch(rt: HostRuntime) {
    check_width::<1>(&rt, rt.alloc(), 8);
    check_width::<3>(&rt, rt.alloc(), 24);
    check_width::<7>(&rt, rt.alloc(), 56);
    check_width::<8>(&rt, rt.alloc(), 64);
    check_width::<9>(&rt, rt.alloc(), 72);
    check_width::<32>(&rt, rt.alloc(), 256);
    check_width::<64>(&rt, rt.alloc(), 512);
}
