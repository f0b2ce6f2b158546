//! `set_chunk` of a batch: examples that are worked out by hand, and every retained chunk at seven widths.
//!
//! The chunk is edited, not edited, or appended by the batch, and the last one is incomplete. Afterwards the batch is committed, both commits
//! are read in place, and the bitmap is rewound.

ghost use Rattle.bitmap_bytes.specs.Chunk.{IsWidth};

use crate::checked_calls::{
    commit, current_chunk, pending_chunk, pop, prune_to_bit, push, push_byte, read_bit, rewind,
    set_bit, set_chunk,
};
use crate::checks::{equal, expect, expect_at, ok};
use crate::ranges::{begun, committed, pattern};
use historical_bitmap::bitmap::Readable;
use historical_bitmap::bitmap::historical::{CleanBitMap, DirtyBitMap};
use std::alloc::Global;
use std::process::Abort;
use test_support::compare::same_bits;

// The index of a chunk that no bitmap here has.
const NONE: u64 = u64::MAX;

// The bit at a position after chunk `index` is set to the byte 0xa1 and then bytes 0x5d.
fn expected(position: u64, width: u64, index: u64) -> bool {
    if width == 0 || position / width != index {
        return pattern(position);
    }
    let at = position % width;
    let byte = if at < 8 { 0xa1_u8 } else { 0x5d };
    (byte >> (at % 8)) & 1 == 1
}

// Each retained bit after that.
fn check_bits<B: Readable<N>, const N: usize>(rt: &impl Abort, map: &B, width: u64, index: u64) {
    for position in map.pruned_bits()..map.len() {
        let bit = read_bit(rt, map, position);
        expect_at(
            rt,
            (position, index, N),
            bit == expected(position, width, index),
        );
    }
}

// The bitmap at a commit, read in place.
fn check_at<const N: usize>(
    rt: &impl Abort,
    map: &CleanBitMap<N>,
    number: u64,
    width: u64,
    index: u64,
) {
    match map.at(number) {
        Some(state) => check_bits(rt, &state, width, index),
        None => expect_at(rt, ("kept", number, N), false),
    }
}

// Chunk `index` of a batch on `before`. The batch is committed at 2, and the bitmap is rewound.
fn check_chunk<const N: usize>(rt: &impl Abort, before: &CleanBitMap<N>, width: u64, index: usize) {
    let mut map = begun(rt, ok(rt, before.clone()), width);
    // The prover learns the bounds of `N` from this call.
    let _ = map.len();
    let mut chunk = [0x5d; N];
    chunk[0] = 0xa1;
    set_chunk(rt, &mut map, index, &chunk);
    check_bits(rt, &map, width, index as u64);
    let map = commit(rt, map, 2);
    check_bits(rt, map.current(), width, index as u64);
    check_at(rt, &map, 1, width, NONE);
    check_at(rt, &map, 2, width, index as u64);
    let map = rewind(rt, map, 1);
    expect_at(
        rt,
        ("rewound", index, N),
        same_bits(map.current(), before.current()),
    );
}

// Each retained chunk: 1, 3 and 4 are not edited, 2 is edited, and 5 to 7 are appended. Chunk 7 has three bits.
fn check_width<const N: usize>(rt: &impl Abort, alloc: Global, width: u64)
    requires { IsWidth N }
{
    let before = committed::<N>(rt, alloc, width);
    for index in 1..8 {
        check_chunk(rt, &before, width, index);
    }
}

#[test]
fn chunks_of_a_batch(rt: HostRuntime) {
    check_width::<1>(&rt, rt.alloc(), 8);
    check_width::<3>(&rt, rt.alloc(), 24);
    check_width::<7>(&rt, rt.alloc(), 56);
    check_width::<8>(&rt, rt.alloc(), 64);
    check_width::<9>(&rt, rt.alloc(), 72);
    check_width::<32>(&rt, rt.alloc(), 256);
    check_width::<64>(&rt, rt.alloc(), 512);
}

// A batch on 20 bits in chunks of two bytes: 0x0f, 0xf0, and four bits 1010.
fn twenty(rt: &impl Abort, alloc: Global) -> DirtyBitMap<2> {
    let mut map = CleanBitMap::<2>::new(alloc).into_dirty();
    push_byte(rt, &mut map, 0x0f);
    push_byte(rt, &mut map, 0xf0);
    for bit in [true, false, true, false] {
        push(rt, &mut map, bit);
    }
    commit(rt, map, 1).into_dirty()
}

// Bits past the length are ignored: they do not appear when the batch grows. The chunk before does not change.
#[test]
fn bits_past_the_length(rt: HostRuntime) {
    let mut map = twenty(&rt, rt.alloc());
    set_chunk(&rt, &mut map, 1, &[0xf6, 0xff]);
    equal(&rt, map.len(), 20);
    equal(&rt, pending_chunk(&rt, &map, 19), [0x06, 0x00]);
    equal(&rt, pending_chunk(&rt, &map, 15), [0x0f, 0xf0]);
    for _ in 0..12 {
        push(&rt, &mut map, false);
    }
    equal(&rt, pending_chunk(&rt, &map, 31), [0x06, 0x00]);
    let map = commit(&rt, map, 2);
    equal(&rt, current_chunk(&rt, &map, 16), [0x06, 0x00]);
    equal(&rt, map.reverse_entries(), 3);
}

// A chunk whose last bits were popped, and one whose last bits were pushed one by one.
#[test]
fn chunk_of_pops_and_pushes(rt: HostRuntime) {
    let mut map = twenty(&rt, rt.alloc());
    expect(&rt, !pop(&rt, &mut map));
    set_chunk(&rt, &mut map, 1, &[0xff, 0xff]);
    equal(&rt, pending_chunk(&rt, &map, 16), [0x07, 0x00]);
    push(&rt, &mut map, false);
    push(&rt, &mut map, true);
    equal(&rt, pending_chunk(&rt, &map, 20), [0x17, 0x00]);
    set_chunk(&rt, &mut map, 1, &[0xea, 0xff]);
    equal(&rt, pending_chunk(&rt, &map, 20), [0x0a, 0x00]);
    expect(&rt, !pop(&rt, &mut map));
    expect(&rt, pop(&rt, &mut map));
    equal(&rt, pending_chunk(&rt, &map, 18), [0x02, 0x00]);
}

// A chunk that is set and then pruned. The chunk after it is set too.
#[test]
fn chunk_pruned_after_it_is_set(rt: HostRuntime) {
    let mut map = twenty(&rt, rt.alloc());
    set_chunk(&rt, &mut map, 0, &[0x12, 0x34]);
    set_bit(&rt, &mut map, 8, true);
    equal(&rt, pending_chunk(&rt, &map, 0), [0x12, 0x35]);
    prune_to_bit(&rt, &mut map, 16);
    set_chunk(&rt, &mut map, 1, &[0x09, 0x00]);
    let map = commit(&rt, map, 2);
    equal(&rt, map.retained_bytes(0), None);
    equal(&rt, map.retained_bytes(1), Some([0x09, 0x00]));
    let map = rewind(&rt, map, 1);
    equal(&rt, map.retained_bytes(0), Some([0x0f, 0xf0]));
    equal(&rt, map.retained_bytes(1), Some([0x05, 0x00]));
}
