//! Whole chunks appended to a batch of any length, at seven widths.

ghost use Rattle.bitmap_bytes.specs.Chunk.{IsWidth};

use crate::checked_calls::{commit, current_bit, pending_bit, push_chunk, push_run};
use crate::checks::{expect, expect_at};
use historical_bitmap::bitmap::historical::{CleanBitMap, DirtyBitMap};
use std::alloc::Global;
use std::process::Abort;

// Whether bit `index` of `byte` is set.
fn byte_bit(byte: u8, index: u64) -> bool {
    (byte >> (index % 8)) & 1 == 1
}

// The bit at `position` after `open` ones: the byte 0xa1, and then bytes 0x5d up to the end of each chunk of `width` bits.
fn expected(open: u64, width: u64, position: u64) -> bool {
    if position < open || width == 0 {
        return true;
    }
    let index = (position - open) % width;
    byte_bit(if index < 8 { 0xa1 } else { 0x5d }, index)
}

// Appends `open` ones and two chunks.
fn push_all<const N: usize>(rt: &impl Abort, map: &mut DirtyBitMap<N>, open: u64) {
    // The prover learns the bounds of `N` from this call.
    let _ = map.len();
    let mut chunk = [0x5d; N];
    chunk[0] = 0xa1;
    push_run(rt, map, open, true);
    push_chunk(rt, map, &chunk);
    push_chunk(rt, map, &chunk);
}

// Each bit of the batch, and the same bits after the commit.
fn check_chunks<const N: usize>(rt: &impl Abort, alloc: Global, open: u64, width: u64)
    requires { IsWidth N }
{
    let mut map = CleanBitMap::<N>::new(alloc).into_dirty();
    push_all(rt, &mut map, open);
    expect_at(
        rt,
        (open, N),
        map.len() == open.saturating_add(width).saturating_add(width),
    );
    for position in 0..map.len() {
        let bit = pending_bit(rt, &map, position);
        expect_at(
            rt,
            ("pending", open, position, N),
            bit == expected(open, width, position),
        );
    }
    let map = commit(rt, map, 1);
    for position in 0..map.len() {
        let bit = current_bit(rt, &map, position);
        expect_at(
            rt,
            ("current", open, position, N),
            bit == expected(open, width, position),
        );
    }
}

// Open lengths near a byte and near the end of a chunk.
fn check_open_lengths<const N: usize>(rt: &impl Abort, alloc: Global)
    requires { IsWidth N }
{
    expect(rt, N <= 64);
    let width = 8 * N as u64;
    for open in [0, 1, 3, 7, 8, 9, width - 1, width, width + 1, width + 7] {
        check_chunks::<N>(rt, alloc, open, width);
    }
}

// Whole chunks appended at each width.
#[test]
fn chunks_pushed_at_any_length(rt: HostRuntime) {
    check_open_lengths::<1>(&rt, rt.alloc());
    check_open_lengths::<3>(&rt, rt.alloc());
    check_open_lengths::<7>(&rt, rt.alloc());
    check_open_lengths::<8>(&rt, rt.alloc());
    check_open_lengths::<9>(&rt, rt.alloc());
    check_open_lengths::<32>(&rt, rt.alloc());
    check_open_lengths::<64>(&rt, rt.alloc());
}
