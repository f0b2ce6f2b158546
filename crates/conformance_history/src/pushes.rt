//! Bits and bytes pushed, and bits popped, past bytes, words and chunks, with and without reads, writes and prunes between them, at nine widths.
//!
//! The bits are those of positions: every third one is set.

ghost use Rattle.std.specs.Prelude.{◌<◌};
ghost use Rattle.bitmap_bytes.specs.Chunk.{IsWidth};

use crate::checked_calls::{
    commit, current_bit, pending_bit, pending_chunk, pending_pruned_bits, pop, prune_to_bit, push,
    push_byte, set_bit,
};
use crate::checks::{equal, expect_at};
use historical_bitmap::bitmap::Readable;
use historical_bitmap::bitmap::historical::{CleanBitMap, DirtyBitMap};
use std::alloc::Global;
use std::process::Abort;

// The bit at a position.
fn expected(position: u64) -> bool {
    position % 3 == 0
}

// Writes the last bit twice, and reads it after each write.
fn rewrite<const N: usize>(rt: &impl Abort, map: &mut DirtyBitMap<N>, position: u64) {
    set_bit(rt, map, position, !expected(position));
    expect_at(
        rt,
        ("rewritten", position, N),
        pending_bit(rt, map, position) != expected(position),
    );
    set_bit(rt, map, position, expected(position));
}

// Appends bits up to length `to`. Each fifth one is popped and appended again, and each seventh one is written again.
fn grow<const N: usize>(rt: &impl Abort, map: &mut DirtyBitMap<N>, to: u64) {
    for position in map.len()..to {
        push(rt, map, expected(position));
        if position % 5 == 0 {
            let popped = pop(rt, map);
            expect_at(rt, ("popped", position, N), popped == expected(position));
            push(rt, map, expected(position));
        }
        if position % 7 == 0 {
            rewrite(rt, map, position);
        }
        let bit = pending_bit(rt, map, position);
        expect_at(rt, ("pushed", position, N), bit == expected(position));
    }
    equal(rt, map.len(), to);
}

// Appends bits up to length `to`, with no other call between.
fn fill<const N: usize>(rt: &impl Abort, map: &mut DirtyBitMap<N>, to: u64) {
    for position in map.len()..to {
        push(rt, map, expected(position));
    }
    equal(rt, map.len(), to);
}

// The eight bits from a position on, the lowest first: of 0, 1, 2, .. every third from the first that is divisible by 3.
fn expected_byte(position: u64) -> u8 {
    match position % 3 {
        0 => 0x49,
        1 => 0x24,
        _ => 0x92,
    }
}

// Appends bytes, with no other call between.
fn fill_bytes<const N: usize>(rt: &impl Abort, map: &mut DirtyBitMap<N>, count: u64) {
    for _ in 0..count {
        let byte = expected_byte(map.len());
        push_byte(rt, map, byte);
    }
}

// Removes bits down to length `to`.
fn shrink<const N: usize>(rt: &impl Abort, map: &mut DirtyBitMap<N>, to: u64) {
    for _ in to..map.len() {
        let popped = pop(rt, map);
        expect_at(rt, ("popped", map.len(), N), popped == expected(map.len()));
    }
    equal(rt, map.len(), to);
}

// Each pending bit.
fn check_pending<const N: usize>(rt: &impl Abort, map: &DirtyBitMap<N>) {
    for position in pending_pruned_bits(rt, map)..map.len() {
        let bit = pending_bit(rt, map, position);
        expect_at(rt, ("pending", position, N), bit == expected(position));
    }
}

// The first byte of the last chunk, in which bits past the length are zero.
fn check_last<const N: usize>(rt: &impl Abort, map: &DirtyBitMap<N>, byte: u8) {
    let last = map.len().saturating_sub(1);
    let chunk = pending_chunk(rt, map, last);
    expect_at(rt, ("last", N), chunk.first() == Some(&byte));
}

// Each bit of the current bitmap.
fn check_current<const N: usize>(rt: &impl Abort, map: &CleanBitMap<N>) {
    equal(rt, map.current().len(), 333);
    for position in map.current().pruned_bits()..map.current().len() {
        let bit = current_bit(rt, map, position);
        expect_at(rt, ("current", position, N), bit == expected(position));
    }
}

// A batch that is committed: bits appended, removed, appended again, pruned and appended.
fn committed<const N: usize>(rt: &impl Abort, alloc: Global) -> CleanBitMap<N>
    requires { IsWidth N }
{
    let mut map = CleanBitMap::<N>::new(alloc).into_dirty();
    grow(rt, &mut map, 300);
    check_pending(rt, &map);
    shrink(rt, &mut map, 130);
    grow(rt, &mut map, 290);
    prune_to_bit(rt, &mut map, 270);
    check_pending(rt, &map);
    grow(rt, &mut map, 333);
    check_pending(rt, &map);
    commit(rt, map, 1)
}

// A batch after it that is aborted. It begins in a chunk of the current bitmap, and is cut below its first bit.
fn check_pushes<const N: usize>(rt: &impl Abort, alloc: Global, last: u8)
    requires { IsWidth N }
{
    let map = committed::<N>(rt, alloc);
    check_current(rt, &map);
    let mut map = map.into_dirty();
    grow(rt, &mut map, 450);
    shrink(rt, &mut map, 310);
    check_pending(rt, &map);
    grow(rt, &mut map, 386);
    // Positions 386 to 393, of which 387, 390 and 393 are set.
    push_byte(rt, &mut map, 0x92);
    grow(rt, &mut map, 411);
    check_pending(rt, &map);
    check_last(rt, &map, last);
    check_current(rt, &map.abort());
}

// Batches of pushes alone, then pops alone, then pushes again. The second begins with a set bit in the last chunk of the current bitmap.
fn check_fills<const N: usize>(rt: &impl Abort, alloc: Global)
    requires { IsWidth N }
{
    let mut map = CleanBitMap::<N>::new(alloc).into_dirty();
    fill(rt, &mut map, 1100);
    check_pending(rt, &map);
    shrink(rt, &mut map, 203);
    fill(rt, &mut map, 333);
    check_pending(rt, &map);
    let map = commit(rt, map, 1);
    check_current(rt, &map);
    let mut map = map.into_dirty();
    set_bit(rt, &mut map, 332, expected(332));
    fill(rt, &mut map, 1100);
    check_pending(rt, &map);
    shrink(rt, &mut map, 300);
    fill(rt, &mut map, 650);
    check_pending(rt, &map);
    check_current(rt, &map.abort());
}

// Bytes from a position on, past words and chunks. Then bits are popped, and bytes and bits follow, some of them with a read after each.
// The batch begins with a bit in the current bitmap's last chunk.
fn check_bytes<const N: usize>(rt: &impl Abort, alloc: Global, first: u64)
    requires width { IsWidth N }
    requires near { first < 64 }
{
    let mut map = CleanBitMap::<N>::new(alloc).into_dirty();
    fill(rt, &mut map, first);
    fill_bytes(rt, &mut map, 80);
    check_pending(rt, &map);
    shrink(rt, &mut map, first + 203);
    fill_bytes(rt, &mut map, 20);
    check_pending(rt, &map);
    shrink(rt, &mut map, 333);
    let map = commit(rt, map, 1);
    check_current(rt, &map);
    let mut map = map.into_dirty();
    set_bit(rt, &mut map, 332, expected(332));
    fill_bytes(rt, &mut map, 11);
    grow(rt, &mut map, 440 + first);
    fill_bytes(rt, &mut map, 3);
    check_pending(rt, &map);
    check_current(rt, &map.abort());
}

// Bytes at each position of a byte, and at the last two of a word.
fn check_all_bytes<const N: usize>(rt: &impl Abort, alloc: Global)
    requires { IsWidth N }
{
    for first in 0..8 {
        check_bytes::<N>(rt, alloc, first);
    }
    check_bytes::<N>(rt, alloc, 62);
    check_bytes::<N>(rt, alloc, 63);
}

// Bytes pushed past words and chunks of each width.
#[test]
fn bytes_pushed_past_words_and_chunks(rt: HostRuntime) {
    check_all_bytes::<1>(&rt, rt.alloc());
    check_all_bytes::<3>(&rt, rt.alloc());
    check_all_bytes::<4>(&rt, rt.alloc());
    check_all_bytes::<7>(&rt, rt.alloc());
    check_all_bytes::<8>(&rt, rt.alloc());
    check_all_bytes::<9>(&rt, rt.alloc());
    check_all_bytes::<32>(&rt, rt.alloc());
    check_all_bytes::<64>(&rt, rt.alloc());
    check_all_bytes::<65>(&rt, rt.alloc());
}

// Bits pushed past words and chunks of each width.
#[test]
fn bits_pushed_past_words_and_chunks(rt: HostRuntime) {
    check_fills::<1>(&rt, rt.alloc());
    check_fills::<3>(&rt, rt.alloc());
    check_fills::<4>(&rt, rt.alloc());
    check_fills::<7>(&rt, rt.alloc());
    check_fills::<8>(&rt, rt.alloc());
    check_fills::<9>(&rt, rt.alloc());
    check_fills::<32>(&rt, rt.alloc());
    check_fills::<64>(&rt, rt.alloc());
    check_fills::<65>(&rt, rt.alloc());
}

// Bits pushed and popped at each width. The last chunk begins at 408, 408, 384, 392, 384, 360, 256 and 0.
#[test]
fn bits_pushed_and_popped(rt: HostRuntime) {
    // Positions 408 and on: 1, 0, 0.
    check_pushes::<1>(&rt, rt.alloc(), 0x01);
    check_pushes::<3>(&rt, rt.alloc(), 0x01);
    // Positions 384 and on: 1, 0, 0, 1, 0, 0, 1, 0.
    check_pushes::<4>(&rt, rt.alloc(), 0x49);
    // Positions 392 and on: 0, 1, 0, 0, 1, 0, 0, 1.
    check_pushes::<7>(&rt, rt.alloc(), 0x92);
    check_pushes::<8>(&rt, rt.alloc(), 0x49);
    // Positions 360 and on, as from 384.
    check_pushes::<9>(&rt, rt.alloc(), 0x49);
    // Positions 256 and on: 0, 0, 1, 0, 0, 1, 0, 0.
    check_pushes::<32>(&rt, rt.alloc(), 0x24);
    // Positions 0 and on, as from 384.
    check_pushes::<65>(&rt, rt.alloc(), 0x49);
}
