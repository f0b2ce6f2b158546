//! Edits that change the length of a batch by many bits at once: a worked example, and batches at seven widths.
//!
//! The chunks that are cut off are edited, not edited, or appended by the batch. After each edit the batch is read and committed, both
//! commits are read in place, and the bitmap is rewound.

ghost use Rattle.bitmap_bytes.specs.Chunk.{IsWidth};

use crate::checked_calls::{
    commit, extend_from_bitmap, extend_to, has_pending_bits, pop, prune_to_bit, push, push_byte,
    read_bit, rewind, set_bit, truncate,
};
use crate::checks::{equal, expect, expect_at, ok};
use crate::ranges::{begun, committed, grow, pattern};
use bitmap_core::bitmap::BitMap;
use historical_bitmap::bitmap::Readable;
use historical_bitmap::bitmap::historical::{CleanBitMap, DirtyBitMap};
use std::alloc::Global;
use std::process::Abort;
use test_support::compare::{has_bits, same_bits};

// A batch with the bits 0111 0101, 1111 0000 and 101 after one pruned chunk. The last chunk of the current bitmap is the second of these.
fn three_chunks(rt: &impl Abort, alloc: Global) -> DirtyBitMap<1> {
    let mut map = CleanBitMap::<1>::new(alloc).into_dirty();
    for byte in [0x4d, 0xae, 0x0f] {
        push_byte(rt, &mut map, byte);
    }
    prune_to_bit(rt, &mut map, 8);
    let mut map = commit(rt, map, 1).into_dirty();
    push(rt, &mut map, true);
    push(rt, &mut map, false);
    push(rt, &mut map, true);
    expect(rt, has_pending_bits(rt, &map, 1, b"0111010111110000101"));
    map
}

#[test]
fn batch_truncated(rt: HostRuntime) {
    let mut map = three_chunks(&rt, rt.alloc());
    truncate(&rt, &mut map, 27);
    expect(&rt, has_pending_bits(&rt, &map, 1, b"0111010111110000101"));
    truncate(&rt, &mut map, 26);
    expect(&rt, has_pending_bits(&rt, &map, 1, b"011101011111000010"));
    truncate(&rt, &mut map, 18);
    expect(&rt, has_pending_bits(&rt, &map, 1, b"0111010111"));
    push(&rt, &mut map, false);
    push(&rt, &mut map, true);
    expect(&rt, has_pending_bits(&rt, &map, 1, b"011101011101"));
    truncate(&rt, &mut map, 16);
    expect(&rt, has_pending_bits(&rt, &map, 1, b"01110101"));
    expect(&rt, pop(&rt, &mut map));
    push_byte(&rt, &mut map, 0x81);
    expect(&rt, has_pending_bits(&rt, &map, 1, b"011101010000001"));
    truncate(&rt, &mut map, 8);
    expect(&rt, has_pending_bits(&rt, &map, 1, b""));
    let map = commit(&rt, map, 2);
    expect(&rt, has_bits(map.current(), 1, b""));
    let map = rewind(&rt, map, 1);
    expect(&rt, has_bits(map.current(), 1, b"0111010111110000"));
}

// An edited chunk is cut within, and its later bits are zero if they are appended again.
#[test]
fn edited_chunk_truncated(rt: HostRuntime) {
    let mut map = three_chunks(&rt, rt.alloc());
    set_bit(&rt, &mut map, 20, true);
    set_bit(&rt, &mut map, 23, true);
    truncate(&rt, &mut map, 22);
    expect(&rt, has_pending_bits(&rt, &map, 1, b"01110101111110"));
    push(&rt, &mut map, false);
    push(&rt, &mut map, false);
    expect(&rt, has_pending_bits(&rt, &map, 1, b"0111010111111000"));
    let map = commit(&rt, map, 2);
    expect(&rt, has_bits(map.current(), 1, b"0111010111111000"));
}

// Bits that were cut off are zero if the batch is extended again. A length that the batch has already changes nothing.
#[test]
fn batch_extended(rt: HostRuntime) {
    let mut map = three_chunks(&rt, rt.alloc());
    truncate(&rt, &mut map, 18);
    extend_to(&rt, &mut map, 8);
    extend_to(&rt, &mut map, 18);
    expect(&rt, has_pending_bits(&rt, &map, 1, b"0111010111"));
    extend_to(&rt, &mut map, 21);
    expect(&rt, has_pending_bits(&rt, &map, 1, b"0111010111000"));
    extend_to(&rt, &mut map, 34);
    expect(
        &rt,
        has_pending_bits(&rt, &map, 1, b"01110101110000000000000000"),
    );
    push(&rt, &mut map, true);
    let map = commit(&rt, map, 2);
    expect(
        &rt,
        has_bits(map.current(), 1, b"011101011100000000000000001"),
    );
    let map = rewind(&rt, map, 1);
    expect(&rt, has_bits(map.current(), 1, b"0111010111110000"));
}

// The bits 1101 0011 101, in chunks of one byte.
fn eleven(rt: &impl Abort, alloc: Global) -> BitMap<1> {
    ok(
        rt,
        BitMap::from_bools(
            alloc,
            &[
                true, true, false, true, false, false, true, true, true, false, true,
            ],
        ),
    )
}

#[test]
fn bitmap_appended(rt: HostRuntime) {
    let more = eleven(&rt, rt.alloc());
    let mut map = three_chunks(&rt, rt.alloc());
    truncate(&rt, &mut map, 18);
    extend_from_bitmap(&rt, &mut map, &BitMap::new(rt.alloc()));
    expect(&rt, has_pending_bits(&rt, &map, 1, b"0111010111"));
    extend_from_bitmap(&rt, &mut map, &more);
    expect(
        &rt,
        has_pending_bits(&rt, &map, 1, b"011101011111010011101"),
    );
    truncate(&rt, &mut map, 16);
    extend_from_bitmap(&rt, &mut map, &more);
    expect(&rt, has_pending_bits(&rt, &map, 1, b"0111010111010011101"));
    let map = commit(&rt, map, 2);
    expect(&rt, has_bits(map.current(), 1, b"0111010111010011101"));
    let map = rewind(&rt, map, 1);
    expect(&rt, has_bits(map.current(), 1, b"0111010111110000"));
}

// Each bit of a readable bitmap of `len` bits: that of the pattern below `filled`, and zero from there on.
fn check_read<B: Readable<N>, const N: usize>(rt: &impl Abort, map: &B, filled: u64, len: u64) {
    equal(rt, map.len(), len);
    for position in map.pruned_bits()..len {
        expect_at(
            rt,
            ("read", position, filled, len, N),
            read_bit(rt, map, position) == (position < filled && pattern(position)),
        );
    }
}

// The bitmap at a commit, read in place.
fn check_at<const N: usize>(
    rt: &impl Abort,
    map: &CleanBitMap<N>,
    number: u64,
    filled: u64,
    len: u64,
) {
    match map.at(number) {
        Some(state) => check_read(rt, &state, filled, len),
        None => expect_at(rt, ("kept", number, N), false),
    }
}

// A batch with the bits of the pattern below `filled`, and zeros up to `len`. It is committed, and the bitmap is rewound.
fn check_batch<const N: usize>(
    rt: &impl Abort,
    before: &CleanBitMap<N>,
    map: DirtyBitMap<N>,
    filled: u64,
    len: u64,
) {
    check_read(rt, &map, filled, len);
    let map = commit(rt, map, 2);
    check_read(rt, map.current(), filled, len);
    check_at(rt, &map, 1, before.current().len(), before.current().len());
    check_at(rt, &map, 2, filled, len);
    let map = rewind(rt, map, 1);
    expect_at(
        rt,
        ("rewound", len, N),
        same_bits(map.current(), before.current()),
    );
}

// A batch that is shortened to `n` bits, and one that then appends bits again.
fn check_truncated<const N: usize>(rt: &impl Abort, before: &CleanBitMap<N>, width: u64, n: u64) {
    let mut map = begun(rt, ok(rt, before.clone()), width);
    truncate(rt, &mut map, n);
    check_batch(rt, before, map, n, n);
    let mut map = begun(rt, ok(rt, before.clone()), width);
    truncate(rt, &mut map, n);
    let longer = n.saturating_add(width).saturating_add(3);
    grow(rt, &mut map, longer);
    check_batch(rt, before, map, longer, longer);
}

// The bits of the pattern from position `from` up to `to`.
fn dense<const N: usize>(rt: &impl Abort, alloc: Global, from: u64, to: u64) -> BitMap<N>
    requires { IsWidth N }
{
    let mut bits = BitMap::new(alloc);
    for position in from..to {
        expect(rt, bits.len() < u64::MAX);
        ok(rt, bits.push(pattern(position)));
    }
    bits
}

// A batch that is shortened to the first of two lengths, and then extended to the other: with zeros, and with the bits of a dense bitmap.
fn check_extended<const N: usize>(
    rt: &impl Abort,
    alloc: Global,
    before: &CleanBitMap<N>,
    width: u64,
    lengths: (u64, u64),
)
    requires { IsWidth N }
{
    let (n, to) = lengths;
    let mut map = begun(rt, ok(rt, before.clone()), width);
    truncate(rt, &mut map, n);
    extend_to(rt, &mut map, to);
    check_batch(rt, before, map, n, to);
    let mut map = begun(rt, ok(rt, before.clone()), width);
    truncate(rt, &mut map, n);
    extend_from_bitmap(rt, &mut map, &dense(rt, alloc, n, to));
    check_batch(rt, before, map, to, to);
}

// Lengths within chunks and between them. Chunk 2 is edited, chunk 5 is the last of the current bitmap, and chunks 6 and 7 are appended.
fn check_lengths<const N: usize>(rt: &impl Abort, alloc: Global, width: u64)
    requires { IsWidth N }
{
    let before = committed::<N>(rt, alloc, width);
    expect(rt, 8 <= width && width <= 512);
    for n in [
        width,
        width + 5,
        2 * width,
        2 * width + 3,
        3 * width,
        4 * width + 1,
        5 * width + 5,
        5 * width + 6,
        6 * width,
        7 * width,
        7 * width + 3,
    ] {
        check_truncated(rt, &before, width, n);
        for more in [1, width - 3, width, 2 * width + 1] {
            check_extended(rt, alloc, &before, width, (n, n.saturating_add(more)));
        }
    }
}

#[test]
fn lengths_of_a_batch(rt: HostRuntime) {
    check_lengths::<1>(&rt, rt.alloc(), 8);
    check_lengths::<3>(&rt, rt.alloc(), 24);
    check_lengths::<7>(&rt, rt.alloc(), 56);
    check_lengths::<8>(&rt, rt.alloc(), 64);
    check_lengths::<9>(&rt, rt.alloc(), 72);
    check_lengths::<32>(&rt, rt.alloc(), 256);
    check_lengths::<64>(&rt, rt.alloc(), 512);
}
