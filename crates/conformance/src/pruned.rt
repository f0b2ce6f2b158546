//! Bitmaps with a pruned prefix: each public call, compared with results worked out by hand.

ghost use Rattle.std.specs.Prelude.{◌*◌, ◌^◌, ◌<◌};

use crate::checked_calls::{
    chunk_at, extend_from_bitmap, get_bit, get_chunk, is_unset, last_chunk, of_chunks, pop,
    pop_chunk, prune_to_bit, push, push_byte, push_chunk, push_digits, set_bit, set_full_chunk,
    set_range, truncate, unprune,
};
use crate::checks::{equal, equal_at, expect, expect_at, ok};
use bitmap_core::bitmap::BitMap;
use bitmap_core::bitmap::prunable::{Error, Prunable};
use bitmap_core::bitmap::readable::Readable;
use std::alloc::Global;
use std::process::Abort;
use test_support::compare::{has_bits, same_bits};

// The numbers of bits and pruned bits, and of chunks, pruned chunks and complete chunks.
fn counts<const N: usize>(map: &Prunable<N>) -> (u64, u64, usize, usize, usize) {
    (
        map.len(),
        map.pruned_bits(),
        map.chunks_len(),
        map.pruned_chunks(),
        map.complete_chunks(),
    )
}

// Appends and edits after a pruned chunk.
fn check_edits<const N: usize>(rt: &impl Abort, alloc: Global)
    requires positive { 0 < N }
    requires fits { 8 * N < 2 ^ 64 }
{
    expect(rt, N <= 64);
    let width = 8 * N as u64;
    equal(rt, Prunable::<N>::CHUNK_SIZE_BITS, width);
    let mut map = of_chunks(rt, alloc, &[[0xff; N], [0; N]]);
    prune_to_bit(rt, &mut map, width);
    push(rt, &mut map, true);
    push(rt, &mut map, false);
    set_bit(rt, &mut map, width, true);
    set_bit(rt, &mut map, 2 * width + 1, true);
    expect(rt, counts(&map) == (2 * width + 2, width, 3, 1, 2));
    expect(rt, get_bit(rt, &map, width));
    expect(rt, !get_bit(rt, &map, width + 1));
    let (last, used) = last_chunk(rt, &map);
    expect(rt, last[0] == 3 && used == 2);
    expect(
        rt,
        get_chunk(rt, &map, 2) == last && chunk_at(rt, &map, 2 * width + 1) == last,
    );
    expect(rt, Prunable::<N>::get_bit_from_chunk(&last, 2 * width + 1));
    expect(rt, same_bits(&ok(rt, map.clone()), &map));
    expect(rt, pop(rt, &mut map) && pop(rt, &mut map));
    check_whole_chunks(rt, &mut map, width);
}

// Appends a chunk as a byte and zeros, and replaces the retained chunk before it. At the end two bits are left.
fn check_whole_chunks<const N: usize>(rt: &impl Abort, map: &mut Prunable<N>, width: u64) {
    // The prover learns the bounds of `N` from this call.
    let _ = map.len();
    expect(rt, N <= 64 && width == 8 * N as u64);
    push_byte(rt, map, 0xa5);
    ok(rt, map.extend_to(3 * width));
    ok(rt, map.extend_to(width));
    let (last, used) = last_chunk(rt, map);
    expect(
        rt,
        last[0] == 0xa5 && used == width && map.is_chunk_aligned(),
    );
    set_full_chunk(rt, map, 1, &[0x5a; N]);
    expect(rt, pop_chunk(rt, map) == last);
    truncate(rt, map, width + 2);
    expect(rt, has_bits(map, 1, b"01"));
}

// Restores pruned chunks.
fn check_put_back<const N: usize>(rt: &impl Abort, alloc: Global)
    requires positive { 0 < N }
    requires fits { 8 * N < 2 ^ 64 }
{
    expect(rt, N <= 64);
    let width = 8 * N as u64;
    let chunks = [[1; N], [2; N], [3; N]];
    let whole = of_chunks(rt, alloc, &chunks);
    let mut map = ok(rt, whole.clone());
    prune_to_bit(rt, &mut map, 3 * width);
    expect(
        rt,
        counts(&map) == (3 * width, 3 * width, 3, 3, 3) && !map.is_empty(),
    );
    unprune(rt, &mut map, &[]);
    equal(rt, map.pruned_chunks(), 3);
    unprune(rt, &mut map, &[[2; N], [3; N]]);
    expect(
        rt,
        map.pruned_chunks() == 1 && get_chunk(rt, &map, 1) == [2; N],
    );
    unprune(rt, &mut map, &[[1; N]]);
    expect(rt, same_bits(&map, &whole));
}

// Prunes up to a chunk, and then up to bits that were appended.
fn check_pruning<const N: usize>(rt: &impl Abort, alloc: Global)
    requires positive { 0 < N }
    requires fits { 8 * N < 2 ^ 64 }
{
    expect(rt, N <= 64);
    let width = 8 * N as u64;
    let mut map = of_chunks(rt, alloc, &[[1; N], [2; N], [3; N]]);
    prune_to_bit(rt, &mut map, 3 * width - 1);
    expect(
        rt,
        map.pruned_chunks() == 2 && get_chunk(rt, &map, 2) == [3; N],
    );
    extend_from_bitmap(rt, &mut map, &ok(rt, BitMap::<3>::ones(alloc, 11)));
    prune_to_bit(rt, &mut map, 3 * width);
    expect(rt, has_bits(&map, 3, b"11111111111"));
}

// Chunk and byte of a position, and empty bitmaps.
fn check_byte_and_mask<const N: usize>(rt: &impl Abort, alloc: Global)
    requires positive { 0 < N }
    requires fits { 8 * N < 2 ^ 64 }
{
    expect(rt, N <= 64);
    let last = 16 * N as u64 - 1;
    equal(rt, Prunable::<N>::to_chunk_index(last), 1);
    equal(rt, Prunable::<N>::chunk_byte_offset(last), N - 1);
    expect(
        rt,
        Prunable::<N>::new(alloc).is_empty() && Prunable::<N>::default(alloc).is_empty(),
    );
}

// All of these checks at one width.
fn check_calls<const N: usize>(rt: &impl Abort, alloc: Global)
    requires positive { 0 < N }
    requires fits { 8 * N < 2 ^ 64 }
{
    check_edits::<N>(rt, alloc);
    check_put_back::<N>(rt, alloc);
    check_pruning::<N>(rt, alloc);
    check_byte_and_mask::<N>(rt, alloc)
}

// Each call, at seven widths.
#[test]
fn each_call_at_each_width(rt: HostRuntime) {
    check_calls::<1>(&rt, rt.alloc());
    check_calls::<3>(&rt, rt.alloc());
    check_calls::<7>(&rt, rt.alloc());
    check_calls::<8>(&rt, rt.alloc());
    check_calls::<9>(&rt, rt.alloc());
    check_calls::<32>(&rt, rt.alloc());
    check_calls::<64>(&rt, rt.alloc());
}

// A bitmap made with pruned chunks, and the error if there are too many.
#[test]
fn chunks_pruned_from_the_start(rt: HostRuntime) {
    let map = ok(&rt, Prunable::<2>::new_with_pruned_chunks(rt.alloc(), 1));
    equal(&rt, counts(&map), (16, 16, 1, 1, 1));
    expect(&rt, map.is_chunk_aligned() && !map.is_empty());
    let rejected = Prunable::<4>::new_with_pruned_chunks(rt.alloc(), 576460752303423488);
    expect(
        &rt,
        rejected.is_err_and(|why| why == Error::PrunedChunksOverflow),
    );
    equal(
        &rt,
        ok(
            &rt,
            format!(in rt.alloc(); "{}", Error::PrunedChunksOverflow),
        )
        .as_str(),
        "pruned_chunks * CHUNK_SIZE_BITS overflows u64",
    );
}

// The last position of the greatest length is set and found.
#[test]
fn ends_of_the_positions(rt: HostRuntime) {
    let mut map = ok(
        &rt,
        Prunable::<8>::new_with_pruned_chunks(rt.alloc(), 288230376151711743),
    );
    equal(&rt, map.pruned_bits(), 18446744073709551552);
    ok(&rt, map.extend_to(u64::MAX));
    set_bit(&rt, &mut map, u64::MAX - 1, true);
    let first = map.pruned_bits();
    equal(&rt, map.ones_iter_range(first..u64::MAX - 1).next(), None);
    equal(
        &rt,
        map.ones_iter_range(first..u64::MAX).next(),
        Some(18446744073709551614),
    );
}

// Prunes, pushes and removes whole chunks.
#[test]
fn three_chunks(rt: HostRuntime) {
    let chunks = [[1, 2, 3, 4], [5, 6, 7, 8], [9, 10, 11, 12]];
    let mut map = of_chunks(&rt, rt.alloc(), &chunks);
    equal(&rt, get_chunk(&rt, &map, 0), [1, 2, 3, 4]);
    prune_to_bit(&rt, &mut map, 32);
    equal(&rt, counts(&map), (96, 32, 3, 1, 3));
    equal(&rt, chunk_at(&rt, &map, 32), [5, 6, 7, 8]);
    equal(&rt, chunk_at(&rt, &map, 64), [9, 10, 11, 12]);
    equal(&rt, get_chunk(&rt, &map, 1), [5, 6, 7, 8]);
    equal(&rt, get_chunk(&rt, &map, 2), [9, 10, 11, 12]);
    prune_to_bit(&rt, &mut map, 64);
    equal(&rt, counts(&map), (96, 64, 3, 2, 3));
    equal(&rt, chunk_at(&rt, &map, 95), [9, 10, 11, 12]);
    push_chunk(&rt, &mut map, &[13, 14, 15, 16]);
    equal(&rt, counts(&map), (128, 64, 4, 2, 4));
    equal(&rt, pop_chunk(&rt, &mut map), [13, 14, 15, 16]);
    equal(&rt, pop_chunk(&rt, &mut map), [9, 10, 11, 12]);
    equal(&rt, counts(&map), (64, 64, 2, 2, 2));
}

// Removes whole chunks down to none.
#[test]
fn chunks_popped(rt: HostRuntime) {
    let chunks = [
        [0x11, 0x22, 0x33, 0x44],
        [0x55, 0x66, 0x77, 0x88],
        [0x99, 0xaa, 0xbb, 0xcc],
    ];
    let mut map = of_chunks(&rt, rt.alloc(), &chunks);
    equal(&rt, pop_chunk(&rt, &mut map), [0x99, 0xaa, 0xbb, 0xcc]);
    equal(&rt, pop_chunk(&rt, &mut map), [0x55, 0x66, 0x77, 0x88]);
    expect(&rt, has_bits(&map, 0, b"10001000010001001100110000100010"));
    equal(&rt, pop_chunk(&rt, &mut map), [0x11, 0x22, 0x33, 0x44]);
    expect(&rt, map.is_empty());
}

// Pruning to a position that is already pruned changes nothing.
#[test]
fn pruned_again(rt: HostRuntime) {
    let mut map = of_chunks(&rt, rt.alloc(), &[[1, 2, 3, 4], [5, 6, 7, 8]]);
    for (bit, want) in [(31, 0), (32, 1), (32, 1), (16, 1), (0, 1), (63, 1), (64, 2)] {
        prune_to_bit(&rt, &mut map, bit);
        equal_at(&rt, bit, map.pruned_chunks(), want);
    }
    equal(&rt, counts(&map), (64, 64, 2, 2, 2));
    expect(&rt, !map.is_empty() && map.is_chunk_aligned());
}

// A partial last chunk is read, cut off and pruned up to.
#[test]
fn partial_last_chunks(rt: HostRuntime) {
    let mut map = of_chunks(&rt, rt.alloc(), &[[0xff; 4], [0xaa; 4]]);
    push_digits(&rt, &mut map, b"101");
    equal(&rt, last_chunk(&rt, &map), ([5, 0, 0, 0], 3));
    prune_to_bit(&rt, &mut map, 32);
    equal(&rt, counts(&map), (67, 32, 3, 1, 2));
    equal(&rt, last_chunk(&rt, &map), ([5, 0, 0, 0], 3));
    expect(
        &rt,
        has_bits(&map, 1, b"01010101010101010101010101010101101"),
    );
    expect(&rt, !map.is_chunk_aligned());
    truncate(&rt, &mut map, 64);
    equal(&rt, last_chunk(&rt, &map), ([0xaa; 4], 32));
    expect(&rt, map.is_chunk_aligned());
    truncate(&rt, &mut map, 35);
    expect(&rt, has_bits(&map, 1, b"010"));
    truncate(&rt, &mut map, 32);
    expect(&rt, has_bits(&map, 1, b""));
}

// `set_range`, `is_unset` and the counts after one pruned chunk, whose bits do not count.
#[test]
fn ranges_after_a_pruned_chunk(rt: HostRuntime) {
    let mut map = of_chunks(&rt, rt.alloc(), &[[0xff], [0]]);
    push_digits(&rt, &mut map, b"001");
    prune_to_bit(&rt, &mut map, 8);
    expect(&rt, map.count_ones() == 1 && map.count_zeros() == 10);
    expect(
        &rt,
        is_unset(&rt, &map, 8..18) && !is_unset(&rt, &map, 8..19),
    );
    expect(
        &rt,
        is_unset(&rt, &map, 19..19) && is_unset(&rt, &map, 18..2),
    );
    set_range(&rt, &mut map, 10..17, true);
    expect(&rt, has_bits(&map, 1, b"00111111101"));
    expect(&rt, map.count_ones() == 8 && map.count_zeros() == 3);
    expect(
        &rt,
        !is_unset(&rt, &map, 16..18) && is_unset(&rt, &map, 17..18),
    );
    set_range(&rt, &mut map, 12..11, true);
    set_range(&rt, &mut map, 12..1, false);
    set_range(&rt, &mut map, 8..8, true);
    set_range(&rt, &mut map, 15..19, false);
    expect(&rt, has_bits(&map, 1, b"00111110000"));
    set_range(&rt, &mut map, 8..19, true);
    expect(&rt, has_bits(&map, 1, b"11111111111"));
    equal(&rt, last_chunk(&rt, &map), ([7], 3));
}

// Chunk index, byte offset and mask of positions, up to `u64::MAX`.
#[test]
fn byte_and_mask_of_positions(rt: HostRuntime) {
    for (bit, chunk, byte, mask) in [
        (0, 0, 0, 1),
        (1, 0, 0, 2),
        (7, 0, 0, 128),
        (8, 0, 1, 1),
        (16, 0, 2, 1),
        (24, 0, 3, 1),
        (31, 0, 3, 128),
        (32, 1, 0, 1),
        (63, 1, 3, 128),
        (64, 2, 0, 1),
        (u64::MAX, 576460752303423487, 3, 128),
    ] {
        equal_at(&rt, bit, Prunable::<4>::to_chunk_index(bit), chunk);
        equal_at(&rt, bit, Prunable::<4>::chunk_byte_offset(bit), byte);
        equal_at(&rt, bit, Prunable::<4>::chunk_byte_bitmask(bit), mask);
    }
    let chunk = [0b10101010, 0b11001100, 0b11110000, 0b00001111];
    for (bit, want) in [
        (0, false),
        (1, true),
        (3, true),
        (8, false),
        (10, true),
        (43, true),
    ] {
        equal_at(
            &rt,
            bit,
            Prunable::<4>::get_bit_from_chunk(&chunk, bit),
            want,
        );
    }
}

// Replaces the last chunk of 35 bits by one in which all its three bits are set.
#[tactic(auto, using(crate::proofs::ShownBits::zero_past_three))]
fn set_three_bits(rt: &impl Abort, map: &mut Prunable<4>) {
    expect(rt, map.pruned_chunks() <= 1 && map.len() == 35);
    map.set_chunk_by_index(1, &[7, 0, 0, 0]);
}

// Replaces a full and a partial chunk.
#[test]
fn chunks_replaced(rt: HostRuntime) {
    let mut map = Prunable::<4>::new(rt.alloc());
    ok(&rt, map.extend_to(35));
    set_three_bits(&rt, &mut map);
    equal(&rt, get_chunk(&rt, &map, 1), [7, 0, 0, 0]);
    equal(&rt, last_chunk(&rt, &map), ([7, 0, 0, 0], 3));
    set_full_chunk(&rt, &mut map, 0, &[0xff; 4]);
    expect(&rt, map.ones_iter_from(0).eq(0..35));
    prune_to_bit(&rt, &mut map, 34);
    expect(&rt, has_bits(&map, 1, b"111"));
    ok(&rt, map.extend_to(64));
    set_full_chunk(&rt, &mut map, 1, &[0, 0xff, 0, 0]);
    expect(&rt, has_bits(&map, 1, b"00000000111111110000000000000000"));
}

// Pushes and removes bits, before and after a prune.
#[test]
fn bits_pushed_and_popped(rt: HostRuntime) {
    let mut map = Prunable::<4>::new(rt.alloc());
    push_digits(&rt, &mut map, b"101");
    expect(&rt, has_bits(&map, 0, b"101"));
    set_bit(&rt, &mut map, 1, true);
    expect(&rt, has_bits(&map, 0, b"111"));
    set_bit(&rt, &mut map, 1, false);
    expect(
        &rt,
        pop(&rt, &mut map) && !pop(&rt, &mut map) && pop(&rt, &mut map),
    );
    expect(&rt, map.is_empty());
    for i in 0..100 {
        push(&rt, &mut map, i % 3 == 0);
        equal_at(&rt, i, map.is_chunk_aligned(), i % 32 == 31);
    }
    prune_to_bit(&rt, &mut map, 40);
    for i in (32..100).rev() {
        equal_at(&rt, i, pop(&rt, &mut map), i % 3 == 0);
        equal(&rt, map.len(), i);
    }
    push_byte(&rt, &mut map, 0xff);
    push_byte(&rt, &mut map, 0x01);
    expect(&rt, has_bits(&map, 1, b"1111111110000000"));
}

// `extend_to` appends zeros, and does nothing for a shorter length.
#[test]
fn zeros_appended(rt: HostRuntime) {
    let mut map = Prunable::<4>::new(rt.alloc());
    push_digits(&rt, &mut map, b"101010101010101010101010101010");
    for (len, want) in [(5, 30), (30, 30), (65, 65)] {
        ok(&rt, map.extend_to(len));
        equal_at(&rt, len, map.len(), want);
    }
    expect(&rt, map.ones_iter_from(0).eq((0..30).step_by(2)));
    prune_to_bit(&rt, &mut map, 32);
    ok(&rt, map.extend_to(31));
    ok(&rt, map.extend_to(100));
    equal(&rt, counts(&map), (100, 32, 4, 1, 3));
    equal(&rt, map.ones_iter_from(0).next(), None);
}

// Appends a bitmap at once and bit by bit, to zeros after a pruned chunk.
fn check_appended(rt: &impl Abort, alloc: Global, source: &BitMap<8>, floor: u64) {
    expect(rt, source.len() <= 1000 && floor <= 1000);
    let mut map = ok(rt, Prunable::<16>::new_with_pruned_chunks(alloc, 1));
    ok(rt, map.extend_to(floor));
    let mut other = ok(rt, map.clone());
    extend_from_bitmap(rt, &mut map, source);
    for bit in source.iter() {
        push(rt, &mut other, bit);
    }
    equal_at(rt, floor, map.len(), floor + source.len());
    expect_at(rt, floor, same_bits(&map, &other));
}

// `extend_from_bitmap` gives the same bits as pushing each bit.
#[test]
fn a_bitmap_appended_or_pushed(rt: HostRuntime) {
    let mut source = ok(&rt, BitMap::<8>::zeroes(rt.alloc(), 1000));
    for i in 0..1000 {
        expect(&rt, i < source.len());
        source.set(i, i % 3 == 0 || i % 7 == 0);
    }
    for floor in [128, 129, 191, 255, 256, 300] {
        check_appended(&rt, rt.alloc(), &source, floor);
    }
}
