//! The calls of a dense bitmap, compared with results worked out by hand.

ghost use Rattle.std.specs.Prelude.{◌*◌, ◌^◌, ◌<◌};

use crate::checks::{equal, equal_at, expect, expect_at, ok};
use crate::dense_helpers::{bitmap, hash_of};
use bitmap_core::bitmap::readable::Readable;
use bitmap_core::bitmap::{BitMap, DEFAULT_CHUNK_SIZE};
use std::alloc::Global;
use std::process::Abort;

// Whether the iterator yields one bit per digit, set for `1`.
fn has_bits<const N: usize>(map: &BitMap<N>, digits: &[u8]) -> bool {
    map.iter().eq(digits.iter().map(|digit| *digit == b'1'))
}

// Whether the bits of the last chunk past the length are zero.
fn is_clean<const N: usize>(map: &BitMap<N>) -> bool {
    if map.len() == 0 {
        return true;
    }
    let width = 8 * N as u64;
    let (chunk, used) = map.last_chunk();
    for bit in used..width {
        if BitMap::<N>::get_bit_from_chunk(&chunk, bit) {
            return false;
        }
    }
    true
}

// The methods of `Readable` on a whole chunk and three bits, of which the last is set.
fn check_reader<const N: usize>(rt: &impl Abort, alloc: Global)
    requires positive { 0 < N }
    requires fits { 8 * N < 2 ^ 64 }
{
    expect(rt, N <= 64);
    let width = 8 * N as u64;
    let mut map = ok(rt, BitMap::<N>::zeroes(alloc, width + 3));
    equal(rt, map.len(), width + 3);
    map.set(width + 2, true);
    equal(rt, map.complete_chunks(), 1);
    equal(rt, map.pruned_chunks(), 0);
    equal(rt, map.pruned_bits(), 0);
    let (last, used) = map.last_chunk();
    equal(rt, used, 3);
    equal(rt, last[0], 4);
    expect(rt, map.get_chunk(1) == last);
    expect(rt, BitMap::<N>::get_bit_from_chunk(&last, width + 2));
}

// The calls on whole chunks.
fn check_chunks<const N: usize>(rt: &impl Abort, alloc: Global)
    requires positive { 0 < N }
    requires fits { 8 * N < 2 ^ 64 }
{
    expect(rt, N <= 64);
    let width = 8 * N as u64;
    let full = BitMap::<N>::FULL_CHUNK;
    expect(rt, full == [0xff; N] && BitMap::<N>::EMPTY_CHUNK == [0; N]);
    equal(rt, BitMap::<N>::CHUNK_SIZE_BITS, width);
    let mut map = ok(rt, BitMap::<N>::with_capacity(alloc, width));
    ok(rt, map.push_chunk(&full));
    expect(rt, map.is_chunk_aligned());
    expect(rt, map == ok(rt, BitMap::<N>::ones(alloc, width)));
}

// The methods of `Readable`, at seven widths.
#[test]
fn readers_at_each_width(rt: HostRuntime) {
    check_reader::<1>(&rt, rt.alloc());
    check_reader::<3>(&rt, rt.alloc());
    check_reader::<7>(&rt, rt.alloc());
    check_reader::<8>(&rt, rt.alloc());
    check_reader::<9>(&rt, rt.alloc());
    check_reader::<32>(&rt, rt.alloc());
    check_reader::<64>(&rt, rt.alloc());
}

// The constants, and a whole chunk pushed, at seven widths.
#[test]
fn whole_chunks_at_each_width(rt: HostRuntime) {
    equal(&rt, DEFAULT_CHUNK_SIZE, 8);
    check_chunks::<1>(&rt, rt.alloc());
    check_chunks::<3>(&rt, rt.alloc());
    check_chunks::<7>(&rt, rt.alloc());
    check_chunks::<8>(&rt, rt.alloc());
    check_chunks::<9>(&rt, rt.alloc());
    check_chunks::<32>(&rt, rt.alloc());
    check_chunks::<64>(&rt, rt.alloc());
}

// The operators return new bitmaps, compared bit by bit.
#[test]
fn five_bits_combined(rt: HostRuntime) {
    let map = bitmap::<4>(&rt, rt.alloc(), b"10110");
    let other = bitmap::<4>(&rt, rt.alloc(), b"11010");
    expect(&rt, map.len() == 5);
    expect(&rt, other.len() == 5);
    expect(&rt, has_bits(&ok(&rt, &map & &other), b"10010"));
    expect(&rt, has_bits(&ok(&rt, &map | &other), b"11110"));
    expect(&rt, has_bits(&ok(&rt, &map ^ &other), b"01100"));
    expect(&rt, has_bits(&ok(&rt, &map - &other), b"00100"));
    equal(&rt, map.count_ones(), 3);
    equal(&rt, map.count_zeros(), 2);
    let mut map = map;
    map.flip_all();
    expect(&rt, has_bits(&map, b"01001"));
}

// `and`, `or`, `xor` and `and_not` of the same bits.
#[test]
fn five_bits_combined_in_place(rt: HostRuntime) {
    let mut both = bitmap::<4>(&rt, rt.alloc(), b"10110");
    let mut either = bitmap::<4>(&rt, rt.alloc(), b"10110");
    let mut difference = bitmap::<4>(&rt, rt.alloc(), b"10110");
    let mut rest = bitmap::<4>(&rt, rt.alloc(), b"10110");
    let other = bitmap::<4>(&rt, rt.alloc(), b"11010");
    expect(&rt, both.len() == 5 && either.len() == 5);
    expect(&rt, difference.len() == 5 && rest.len() == 5);
    expect(&rt, other.len() == 5);
    both.and(&other);
    either.or(&other);
    difference.xor(&other);
    rest.and_not(&other);
    expect(&rt, has_bits(&both, b"10010"));
    expect(&rt, has_bits(&either, b"11110"));
    expect(&rt, has_bits(&difference, b"01100"));
    expect(&rt, has_bits(&rest, b"00100"));
}

// `is_subset` and `is_disjoint` of five bits, of no bits, and of a bitmap with itself.
#[test]
fn five_bits_related(rt: HostRuntime) {
    let map = bitmap::<4>(&rt, rt.alloc(), b"10110");
    for (digits, subset, superset, disjoint) in [
        (b"11010", false, false, false),
        (b"11110", true, false, false),
        (b"00110", false, true, false),
        (b"10110", true, true, false),
        (b"01001", false, false, true),
        (b"00000", false, true, true),
    ] {
        let other = bitmap::<4>(&rt, rt.alloc(), digits);
        expect(&rt, map.len() == other.len());
        equal(&rt, map.is_subset(&other), subset);
        equal(&rt, other.is_subset(&map), superset);
        equal(&rt, map.is_disjoint(&other), disjoint);
        equal(&rt, other.is_disjoint(&map), disjoint);
    }
    let none = BitMap::<4>::new(rt.alloc());
    expect(&rt, none.is_subset(&none) && none.is_disjoint(&none));
}

// `set_range` within a byte, over a whole byte, at the end, and on empty and reversed ranges.
#[test]
fn ranges_set(rt: HostRuntime) {
    for (start, end, value, want) in [
        (2, 5, true, b"10111010110010101001"),
        (2, 5, false, b"10000010110010101001"),
        (6, 18, true, b"10100011111111111101"),
        (6, 18, false, b"10100000000000000001"),
        (17, 20, true, b"10100010110010101111"),
        (0, 20, true, b"11111111111111111111"),
        (8, 16, false, b"10100010000000001001"),
        (4, 4, true, b"10100010110010101001"),
        (20, 20, true, b"10100010110010101001"),
        (9, 3, true, b"10100010110010101001"),
        (u64::MAX, 20, true, b"10100010110010101001"),
    ] {
        let mut map = bitmap::<1>(&rt, rt.alloc(), b"10100010110010101001");
        expect(&rt, end <= map.len());
        map.set_range(start..end, value);
        expect_at(&rt, (start, end, value), has_bits(&map, want));
        expect_at(&rt, (start, end, value), is_clean(&map));
    }
}

// The same operations in place.
#[test]
fn combined_in_place(rt: HostRuntime) {
    let mut map = bitmap::<3>(&rt, rt.alloc(), b"10110");
    let other = bitmap::<3>(&rt, rt.alloc(), b"11010");
    expect(&rt, map.len() == 5 && other.len() == 5);
    map.xor(&other);
    expect(&rt, has_bits(&map, b"01100") && map.len() == 5);
    map.or(&other);
    expect(&rt, has_bits(&map, b"11110") && map.len() == 5);
    map.and(&other);
    expect(&rt, map == other);
    expect(&rt, map.get(3) && !map.get_bit(2));
}

// The operators on bitmaps of two chunks, compared chunk by chunk.
#[test]
fn two_chunks_combined(rt: HostRuntime) {
    let mut map = BitMap::<4>::new(rt.alloc());
    let mut other = BitMap::<4>::new(rt.alloc());
    ok(&rt, map.push_chunk(&[0xff; 4]));
    ok(&rt, map.push_chunk(&[0xaa, 0xbb, 0xcc, 0xdd]));
    ok(&rt, other.push_chunk(&[0; 4]));
    ok(&rt, other.push_chunk(&[0x55, 0x66, 0x77, 0x88]));
    let both = ok(&rt, &map & &other);
    let either = ok(&rt, &map | &other);
    let difference = ok(&rt, &map ^ &other);
    expect(
        &rt,
        both.len() == 64 && either.len() == 64 && difference.len() == 64,
    );
    equal(&rt, both.get_chunk(1), [0, 0x22, 0x44, 0x88]);
    equal(&rt, either.get_chunk(1), [0xff, 0xff, 0xff, 0xdd]);
    equal(&rt, difference.get_chunk(1), [0xff, 0xdd, 0xbb, 0x55]);
    equal(&rt, both.count_ones(), 6);
    equal(&rt, either.count_ones(), 62);
}

// Appends ones from a bitmap with another chunk width to the bits 101.
fn check_extended<const N: usize, const M: usize>(
    rt: &impl Abort,
    alloc: Global,
    more: u64,
    want: [u8; N],
)
    requires positive { 0 < N }
    requires fits { 8 * N < 2 ^ 64 }
    requires other_positive { 0 < M }
    requires other_fits { 8 * M < 2 ^ 64 }
{
    let mut map = bitmap::<N>(rt, alloc, b"101");
    let other = ok(rt, BitMap::<M>::ones(alloc, more));
    expect(rt, map.len() == 3 && more < 100);
    ok(rt, map.extend_from_bitmap(&other));
    equal(rt, map.len(), more + 3);
    expect(rt, map.get_chunk(0) == want);
}

// Appends a bitmap whose chunks have another width.
#[test]
fn extended_by_another_width(rt: HostRuntime) {
    check_extended::<3, 8>(&rt, rt.alloc(), 9, [0xfd, 0x0f, 0]);
    check_extended::<8, 3>(&rt, rt.alloc(), 30, [0xfd, 0xff, 0xff, 0xff, 1, 0, 0, 0]);
}

// `truncate` and `extend_to`, also to a shorter length and to zero.
#[test]
fn shorter_and_longer(rt: HostRuntime) {
    let mut map = ok(&rt, BitMap::<3>::ones(rt.alloc(), 30));
    map.truncate(24);
    ok(&rt, map.extend_to(26));
    equal(&rt, map.count_ones(), 24);
    equal(&rt, map.count_zeros(), 2);
    ok(&rt, map.extend_to(5));
    equal(&rt, map.len(), 26);
    map.truncate(0);
    expect(&rt, map.is_empty() && map.count_zeros() == 0);
    expect(&rt, bitmap::<3>(&rt, rt.alloc(), b"") == map);
    let bools = ok(&rt, bitmap::<4>(&rt, rt.alloc(), b"10110").to_bools());
    expect(
        &rt,
        bools.as_slice() == [true, false, true, true, false].as_slice(),
    );
}

// `is_unset` on ranges about one set bit, also on empty and reversed ranges.
#[test]
fn ranges_without_a_set_bit(rt: HostRuntime) {
    let mut map = ok(&rt, BitMap::<8>::zeroes(rt.alloc(), 128));
    map.set(64, true);
    for (start, end, want) in [
        (0, 64, true),
        (0, 65, false),
        (64, 65, false),
        (65, 128, true),
        (5, 5, true),
        (9, 3, true),
        (128, 128, true),
    ] {
        equal_at(&rt, (start, end), map.is_unset(start..end), want);
    }
}

// `max_encode_size`, up to the greatest length.
#[test]
fn maximum_encoding_sizes(rt: HostRuntime) {
    for (bits, want) in [(0, 8), (1, 12), (32, 12), (33, 16)] {
        equal_at(&rt, bits, BitMap::<4>::max_encode_size(bits), want);
    }
    equal(&rt, BitMap::<1>::max_encode_size(10), 10);
    equal(&rt, BitMap::<3>::max_encode_size(24), 11);
    equal(&rt, BitMap::<3>::max_encode_size(25), 14);
    equal(
        &rt,
        BitMap::<1>::max_encode_size(u64::MAX),
        2305843009213693960,
    );
    equal(
        &rt,
        BitMap::<3>::max_encode_size(u64::MAX),
        2305843009213693961,
    );
    equal(
        &rt,
        BitMap::<7>::max_encode_size(u64::MAX),
        2305843009213693965,
    );
    equal(
        &rt,
        BitMap::<9>::max_encode_size(u64::MAX),
        2305843009213693967,
    );
    equal(
        &rt,
        BitMap::<64>::max_encode_size(u64::MAX),
        2305843009213693960,
    );
}

// All bits up to 64, and else the first and the last 32.
#[test]
fn debug_output(rt: HostRuntime) {
    let map = bitmap::<4>(&rt, rt.alloc(), b"101");
    equal(
        &rt,
        ok(&rt, format!(in rt.alloc(); "{map:?}")).as_str(),
        "BitMap[101]",
    );
    for (len, want) in [
        (0, "BitMap[]"),
        (
            64,
            "BitMap[1111111111111111111111111111111111111111111111111111111111111111]",
        ),
        (
            65,
            "BitMap[11111111111111111111111111111111...11111111111111111111111111111111]",
        ),
    ] {
        let map = ok(&rt, BitMap::<4>::ones(rt.alloc(), len));
        equal(
            &rt,
            ok(&rt, format!(in rt.alloc(); "{map:?}")).as_str(),
            want,
        );
    }
}

// Sets `positions` in a bitmap of `len` zeros, and iterates over them.
fn check_positions<const N: usize>(rt: &impl Abort, alloc: Global, len: u64, positions: &[u64])
    requires positive { 0 < N }
    requires fits { 8 * N < 2 ^ 64 }
{
    let mut map = ok(rt, BitMap::<N>::zeroes(alloc, len));
    for position in positions {
        expect(rt, *position < map.len());
        map.set(*position, true);
    }
    expect_at(rt, (len, N), map.ones_iter().eq(positions.iter().copied()));
    equal(rt, map.count_ones(), positions.len() as u64);
}

// The iterators over set positions, within and across words and chunks.
#[test]
fn set_positions(rt: HostRuntime) {
    check_positions::<4>(&rt, rt.alloc(), 0, &[]);
    check_positions::<4>(&rt, rt.alloc(), 100, &[]);
    check_positions::<4>(&rt, rt.alloc(), 1, &[0]);
    check_positions::<4>(&rt, rt.alloc(), 64, &[0, 31, 32, 63]);
    check_positions::<4>(&rt, rt.alloc(), 96, &[7, 40, 95]);
    check_positions::<4>(&rt, rt.alloc(), 35, &[31, 32, 34]);
    check_positions::<9>(&rt, rt.alloc(), 144, &[63, 64, 71, 72]);
    check_positions::<32>(
        &rt,
        rt.alloc(),
        600,
        &[0, 63, 64, 127, 128, 255, 256, 511, 512, 599],
    );
    let map = ok(&rt, BitMap::<32>::ones(rt.alloc(), 300));
    for start in [0, 1, 63, 64, 65, 191, 192, 255, 256, 299, 300, 301] {
        expect_at(&rt, start, map.ones_iter_from(start).eq(start..300));
    }
}

// The first and the last set position of a range.
#[test]
fn set_positions_of_a_range(rt: HostRuntime) {
    let mut map = ok(&rt, BitMap::<9>::zeroes(rt.alloc(), 144));
    map.set(63, true);
    map.set(64, true);
    map.set(71, true);
    map.set(72, true);
    for (start, end, first, last) in [
        (0, 144, Some(63), Some(72)),
        (64, 72, Some(64), Some(71)),
        (64, u64::MAX, Some(64), Some(72)),
        (65, 71, None, None),
        (73, 144, None, None),
        (72, 64, None, None),
    ] {
        equal_at(
            &rt,
            (start, end),
            map.ones_iter_range(start..end).next(),
            first,
        );
        equal_at(
            &rt,
            (start, end),
            map.ones_iter_range(start..end).last(),
            last,
        );
    }
}

// The iterator over bits, its size hint, and its end.
#[test]
fn bits_iterated(rt: HostRuntime) {
    let map = bitmap::<4>(&rt, rt.alloc(), b"10101");
    let mut bits = map.iter();
    equal(&rt, bits.size_hint(), (5, Some(5)));
    equal(&rt, bits.next(), Some(true));
    equal(&rt, bits.size_hint(), (4, Some(4)));
    equal(&rt, bits.by_ref().count(), 4);
    equal(&rt, bits.next(), None);
    equal(&rt, bits.next(), None);
    equal(&rt, bits.size_hint(), (0, Some(0)));
    expect(&rt, has_bits(&BitMap::<4>::new(rt.alloc()), b""));
    expect(&rt, has_bits(&BitMap::<4>::default(rt.alloc()), b""));
    let across = b"101010101010101010101010101010101010101";
    expect(&rt, has_bits(&bitmap::<4>(&rt, rt.alloc(), across), across));
}

// Equal bitmaps are equal and have equal hashes. A bit or a length more makes them differ.
#[test]
fn equality_and_hashes(rt: HostRuntime) {
    let digits = b"100100100100100100100100100100100";
    let mut map = bitmap::<4>(&rt, rt.alloc(), digits);
    let other = bitmap::<4>(&rt, rt.alloc(), digits);
    expect(&rt, map.len() == 33);
    expect(&rt, map == other && hash_of(&map) == hash_of(&other));
    ok(&rt, map.push(true));
    expect(&rt, map != other);
    expect(&rt, map.pop() && map == other);
    expect(&rt, map.len() == 33);
    map.flip(15);
    expect(&rt, map != other);
    map.flip(15);
    expect(&rt, map == other);
    expect(
        &rt,
        BitMap::<4>::new(rt.alloc()) != ok(&rt, BitMap::<4>::zeroes(rt.alloc(), 1)),
    );
    expect(
        &rt,
        hash_of(&BitMap::<4>::new(rt.alloc()))
            != hash_of(&ok(&rt, BitMap::<4>::zeroes(rt.alloc(), 1))),
    );
}

// Counts in a chunk that repeats `byte`, followed by a set bit and an unset one.
fn check_counts<const N: usize>(rt: &impl Abort, alloc: Global, byte: u8, ones: u64, zeros: u64)
    requires positive { 0 < N }
    requires fits { 8 * N < 2 ^ 64 }
{
    expect(rt, N <= 64);
    let mut map = BitMap::<N>::new(alloc);
    ok(rt, map.push_chunk(&[byte; N]));
    expect(rt, map.len() < 1000);
    ok(rt, map.push(true));
    expect(rt, map.len() < 1000);
    ok(rt, map.push(false));
    equal_at(rt, N, map.count_ones(), ones);
    equal_at(rt, N, map.count_zeros(), zeros);
}

// Counts of set and unset bits at three widths.
#[test]
fn whole_chunks_and_two_bits(rt: HostRuntime) {
    check_counts::<8>(&rt, rt.alloc(), 0xff, 65, 1);
    check_counts::<16>(&rt, rt.alloc(), 0xaa, 65, 65);
    check_counts::<32>(&rt, rt.alloc(), 0x55, 129, 129);
}

// The bits of the last chunk past the length are zero after each edit.
#[test]
fn zeros_past_the_length(rt: HostRuntime) {
    for len in [0, 1, 15, 20, 27, 31, 32, 33] {
        let mut map = ok(&rt, BitMap::<4>::ones(rt.alloc(), len));
        expect_at(&rt, ("ones", len), is_clean(&map));
        map.flip_all();
        expect_at(&rt, ("flip_all", len), is_clean(&map));
        map.set_all(true);
        expect_at(&rt, ("set_all", len), is_clean(&map));
        equal(&rt, map.count_ones(), len);
        map.truncate(len / 2);
        expect_at(&rt, ("truncate", len), is_clean(&map));
    }
}

// The same after the operators.
#[test]
fn zeros_past_the_length_of_combined_bitmaps(rt: HostRuntime) {
    for len in [1, 15, 20, 33] {
        let map = ok(&rt, BitMap::<4>::ones(rt.alloc(), len));
        let other = ok(&rt, BitMap::<4>::zeroes(rt.alloc(), len));
        let combined = ok(&rt, &map & &other);
        expect_at(&rt, ("and", len), is_clean(&combined));
        let combined = ok(&rt, &map | &other);
        expect_at(&rt, ("or", len), is_clean(&combined));
        let combined = ok(&rt, &map ^ &other);
        expect_at(&rt, ("xor", len), is_clean(&combined));
    }
}

// Pushes bits and removes them again in reverse order.
#[test]
fn pushes_and_pops(rt: HostRuntime) {
    let mut map = BitMap::<3>::new(rt.alloc());
    for i in 0..100 {
        expect(&rt, map.len() == i);
        ok(&rt, map.push(i % 2 == 0));
        expect_at(&rt, ("push", i), is_clean(&map));
    }
    for i in (0..100).rev() {
        expect(&rt, map.len() == i + 1);
        equal_at(&rt, ("pop", i), map.pop(), i % 2 == 0);
        expect_at(&rt, ("pop", i), is_clean(&map));
    }
}
