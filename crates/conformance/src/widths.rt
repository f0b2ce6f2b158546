//! The calls of a dense bitmap at seven widths, compared bit by bit with two patterns.
//!
//! No period of a pattern divides the bits of a chunk, so neighbouring bytes, words and chunks differ.

ghost use Rattle.std.specs.Prelude.{◌*◌, ◌^◌, ◌<◌};

use crate::checks::{equal, equal_at, expect, expect_at, ok};
use crate::dense_helpers::{hash_of, holds};
use bitmap_core::bitmap::BitMap;
use std::alloc::{AllocError, Global};
use std::process::Abort;

// The bit at `position` of the first pattern.
fn first(position: u64) -> bool {
    position % 3 == 0 || position % 7 == 2
}

// The bit at `position` of the second pattern.
fn second(position: u64) -> bool {
    position % 5 < 2
}

fn first_bits(alloc: Global, len: u64) -> Result<Vec<bool>, AllocError> {
    (0..len).map(first).collect(alloc)
}

fn second_bits(alloc: Global, len: u64) -> Result<Vec<bool>, AllocError> {
    (0..len).map(second).collect(alloc)
}

// A bitmap of the first `len` bits of the first pattern.
fn first_bitmap<const N: usize>(rt: &impl Abort, alloc: Global, len: u64) -> BitMap<N>
    requires positive { 0 < N }
    requires fits { 8 * N < 2 ^ 64 }
{
    let bits = ok(rt, first_bits(alloc, len));
    ok(rt, BitMap::from_bools(alloc, bits.as_slice()))
}

// A bitmap of the first `len` bits of the second pattern.
fn second_bitmap<const N: usize>(rt: &impl Abort, alloc: Global, len: u64) -> BitMap<N>
    requires positive { 0 < N }
    requires fits { 8 * N < 2 ^ 64 }
{
    let bits = ok(rt, second_bits(alloc, len));
    ok(rt, BitMap::from_bools(alloc, bits.as_slice()))
}

// The iterator over all bits and its size hint, before and after each bit.
fn check_iterator<const N: usize>(rt: &impl Abort, map: &BitMap<N>) {
    let len = map.len();
    let mut bits = map.iter();
    for position in 0..len {
        let left = (len - position) as usize;
        equal_at(rt, (position, N), bits.size_hint(), (left, Some(left)));
        equal_at(rt, (position, N), bits.next(), Some(first(position)));
    }
    equal(rt, bits.size_hint(), (0, Some(0)));
    equal(rt, bits.next(), None);
}

// Conversions, counts, single bits and the iterator, on `len` bits.
fn check_reads<const N: usize>(rt: &impl Abort, alloc: Global, len: u64)
    requires positive { 0 < N }
    requires fits { 8 * N < 2 ^ 64 }
{
    let bits = ok(rt, first_bits(alloc, len));
    let map = ok(rt, BitMap::<N>::from_bools(alloc, bits.as_slice()));
    equal_at(rt, (len, N), map.len(), len);
    expect_at(rt, (len, N), holds(&map, bits.as_slice(), &[]));
    expect_at(rt, (len, N), ok(rt, map.to_bools()) == bits);
    let ones = bits.iter().filter(|bit| **bit).count() as u64;
    let zeros = bits.iter().filter(|bit| !**bit).count() as u64;
    equal_at(rt, (len, N), map.count_ones(), ones);
    equal_at(rt, (len, N), map.count_zeros(), zeros);
    for position in 0..len {
        expect(rt, position < map.len());
        equal_at(rt, (position, N), map.get(position), first(position));
    }
    check_iterator(rt, &map);
}

// `set` and `flip` at each of `len` positions. After each flip, all bits are compared.
fn check_edits<const N: usize>(rt: &impl Abort, alloc: Global, len: u64)
    requires positive { 0 < N }
    requires fits { 8 * N < 2 ^ 64 }
{
    let mut map = first_bitmap::<N>(rt, alloc, len);
    for position in 0..len {
        expect(rt, position < map.len());
        map.set(position, second(position));
    }
    expect_at(rt, (len, N), map.iter().eq((0..len).map(second)));
    for position in 0..len {
        expect(rt, position < map.len());
        map.flip(position);
        let expected = (0..len).map(|it| second(it) != (it <= position));
        expect_at(rt, (position, N), map.iter().eq(expected));
    }
}

// `flip_all` and `set_all` on `len` bits.
fn check_all_bits<const N: usize>(rt: &impl Abort, alloc: Global, len: u64)
    requires positive { 0 < N }
    requires fits { 8 * N < 2 ^ 64 }
{
    let mut map = first_bitmap::<N>(rt, alloc, len);
    map.flip_all();
    expect_at(rt, (len, N), map.iter().eq((0..len).map(|it| !first(it))));
    map.flip_all();
    expect_at(rt, (len, N), map.iter().eq((0..len).map(first)));
    map.set_all(true);
    expect_at(rt, (len, N), map.iter().all(|bit| bit));
    equal_at(rt, (len, N), map.count_ones(), len);
    map.set_all(false);
    expect_at(rt, (len, N), map.iter().all(|bit| !bit));
    equal_at(rt, (len, N), map.count_zeros(), len);
}

// `and_not` on `len` bits, in place and by the operator, and the relations of the results. `len` is at least 4.
fn check_related<const N: usize>(rt: &impl Abort, alloc: Global, len: u64)
    requires positive { 0 < N }
    requires fits { 8 * N < 2 ^ 64 }
{
    let other = second_bitmap::<N>(rt, alloc, len);
    let map = first_bitmap::<N>(rt, alloc, len);
    let mut rest = first_bitmap::<N>(rt, alloc, len);
    expect(rt, rest.len() == other.len());
    rest.and_not(&other);
    let expected = (0..len).map(|it| first(it) && !second(it));
    expect_at(rt, ("and_not", len, N), rest.iter().eq(expected));
    expect(rt, map.len() == other.len());
    expect_at(rt, ("-", len, N), ok(rt, &map - &other) == rest);
    expect(rt, rest.len() == other.len());
    expect_at(rt, (len, N), rest.is_disjoint(&other));
    expect(rt, rest.len() == map.len());
    expect_at(
        rt,
        (len, N),
        rest.is_subset(&map) && !rest.is_disjoint(&map),
    );
    expect(rt, map.len() == other.len());
    expect_at(
        rt,
        (len, N),
        !map.is_subset(&other) && !map.is_disjoint(&other),
    );
}

// `and`, `or` and `xor` on `len` bits, in place and by the operators.
fn check_combined<const N: usize>(rt: &impl Abort, alloc: Global, len: u64)
    requires positive { 0 < N }
    requires fits { 8 * N < 2 ^ 64 }
{
    let other = second_bitmap::<N>(rt, alloc, len);
    let mut both = first_bitmap::<N>(rt, alloc, len);
    expect(rt, both.len() == other.len());
    both.and(&other);
    let expected = (0..len).map(|it| first(it) && second(it));
    expect_at(rt, ("and", len, N), both.iter().eq(expected));
    let mut either = first_bitmap::<N>(rt, alloc, len);
    expect(rt, either.len() == other.len());
    either.or(&other);
    let expected = (0..len).map(|it| first(it) || second(it));
    expect_at(rt, ("or", len, N), either.iter().eq(expected));
    let mut difference = first_bitmap::<N>(rt, alloc, len);
    expect(rt, difference.len() == other.len());
    difference.xor(&other);
    let expected = (0..len).map(|it| first(it) != second(it));
    expect_at(rt, ("xor", len, N), difference.iter().eq(expected));
    let map = first_bitmap::<N>(rt, alloc, len);
    expect(rt, map.len() == other.len());
    expect_at(rt, ("&", len, N), ok(rt, &map & &other) == both);
    expect(rt, map.len() == other.len());
    expect_at(rt, ("|", len, N), ok(rt, &map | &other) == either);
    expect(rt, map.len() == other.len());
    expect_at(rt, ("^", len, N), ok(rt, &map ^ &other) == difference);
}

// A bitmap made at once and one of the same bits pushed are equal, and have equal hashes. A flipped bit or one bit more makes them
// differ. `len` is at least 1.
fn check_equality<const N: usize>(rt: &impl Abort, alloc: Global, len: u64)
    requires positive { 0 < N }
    requires fits { 8 * N < 2 ^ 64 }
{
    let map = first_bitmap::<N>(rt, alloc, len);
    let mut other = BitMap::<N>::default(alloc);
    expect(rt, other.is_empty() && other.iter().next().is_none());
    for position in 0..len {
        expect(rt, other.len() == position);
        ok(rt, other.push(first(position)));
    }
    expect_at(
        rt,
        (len, N),
        map == other && hash_of(&map) == hash_of(&other),
    );
    expect(rt, 0 < len && other.len() == len && len < 100000);
    other.flip(len - 1);
    expect_at(
        rt,
        (len, N),
        map != other && hash_of(&map) != hash_of(&other),
    );
    other.flip(len - 1);
    ok(rt, other.push(false));
    expect_at(
        rt,
        (len, N),
        map != other && hash_of(&map) != hash_of(&other),
    );
}

// The text of 10 and of 70 bits.
fn check_text<const N: usize>(rt: &impl Abort, alloc: Global)
    requires positive { 0 < N }
    requires fits { 8 * N < 2 ^ 64 }
{
    let map = first_bitmap::<N>(rt, alloc, 10);
    let text = ok(rt, format!(in alloc; "{map:?}"));
    equal(rt, text.as_str(), "BitMap[1011001001]");
    let map = first_bitmap::<N>(rt, alloc, 70);
    let text = ok(rt, format!(in alloc; "{map:?}"));
    let words = "BitMap[10110010010010011010010110010010...01001011001001001001101001011001]";
    equal(rt, text.as_str(), words);
}

// The calls on lengths near the ends of the first two chunks.
fn check_short<const N: usize>(rt: &impl Abort, alloc: Global)
    requires positive { 0 < N }
    requires fits { 8 * N < 2 ^ 64 }
{
    expect(rt, N <= 64);
    let width = 8 * N as u64;
    for len in [1, 2, 7, width - 1, width, width + 1, 2 * width + 3] {
        check_reads::<N>(rt, alloc, len);
        check_all_bits::<N>(rt, alloc, len);
        check_combined::<N>(rt, alloc, len);
        check_equality::<N>(rt, alloc, len);
    }
    for len in [7, width - 1, width, width + 1, 2 * width + 3] {
        check_related::<N>(rt, alloc, len);
    }
    check_edits::<N>(rt, alloc, width + 1);
    check_text::<N>(rt, alloc);
}

// The calls that work on many chunks at once, on 33 chunks less one bit, 33 chunks, and five bits more.
fn check_long<const N: usize>(rt: &impl Abort, alloc: Global)
    requires positive { 0 < N }
    requires fits { 8 * N < 2 ^ 64 }
{
    expect(rt, N <= 64);
    let width = 8 * N as u64;
    for len in [33 * width - 1, 33 * width, 33 * width + 5] {
        check_reads::<N>(rt, alloc, len);
        check_all_bits::<N>(rt, alloc, len);
        check_combined::<N>(rt, alloc, len);
        check_related::<N>(rt, alloc, len);
        check_equality::<N>(rt, alloc, len);
    }
}

// `count_ones` and `is_unset` on 213 bytes that have one set bit, at each position in turn: three blocks of 64 bytes, two words of
// eight, and single bytes.
fn check_one_set_bit<const N: usize>(rt: &impl Abort, alloc: Global)
    requires positive { 0 < N }
    requires fits { 8 * N < 2 ^ 64 }
{
    let len = 1704;
    let mut map = ok(rt, BitMap::<N>::zeroes(alloc, len));
    for position in 0..len {
        expect(rt, map.len() == len && position < len);
        expect_at(rt, (position, N), map.is_unset(0..len));
        map.set(position, true);
        equal_at(rt, (position, N), map.count_ones(), 1);
        expect_at(rt, (position, N), !map.is_unset(0..len));
        expect_at(rt, (position, N), !map.is_unset(position..len));
        expect_at(rt, (position, N), map.is_unset(0..position));
        expect_at(rt, (position, N), map.is_unset(position + 1..len));
        map.set(position, false);
    }
}

// Whether the one bitmap is a subset of the other, and whether they are disjoint. Their lengths are equal.
fn relations<const N: usize>(rt: &impl Abort, map: &BitMap<N>, other: &BitMap<N>) -> (bool, bool) {
    expect(rt, map.len() == other.len());
    (map.is_subset(other), map.is_disjoint(other))
}

// The relations of 213 bytes with one set bit and of as many with one unset bit, at each position in turn.
fn check_one_decides<const N: usize>(rt: &impl Abort, alloc: Global)
    requires positive { 0 < N }
    requires fits { 8 * N < 2 ^ 64 }
{
    let len = 1704;
    let mut one = ok(rt, BitMap::<N>::zeroes(alloc, len));
    let mut rest = ok(rt, BitMap::<N>::ones(alloc, len));
    for position in 0..len {
        expect(rt, one.len() == len && rest.len() == len && position < len);
        equal_at(rt, (position, N), relations(rt, &one, &rest), (true, true));
        one.set(position, true);
        equal_at(rt, (position, N), relations(rt, &one, &rest), (true, false));
        equal_at(
            rt,
            (position, N),
            relations(rt, &rest, &one),
            (false, false),
        );
        rest.set(position, false);
        equal_at(rt, (position, N), relations(rt, &one, &rest), (false, true));
        equal_at(rt, (position, N), relations(rt, &rest, &one), (false, true));
        rest.set(position, true);
        one.set(position, false);
    }
}

// `is_unset` on each range of a chunk and 67 bits, of which two are set.
fn check_unset_ranges<const N: usize>(rt: &impl Abort, alloc: Global)
    requires positive { 0 < N }
    requires fits { 8 * N < 2 ^ 64 }
{
    expect(rt, N <= 64);
    let len = 8 * N as u64 + 67;
    let mut map = ok(rt, BitMap::<N>::zeroes(alloc, len));
    expect(rt, map.len() == len);
    map.set(5, true);
    map.set(len - 2, true);
    for start in 0..len + 1 {
        let mut unset = true;
        for end in start..len + 1 {
            equal_at(rt, (start, end, N), map.is_unset(start..end), unset);
            unset = unset && end != 5 && end != len - 2;
        }
    }
}

// Appends bits of the second pattern, in chunks of `M` bytes, to `open` bits of the first.
fn check_extended<const N: usize, const M: usize>(
    rt: &impl Abort,
    alloc: Global,
    other: &BitMap<M>,
    open: u64,
)
    requires positive { 0 < N }
    requires fits { 8 * N < 2 ^ 64 }
{
    let len = other.len();
    let mut map = first_bitmap::<N>(rt, alloc, open);
    expect(rt, len < 10000 && map.len() < 10000);
    ok(rt, map.extend_from_bitmap(other));
    let expected = (0..open).map(first).chain((0..len).map(second));
    expect_at(rt, (open, N, M), map.iter().eq(expected));
}

// Appends three chunks and eleven bits to each length up to a byte and a bit past the end of the first chunk.
fn check_each_open_length<const N: usize, const M: usize>(rt: &impl Abort, alloc: Global)
    requires positive { 0 < N }
    requires fits { 8 * N < 2 ^ 64 }
    requires other_positive { 0 < M }
    requires other_fits { 8 * M < 2 ^ 64 }
{
    expect(rt, N <= 64);
    let width = 8 * N as u64;
    let other = second_bitmap::<M>(rt, alloc, 3 * width + 11);
    for open in 0..width + 10 {
        check_extended::<N, M>(rt, alloc, &other, open);
    }
}

// Each call that depends on the width, on short bitmaps.
#[test]
fn each_call_at_each_width(rt: HostRuntime) {
    check_short::<1>(&rt, rt.alloc());
    check_short::<3>(&rt, rt.alloc());
    check_short::<7>(&rt, rt.alloc());
    check_short::<8>(&rt, rt.alloc());
    check_short::<9>(&rt, rt.alloc());
    check_short::<32>(&rt, rt.alloc());
    check_short::<64>(&rt, rt.alloc());
}

// The calls on all bits: sixteen chunks at once, twice, and the chunks that are left.
#[test]
fn many_chunks_at_each_width(rt: HostRuntime) {
    check_long::<1>(&rt, rt.alloc());
    check_long::<3>(&rt, rt.alloc());
    check_long::<7>(&rt, rt.alloc());
    check_long::<8>(&rt, rt.alloc());
    check_long::<9>(&rt, rt.alloc());
    check_long::<32>(&rt, rt.alloc());
    check_long::<64>(&rt, rt.alloc());
}

// The blocks, words and bytes of counts and of tests for unset bits.
#[test]
fn one_set_bit_at_each_position(rt: HostRuntime) {
    check_one_set_bit::<1>(&rt, rt.alloc());
    check_one_set_bit::<3>(&rt, rt.alloc());
    check_one_set_bit::<7>(&rt, rt.alloc());
    check_one_set_bit::<8>(&rt, rt.alloc());
    check_one_set_bit::<9>(&rt, rt.alloc());
    check_one_set_bit::<32>(&rt, rt.alloc());
    check_one_set_bit::<64>(&rt, rt.alloc());
}

// The blocks, words and bytes of the relations of two bitmaps.
#[test]
fn one_bit_decides_at_each_position(rt: HostRuntime) {
    check_one_decides::<1>(&rt, rt.alloc());
    check_one_decides::<3>(&rt, rt.alloc());
    check_one_decides::<7>(&rt, rt.alloc());
    check_one_decides::<8>(&rt, rt.alloc());
    check_one_decides::<9>(&rt, rt.alloc());
    check_one_decides::<32>(&rt, rt.alloc());
    check_one_decides::<64>(&rt, rt.alloc());
}

// All ranges of `is_unset`.
#[test]
fn each_range_without_a_set_bit(rt: HostRuntime) {
    check_unset_ranges::<1>(&rt, rt.alloc());
    check_unset_ranges::<3>(&rt, rt.alloc());
    check_unset_ranges::<7>(&rt, rt.alloc());
    check_unset_ranges::<8>(&rt, rt.alloc());
    check_unset_ranges::<9>(&rt, rt.alloc());
    check_unset_ranges::<32>(&rt, rt.alloc());
    check_unset_ranges::<64>(&rt, rt.alloc());
}

// Bytes shifted by each number of bits, from chunks of one width to chunks of another.
#[test]
fn extended_at_each_length(rt: HostRuntime) {
    check_each_open_length::<9, 7>(&rt, rt.alloc());
    check_each_open_length::<7, 32>(&rt, rt.alloc());
    check_each_open_length::<3, 8>(&rt, rt.alloc());
    check_each_open_length::<32, 1>(&rt, rt.alloc());
    check_each_open_length::<1, 3>(&rt, rt.alloc());
    check_each_open_length::<8, 8>(&rt, rt.alloc());
}
