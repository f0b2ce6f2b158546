//! The methods of `Readable`, on the bitmaps of this project and on other implementations of the trait.

ghost use Rattle.std.specs.Prelude.{◌≡◌, ◌*◌, ◌^◌, ◌<◌, true};

use crate::checked_calls::{extend_from_bitmap, prune_to_bit, push, set_bit};
use crate::checks::{equal, equal_at, expect, expect_at, ok};
use bitmap_core::bitmap::BitMap;
use bitmap_core::bitmap::prunable::Prunable;
use bitmap_core::bitmap::readable::Readable;
use std::alloc::{AllocError, Global};
use std::cell::Cell;
use std::process::Abort;

// Five set bits in one chunk, whose bits past the length are set too.
#[derive(Drop)]
struct Five;

impl Readable<4> for Five {
    ghost meaning = { λ _. record { pruned = 0; len = 5; bit = λ _. true } };

    fn complete_chunks(&self) -> usize {
        0
    }

    fn get_chunk(&self, _chunk: usize) -> [u8; 4] {
        [255; 4]
    }

    fn last_chunk(&self) -> ([u8; 4], u64) {
        ([255; 4], 5)
    }

    fn pruned_chunks(&self) -> usize {
        0
    }

    fn len(&self) -> u64 {
        5
    }
}

// A bitmap whose retained positions are the last seven below `u64::MAX`, all set.
#[derive(Drop)]
struct Top;

impl Readable<1> for Top {
    ghost meaning = { λ _. record {
      pruned = 2305843009213693951;
      len = 18446744073709551615;
      bit = λ _. true;
    } };

    fn complete_chunks(&self) -> usize {
        2305843009213693951
    }

    fn get_chunk(&self, _chunk: usize) -> [u8; 1] {
        [255]
    }

    fn last_chunk(&self) -> ([u8; 1], u64) {
        ([255], 7)
    }

    fn pruned_chunks(&self) -> usize {
        2305843009213693951
    }

    fn len(&self) -> u64 {
        u64::MAX
    }
}

// Up to four chunks of nine bytes with all bits set. It counts the calls of its methods.
#[derive(Drop)]
struct Counting {
    len: u8,
    chunk_calls: Cell<u64>,
    len_calls: Cell<u64>,
}

impl Counting {
    fn new(len: u8) -> Counting
        ensures { result.len ≡ len }
    {
        Counting {
            len,
            chunk_calls: Cell::new(0),
            len_calls: Cell::new(0),
        }
    }
}

impl Readable<9> for Counting {
    ghost meaning = { λ s. record { pruned = 0; len = s.len; bit = λ _. true } };

    fn complete_chunks(&self) -> usize {
        (self.len / 72) as usize
    }

    fn get_chunk(&self, _chunk: usize) -> [u8; 9] {
        self.chunk_calls.set(self.chunk_calls.get().wrapping_add(1));
        [255; 9]
    }

    fn last_chunk(&self) -> ([u8; 9], u64) {
        self.chunk_calls.set(self.chunk_calls.get().wrapping_add(1));
        ([255; 9], (self.len as u64 - 1) % 72 + 1)
    }

    fn pruned_chunks(&self) -> usize {
        // Reading a field gives the prover the range of the length.
        let _len = self.len;
        0
    }

    fn len(&self) -> u64 {
        self.len_calls.set(self.len_calls.get().wrapping_add(1));
        self.len as u64
    }
}

// The iterators do not yield set bits past the length.
#[test]
fn bits_past_the_length_are_not_read(rt: HostRuntime) {
    let mut ones = Five.ones_iter_from(0);
    for want in [Some(0), Some(1), Some(2), Some(3), Some(4), None, None] {
        equal(&rt, ones.next(), want);
    }
    let map = Counting::new(70);
    expect(&rt, map.ones_iter_range(64..u64::MAX).eq(64..70));
}

// The iterators and reads work up to position `u64::MAX - 1`.
#[test]
fn positions_up_to_the_greatest(rt: HostRuntime) {
    let mut ones = Top.ones_iter_from(0);
    for want in 18446744073709551608..18446744073709551615 {
        equal(&rt, ones.next(), Some(want));
    }
    equal(&rt, ones.next(), None);
    equal(&rt, ones.next(), None);
    expect(&rt, Top.get_bit(18446744073709551614) && !Top.is_empty());
    equal(&rt, Top.pruned_bits(), 18446744073709551608);
}

// An iterator loads each chunk of its range at most once, and reads the length at most once.
#[test]
fn few_calls_by_iterators(rt: HostRuntime) {
    for (start, end, chunk_calls) in [(0, 144, 2), (64, 72, 1), (72, 73, 1), (5, 5, 0)] {
        let map = Counting::new(144);
        expect(&rt, map.ones_iter_range(start..end).eq(start..end));
        expect_at(&rt, (start, end), map.chunk_calls.get() <= chunk_calls);
        expect_at(&rt, (start, end), map.len_calls.get() <= 1);
    }
}

// Set positions on both sides of the end of a word and of a chunk.
#[test]
fn word_and_chunk_boundaries(rt: HostRuntime) {
    let mut map = ok(&rt, BitMap::<9>::zeroes(rt.alloc(), 144));
    for position in [63, 64, 71, 72] {
        expect(&rt, position < map.len());
        map.set(position, true);
    }
    expect(&rt, map.ones_iter().eq([63, 64, 71, 72].iter().copied()));
    expect(
        &rt,
        map.ones_iter_range(64..72).eq([64, 71].iter().copied()),
    );
}

// Four set positions after a pruned chunk.
fn check_four_positions(rt: &impl Abort, alloc: Global) {
    let mut sparse = Prunable::<4>::new(alloc);
    ok(rt, sparse.extend_to(96));
    expect(rt, sparse.pruned_bits() == 0 && sparse.len() == 96);
    for position in [40, 55, 64, 90] {
        set_bit(rt, &mut sparse, position, true);
    }
    prune_to_bit(rt, &mut sparse, 32);
    expect(
        rt,
        sparse
            .ones_iter_from(32)
            .eq([40, 55, 64, 90].iter().copied()),
    );
    expect(
        rt,
        sparse.ones_iter_from(50).eq([55, 64, 90].iter().copied()),
    );
    equal(rt, sparse.ones_iter_from(91).next(), None);
    expect(
        rt,
        sparse
            .zeros_iter_from(88)
            .eq([88, 89, 91, 92, 93, 94, 95].iter().copied()),
    );
    equal(rt, sparse.zeros_iter_from(0).next(), Some(32));
    equal(rt, sparse.zeros_iter_from(96).next(), None);
}

// The iterators begin after the pruned prefix.
#[test]
fn positions_after_a_pruned_prefix(rt: HostRuntime) {
    let mut map = Prunable::<4>::new(rt.alloc());
    let ones = ok(&rt, BitMap::<4>::ones(rt.alloc(), 64));
    ok(&rt, map.extend_from_bitmap(&ones));
    prune_to_bit(&rt, &mut map, 32);
    expect(&rt, map.ones_iter_from(0).eq(32..64));
    check_four_positions(&rt, rt.alloc());
}

// Set positions in the last whole chunk that there can be.
#[test]
fn positions_in_the_last_chunk(rt: HostRuntime) {
    let made = Prunable::<8>::new_with_pruned_chunks(rt.alloc(), 288230376151711743);
    expect(&rt, made.is_ok());
    if let Ok(mut map) = made {
        equal(&rt, map.ones_iter_from(0).next(), None);
        equal(&rt, map.len(), 18446744073709551552);
        for i in 0..32 {
            push(&rt, &mut map, i == 0 || i == 31);
        }
        let want = [18446744073709551552, 18446744073709551583];
        expect(&rt, map.ones_iter_from(0).eq(want.iter().copied()));
    }
}

/// Returns the part of ascending `positions` at or above `start` and below `end`.
pub fn between(positions: &[u64], start: u64, end: u64) -> &[u64] {
    let low = positions.partition_point(|it| *it < start);
    let high = positions.partition_point(|it| *it < end);
    positions.get(low..high).unwrap_or(&[])
}

/// Returns whether `position` is retained and its bit is `bit`.
pub fn is_bit<B: Readable<N>, const N: usize>(map: &B, position: u64, bit: bool) -> bool {
    map.pruned_bits() <= position && position < map.len() && map.get_bit(position) == bit
}

// The positions of set bits, found one bit at a time.
fn positions<B: Readable<N>, const N: usize>(
    alloc: Global,
    map: &B,
) -> Result<Vec<u64>, AllocError> {
    (0..map.len())
        .filter(|it| is_bit(map, *it, true))
        .collect(alloc)
}

// The iterators over each range yield the positions that are found one bit at a time. `inverse` has the inverted bits.
fn check_ranges<B: Readable<N>, const N: usize>(
    rt: &impl Abort,
    alloc: Global,
    map: &B,
    inverse: &B,
) {
    let len = map.len();
    expect(rt, len < 10000);
    let found = ok(rt, positions(alloc, map));
    for start in 0..len + 3 {
        let above = between(found.as_slice(), start, len);
        let ones = map.ones_iter_from(start);
        expect_at(rt, ("ones", start, N), ones.eq(above.iter().copied()));
        let zeros = inverse.zeros_iter_from(start);
        expect_at(rt, ("zeros", start, N), zeros.eq(above.iter().copied()));
        for end in start.saturating_sub(1)..len + 3 {
            let want = between(found.as_slice(), start, end);
            let ones = map.ones_iter_range(start..end);
            expect_at(rt, ("ones", start, end, N), ones.eq(want.iter().copied()));
            let zeros = inverse.zeros_iter_range(start..end);
            expect_at(rt, ("zeros", start, end, N), zeros.eq(want.iter().copied()));
        }
    }
}

// A chunk and 66 bits. Each word begins with two set bits, and every `period`th bit is set.
fn spread_bits<const N: usize>(rt: &impl Abort, alloc: Global, period: u64) -> BitMap<N>
    requires positive { 0 < N }
    requires fits { 8 * N < 2 ^ 64 }
{
    expect(rt, N <= 64 && period > 0);
    let width = 8 * N as u64;
    let bits = (0..width + 66).map(|it| it % width % 64 < 2 || it % period == 3);
    let bits: Vec<bool> = ok(rt, bits.collect(alloc));
    ok(rt, BitMap::from_bools(alloc, bits.as_slice()))
}

// The same bits with the first chunk pruned.
fn pruned_copy<const N: usize>(rt: &impl Abort, alloc: Global, map: &BitMap<N>) -> Prunable<N> {
    // The prover learns the bounds of `N` from this call.
    let _ = map.len();
    expect(rt, N <= 64);
    let mut pruned = Prunable::<N>::new(alloc);
    extend_from_bitmap(rt, &mut pruned, map);
    prune_to_bit(rt, &mut pruned, 8 * N as u64);
    pruned
}

// The ranges of a dense and of a pruned bitmap.
fn check_both_ranges<const N: usize>(rt: &impl Abort, alloc: Global, period: u64)
    requires positive { 0 < N }
    requires fits { 8 * N < 2 ^ 64 }
{
    let map = spread_bits::<N>(rt, alloc, period);
    let mut inverse = ok(rt, map.clone());
    inverse.flip_all();
    check_ranges(rt, alloc, &map, &inverse);
    let pruned = pruned_copy(rt, alloc, &map);
    let pruned_inverse = pruned_copy(rt, alloc, &inverse);
    check_ranges(rt, alloc, &pruned, &pruned_inverse);
}

// All ranges of a bitmap of a chunk and 66 bits, at seven widths.
#[test]
fn each_range(rt: HostRuntime) {
    check_both_ranges::<1>(&rt, rt.alloc(), 5);
    check_both_ranges::<3>(&rt, rt.alloc(), 5);
    check_both_ranges::<7>(&rt, rt.alloc(), 5);
    check_both_ranges::<8>(&rt, rt.alloc(), 5);
    check_both_ranges::<9>(&rt, rt.alloc(), 5);
    check_both_ranges::<32>(&rt, rt.alloc(), 29);
    check_both_ranges::<64>(&rt, rt.alloc(), 29);
}

// The searches and counts ignore set bits past the length.
#[test]
fn searches_do_not_read_bits_past_the_length(rt: HostRuntime) {
    equal(&rt, Five.next_one(4), Some(4));
    equal(&rt, Five.next_one(5), None);
    equal(&rt, Five.next_zero(0), None);
    equal(&rt, Five.prev_one(100), Some(4));
    equal(&rt, Five.prev_zero(100), None);
    equal(&rt, Five.count_ones_range(0..100), 5);
    equal(&rt, Five.select_one(5), None);
    expect(&rt, Five.zeros_iter_range(0..100).next().is_none());
    expect(&rt, Five.zeros_iter_from(0).next().is_none());
}

// The same if the last chunk ends within a word.
#[test]
fn searches_do_not_read_bits_past_a_short_word(rt: HostRuntime) {
    let map = Counting::new(70);
    equal(&rt, map.next_zero(64), None);
    equal(&rt, map.prev_one(u64::MAX), Some(69));
    equal(&rt, map.count_ones_range(64..u64::MAX), 6);
    equal(&rt, map.select_one(69), Some(69));
    equal(&rt, map.select_one(70), None);
}

// The searches and counts work up to position `u64::MAX - 1`.
#[test]
fn searches_up_to_the_greatest(rt: HostRuntime) {
    equal(&rt, Top.next_one(0), Some(18446744073709551608));
    equal(&rt, Top.next_zero(0), None);
    equal(&rt, Top.prev_one(u64::MAX), Some(18446744073709551614));
    equal(&rt, Top.prev_zero(u64::MAX), None);
    equal(&rt, Top.count_ones_range(0..u64::MAX), 7);
    equal(&rt, Top.select_one(6), Some(18446744073709551614));
    equal(&rt, Top.select_one(7), None);
}

// One search in a bitmap of 144 set bits loads at most `chunk_calls` chunks, and calls `len` at most once.
fn check_calls_of_the_reader(rt: &impl Abort, search: u64, chunk_calls: u64) {
    let map = Counting::new(144);
    let found = match search {
        0 => map.next_one(143) == Some(143),
        1 => map.next_zero(0).is_none(),
        2 => map.prev_one(144) == Some(143),
        3 => map.prev_zero(144).is_none(),
        4 => map.count_ones_range(0..u64::MAX) == 144,
        5 => map.count_ones_range(64..72) == 8,
        6 => map.select_one(143) == Some(143),
        _ => map.select_one(144).is_none(),
    };
    expect_at(rt, search, found);
    expect_at(rt, search, map.chunk_calls.get() <= chunk_calls);
    expect_at(rt, search, map.len_calls.get() <= 1);
}

// A search loads few chunks, and reads the length at most once.
#[test]
fn few_calls_by_searches(rt: HostRuntime) {
    for (search, chunk_calls) in [
        (0, 1),
        (1, 2),
        (2, 1),
        (3, 2),
        (4, 2),
        (5, 1),
        (6, 2),
        (7, 2),
    ] {
        check_calls_of_the_reader(&rt, search, chunk_calls);
    }
}

// The first and the last position before and after each position, of a set bit if `bit` is true, else of an unset bit.
fn check_neighbours<B: Readable<N>, const N: usize>(rt: &impl Abort, map: &B, bit: bool) {
    let len = map.len();
    expect(rt, len < 10000);
    let mut before = None;
    for end in 0..len + 3 {
        let found = if bit {
            map.prev_one(end)
        } else {
            map.prev_zero(end)
        };
        equal_at(rt, ("before", bit, end, N), found, before);
        if is_bit(map, end, bit) {
            before = Some(end);
        }
    }
    let mut after = None;
    for start in (0..len + 3).rev() {
        if is_bit(map, start, bit) {
            after = Some(start);
        }
        let found = if bit {
            map.next_one(start)
        } else {
            map.next_zero(start)
        };
        equal_at(rt, ("after", bit, start, N), found, after);
    }
}

// The set bits of each range, compared with a running count.
fn check_counts<B: Readable<N>, const N: usize>(rt: &impl Abort, map: &B) {
    let len = map.len();
    expect(rt, len < 10000);
    for start in 0..len + 3 {
        let mut count = 0u64;
        for end in start..len + 3 {
            equal_at(rt, (start, end, N), map.count_ones_range(start..end), count);
            count = count.wrapping_add(u64::from(is_bit(map, end, true)));
        }
    }
}

// The position of the set bit of each number, and none past the last.
fn check_selected<B: Readable<N>, const N: usize>(rt: &impl Abort, map: &B) {
    let mut count = 0u64;
    for position in 0..map.len() {
        if is_bit(map, position, true) {
            equal_at(rt, (position, N), map.select_one(count), Some(position));
            count = count.wrapping_add(1);
        }
    }
    equal(rt, map.select_one(count), None);
}

// All of these searches and counts.
fn check_searches<B: Readable<N>, const N: usize>(rt: &impl Abort, map: &B) {
    check_neighbours(rt, map, true);
    check_neighbours(rt, map, false);
    check_counts(rt, map);
    check_selected(rt, map);
}

// The searches in a dense and in a pruned bitmap, and in their inverted bits.
fn check_both_searches<const N: usize>(rt: &impl Abort, alloc: Global, period: u64)
    requires positive { 0 < N }
    requires fits { 8 * N < 2 ^ 64 }
{
    let mut map = spread_bits::<N>(rt, alloc, period);
    check_searches(rt, &map);
    check_searches(rt, &pruned_copy(rt, alloc, &map));
    map.flip_all();
    check_searches(rt, &map);
    check_searches(rt, &pruned_copy(rt, alloc, &map));
}

// Searches from and to each position and counts of each range, at seven widths. At the last two, few bits are set.
#[test]
fn each_search(rt: HostRuntime) {
    check_both_searches::<1>(&rt, rt.alloc(), 5);
    check_both_searches::<3>(&rt, rt.alloc(), 5);
    check_both_searches::<7>(&rt, rt.alloc(), 5);
    check_both_searches::<8>(&rt, rt.alloc(), 5);
    check_both_searches::<9>(&rt, rt.alloc(), 5);
    check_both_searches::<32>(&rt, rt.alloc(), 97);
    check_both_searches::<64>(&rt, rt.alloc(), 97);
}
