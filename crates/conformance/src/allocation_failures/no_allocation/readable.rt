//! The methods of `Readable`, none of which allocates.

ghost use Rattle.std.specs.Prelude.{◌*◌, ◌^◌, ◌<◌};

use crate::allocation_failures::no_allocation;
use crate::allocation_failures::no_allocation::pruned::{SLIDES, slide};
use crate::checks::{equal, expect};
use bitmap_core::bitmap::readable::Readable;
use std::alloc::Global;
use std::process::Abort;

// Each method of the trait, on a bitmap with at least one retained bit, every third position set.
fn check_reader<B: Readable<N>, const N: usize>(rt: &impl Abort, map: &B) {
    let (first, len, pruned) = (map.pruned_bits(), map.len(), map.pruned_chunks());
    let width = 8 * N as u64;
    expect(rt, first < len && !map.is_empty() && pruned < 100);
    for position in first..len {
        equal(rt, map.get_bit(position), position % 3 == 0);
    }
    for index in pruned..map.complete_chunks() {
        let at = index as u64 * width;
        expect(rt, map.get_chunk(index)[0] & 1 == (at % 3 == 0) as u8);
    }
    let (chunk, used) = map.last_chunk();
    expect(
        rt,
        used > 0 && used <= width && chunk == map.get_chunk(((len - 1) / width) as usize),
    );
    check_ones(rt, map);
    check_zeros(rt, map);
    check_searches(rt, map);
}

// The set positions from each position on, to the end of the iterator and past it.
fn check_ones<B: Readable<N>, const N: usize>(rt: &impl Abort, map: &B) {
    let (first, len) = (map.pruned_bits(), map.len());
    expect(rt, len < 100_000);
    for start in first..len {
        let above = start.next_multiple_of(3);
        expect(rt, map.ones_iter_from(start).eq((above..len).step_by(3)));
    }
    let mut ones = map.ones_iter_range(first..len);
    expect(rt, ones.by_ref().last().is_some_and(|last| last % 3 == 0));
    expect(rt, ones.next().is_none() && ones.next().is_none());
}

// The positions from each position on, and below it, whose bit is not set.
fn check_zeros<B: Readable<N>, const N: usize>(rt: &impl Abort, map: &B) {
    let (first, len) = (map.pruned_bits(), map.len());
    for at in first..len {
        let above = (at..len).filter(|it| *it % 3 != 0);
        expect(rt, map.zeros_iter_from(at).eq(above));
        let below = (first..at).filter(|it| *it % 3 != 0);
        expect(rt, map.zeros_iter_range(0..at).eq(below));
    }
}

// The searches and counts at each position.
fn check_searches<B: Readable<N>, const N: usize>(rt: &impl Abort, map: &B) {
    let (first, len) = (map.pruned_bits(), map.len());
    let mut below = 0u64;
    for at in first..len {
        let is_set = at % 3 == 0;
        let next = (at..len).find(|it| *it % 3 == 0);
        equal(rt, map.next_one(at), next);
        let next = (at..len).find(|it| *it % 3 != 0);
        equal(rt, map.next_zero(at), next);
        let previous = (first..at).rev().find(|it| *it % 3 == 0);
        equal(rt, map.prev_one(at), previous);
        let previous = (first..at).rev().find(|it| *it % 3 != 0);
        equal(rt, map.prev_zero(at), previous);
        equal(rt, map.count_ones_range(0..at), below);
        expect(rt, !is_set || map.select_one(below) == Some(at));
        below = below.wrapping_add(u64::from(is_set));
    }
    equal(rt, map.select_one(below), None);
}

// Both bitmaps of one width. The pruned one is read at each place of its deque.
fn check_width<const N: usize>(rt: &impl Abort, alloc: Global, len: u64)
    requires positive { 0 < N }
    requires fits { 8 * N < 2 ^ 64 }
{
    let Some(dense) = no_allocation::thirds::<N>(rt, alloc, len) else {
        return;
    };
    let Some(mut pruned) = no_allocation::pruned::thirds::<N>(rt, alloc) else {
        return;
    };
    check_reader(rt, &dense);
    for _ in 0..SLIDES {
        check_reader(rt, &pruned);
        slide(rt, &mut pruned);
    }
}

#[test]
fn readers(rt: HostRuntime) {
    check_width::<1>(&rt, rt.alloc(), 27);
    check_width::<3>(&rt, rt.alloc(), 64);
    check_width::<8>(&rt, rt.alloc(), 192);
    check_width::<9>(&rt, rt.alloc(), 150);
    check_width::<32>(&rt, rt.alloc(), 600);
}
