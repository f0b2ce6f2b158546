//! Past states read with the changed chunks gathered, compared with the same states rebuilt as bitmaps.

ghost use Rattle.bitmap_bytes.specs.Chunk.{IsWidth};

use crate::checked_calls::{
    commit, pending_pruned_bits, prune_to_bit, push_byte, push_run, set_bit, set_range, truncate,
};
use crate::checks::{equal, expect, expect_at, ok};
use historical_bitmap::bitmap::Readable;
use historical_bitmap::bitmap::historical::{CleanBitMap, DirtyBitMap};
use std::alloc::Global;
use std::process::Abort;
use test_support::compare::{has_bits, same_bits};

// Eight chunks of one byte, at commit 1. Bit 0 of each is set.
pub fn eight_chunks(rt: &impl Abort, alloc: Global) -> DirtyBitMap<1> {
    let mut map = CleanBitMap::<1>::new(alloc).into_dirty();
    for _ in 0..8 {
        push_byte(rt, &mut map, 0x01);
    }
    commit(rt, map, 1).into_dirty()
}

// The slice around a chunk: the index of its first chunk, and their number. None if the chunk is not retained.
pub fn around<B: Readable<N>, const N: usize>(map: &B, chunk: usize) -> Option<(usize, usize)> {
    if chunk < map.pruned_chunks() || chunk >= map.complete_chunks() {
        return None;
    }
    let (chunks, first) = map.chunks_around(chunk);
    Some((first, chunks.len()))
}

// Checks the slices of a past state: the stretches that are in one slice each, and the chunks that are in none.
fn check_slices<const N: usize>(
    rt: &impl Abort,
    map: &CleanBitMap<N>,
    number: u64,
    stretches: &[(usize, usize)],
    changed: &[usize],
) {
    let Some(then) = ok(rt, map.gathered(number)) else {
        expect(rt, false);
        return;
    };
    for stretch in stretches {
        for chunk in stretch.0..stretch.1 {
            expect_at(
                rt,
                chunk,
                around(&then, chunk) == Some((stretch.0, stretch.1 - stretch.0)),
            );
        }
    }
    for chunk in changed {
        expect_at(
            rt,
            *chunk,
            around(&then, *chunk).is_some_and(|slice| slice.1 == 0),
        );
    }
}

// Whether a past state has these pruned chunks and digits.
fn had(
    rt: &impl Abort,
    map: &CleanBitMap<1>,
    number: u64,
    pruned_chunks: usize,
    digits: &[u8],
) -> bool {
    match ok(rt, map.gathered(number)) {
        Some(then) => has_bits(&then, pruned_chunks, digits),
        None => false,
    }
}

// The slices end at the changed chunks before and after, and a changed chunk is in none.
#[test]
fn changed_within(rt: HostRuntime) {
    let mut map = eight_chunks(&rt, rt.alloc());
    set_bit(&rt, &mut map, 16, false);
    set_bit(&rt, &mut map, 47, true);
    let map = commit(&rt, map, 2);
    check_slices(&rt, &map, 1, &[(0, 2), (3, 5), (6, 8)], &[2, 5]);
    check_slices(&rt, &map, 2, &[(0, 8)], &[]);
    let digits = b"1000000010000000100000001000000010000000100000001000000010000000";
    expect(&rt, had(&rt, &map, 1, 0, digits));
    let digits = b"1000000010000000000000001000000010000000100000011000000010000000";
    expect(&rt, had(&rt, &map, 2, 0, digits));
}

// The first and the last chunk are changed, and two that follow one another.
#[test]
fn changed_at_the_ends(rt: HostRuntime) {
    let mut map = eight_chunks(&rt, rt.alloc());
    set_bit(&rt, &mut map, 0, false);
    set_bit(&rt, &mut map, 24, false);
    set_bit(&rt, &mut map, 32, false);
    set_bit(&rt, &mut map, 56, false);
    let map = commit(&rt, map, 2);
    check_slices(&rt, &map, 1, &[(1, 3), (5, 7)], &[0, 3, 4, 7]);
    let digits = b"1000000010000000100000001000000010000000100000001000000010000000";
    expect(&rt, had(&rt, &map, 1, 0, digits));
}

// A chunk that three commits change has the bytes from before the first of them that is past the commit.
#[test]
fn changed_three_times(rt: HostRuntime) {
    let mut map = eight_chunks(&rt, rt.alloc());
    truncate(&rt, &mut map, 16);
    let mut map = commit(&rt, map, 2).into_dirty();
    set_bit(&rt, &mut map, 9, true);
    let mut map = commit(&rt, map, 3).into_dirty();
    set_bit(&rt, &mut map, 10, true);
    let mut map = commit(&rt, map, 4).into_dirty();
    set_bit(&rt, &mut map, 11, true);
    let map = commit(&rt, map, 5);
    expect(&rt, had(&rt, &map, 2, 0, b"1000000010000000"));
    expect(&rt, had(&rt, &map, 3, 0, b"1000000011000000"));
    expect(&rt, had(&rt, &map, 4, 0, b"1000000011100000"));
    expect(&rt, had(&rt, &map, 5, 0, b"1000000011110000"));
}

// The bitmap has grown since: its new chunks are in no slice of the past state.
#[test]
fn grown_since(rt: HostRuntime) {
    let mut map = eight_chunks(&rt, rt.alloc());
    push_run(&rt, &mut map, 24, true);
    let map = commit(&rt, map, 2);
    check_slices(&rt, &map, 1, &[(0, 8)], &[]);
    check_slices(&rt, &map, 2, &[(0, 11)], &[]);
    let digits = b"1000000010000000100000001000000010000000100000001000000010000000";
    expect(&rt, had(&rt, &map, 1, 0, digits));
}

// The bitmap has shrunk since: the chunks that were cut off are among the gathered ones.
#[test]
fn shrunk_since(rt: HostRuntime) {
    let mut map = eight_chunks(&rt, rt.alloc());
    truncate(&rt, &mut map, 41);
    let map = commit(&rt, map, 2);
    check_slices(&rt, &map, 1, &[(0, 5)], &[5, 6, 7]);
    let digits = b"1000000010000000100000001000000010000000100000001000000010000000";
    expect(&rt, had(&rt, &map, 1, 0, digits));
    let digits = b"10000000100000001000000010000000100000001";
    expect(&rt, had(&rt, &map, 2, 0, digits));
}

// Chunks were pruned before the commit, and others since.
#[test]
fn pruned_since(rt: HostRuntime) {
    let mut map = eight_chunks(&rt, rt.alloc());
    prune_to_bit(&rt, &mut map, 8);
    let mut map = commit(&rt, map, 2).into_dirty();
    prune_to_bit(&rt, &mut map, 24);
    let map = commit(&rt, map, 3);
    check_slices(&rt, &map, 1, &[(3, 8)], &[0, 1, 2]);
    check_slices(&rt, &map, 2, &[(3, 8)], &[1, 2]);
    check_slices(&rt, &map, 3, &[(3, 8)], &[]);
    let digits = b"10000000100000001000000010000000100000001000000010000000";
    expect(&rt, had(&rt, &map, 2, 1, digits));
}

// The whole bitmap was pruned since, and has other chunks now.
#[test]
fn all_pruned_since(rt: HostRuntime) {
    let mut map = eight_chunks(&rt, rt.alloc());
    truncate(&rt, &mut map, 18);
    let mut map = commit(&rt, map, 2).into_dirty();
    truncate(&rt, &mut map, 16);
    prune_to_bit(&rt, &mut map, 16);
    push_byte(&rt, &mut map, 0xff);
    let map = commit(&rt, map, 3);
    expect(&rt, had(&rt, &map, 2, 0, b"100000001000000010"));
    expect(&rt, had(&rt, &map, 3, 2, b"11111111"));
}

// Numbers that are not kept, and a bitmap without commits.
#[test]
fn numbers_not_kept(rt: HostRuntime) {
    let mut map = eight_chunks(&rt, rt.alloc()).abort();
    for number in [0, 2, u64::MAX] {
        expect_at(&rt, number, ok(&rt, map.gathered(number)).is_none());
    }
    map.clear_history();
    expect(&rt, ok(&rt, map.gathered(1)).is_none());
}

// A number from 0 up to `end`, excluded, by a linear congruential generator. 0 if `end` is 0.
fn random(state: &mut u64, end: u64) -> u64 {
    *state = state
        .wrapping_mul(6364136223846793005)
        .wrapping_add(1442695040888963407);
    let high = *state >> 33;
    if end == 0 { 0 } else { high % end }
}

// Makes a random edit: a bit or a run is set, or bits are appended, removed or pruned.
fn edit<const N: usize>(rt: &impl Abort, map: &mut DirtyBitMap<N>, state: &mut u64) {
    let first = pending_pruned_bits(rt, map);
    let span = map.len().saturating_sub(first);
    let at = first.saturating_add(random(state, span));
    let value = random(state, 2) == 0;
    match random(state, 8) {
        0 => push_run(rt, map, random(state, 900), value),
        1 => truncate(
            rt,
            map,
            map.len().saturating_sub(random(state, span.min(300))),
        ),
        2 => prune_to_bit(rt, map, first.saturating_add(random(state, span / 4))),
        3 => {
            let end = at.saturating_add(random(state, 200)).min(map.len());
            set_range(rt, map, at..end, value);
        }
        _ => {
            if span > 0 {
                set_bit(rt, map, at, value);
            }
        }
    }
}

// A random history of 24 commits, each of a few edits.
pub fn random_history<const N: usize>(rt: &impl Abort, alloc: Global, seed: u64) -> CleanBitMap<N>
    requires { IsWidth N }
{
    let mut state = seed;
    let mut map = CleanBitMap::<N>::new(alloc);
    for number in 0..24 {
        let mut batch = map.into_dirty();
        if number == 0 {
            push_run(rt, &mut batch, 2000, true);
        }
        for _ in 0..4 {
            edit(rt, &mut batch, &mut state);
        }
        map = commit(rt, batch, number);
    }
    map
}

// Compares each past state of a random history with the state rebuilt: bit by bit, and by passes over its slices.
fn check_random<const N: usize>(rt: &impl Abort, alloc: Global, seed: u64)
    requires { IsWidth N }
{
    let map = random_history::<N>(rt, alloc, seed);
    for number in 0..24 {
        match (
            ok(rt, map.get_at_commit(number)),
            ok(rt, map.gathered(number)),
        ) {
            (Some(old), Some(then)) => {
                // The prover learns the bounds of `N` from this call.
                let _ = then.len();
                expect_at(rt, number, same_bits(&then, &old));
                expect_at(rt, number, then.ones_iter_from(0).eq(old.ones_iter_from(0)));
                expect_at(
                    rt,
                    number,
                    then.count_ones_range(0..u64::MAX) == old.count_ones_range(0..u64::MAX),
                );
                expect_at(
                    rt,
                    number,
                    then.prev_zero(u64::MAX) == old.prev_zero(u64::MAX),
                );
            }
            _ => expect_at(rt, number, false),
        }
    }
}

// Checks ten random histories.
fn check_ten<const N: usize>(rt: &impl Abort, alloc: Global)
    requires { IsWidth N }
{
    for seed in 0..10 {
        check_random::<N>(rt, alloc, seed);
    }
}

#[test]
fn random_histories_in_chunks_of_1(rt: HostRuntime) {
    check_ten::<1>(&rt, rt.alloc());
}

#[test]
fn random_histories_in_chunks_of_3(rt: HostRuntime) {
    check_ten::<3>(&rt, rt.alloc());
}

#[test]
fn random_histories_in_chunks_of_8(rt: HostRuntime) {
    check_ten::<8>(&rt, rt.alloc());
}

#[test]
fn random_histories_in_chunks_of_32(rt: HostRuntime) {
    check_ten::<32>(&rt, rt.alloc());
}

// The chunks of the current bitmap are in two blocks of memory: some were pruned, and others were appended in their place.
#[test]
fn current_chunks_in_two_blocks(rt: HostRuntime) {
    let mut map = eight_chunks(&rt, rt.alloc());
    prune_to_bit(&rt, &mut map, 40);
    let mut map = commit(&rt, map, 2).into_dirty();
    for _ in 0..4 {
        push_byte(&rt, &mut map, 0x81);
    }
    let mut map = commit(&rt, map, 3).into_dirty();
    set_bit(&rt, &mut map, 80, false);
    let map = commit(&rt, map, 4);
    let digits = b"10000000100000001000000010000001100000011000000110000001";
    expect(&rt, had(&rt, &map, 3, 5, digits));
    let Some(then) = ok(&rt, map.gathered(3)) else {
        expect(&rt, false);
        return;
    };
    equal(&rt, then.count_ones_range(0..96), 11);
    equal(&rt, then.prev_one(96), Some(95));
    expect(
        &rt,
        then.ones_iter_from(0)
            .eq([40, 48, 56, 64, 71, 72, 79, 80, 87, 88, 95]),
    );
}
