//! Rewinds over several commits, at three widths.
//!
//! The commits prune, append, pop and set bits, and remove the same chunk three times. The last one prunes all bits.

ghost use Rattle.bitmap_bytes.specs.Chunk.{IsWidth};

use crate::checked_calls::{commit, pop_run, prune_to_bit, push_run, rewind, set_bit};
use crate::checks::{expect_at, ok};
use historical_bitmap::bitmap::Readable;
use historical_bitmap::bitmap::historical::CleanBitMap;
use std::alloc::Global;
use std::process::Abort;
use test_support::compare::{has_runs, same_bits};

// Commits 1 to 3. The second prunes chunk 0, and replaces chunk 3. The third sets a bit of chunk 1, and removes chunk 3.
fn three_commits<const N: usize>(rt: &impl Abort, alloc: Global, width: u64) -> CleanBitMap<N>
    requires { IsWidth N }
{
    let mut map = CleanBitMap::<N>::new(alloc).into_dirty();
    for _ in 0..2 {
        push_run(rt, &mut map, width, true);
        push_run(rt, &mut map, width, false);
    }
    push_run(rt, &mut map, 5, true);
    let mut map = commit(rt, map, 1).into_dirty();
    prune_to_bit(rt, &mut map, width);
    pop_run(rt, &mut map, 5, true);
    pop_run(rt, &mut map, width, false);
    push_run(rt, &mut map, width, true);
    let mut map = commit(rt, map, 2).into_dirty();
    set_bit(rt, &mut map, width, true);
    pop_run(rt, &mut map, width, true);
    commit(rt, map, 3)
}

// Commits 1 to 6. The fourth appends chunk 3 and three bits, and prunes chunk 1. The fifth removes them and one bit more.
// The sixth appends bits up to the end of chunk 6, and prunes all chunks.
fn six_commits<const N: usize>(rt: &impl Abort, alloc: Global, width: u64) -> CleanBitMap<N>
    requires { IsWidth N }
{
    let mut map = three_commits::<N>(rt, alloc, width).into_dirty();
    push_run(rt, &mut map, width, false);
    push_run(rt, &mut map, 3, true);
    prune_to_bit(rt, &mut map, width.saturating_mul(2));
    let mut map = commit(rt, map, 4).into_dirty();
    pop_run(rt, &mut map, 3, true);
    pop_run(rt, &mut map, width, false);
    pop_run(rt, &mut map, 1, true);
    let mut map = commit(rt, map, 5).into_dirty();
    push_run(rt, &mut map, 1, false);
    push_run(rt, &mut map, width.saturating_mul(4), true);
    prune_to_bit(rt, &mut map, width.saturating_mul(7));
    commit(rt, map, 6)
}

// Whether a bitmap is the one at a commit.
fn is_state<B: Readable<N>, const N: usize>(map: &B, number: u64, width: u64) -> bool {
    let twice = width.saturating_mul(2);
    let less = width.saturating_sub(1);
    match number {
        1 => {
            let runs = [
                (width, true),
                (width, false),
                (width, true),
                (width, false),
                (5, true),
            ];
            has_runs(map, 0, &runs)
        }
        2 => has_runs(map, 1, &[(width, false), (twice, true)]),
        3 => has_runs(map, 1, &[(1, true), (less, false), (width, true)]),
        4 => has_runs(map, 2, &[(width, true), (width, false), (3, true)]),
        5 => has_runs(map, 2, &[(less, true)]),
        _ => has_runs(map, 7, &[]),
    }
}

// The bitmaps at the commits up to a number.
fn check_kept<const N: usize>(rt: &impl Abort, map: &CleanBitMap<N>, to: u64, width: u64) {
    for number in 1..7 {
        match map.at(number) {
            Some(then) => {
                expect_at(rt, (N, to, number), number <= to);
                expect_at(rt, (N, to, number), is_state(&then, number, width));
            }
            None => expect_at(rt, (N, to, number), to < number),
        }
    }
}

// Rewinds to one commit, and then to another. Compares the bitmap with the one that was kept under that number.
fn check_rewind<const N: usize>(rt: &impl Abort, alloc: Global, from: u64, to: u64)
    requires { IsWidth N }
{
    let width = N as u64 * 8;
    let map = rewind(rt, six_commits::<N>(rt, alloc, width), from);
    let old = ok(rt, map.get_at_commit(to));
    let map = rewind(rt, map, to);
    expect_at(rt, (N, from, to), is_state(map.current(), to, width));
    let same = match old {
        Some(old) => same_bits(map.current(), &old),
        None => false,
    };
    expect_at(rt, (N, from, to), same);
    check_kept(rt, &map, to, width);
    let mut map = map.into_dirty();
    push_run(rt, &mut map, 3, true);
    let map = rewind(rt, commit(rt, map, 8), to);
    expect_at(rt, (N, from, to), is_state(map.current(), to, width));
}

// From each of the six commits to each one up to it.
fn check_rewinds<const N: usize>(rt: &impl Abort, alloc: Global)
    requires { IsWidth N }
{
    for from in 1..7 {
        for to in 1..from + 1 {
            check_rewind::<N>(rt, alloc, from, to);
        }
    }
}

#[test]
fn chunks_of_1(rt: HostRuntime) {
    check_rewinds::<1>(&rt, rt.alloc());
}

#[test]
fn chunks_of_3(rt: HostRuntime) {
    check_rewinds::<3>(&rt, rt.alloc());
}

#[test]
fn chunks_of_8(rt: HostRuntime) {
    check_rewinds::<8>(&rt, rt.alloc());
}
