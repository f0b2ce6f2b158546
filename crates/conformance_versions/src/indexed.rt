//! Past states of an indexed bitmap: after commits, after a drop, after a rewind, and of a copy.

use crate::checked_calls::{commit, prune_to_bit, push_byte, rewind, set_bit};
use crate::checks::{equal, expect, expect_at, ok};
use historical_bitmap::bitmap::historical::CleanBitMap;
use std::alloc::Global;
use std::process::Abort;
use test_support::compare::{has_bits, same_bits};

// Four commits of a bitmap that is indexed from the start. The first has three chunks. The second clears a bit of chunk 1.
// The third sets a bit of chunk 2 and prunes chunk 0. The fourth sets a bit of chunk 1.
fn four_commits(rt: &impl Abort, alloc: Global) -> CleanBitMap<1> {
    let mut batch = ok(rt, CleanBitMap::<1>::new(alloc).indexed()).into_dirty();
    push_byte(rt, &mut batch, 0x4d);
    push_byte(rt, &mut batch, 0xae);
    push_byte(rt, &mut batch, 0x0f);
    let mut batch = commit(rt, batch, 1).into_dirty();
    set_bit(rt, &mut batch, 9, false);
    let mut batch = commit(rt, batch, 3).into_dirty();
    set_bit(rt, &mut batch, 23, true);
    prune_to_bit(rt, &mut batch, 8);
    let mut batch = commit(rt, batch, 4).into_dirty();
    set_bit(rt, &mut batch, 8, true);
    commit(rt, batch, 7)
}

// Whether a commit, read with the index and without it, has these pruned chunks and digits.
fn had_bits(
    rt: &impl Abort,
    map: &CleanBitMap<1>,
    number: u64,
    pruned_chunks: usize,
    digits: &[u8],
) -> bool {
    let plain = ok(rt, map.clone()).without_index();
    match (plain.at(number), map.at(number)) {
        (Some(walked), Some(found)) => has_bits(&walked, pruned_chunks, digits)
            && has_bits(&found, pruned_chunks, digits)
            && same_bits(&found, &walked),
        _ => false,
    }
}

// Checks the bits of each of the four commits.
fn check_four_commits(rt: &impl Abort, map: &CleanBitMap<1>) {
    expect(rt, had_bits(rt, map, 1, 0, b"101100100111010111110000"));
    expect(rt, had_bits(rt, map, 3, 0, b"101100100011010111110000"));
    expect(rt, had_bits(rt, map, 4, 1, b"0011010111110001"));
    expect(rt, had_bits(rt, map, 7, 1, b"1011010111110001"));
}

#[test]
fn each_commit_has_its_bits(rt: HostRuntime) {
    let map = four_commits(&rt, rt.alloc());
    check_four_commits(&rt, &map);
    for number in [0, 2, 5, 8, u64::MAX] {
        expect_at(&rt, number, map.at(number).is_none());
    }
}

// The index is dropped, made of the commits that are kept, and made again, which leaves it.
#[test]
fn index_made_anew(rt: HostRuntime) {
    let plain = four_commits(&rt, rt.alloc()).without_index();
    check_four_commits(&rt, &plain);
    let map = ok(&rt, plain.indexed());
    check_four_commits(&rt, &map);
    let map = ok(&rt, map.indexed());
    check_four_commits(&rt, &map);
}

// A copy has an index of its own: commits of it leave the index of the other one.
#[test]
fn copy_used_further(rt: HostRuntime) {
    let map = four_commits(&rt, rt.alloc());
    let mut batch = ok(&rt, map.clone()).into_dirty();
    set_bit(&rt, &mut batch, 8, false);
    let copy = commit(&rt, batch, 8);
    check_four_commits(&rt, &copy);
    expect(&rt, had_bits(&rt, &copy, 8, 1, b"0011010111110001"));
    check_four_commits(&rt, &map);
    expect(&rt, map.at(8).is_none());
}

// A batch that is aborted leaves the index.
#[test]
fn batch_aborted(rt: HostRuntime) {
    let mut batch = four_commits(&rt, rt.alloc()).into_dirty();
    set_bit(&rt, &mut batch, 8, false);
    let map = batch.abort();
    check_four_commits(&rt, &map);
}

#[test]
fn earliest_commits_dropped(rt: HostRuntime) {
    let mut map = four_commits(&rt, rt.alloc());
    equal(&rt, map.prune_commits_before(4), 2);
    expect(&rt, had_bits(&rt, &map, 4, 1, b"0011010111110001"));
    expect(&rt, had_bits(&rt, &map, 7, 1, b"1011010111110001"));
    expect(&rt, map.at(3).is_none());
}

#[test]
fn all_commits_dropped(rt: HostRuntime) {
    let mut map = four_commits(&rt, rt.alloc());
    map.clear_history();
    expect(&rt, map.at(7).is_none());
    let mut batch = map.into_dirty();
    set_bit(&rt, &mut batch, 8, false);
    let map = commit(&rt, batch, 8);
    expect(&rt, had_bits(&rt, &map, 8, 1, b"0011010111110001"));
}

// After a rewind to 3, commit 4 is another one than before.
#[test]
fn number_used_again_after_a_rewind(rt: HostRuntime) {
    let map = rewind(&rt, four_commits(&rt, rt.alloc()), 3);
    expect(&rt, had_bits(&rt, &map, 3, 0, b"101100100011010111110000"));
    let mut batch = map.into_dirty();
    set_bit(&rt, &mut batch, 0, false);
    let mut batch = commit(&rt, batch, 4).into_dirty();
    push_byte(&rt, &mut batch, 0x01);
    let map = commit(&rt, batch, 5);
    expect(&rt, had_bits(&rt, &map, 1, 0, b"101100100111010111110000"));
    expect(&rt, had_bits(&rt, &map, 3, 0, b"101100100011010111110000"));
    expect(&rt, had_bits(&rt, &map, 4, 0, b"001100100011010111110000"));
    expect(
        &rt,
        had_bits(&rt, &map, 5, 0, b"00110010001101011111000010000000"),
    );
}
