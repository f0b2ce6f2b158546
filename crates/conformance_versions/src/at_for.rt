//! Past states read in the way that costs least for the bits to be read: which way that is, and that all have the same bits.

ghost use Rattle.bitmap_bytes.specs.Chunk.{IsWidth};

use crate::checked_calls::{commit, extend_to, set_bit};
use crate::checks::{expect, expect_at, ok};
use crate::gathered::{around, eight_chunks, random_history};
use historical_bitmap::bitmap::Readable;
use historical_bitmap::bitmap::historical::CleanBitMap;
use std::alloc::Global;
use std::process::Abort;
use test_support::compare::{has_bits, same_bits};

// What commit 1 of `eight_chunks` has.
const FIRST: &[u8] = b"1000000010000000100000001000000010000000100000001000000010000000";

// Fails the test unless commit 1, read for so many bits, has so many chunks in the slice around its first chunk.
//
// A chunk that is searched for is in no slice. A gathered version has slices that end at the chunks that later commits changed.
// A built version has one slice.
fn check_slice(rt: &impl Abort, map: &CleanBitMap<1>, bits: u64, chunks: usize) {
    let slice = map.at_for(1, bits).and_then(|then| around(&then, 0));
    expect_at(rt, bits, slice.is_some_and(|slice| slice.1 == chunks));
}

// The same for each of some numbers of bits. The version also has its bits.
fn check_slices(rt: &impl Abort, map: &CleanBitMap<1>, reads: &[u64], chunks: usize) {
    for bits in reads {
        check_slice(rt, map, *bits, chunks);
        let version = map.at_for(1, *bits);
        expect_at(
            rt,
            *bits,
            version.is_some_and(|then| has_bits(&then, 0, FIRST)),
        );
    }
}

// Commit 1 of eight chunks, and five commits after it, each of which changes one bit of the last chunk.
fn six_commits(rt: &impl Abort, alloc: Global) -> CleanBitMap<1> {
    let mut batch = eight_chunks(rt, alloc);
    for number in 2..7 {
        set_bit(rt, &mut batch, 57, number % 2 == 0);
        batch = commit(rt, batch, number).into_dirty();
    }
    batch.abort()
}

// To build the version costs 30 searches: five for each of five records, and one for each entry. To read a chunk costs six.
#[test]
fn one_entry_per_commit(rt: HostRuntime) {
    let map = six_commits(&rt, rt.alloc());
    check_slices(&rt, &map, &[0, 7, 8, 47], 0);
    check_slices(&rt, &map, &[48, 49, 64, u64::MAX], 8);
}

// To build the version costs seven searches: five for the record, and one for each of two entries. To read a chunk costs two.
#[test]
fn two_entries_per_commit(rt: HostRuntime) {
    let mut batch = eight_chunks(&rt, rt.alloc());
    set_bit(&rt, &mut batch, 57, true);
    set_bit(&rt, &mut batch, 49, true);
    let map = commit(&rt, batch, 2);
    check_slices(&rt, &map, &[0, 31], 0);
    check_slices(&rt, &map, &[32, 64, u64::MAX], 8);
}

// With an index, to read a chunk costs five searches, however many commits there are.
#[test]
fn with_an_index(rt: HostRuntime) {
    let map = ok(&rt, six_commits(&rt, rt.alloc()).indexed());
    check_slices(&rt, &map, &[0, 8, 55], 0);
    check_slices(&rt, &map, &[56, 64, u64::MAX], 8);
}

// Commit 1 of `len` unset bits, and a commit that sets a bit of the second chunk.
fn long_bitmap(rt: &impl Abort, alloc: Global, len: u64) -> CleanBitMap<1> {
    let mut batch = CleanBitMap::<1>::new(alloc).into_dirty();
    extend_to(rt, &mut batch, len);
    let mut batch = commit(rt, batch, 1).into_dirty();
    set_bit(rt, &mut batch, 9, true);
    commit(rt, batch, 2)
}

// To gather an entry costs sixteen searches. To copy 10,240 bits costs ten, and to undo a record of one entry six.
#[test]
fn long_bitmaps(rt: HostRuntime) {
    let map = long_bitmap(&rt, rt.alloc(), 10_232);
    check_slice(&rt, &map, 63, 0);
    check_slice(&rt, &map, 64, 1279);
    check_slice(&rt, &map, u64::MAX, 1279);
    check_rebuilt(&rt, &map, 1, u64::MAX);
    let map = long_bitmap(&rt, rt.alloc(), 10_240);
    check_slice(&rt, &map, 71, 0);
    check_slice(&rt, &map, 72, 1);
    check_slice(&rt, &map, u64::MAX, 1);
    check_rebuilt(&rt, &map, 1, u64::MAX);
}

// Nothing is gathered for the latest commit, and its chunks are read in place. So one chunk is enough.
#[test]
fn latest_commit(rt: HostRuntime) {
    let map = eight_chunks(&rt, rt.alloc()).abort();
    check_slices(&rt, &map, &[0, 7], 0);
    check_slices(&rt, &map, &[8, 64], 8);
}

// Numbers that are not kept, and a bitmap without commits.
#[test]
fn no_such_number(rt: HostRuntime) {
    let mut map = eight_chunks(&rt, rt.alloc()).abort();
    for number in [0, 2, u64::MAX] {
        expect_at(&rt, number, map.at_for(number, u64::MAX).is_none());
    }
    map.clear_history();
    expect(&rt, map.at_for(1, 64).is_none());
}

// Compares a past state, read for so many bits, with the state rebuilt.
fn check_rebuilt<const N: usize>(rt: &impl Abort, map: &CleanBitMap<N>, number: u64, bits: u64) {
    match (ok(rt, map.get_at_commit(number)), map.at_for(number, bits)) {
        (Some(old), Some(then)) => {
            // The prover learns the bounds of `N` from this call.
            let _ = then.len();
            expect_at(rt, number, same_bits(&then, &old));
            expect_at(rt, number, then.ones_iter_from(0).eq(old.ones_iter_from(0)));
            expect_at(
                rt,
                number,
                then.prev_zero(u64::MAX) == old.prev_zero(u64::MAX),
            );
        }
        _ => expect_at(rt, number, false),
    }
}

// Compares each past state of a random history, for few bits and for many, without an index and with one.
fn check_random<const N: usize>(rt: &impl Abort, alloc: Global, seed: u64)
    requires { IsWidth N }
{
    let map = random_history::<N>(rt, alloc, seed);
    let indexed = ok(rt, ok(rt, map.clone()).indexed());
    for number in 0..24 {
        for bits in [0, 500, u64::MAX] {
            check_rebuilt(rt, &map, number, bits);
            check_rebuilt(rt, &indexed, number, bits);
        }
    }
}

#[test]
fn random_histories(rt: HostRuntime) {
    for seed in 0..3 {
        check_random::<1>(&rt, rt.alloc(), seed);
        check_random::<8>(&rt, rt.alloc(), seed);
        check_random::<32>(&rt, rt.alloc(), seed);
    }
}
