//! Calls that do not allocate. They give the same results while every allocation after the set-up fails.

use crate::allocation_failures::indexed::{same_in_place, with_indexed_copy};
use crate::allocation_failures::{PENDING, batch_begun, committed};
use crate::checked_calls::{
    current_bit, current_chunk, failed_commit, failed_rewind, has_pending_bits, keeps, pending_bit,
    pending_chunk, pop, pop_run, read_bit, truncate, try_commit, try_prune_to_bit, try_push,
    try_push_byte, try_push_run, try_set_bit, try_set_chunk, try_set_range,
};
use crate::checks::{equal, expect, expect_at};
use historical_bitmap::bitmap::Readable;
use historical_bitmap::bitmap::historical::{ApplyError, CleanBitMap, DirtyBitMap, Error};
use std::alloc::Global;
use std::process::Abort;
use test_support::compare::has_bits;

// A batch on one chunk of 32 set bits, or `None` if an allocation fails.
fn one_chunk(rt: &impl Abort, alloc: Global) -> Option<DirtyBitMap<4>> {
    let mut map = CleanBitMap::<4>::new(alloc).into_dirty();
    try_push_run(rt, &mut map, 32, true).ok()?;
    Some(try_commit(rt, map, 1).ok()?.into_dirty())
}

#[test]
fn chunk_popped(rt: HostRuntime) {
    let Some(mut map) = one_chunk(&rt, rt.alloc()) else {
        return;
    };
    pop_run(&rt, &mut map, 32, true);
    equal(&rt, map.len(), 0);
}

#[test]
fn edited_chunk_popped(rt: HostRuntime) {
    let Some(mut map) = one_chunk(&rt, rt.alloc()) else {
        return;
    };
    if try_set_bit(&rt, &mut map, 0, false).is_err() {
        return;
    }
    pop_run(&rt, &mut map, 31, true);
    pop_run(&rt, &mut map, 1, false);
    equal(&rt, map.len(), 0);
}

#[test]
fn chunk_truncated(rt: HostRuntime) {
    let Some(mut map) = one_chunk(&rt, rt.alloc()) else {
        return;
    };
    truncate(&rt, &mut map, 13);
    equal(&rt, pending_chunk(&rt, &map, 12), [0xff, 0x1f, 0x00, 0x00]);
    truncate(&rt, &mut map, 0);
    equal(&rt, map.len(), 0);
}

#[test]
fn edited_chunk_truncated(rt: HostRuntime) {
    let Some(mut map) = one_chunk(&rt, rt.alloc()) else {
        return;
    };
    if try_set_bit(&rt, &mut map, 0, false).is_err() {
        return;
    }
    truncate(&rt, &mut map, 13);
    equal(&rt, pending_chunk(&rt, &map, 12), [0xfe, 0x1f, 0x00, 0x00]);
    expect(&rt, try_push(&rt, &mut map, false).is_ok());
    expect(&rt, try_push(&rt, &mut map, true).is_ok());
    equal(&rt, pending_chunk(&rt, &map, 12), [0xfe, 0x5f, 0x00, 0x00]);
    truncate(&rt, &mut map, 0);
    equal(&rt, map.len(), 0);
}

#[test]
fn edited_chunk_set(rt: HostRuntime) {
    let Some(mut map) = one_chunk(&rt, rt.alloc()) else {
        return;
    };
    if try_set_bit(&rt, &mut map, 0, false).is_err() {
        return;
    }
    for bit in 1..32 {
        expect_at(&rt, bit, try_set_bit(&rt, &mut map, bit, false).is_ok());
    }
    equal(&rt, pending_chunk(&rt, &map, 31), [0; 4]);
}

#[test]
fn edited_chunk_replaced(rt: HostRuntime) {
    let Some(mut map) = one_chunk(&rt, rt.alloc()) else {
        return;
    };
    if try_set_bit(&rt, &mut map, 0, false).is_err() {
        return;
    }
    let chunk = [0x4d, 0xae, 0x0f, 0xf1];
    expect(&rt, try_set_chunk(&rt, &mut map, 0, &chunk).is_ok());
    equal(&rt, pending_chunk(&rt, &map, 31), chunk);
}

// A range of an edited chunk, and one without a position.
#[test]
fn edited_range_set(rt: HostRuntime) {
    let Some(mut map) = one_chunk(&rt, rt.alloc()) else {
        return;
    };
    if try_set_bit(&rt, &mut map, 0, false).is_err() {
        return;
    }
    expect(&rt, try_set_range(&rt, &mut map, 4..20, false).is_ok());
    expect(&rt, try_set_range(&rt, &mut map, 32..0, false).is_ok());
    equal(&rt, pending_chunk(&rt, &map, 31), [0x0e, 0x00, 0xf0, 0xff]);
}

#[test]
fn edited_chunk_filled(rt: HostRuntime) {
    let Some(mut map) = one_chunk(&rt, rt.alloc()) else {
        return;
    };
    if try_set_bit(&rt, &mut map, 0, false).is_err() {
        return;
    }
    pop_run(&rt, &mut map, 12, true);
    expect(&rt, try_push_byte(&rt, &mut map, 0x35).is_ok());
    for _ in 0..4 {
        expect(&rt, try_push(&rt, &mut map, true).is_ok());
    }
    equal(&rt, pending_chunk(&rt, &map, 0), [0xfe, 0xff, 0x5f, 0xf3]);
}

#[test]
fn nothing_more_pruned(rt: HostRuntime) {
    let Some((mut map, _before)) = batch_begun(&rt, rt.alloc()) else {
        return;
    };
    for bit in 0..16 {
        expect_at(&rt, bit, try_prune_to_bit(&rt, &mut map, bit).is_ok());
    }
    expect(&rt, has_pending_bits(&rt, &map, 1, PENDING));
}

// An index is read, its entries are removed, and an index of no commits is made.
#[test]
fn index_read_and_dropped(rt: HostRuntime) {
    let Some((plain, mut map)) = with_indexed_copy(&rt, rt.alloc()) else {
        return;
    };
    expect(&rt, same_in_place(&map, &plain));
    equal(&rt, map.prune_commits_before(2), 1);
    expect(&rt, map.at(1).is_none() && map.at(2).is_some());
    map.clear_history();
    expect(&rt, map.at(2).is_none());
    let made = map.without_index().indexed();
    expect(&rt, made.is_ok_and(|map| map.at(2).is_none()));
}

#[test]
fn values_made(rt: HostRuntime) {
    expect(&rt, CleanBitMap::<4>::new(rt.alloc()).is_empty());
    expect(&rt, CleanBitMap::<4>::default(rt.alloc()).is_empty());
    let made = CleanBitMap::<4>::new_with_pruned_chunks(rt.alloc(), 3);
    expect(
        &rt,
        made.is_ok_and(|map| map.into_dirty().abort().pruned_chunks() == 3),
    );
    let rejected = CleanBitMap::<4>::new_with_pruned_chunks(rt.alloc(), 576460752303423488);
    expect(
        &rt,
        rejected.is_err_and(|why| why == Error::PrunedChunksOverflow),
    );
}

#[test]
fn current_bitmap_read(rt: HostRuntime) {
    let Some(map) = committed(&rt, rt.alloc()) else {
        return;
    };
    expect(
        &rt,
        map.len() == 24 && !map.is_empty() && map.pruned_chunks() == 1,
    );
    expect(&rt, current_bit(&rt, &map, 9) && !current_bit(&rt, &map, 8));
    equal(&rt, current_chunk(&rt, &map, 23), [0x0f]);
    equal(
        &rt,
        (map.retained_bytes(0), map.retained_bytes(1)),
        (None, Some([0xae])),
    );
    expect(&rt, has_bits(map.current(), 1, b"0111010111110000"));
}

#[test]
fn pending_bitmap_read(rt: HostRuntime) {
    let Some((map, _before)) = batch_begun(&rt, rt.alloc()) else {
        return;
    };
    expect(
        &rt,
        map.len() == 23 && !map.is_empty() && map.pruned_chunks() == 1,
    );
    expect(&rt, pending_bit(&rt, &map, 9) && !pending_bit(&rt, &map, 8));
    equal(&rt, pending_chunk(&rt, &map, 22), [0x0f]);
    equal(
        &rt,
        (map.newly_pruned_chunks(), map.retained_bytes(1)),
        (0, Some([0xae])),
    );
    expect(&rt, keeps(&map.abort(), &[1, 2]));
}

// Searches, counts and lists of positions of a batch. It retains 15 bits: those of `PENDING`, after a pruned chunk.
#[test]
fn pending_bitmap_searched(rt: HostRuntime) {
    let Some((map, _before)) = batch_begun(&rt, rt.alloc()) else {
        return;
    };
    equal(&rt, (map.next_one(0), map.next_one(20)), (Some(9), None));
    equal(
        &rt,
        (map.next_zero(9), map.prev_zero(16)),
        (Some(12), Some(14)),
    );
    equal(&rt, (map.prev_one(23), map.prev_one(9)), (Some(19), None));
    equal(
        &rt,
        (map.count_ones_range(0..40), map.count_ones_range(10..13)),
        (9, 2),
    );
    equal(
        &rt,
        (map.select_one(8), map.select_one(9)),
        (Some(19), None),
    );
    expect(&rt, map.zeros_iter_from(12).eq([12, 14, 20, 21, 22]));
    expect(&rt, map.ones_iter_range(12..18).eq([13, 15, 16, 17]));
}

// The chunks in which two commits differ, and those in which a batch differs from the current bitmap.
#[test]
fn changes_listed(rt: HostRuntime) {
    let Some((mut map, before)) = batch_begun(&rt, rt.alloc()) else {
        return;
    };
    // The batch has removed a zero, and then three more: the bytes are the same.
    pop_run(&rt, &mut map, 3, false);
    expect(&rt, map.changed_chunks().next().is_none());
    pop_run(&rt, &mut map, 1, true);
    expect(&rt, map.changed_chunks().eq([2]));
    let Some(mut changes) = before.changed_chunks(1, 2) else {
        expect(&rt, false);
        return;
    };
    expect(&rt, changes.by_ref().eq([0, 2]));
    expect(&rt, changes.next().is_none() && changes.next().is_none());
    expect(
        &rt,
        before.changed_chunks(2, 1).is_none() && before.changed_chunks(1, 3).is_none(),
    );
}

#[test]
fn commits_that_fail(rt: HostRuntime) {
    let Some((map, _before)) = batch_begun(&rt, rt.alloc()) else {
        return;
    };
    let map = failed_commit(&rt, map, u64::MAX, Error::ReservedCommitNumber);
    let why = Error::NonMonotonicCommit {
        previous: 2,
        attempted: 2,
    };
    let map = failed_commit(&rt, map, 2, why);
    expect(&rt, has_pending_bits(&rt, &map, 1, PENDING));
}

// Applies a batch that removes a bit and returns `returned`. It fails, and the error and its bitmap are returned.
fn failed_batch(
    rt: &impl Abort,
    map: CleanBitMap<1>,
    number: u64,
    returned: Result<(), u8>,
) -> Option<(CleanBitMap<1>, ApplyError<u8>)> {
    let applied = map.apply_batch(number, |batch| {
        expect(rt, !pop(rt, batch));
        returned
    });
    expect_at(rt, number, applied.is_err());
    applied.err()
}

// Applies batches that fail, and returns the bitmap that the last error hands back.
fn failed_batches(rt: &impl Abort, map: CleanBitMap<1>) -> Option<CleanBitMap<1>> {
    let (map, why) = failed_batch(rt, map, u64::MAX, Ok(()))?;
    expect(
        rt,
        matches!(why, ApplyError::Commit(why) if why == Error::ReservedCommitNumber),
    );
    let (map, why) = failed_batch(rt, map, 2, Ok(()))?;
    let wanted = Error::NonMonotonicCommit {
        previous: 2,
        attempted: 2,
    };
    expect(rt, matches!(why, ApplyError::Commit(why) if why == wanted));
    let (map, why) = failed_batch(rt, map, 3, Err(7))?;
    expect(rt, matches!(why, ApplyError::Batch(7)));
    Some(map)
}

#[test]
fn batches_that_fail(rt: HostRuntime) {
    let Some(map) = committed(&rt, rt.alloc()) else {
        return;
    };
    let map = failed_batches(&rt, map);
    expect(
        &rt,
        map.is_some_and(|map| keeps(&map, &[1, 2])
            && has_bits(map.current(), 1, b"0111010111110000")),
    );
}

#[test]
fn number_not_kept(rt: HostRuntime) {
    let Some(map) = committed(&rt, rt.alloc()) else {
        return;
    };
    for number in [0, 3, u64::MAX] {
        expect_at(
            &rt,
            number,
            map.get_at_commit(number).is_ok_and(|old| old.is_none()),
        );
        let Ok(gathered) = map.gathered(number) else {
            expect(&rt, false);
            return;
        };
        expect_at(&rt, number, gathered.is_none());
        expect_at(&rt, number, map.at_for(number, 64).is_none());
    }
}

// No commit is past the latest one, so nothing is gathered.
#[test]
fn latest_state_gathered(rt: HostRuntime) {
    let Some(map) = committed(&rt, rt.alloc()) else {
        return;
    };
    let Ok(Some(then)) = map.gathered(2) else {
        expect(&rt, false);
        return;
    };
    expect(&rt, has_bits(&then, 1, b"0111010111110000"));
    expect(&rt, then.count_ones_range(0..u64::MAX) == 9);
}

// Neither is it for all bits of the latest state.
#[test]
fn latest_state_read_for_all_bits(rt: HostRuntime) {
    let Some(map) = committed(&rt, rt.alloc()) else {
        return;
    };
    let Some(then) = map.at_for(2, u64::MAX) else {
        expect(&rt, false);
        return;
    };
    expect(&rt, has_bits(&then, 1, b"0111010111110000"));
}

// So few bits are read in place.
#[test]
fn past_state_read_for_few_bits(rt: HostRuntime) {
    let Some(map) = committed(&rt, rt.alloc()) else {
        return;
    };
    expect(
        &rt,
        map.at_for(1, 16)
            .is_some_and(|old| has_bits(&old, 0, b"1011001001110101")),
    );
}

#[test]
fn past_state_read_in_place(rt: HostRuntime) {
    let Some(map) = committed(&rt, rt.alloc()) else {
        return;
    };
    expect(
        &rt,
        map.at(0).is_none() && map.at(3).is_none() && map.at(u64::MAX).is_none(),
    );
    let Some(then) = map.at(1) else {
        expect(&rt, false);
        return;
    };
    expect(
        &rt,
        then.len() == 16 && then.pruned_chunks() == 0 && then.complete_chunks() == 2,
    );
    expect(&rt, read_bit(&rt, &then, 2) && !read_bit(&rt, &then, 8));
    expect(&rt, then.ones_iter_range(3..10).eq([3, 6, 9]));
}

#[test]
fn number_not_rewound_to(rt: HostRuntime) {
    let Some(mut map) = committed(&rt, rt.alloc()) else {
        return;
    };
    for number in [0, 3, u64::MAX] {
        map = failed_rewind(&rt, map, number);
    }
    expect(&rt, keeps(&map, &[1, 2]) && map.reverse_entries() <= 4);
    expect(&rt, has_bits(map.current(), 1, b"0111010111110000"));
}

#[test]
fn commits_listed_and_dropped(rt: HostRuntime) {
    let Some(mut map) = committed(&rt, rt.alloc()) else {
        return;
    };
    expect(
        &rt,
        map.commit_exists(1) && map.commit_exists(2) && !map.commit_exists(3),
    );
    expect(
        &rt,
        map.earliest_commit() == Some(1) && map.latest_commit() == Some(2),
    );
    expect(&rt, keeps(&map, &[1, 2]));
    expect(&rt, map.reverse_entries() <= 4);
    equal(&rt, map.prune_commits_before(2), 1);
    expect(&rt, keeps(&map, &[2]));
    map.clear_history();
    expect(&rt, keeps(&map, &[]) && map.reverse_entries() == 0);
    expect(&rt, has_bits(map.current(), 1, b"0111010111110000"));
}
