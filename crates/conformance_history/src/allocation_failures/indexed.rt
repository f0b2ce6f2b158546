//! Calls of a bitmap with an index of its commits, and the call that makes the index, while an allocation fails.

use crate::allocation_failures::{committed, edited};
use crate::checked_calls::{try_commit, try_set_bit};
use crate::checks::expect;
use historical_bitmap::bitmap::historical::{CleanBitMap, DirtyBitMap, Error, RewindError};
use std::alloc::{AllocError, Global};
use std::process::Abort;
use test_support::compare::{has_bits, same_bits};

/// Whether both have the same commits, with the same bits, read in place. Does not allocate.
pub fn same_in_place(map: &CleanBitMap<1>, other: &CleanBitMap<1>) -> bool {
    for number in [1, 2, 3] {
        match (map.at(number), other.at(number)) {
            (Some(found), Some(wanted)) => {
                if !same_bits(&found, &wanted) {
                    return false;
                }
            }
            (None, None) => {}
            _ => return false,
        }
    }
    true
}

// An indexed copy of a bitmap, or `None` if an allocation fails.
fn indexed_copy(map: &CleanBitMap<1>) -> Option<CleanBitMap<1>> {
    let copy = map.clone().ok()?;
    match copy.indexed() {
        Ok(indexed) => Some(indexed),
        Err(_) => None,
    }
}

/// `committed` and an indexed copy of it, or `None` if an allocation fails.
pub fn with_indexed_copy(
    rt: &impl Abort,
    alloc: Global,
) -> Option<(CleanBitMap<1>, CleanBitMap<1>)> {
    let plain = committed(rt, alloc)?;
    let indexed = indexed_copy(&plain)?;
    Some((plain, indexed))
}

// The index of all commits is made, on the second try if the first one fails.
#[test]
fn index_made(rt: HostRuntime) {
    let Some(plain) = committed(&rt, rt.alloc()) else {
        return;
    };
    let Ok(map) = plain.clone() else {
        return;
    };
    match map.indexed() {
        Ok(map) => expect(&rt, same_in_place(&map, &plain)),
        Err((map, _)) => {
            expect(&rt, same_in_place(&map, &plain));
            match map.indexed() {
                Ok(map) | Err((map, _)) => expect(&rt, same_in_place(&map, &plain)),
            }
        }
    }
}

// A batch that clears a bit of a bitmap, or `None` if an allocation fails.
fn bit_cleared(rt: &impl Abort, map: CleanBitMap<1>) -> Option<DirtyBitMap<1>> {
    let mut batch = map.into_dirty();
    try_set_bit(rt, &mut batch, 9, false).ok()?;
    Some(batch)
}

// The batch of `commit_added_to_an_index`, on an indexed bitmap; that bitmap without it; and one with its commit.
fn indexed_batch(
    rt: &impl Abort,
    alloc: Global,
) -> Option<(DirtyBitMap<1>, CleanBitMap<1>, CleanBitMap<1>)> {
    let (plain, indexed) = with_indexed_copy(rt, alloc)?;
    let copy = plain.clone().ok()?;
    let more = try_commit(rt, bit_cleared(rt, copy)?, 3).ok()?;
    Some((bit_cleared(rt, indexed)?, plain, more))
}

// Commits the batch of `indexed_batch` at 3. The index has the new commit. After a failed commit it is that of the commits before, and the
// batch can be committed again.
fn commit_to_index(
    rt: &impl Abort,
    batch: DirtyBitMap<1>,
    plain: &CleanBitMap<1>,
    more: &CleanBitMap<1>,
) {
    match batch.commit(3) {
        Ok(map) => expect(rt, same_in_place(&map, more)),
        Err((batch, why)) => {
            expect(rt, why == Error::Memory(AllocError));
            match batch.commit(3) {
                Ok(map) => expect(rt, same_in_place(&map, more)),
                Err((batch, why)) => {
                    expect(rt, why == Error::Memory(AllocError));
                    expect(rt, same_in_place(&batch.abort(), plain));
                }
            }
        }
    }
}

#[test]
fn commit_added_to_an_index(rt: HostRuntime) {
    if let Some((batch, plain, more)) = indexed_batch(&rt, rt.alloc()) {
        commit_to_index(&rt, batch, &plain, &more);
    }
}

// A batch that clears a bit of each of two chunks of a bitmap, or `None` if an allocation fails.
fn two_bits_cleared(rt: &impl Abort, map: CleanBitMap<1>) -> Option<DirtyBitMap<1>> {
    let mut batch = bit_cleared(rt, map)?;
    try_set_bit(rt, &mut batch, 17, false).ok()?;
    Some(batch)
}

// As `indexed_batch`. The index has 14 entries, and its only node has space for 15. So the second of the batch's two entries allocates.
fn batch_past_a_node(
    rt: &impl Abort,
    alloc: Global,
) -> Option<(DirtyBitMap<1>, CleanBitMap<1>, CleanBitMap<1>)> {
    let plain = try_commit(rt, edited(rt, alloc, 13)?, 2).ok()?;
    let indexed = indexed_copy(&plain)?;
    let copy = plain.clone().ok()?;
    let more = try_commit(rt, two_bits_cleared(rt, copy)?, 3).ok()?;
    Some((two_bits_cleared(rt, indexed)?, plain, more))
}

// If an allocation for the index fails, the commit that was appended before it is removed.
#[test]
fn commit_added_past_a_node_of_an_index(rt: HostRuntime) {
    if let Some((batch, plain, more)) = batch_past_a_node(&rt, rt.alloc()) {
        commit_to_index(&rt, batch, &plain, &more);
    }
}

// The same if the commit is prepared first. A prepared commit that is undone leaves the index of the commits before it.
#[test]
fn commit_prepared_past_a_node_of_an_index(rt: HostRuntime) {
    let Some((batch, plain, more)) = batch_past_a_node(&rt, rt.alloc()) else {
        return;
    };
    match batch.prepare(3) {
        Ok(prepared) => expect(&rt, same_in_place(&prepared.commit(), &more)),
        Err((batch, why)) => {
            expect(&rt, why == Error::Memory(AllocError));
            expect(&rt, same_in_place(&batch.abort(), &plain));
        }
    }
}

// After a failed rewind the index is that of all commits, and else that of the commits that are left.
#[test]
fn indexed_bitmap_rewound(rt: HostRuntime) {
    let Some((plain, indexed)) = with_indexed_copy(&rt, rt.alloc()) else {
        return;
    };
    match indexed.rewind_to(1) {
        Ok(map) => {
            expect(&rt, has_bits(map.current(), 0, b"1011001001110101"));
            expect(&rt, map.at(1).is_some() && map.at(2).is_none());
        }
        Err((map, why)) => {
            expect(&rt, why == RewindError::Memory(AllocError));
            expect(&rt, same_in_place(&map, &plain));
        }
    }
}

#[test]
fn indexed_bitmap_copied(rt: HostRuntime) {
    let Some((plain, indexed)) = with_indexed_copy(&rt, rt.alloc()) else {
        return;
    };
    if let Ok(copy) = indexed.clone() {
        expect(&rt, same_in_place(&copy, &plain));
    }
    expect(&rt, same_in_place(&indexed, &plain));
}
