//! Commits in two steps, at seven widths: what is prepared is finished as `commit` finishes it or gives the batch back, and it lists its changes.

ghost use Rattle.bitmap_bytes.specs.Chunk.{IsWidth};

use crate::allocation_failures::same_history;
use crate::changes::{LAST, edit};
use crate::checked_calls::{commit, push_byte, rewind, set_bit};
use crate::checks::{equal, expect_at, ok};
use historical_bitmap::bitmap::Readable;
use historical_bitmap::bitmap::historical::{CleanBitMap, DirtyBitMap, Error, PreparedBitMap};
use std::alloc::Global;
use std::process::Abort;
use test_support::compare::same_bits;

// Prepares a commit. Fails the test if an allocation fails, or if the number is refused.
fn prepare<const N: usize>(
    rt: &impl Abort,
    batch: DirtyBitMap<N>,
    number: u64,
) -> PreparedBitMap<N> {
    ok(rt, batch.prepare(number))
}

// Whether a prepared commit lists the chunks that its batch changes and the pending bitmap retains, each with its pending bytes.
fn lists_changes<const N: usize>(batch: &DirtyBitMap<N>, prepared: &PreparedBitMap<N>) -> bool {
    let mut listed = prepared.changed_chunks();
    for chunk in batch.changed_chunks() {
        if let Some(bytes) = batch.retained_bytes(chunk) {
            let Some(change) = listed.next() else {
                return false;
            };
            if change.0 != chunk || change.1 != bytes {
                return false;
            }
        }
    }
    listed.next().is_none() && listed.next().is_none()
}

// Prepares a batch twice, and undoes it the first time. Returns the bitmap after the second, which is that of `commit`.
fn committed<const N: usize>(
    rt: &impl Abort,
    batch: DirtyBitMap<N>,
    number: u64,
) -> CleanBitMap<N> {
    let copy = ok(rt, batch.clone());
    let prepared = prepare(rt, batch, number);
    expect_at(rt, (number, N), lists_changes(&copy, &prepared));
    equal(rt, prepared.number(), number);
    equal(rt, prepared.pending_len(), copy.len());
    equal(rt, prepared.pending_pruned_chunks(), copy.pruned_chunks());

    let undone = prepared.into_dirty();
    expect_at(rt, (number, N), same_bits(&undone, &copy));
    let again = ok(rt, undone.clone());
    expect_at(
        rt,
        (number, N),
        same_history(&again.abort(), &ok(rt, copy.clone()).abort()),
    );

    let map = prepare(rt, undone, number).commit();
    expect_at(
        rt,
        (number, N),
        same_history(&map, &commit(rt, copy, number)),
    );
    map
}

// Numbers that are not above the last one, and the reserved one.
fn refused<const N: usize>(rt: &impl Abort, batch: DirtyBitMap<N>, last: u64) -> DirtyBitMap<N> {
    let copy = ok(rt, batch.clone());
    let why = Error::NonMonotonicCommit {
        previous: last,
        attempted: last,
    };
    let (batch, found) = match batch.prepare(last) {
        Ok(prepared) => (prepared.into_dirty(), None),
        Err((batch, found)) => (batch, Some(found)),
    };
    expect_at(rt, (last, N), found == Some(why));
    let (batch, found) = match batch.prepare(u64::MAX) {
        Ok(prepared) => (prepared.into_dirty(), None),
        Err((batch, found)) => (batch, Some(found)),
    };
    expect_at(rt, (last, N), found == Some(Error::ReservedCommitNumber));
    expect_at(rt, (last, N), same_bits(&batch, &copy));
    batch
}

// All batches. Then the first commits are dropped, the bitmap is rewound, and another batch is committed under a number used before.
fn check_width<const N: usize>(rt: &impl Abort, alloc: Global, width: u64)
    requires { IsWidth N }
{
    let mut map = CleanBitMap::<N>::new(alloc);
    for number in 1..LAST + 1 {
        let mut batch = map.into_dirty();
        edit(rt, &mut batch, width, number);
        map = committed(rt, batch, number);
    }
    let map = ok(rt, map.indexed());
    let mut map = rewind(rt, map, 6);
    let _ = map.prune_commits_before(3);
    let mut batch = map.into_dirty();
    edit(rt, &mut batch, width, 9);
    let map = committed(rt, refused(rt, batch, 6), 7);
    equal(rt, map.latest_commit(), Some(7));
}

#[test]
fn prepared_at_each_width(rt: HostRuntime) {
    check_width::<1>(&rt, rt.alloc(), 8);
    check_width::<3>(&rt, rt.alloc(), 24);
    check_width::<7>(&rt, rt.alloc(), 56);
    check_width::<8>(&rt, rt.alloc(), 64);
    check_width::<9>(&rt, rt.alloc(), 72);
    check_width::<32>(&rt, rt.alloc(), 256);
    check_width::<64>(&rt, rt.alloc(), 512);
}

// A worked example by hand, in chunks of one byte: bit 3 is cleared, bit 9 is set to the value that it has, and a byte is appended.
#[test]
fn changes_of_a_prepared_commit(rt: HostRuntime) {
    let mut batch = CleanBitMap::<1>::new(rt.alloc()).into_dirty();
    push_byte(&rt, &mut batch, 0x0f);
    push_byte(&rt, &mut batch, 0x02);
    let mut batch = commit(&rt, batch, 1).into_dirty();
    set_bit(&rt, &mut batch, 3, false);
    set_bit(&rt, &mut batch, 9, true);
    push_byte(&rt, &mut batch, 0x80);

    let prepared = prepare(&rt, batch, 2);
    let mut changes = prepared.changed_chunks();
    equal(&rt, changes.next(), Some((0, [0x07])));
    equal(&rt, changes.next(), Some((2, [0x80])));
    equal(&rt, changes.next(), None);
    equal(&rt, prepared.into_dirty().abort().current().len(), 16);
}
