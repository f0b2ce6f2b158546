//! A run of seven calls, and the state of the store after each of them.

use crate::checks::ok;
use crate::failing_device::FailingDevice;
use historical_bitmap::bitmap::historical::{CleanBitMap, DirtyBitMap};
use log_store::{Store, StoreError};
use std::alloc::Global;
use std::process::Abort;
use test_support::compare::has_bits;

/// The number of calls of the run.
pub const CALLS: usize = 7;

/// A store whose chunks have one byte.
pub type TestStore = Store<1, FailingDevice>;

/// A store after a call, or the store with the error of the call.
pub type Called = Result<TestStore, (TestStore, StoreError)>;

/// Appends bits, where `1` is a set bit.
pub fn push_digits(rt: &impl Abort, batch: &mut DirtyBitMap<1>, digits: &[u8]) {
    for digit in digits {
        assert!(rt; batch.len() < u64::MAX);
        ok(rt, batch.try_push(*digit == b'1'));
    }
}

// Commits the bitmap with these bits appended.
fn commit(rt: &impl Abort, store: TestStore, number: u64, digits: &[u8]) -> Called {
    let mut batch = store.into_batch();
    push_digits(rt, &mut batch.batch, digits);
    match batch.commit(number) {
        Ok(store) => Ok(store),
        Err((batch, error)) => Err((batch.abort(), error)),
    }
}

// Drops the commits before a number.
fn drop_before(store: TestStore, number: u64) -> Called {
    let mut store = store;
    match store.drop_before(number) {
        Ok(()) => Ok(store),
        Err(error) => Err((store, error)),
    }
}

// Drops all commits.
fn clear(store: TestStore) -> Called {
    let mut store = store;
    match store.clear() {
        Ok(()) => Ok(store),
        Err(error) => Err((store, error)),
    }
}

/// Makes the call of the run after the first `index` calls.
pub fn call(rt: &impl Abort, store: TestStore, index: usize) -> Called {
    match index {
        0 => commit(rt, store, 1, b"101"),
        1 => commit(rt, store, 5, b"11010011"),
        2 => commit(rt, store, 7, b"0"),
        3 => drop_before(store, 5),
        4 => store.rewind_to(5),
        5 => clear(store),
        _ => commit(rt, store, 9, b"1"),
    }
}

// Whether a bitmap has these bits, this last number and these kept commits.
fn is_bitmap(map: &CleanBitMap<1>, digits: &[u8], last: Option<u64>, numbers: &[u64]) -> bool {
    has_bits(map.current(), 0, digits)
        && map.last_number() == last
        && map.commits().eq(numbers.iter().copied())
}

/// Returns whether a bitmap is that of the run after its first `count` calls.
pub fn is_after(map: &CleanBitMap<1>, count: usize) -> bool {
    match count {
        0 => is_bitmap(map, b"", None, &[]),
        1 => is_bitmap(map, b"101", Some(1), &[1]),
        2 => is_bitmap(map, b"10111010011", Some(5), &[1, 5]),
        3 => is_bitmap(map, b"101110100110", Some(7), &[1, 5, 7]),
        4 => is_bitmap(map, b"101110100110", Some(7), &[5, 7]),
        5 => is_bitmap(map, b"10111010011", Some(5), &[5]),
        6 => is_bitmap(map, b"10111010011", Some(5), &[]),
        _ => is_bitmap(map, b"101110100111", Some(9), &[9]),
    }
}

/// Makes the calls of the run after the first `count` calls. Each call succeeds.
pub fn finish(rt: &impl Abort, store: TestStore, count: usize) -> TestStore {
    let mut store = store;
    for index in count..CALLS {
        store = ok(rt, call(rt, store, index));
    }
    store
}

/// Returns a copy of bytes.
pub fn copy(rt: &impl Abort, alloc: Global, bytes: &[u8]) -> Vec<u8> {
    ok(rt, bytes.to_vec(alloc))
}
