//! Compactions of logs that have grown: worked out by hand, and with a device that fails.
//!
//! With chunks of one byte, a log without entries has 90 bytes, and one more for each chunk of its base. A commit has 49 bytes, and nine more for
//! each chunk that it lists, a rewind or a drop has 33, and a drop of all commits has 25.

use crate::checks::{equal, expect, ok};
use crate::failing_device::FailingDevice;
use crate::run::{TestStore, copy, push_digits};
use log_store::{DeviceError, Store, StoreError};
use std::alloc::Global;
use std::process::Abort;
use test_support::compare::has_bits;

// How many calls of the device can fail in the opening of a store whose log is whole, and in a compaction.
const OPEN_CALLS: usize = 4;

const COMPACT_CALLS: usize = 4;

// Commits the bitmap with these bits appended.
fn commit(rt: &impl Abort, store: TestStore, number: u64, digits: &[u8]) -> TestStore {
    let mut batch = store.into_batch();
    push_digits(rt, &mut batch.batch, digits);
    match batch.commit(number) {
        Ok(store) => store,
        Err(_) => panic!(rt; "{number}"),
    }
}

// Returns a store whose log has 280 bytes, and whose history has 140: a base of one chunk, and one commit that lists no chunk.
fn twice(rt: &impl Abort, alloc: Global) -> TestStore {
    let empty = FailingDevice::reliable(Vec::new(alloc));
    let mut store: TestStore = ok(rt, Store::create(alloc, empty));
    ok(rt, store.clear());
    ok(rt, store.clear());
    ok(rt, store.drop_before(1));
    let store = commit(rt, store, 1, b"101");
    let store = commit(rt, store, 2, b"");
    equal(rt, store.position(), 280);
    store
}

// Whether the bitmap is that of these stores.
fn is_same(store: &TestStore) -> bool {
    let map = store.bitmap();
    has_bits(map.current(), 0, b"101")
        && map.last_number() == Some(2)
        && map.commits().eq([1, 2].iter().copied())
}

// Opens a copy of the bytes of a device, and expects the same bitmap.
fn expect_opened(rt: &impl Abort, alloc: Global, device: &FailingDevice) {
    let left = FailingDevice::reliable(copy(rt, alloc, device.bytes()));
    let opened = ok(rt, Store::open(alloc, left));
    expect(rt, is_same(&opened));
}

// A log of exactly twice the bytes of its history is left alone. With one entry more it is replaced by the history, and then left alone.
#[test]
fn more_than_twice_the_bytes_are_compacted(rt: HostRuntime) {
    let alloc = rt.alloc();
    let mut store = twice(&rt, alloc);
    let before = copy(&rt, alloc, store.device().bytes());
    expect(&rt, !ok(&rt, store.compact_if_grown()));
    expect(&rt, store.device().bytes() == before.as_slice());
    ok(&rt, store.drop_before(1));
    equal(&rt, store.position(), 313);
    expect(&rt, ok(&rt, store.compact_if_grown()));
    equal(
        &rt,
        (store.position(), store.device().bytes().len()),
        (140, 141),
    );
    expect(&rt, is_same(&store));
    expect_opened(&rt, alloc, store.device());
    expect(&rt, !ok(&rt, store.compact_if_grown()));
    let store = commit(&rt, store, 3, b"1");
    equal(&rt, store.position(), 198);
    expect(&rt, has_bits(store.bitmap().current(), 0, b"1011"));
}

// An empty bitmap has a history of 90 bytes. A log of 173 bytes is left alone, and one of 181 is not.
#[test]
fn one_byte_more_is_compacted(rt: HostRuntime) {
    let empty = FailingDevice::reliable(Vec::new(rt.alloc()));
    let mut store: TestStore = ok(&rt, Store::create(rt.alloc(), empty));
    ok(&rt, store.drop_before(1));
    ok(&rt, store.drop_before(1));
    equal(&rt, store.position(), 156);
    expect(&rt, !ok(&rt, store.compact_if_grown()));
    ok(&rt, store.clear());
    equal(&rt, store.position(), 181);
    expect(&rt, ok(&rt, store.compact_if_grown()));
    equal(&rt, store.position(), 90);
}

// After a compaction in which the device has failed, the store is read-only, and what is left is opened to the same bitmap.
fn check_failed(rt: &impl Abort, alloc: Global, store: TestStore) {
    let mut store = store;
    expect(rt, store.is_read_only() && is_same(&store));
    equal(rt, store.compact_if_grown(), Err(StoreError::ReadOnly));
    expect_opened(rt, alloc, store.device());
}

// Opens a log that has grown on a device of which one call fails, and compacts it.
fn check_failure(rt: &impl Abort, alloc: Global, bytes: &[u8], successes: usize, torn: usize) {
    let device = FailingDevice::with_bytes(copy(rt, alloc, bytes), successes, torn);
    match Store::open(alloc, device) {
        Ok(store) => {
            let mut store = store;
            match store.compact_if_grown() {
                Ok(did) => expect(rt, did && successes >= OPEN_CALLS + COMPACT_CALLS),
                Err(error) => {
                    equal(rt, error, StoreError::Device(DeviceError::Failed(None)));
                    expect(rt, successes < OPEN_CALLS + COMPACT_CALLS);
                    check_failed(rt, alloc, store);
                }
            }
        }
        Err(_) => expect(rt, successes < OPEN_CALLS),
    }
}

// Each call of the device fails in turn.
#[test]
fn failed_compactions_leave_the_bitmap(rt: HostRuntime) {
    let alloc = rt.alloc();
    let mut store = twice(&rt, alloc);
    ok(&rt, store.drop_before(1));
    for successes in 0..OPEN_CALLS + COMPACT_CALLS + 1 {
        for torn in [0, 1] {
            check_failure(&rt, alloc, store.device().bytes(), successes, torn);
        }
    }
}
