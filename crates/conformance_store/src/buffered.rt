//! Buffered stores: what waits is not written, and is kept once it is synced.

use crate::checks::{equal, expect, ok};
use crate::crashes::{check_torn, torn};
use crate::failing_device::FailingDevice;
use crate::run::{CALLS, TestStore, copy, finish, is_after, push_digits};
use log_store::{BufferedStore, DeviceError, MemoryDevice, Store, StoreError};
use std::alloc::Global;
use std::process::Abort;

// The byte at the place of the next entry.
const CLOSED: u8 = 165;

// How many calls of the device a creation and a sync make that can fail.
const CREATE_CALLS: usize = 6;

const SYNC_CALLS: usize = 4;

// A buffered store whose chunks have one byte.
type Buffered = BufferedStore<1, FailingDevice>;

// A buffered store after a call, or the store with the error of the call.
type Called = Result<Buffered, (Buffered, StoreError)>;

// Commits the bitmap with these bits appended.
fn commit(rt: &impl Abort, store: Buffered, number: u64, digits: &[u8]) -> Called {
    let mut batch = store.into_batch();
    push_digits(rt, &mut batch.batch, digits);
    match batch.commit(number) {
        Ok(store) => Ok(store),
        Err((batch, error)) => Err((batch.abort(), error)),
    }
}

// Drops the commits before a number.
fn drop_before(store: Buffered, number: u64) -> Called {
    let mut store = store;
    match store.drop_before(number) {
        Ok(()) => Ok(store),
        Err(error) => Err((store, error)),
    }
}

// Drops all commits.
fn clear(store: Buffered) -> Called {
    let mut store = store;
    match store.clear() {
        Ok(()) => Ok(store),
        Err(error) => Err((store, error)),
    }
}

// Makes the call of the run after the first `index` calls.
fn call(rt: &impl Abort, store: Buffered, index: usize) -> Called {
    match index {
        0 => commit(rt, store, 1, b"101"),
        1 => commit(rt, store, 5, b"11010011"),
        2 => commit(rt, store, 7, b"0"),
        3 => drop_before(store, 5),
        4 => store.rewind_to(5),
        5 => clear(store),
        _ => commit(rt, store, 9, b"1"),
    }
}

// Makes the calls of the run from the first on up to the second, all of which wait.
fn wait(rt: &impl Abort, store: Buffered, from: usize, to: usize) -> Buffered {
    let mut store = store;
    for index in from..to {
        let len = store.device().bytes().len();
        let waiting = store.waiting_bytes();
        store = ok(rt, call(rt, store, index));
        expect(rt, is_after(store.bitmap(), index.saturating_add(1)));
        equal(rt, store.device().bytes().len(), len);
        expect(rt, store.waiting_bytes() > waiting);
    }
    store
}

// Returns a buffered store on an empty device.
fn create(rt: &impl Abort, alloc: Global) -> Buffered {
    let empty = FailingDevice::reliable(Vec::new(alloc));
    ok(rt, Store::create(alloc, empty)).into_buffered()
}

// Opens a copy of some bytes, and expects the store after so many calls.
fn expect_opened(rt: &impl Abort, alloc: Global, bytes: &[u8], calls: usize) {
    let device = FailingDevice::reliable(copy(rt, alloc, bytes));
    let store: TestStore = ok(rt, Store::open(alloc, device));
    expect(rt, is_after(store.bitmap(), calls));
}

// Whichever calls are followed by a sync, the device has what was synced, and in the end the bytes that a store writes one by one.
#[test]
fn kept_by_each_sync(rt: HostRuntime) {
    let alloc = rt.alloc();
    let empty = FailingDevice::reliable(Vec::new(alloc));
    let whole = finish(&rt, ok(&rt, Store::create(alloc, empty)), 0);
    for syncs in 0u32..1 << 7 {
        let mut store = create(&rt, alloc);
        let mut synced = 0;
        for index in 0..CALLS {
            store = wait(&rt, store, index, index.saturating_add(1));
            expect_opened(&rt, alloc, store.device().bytes(), synced);
            if (syncs >> (index as u32 % 8)) & 1 == 1 {
                ok(&rt, store.sync());
                synced = index.saturating_add(1);
                equal(&rt, store.waiting_bytes(), 0);
                expect_opened(&rt, alloc, store.device().bytes(), synced);
            }
            equal(&rt, store.device().unsynced(), 0);
        }
        let Ok(store) = store.into_store() else {
            panic!(rt; "{syncs}")
        };
        expect(&rt, store.device().bytes() == whole.device().bytes());
        equal(&rt, store.position(), whole.position());
    }
}

// A sync of nothing makes no call of the device: one of which no call succeeds is still written to.
#[test]
fn nothing_is_synced_in_no_call(rt: HostRuntime) {
    let alloc = rt.alloc();
    let device = FailingDevice::new(alloc, CREATE_CALLS, 0);
    let mut store = ok(&rt, Store::<1, FailingDevice>::create(alloc, device)).into_buffered();
    ok(&rt, store.sync());
    expect(&rt, !store.is_read_only());
    let mut store = wait(&rt, store, 0, 1);
    expect(
        &rt,
        store.sync() == Err(StoreError::Device(DeviceError::Failed(None))),
    );
    expect(&rt, store.is_read_only());
}

// What waits is lost with the store, and a store that is turned back keeps it.
#[test]
fn lost_unless_synced(rt: HostRuntime) {
    let alloc = rt.alloc();
    let store = wait(&rt, create(&rt, alloc), 0, 3);
    let device = store.into_device();
    expect_opened(&rt, alloc, device.bytes(), 0);
    let store = wait(&rt, create(&rt, alloc), 0, 3);
    let Ok(store) = store.into_store() else {
        panic!(rt; "the sync failed")
    };
    expect_opened(&rt, alloc, store.device().bytes(), 3);
}

// A call that is refused leaves the bitmap and what waits.
#[test]
fn refused_calls_leave_what_waits(rt: HostRuntime) {
    let alloc = rt.alloc();
    let store = wait(&rt, create(&rt, alloc), 0, 3);
    let waiting = store.waiting_bytes();
    let Err((store, StoreError::NoSuchCommit)) = store.rewind_to(2) else {
        panic!(rt; "the rewind is not refused")
    };
    let Err((store, StoreError::Number(_))) = commit(&rt, store, 7, b"1") else {
        panic!(rt; "the number is not refused")
    };
    equal(&rt, store.waiting_bytes(), waiting);
    let Ok(store) = store.into_store() else {
        panic!(rt; "the sync failed")
    };
    expect_opened(&rt, alloc, store.device().bytes(), 3);
}

// Each call is refused, and the bitmap stays.
fn expect_read_only(rt: &impl Abort, store: Buffered, count: usize) -> Buffered {
    let mut store = store;
    for index in 0..CALLS {
        match call(rt, store, index) {
            Err((after, StoreError::ReadOnly)) => store = after,
            _ => panic!(rt; "{index}"),
        }
    }
    expect(rt, store.sync() == Err(StoreError::ReadOnly));
    match store.into_store() {
        Err((after, StoreError::ReadOnly)) => store = after,
        _ => panic!(rt; "{count}"),
    }
    expect(rt, store.is_read_only() && is_after(store.bitmap(), count));
    store
}

// Syncs after some calls, and again after more, with a device that fails in the second sync. What is left is the store at the first sync or the second.
fn check_failure(
    rt: &impl Abort,
    alloc: Global,
    from: usize,
    to: usize,
    failing: usize,
    torn: usize,
) {
    let first = if from == 0 { 0 } else { SYNC_CALLS };
    let device = FailingDevice::new(alloc, CREATE_CALLS + first + failing % SYNC_CALLS, torn);
    let store = ok(rt, Store::<1, FailingDevice>::create(alloc, device)).into_buffered();
    let mut store = wait(rt, store, 0, from);
    ok(rt, store.sync());
    let mut store = wait(rt, store, from, to);
    expect(
        rt,
        store.sync() == Err(StoreError::Device(DeviceError::Failed(None))),
    );
    let store = expect_read_only(rt, store, to);
    let left = copy(rt, alloc, store.device().bytes());
    let opened = ok(
        rt,
        Store::<1, MemoryDevice>::open(alloc, MemoryDevice::new(alloc, left)),
    );
    expect(
        rt,
        is_after(opened.bitmap(), from) || is_after(opened.bitmap(), to),
    );
}

#[test]
fn all_or_none_after_a_failure(rt: HostRuntime) {
    for from in 0..CALLS {
        for to in from + 1..CALLS + 1 {
            for failing in 0..SYNC_CALLS {
                for torn in [0, 1, 30, 100, usize::MAX] {
                    check_failure(&rt, rt.alloc(), from, to, failing, torn);
                }
            }
        }
    }
}

// Returns the bytes of a store after these calls, each of which is synced, without the closed gate.
fn bytes_after(rt: &impl Abort, alloc: Global, calls: usize) -> Vec<u8> {
    let mut store = wait(rt, create(rt, alloc), 0, calls);
    ok(rt, store.sync());
    let mut bytes = copy(rt, alloc, store.device().bytes());
    expect(rt, bytes.pop() == Some(CLOSED));
    bytes
}

// Syncs all calls after the first ones. Whatever blocks of their entries have reached the disk behind the closed gate, the store is opened
// without them.
fn check_torn_sync(rt: &impl Abort, alloc: Global, calls: usize) {
    let log = bytes_after(rt, alloc, calls);
    let whole = bytes_after(rt, alloc, CALLS);
    expect(rt, log.len() < whole.len());
    let entries = &whole[log.len() + 1..];
    for count in 0..entries.len().saturating_add(1) {
        for stale in [0, 255, CLOSED] {
            for odd in [false, true] {
                let left = torn(rt, alloc, entries, stale, odd, count);
                check_torn(rt, alloc, &log, &left, calls);
            }
        }
    }
}

#[test]
fn torn_blocks_of_a_sync_of_all_calls_are_cut_off(rt: HostRuntime) {
    check_torn_sync(&rt, rt.alloc(), 0);
}

#[test]
fn torn_blocks_of_a_sync_of_most_calls_are_cut_off(rt: HostRuntime) {
    check_torn_sync(&rt, rt.alloc(), 1);
}

#[test]
fn torn_blocks_of_a_sync_of_some_calls_are_cut_off(rt: HostRuntime) {
    for calls in 2..CALLS {
        check_torn_sync(&rt, rt.alloc(), calls);
    }
}
