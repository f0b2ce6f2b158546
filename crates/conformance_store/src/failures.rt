//! Devices of which an append, a sync, a cut or the setting of a byte fails.

use crate::checks::{expect, ok};
use crate::crashes::{bytes_of_run, whole_calls};
use crate::failing_device::FailingDevice;
use crate::run::{CALLS, TestStore, call, copy, is_after};
use log_store::{DeviceError, MemoryDevice, OpenError, Store, StoreError};
use std::alloc::Global;
use std::process::Abort;

// How many bytes an append that fails appends.
const TORN: [usize; 4] = [0, 1, 30, usize::MAX];

// How many calls of the device can fail in the creation of a store.
const CREATE_CALLS: usize = 6;

// How many can fail in each call of the run.
const CALL_CALLS: usize = 4;

const DEVICE_CALLS: usize = CREATE_CALLS + CALL_CALLS * CALLS;

// No opening of a store makes more calls of the device that can fail.
const OPEN_CALLS: usize = 8;

// Each further call is refused, and the bitmap is that after the calls that succeeded.
fn expect_read_only(rt: &impl Abort, store: TestStore, count: usize) -> TestStore {
    let mut store = store;
    for index in 0..CALLS {
        expect(rt, store.is_read_only() && is_after(store.bitmap(), count));
        match call(rt, store, index) {
            Err((after, StoreError::ReadOnly)) => store = after,
            _ => panic!(rt; "{index}"),
        }
    }
    expect(rt, store.is_read_only() && is_after(store.bitmap(), count));
    store
}

// Makes the calls of the run until one fails, and returns the store with the number of calls that succeeded.
fn run_until_failure(rt: &impl Abort, store: TestStore) -> (TestStore, usize) {
    let mut store = store;
    for index in 0..CALLS {
        match call(rt, store, index) {
            Ok(after) => store = after,
            Err((after, StoreError::Device(DeviceError::Failed(None)))) => return (after, index),
            Err(_) => panic!(rt; "{index}"),
        }
    }
    (store, CALLS)
}

// Runs with a device that fails, and opens what is left of it: the call that failed is there, or it is not.
fn check_failure(rt: &impl Abort, alloc: Global, successes: usize, torn: usize) {
    match Store::create(alloc, FailingDevice::new(alloc, successes, torn)) {
        Ok(store) => {
            let (store, count) = run_until_failure(rt, store);
            expect(
                rt,
                count < CALLS && successes.saturating_sub(CREATE_CALLS) / CALL_CALLS == count,
            );
            let store = expect_read_only(rt, store, count);
            let left = copy(rt, alloc, store.device().bytes());
            let opened = ok(rt, Store::open(alloc, MemoryDevice::new(alloc, left)));
            let now = opened.bitmap();
            expect(
                rt,
                is_after(now, count) || is_after(now, count.saturating_add(1)),
            );
        }
        Err(_) => expect(rt, successes < CREATE_CALLS),
    }
}

#[test]
fn read_only_after_a_failure(rt: HostRuntime) {
    for successes in 0..DEVICE_CALLS {
        for torn in TORN {
            check_failure(&rt, rt.alloc(), successes, torn);
        }
    }
}

// Opens bytes on a device that fails, and returns whether the store is opened. If not, what is left of the bytes is opened after the same calls.
fn opens(
    rt: &impl Abort,
    alloc: Global,
    bytes: &[u8],
    calls: usize,
    successes: usize,
    torn: usize,
) -> bool {
    let device = FailingDevice::with_bytes(copy(rt, alloc, bytes), successes, torn);
    match Store::<1, FailingDevice>::open(alloc, device) {
        Ok(store) => {
            expect(rt, is_after(store.bitmap(), calls));
            true
        }
        Err((device, error)) => {
            expect(
                rt,
                matches!(error, OpenError::Device(DeviceError::Failed(None))),
            );
            let left = copy(rt, alloc, device.bytes());
            let opened = ok(rt, Store::open(alloc, MemoryDevice::new(alloc, left)));
            expect(rt, is_after(opened.bitmap(), calls));
            false
        }
    }
}

// Opens bytes on devices of which each call fails in turn. The first one is made, and the last one is not.
fn check_opening(rt: &impl Abort, alloc: Global, bytes: &[u8], calls: usize) {
    for torn in [0, 1] {
        expect(rt, !opens(rt, alloc, bytes, calls, 0, torn));
        for successes in 1..OPEN_CALLS {
            let _ = opens(rt, alloc, bytes, calls, successes, torn);
        }
        expect(rt, opens(rt, alloc, bytes, calls, OPEN_CALLS, torn));
    }
}

// A device that fails while a torn tail is cut off loses none of the calls before it.
#[test]
fn failed_openings_lose_nothing(rt: HostRuntime) {
    let alloc = rt.alloc();
    let (bytes, ends) = bytes_of_run(&rt, alloc);
    expect(&rt, !ends.is_empty());
    for count in ends[0]..bytes.len() {
        let (calls, _) = whole_calls(&ends, count);
        expect(&rt, count <= bytes.len());
        check_opening(&rt, alloc, &bytes[..count], calls);
    }
}
