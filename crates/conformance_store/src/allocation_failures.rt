//! Scenarios for runs in which allocations fail.
//!
//! A tool runs each test many times, and makes another allocation fail in each run. A test ends early if its set-up fails.
//! After a failed call the test shows that the store has the same bitmap. As a plain test, no allocation fails.

use crate::checks::{equal, expect};
use crate::failing_device::FailingDevice;
use crate::run::TestStore;
use log_store::{DeviceError, Store, StoreError};
use std::alloc::{AllocError, Global};
use std::process::Abort;

// Returns a store whose bitmap is empty and whose log has 181 bytes, or `None` if an allocation fails. The history of its bitmap has 90 bytes.
fn grown(alloc: Global) -> Option<TestStore> {
    let empty = FailingDevice::reliable(Vec::new(alloc));
    let mut store: TestStore = Store::create(alloc, empty).ok()?;
    store.drop_before(1).ok()?;
    store.drop_before(1).ok()?;
    store.clear().ok()?;
    Some(store)
}

// After an allocation of the store has failed, the log is as it was. After one of the device, the store is read-only.
fn check_failed(rt: &impl Abort, store: &mut TestStore, error: StoreError) {
    equal(rt, store.position(), 181);
    match error {
        StoreError::Memory(AllocError) => {
            expect(rt, !store.is_read_only());
            match store.compact_if_grown() {
                Ok(did) => expect(rt, did && store.position() == 90),
                Err(_) => equal(rt, store.position(), 181),
            }
        }
        StoreError::Device(DeviceError::Memory(AllocError)) => expect(rt, store.is_read_only()),
        _ => expect(rt, false),
    }
}

#[test]
fn grown_log_compacted(rt: HostRuntime) {
    let Some(mut store) = grown(rt.alloc()) else {
        return;
    };
    match store.compact_if_grown() {
        Ok(did) => expect(&rt, did && store.position() == 90),
        Err(error) => check_failed(&rt, &mut store, error),
    }
    expect(&rt, store.bitmap().len() == 0);
}
