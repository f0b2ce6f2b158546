//! A crash after each byte of a run, and a crash that tears an entry.

use crate::checks::{equal, expect, ok};
use crate::failing_device::FailingDevice;
use crate::run::{CALLS, call, copy, finish, is_after};
use commit_log::RecoverError;
use log_frames::HeaderError;
use log_store::{CreateError, MemoryDevice, OpenError, Store};
use std::alloc::Global;
use std::process::Abort;

// The byte at the place of the next entry.
const CLOSED: u8 = 165;

// Bytes that a disk may have where a file has grown.
const STALE: [u8; 3] = [0, 255, CLOSED];

/// Returns the bytes of the run, and their number after the creation of the store and after each call, without the closed gate.
pub fn bytes_of_run(rt: &impl Abort, alloc: Global) -> (Vec<u8>, Vec<usize>) {
    let empty = FailingDevice::reliable(Vec::new(alloc));
    let mut store = ok(rt, Store::create(alloc, empty));
    let mut ends = Vec::new(alloc);
    ok(rt, ends.push(store.position() as usize));
    for index in 0..CALLS {
        store = ok(rt, call(rt, store, index));
        expect(rt, is_after(store.bitmap(), index.saturating_add(1)));
        equal(rt, store.device().unsynced(), 0);
        ok(rt, ends.push(store.position() as usize));
    }
    let bytes = copy(rt, alloc, store.device().bytes());
    expect(rt, bytes.last() == Some(&CLOSED));
    equal(rt, ends.last().copied(), bytes.len().checked_sub(1));
    (bytes, ends)
}

/// Returns how many calls of the run are whole in some first bytes, at whose end the last one is `end`.
pub fn whole_calls(ends: &[usize], count: usize) -> (usize, usize) {
    let mut calls = 0;
    let mut last = 0;
    for (index, end) in ends.iter().enumerate() {
        if *end <= count {
            calls = index;
            last = *end;
        }
    }
    (calls, last)
}

// Returns the first `end` of some bytes, and a closed gate after them.
fn closed_at(rt: &impl Abort, alloc: Global, bytes: &[u8], end: usize) -> Vec<u8> {
    expect(rt, end <= bytes.len());
    let mut closed = copy(rt, alloc, &bytes[..end]);
    ok(rt, closed.push(CLOSED));
    closed
}

// From the bytes in which the base is whole, the store is opened after the calls that are whole in them, and goes on to the end of the run.
#[test]
fn opened_after_each_byte(rt: HostRuntime) {
    let alloc = rt.alloc();
    let (bytes, ends) = bytes_of_run(&rt, alloc);
    expect(&rt, !ends.is_empty());
    for count in ends[0]..bytes.len().saturating_add(1) {
        expect(&rt, count <= bytes.len());
        let (calls, end) = whole_calls(&ends, count);
        let device = FailingDevice::reliable(copy(&rt, alloc, &bytes[..count]));
        let store = ok(&rt, Store::open(alloc, device));
        expect(&rt, is_after(store.bitmap(), calls));
        let opened = closed_at(&rt, alloc, &bytes, end);
        expect(&rt, store.device().bytes() == opened.as_slice());
        let store = finish(&rt, store, calls);
        expect(&rt, is_after(store.bitmap(), CALLS));
        expect(&rt, store.device().bytes() == bytes.as_slice());
    }
}

/// Returns what a crash may leave of an entry behind a closed gate: every other block of seven bytes is stale, and `count` bytes are left.
pub fn torn(
    rt: &impl Abort,
    alloc: Global,
    entry: &[u8],
    stale: u8,
    odd: bool,
    count: usize,
) -> Vec<u8> {
    let mut left = Vec::new(alloc);
    for (index, byte) in entry.iter().enumerate() {
        if index < count {
            let is_stale = (index / 7 % 2 == 1) == odd;
            ok(rt, left.push(if is_stale { stale } else { *byte }));
        }
    }
    left
}

/// Opens what a crash left in the first phase of a call, and expects the store before it.
pub fn check_torn(rt: &impl Abort, alloc: Global, log: &[u8], left: &[u8], calls: usize) {
    let closed = closed_at(rt, alloc, log, log.len());
    let mut bytes = copy(rt, alloc, &closed);
    ok(rt, bytes.extend_from_slice(left));
    let device = FailingDevice::reliable(bytes);
    let store = ok(rt, Store::<1, FailingDevice>::open(alloc, device));
    expect(rt, is_after(store.bitmap(), calls));
    expect(rt, store.device().bytes() == closed.as_slice());
}

// Whatever blocks of an entry have reached the disk behind the closed gate, the store is opened without the entry.
#[test]
fn torn_blocks_are_cut_off(rt: HostRuntime) {
    let alloc = rt.alloc();
    let (bytes, ends) = bytes_of_run(&rt, alloc);
    for calls in 0..CALLS {
        expect(&rt, calls < ends.len() && calls + 1 < ends.len());
        let (start, end) = (ends[calls], ends[calls + 1]);
        expect(&rt, start < end && end < bytes.len());
        let entry = &bytes[start + 1..end + 1];
        for count in 0..entry.len().saturating_add(1) {
            for stale in STALE {
                let even = torn(&rt, alloc, entry, stale, false, count);
                check_torn(&rt, alloc, &bytes[..start], &even, calls);
                let odd = torn(&rt, alloc, entry, stale, true, count);
                check_torn(&rt, alloc, &bytes[..start], &odd, calls);
            }
        }
    }
}

// Fewer bytes are not opened, and are left as they are.
#[test]
fn base_is_needed(rt: HostRuntime) {
    let alloc = rt.alloc();
    let (bytes, ends) = bytes_of_run(&rt, alloc);
    expect(&rt, !ends.is_empty());
    for count in 0..ends[0] {
        expect(&rt, count <= bytes.len());
        let device = MemoryDevice::new(alloc, copy(&rt, alloc, &bytes[..count]));
        match Store::<1, MemoryDevice>::open(alloc, device) {
            Err((device, OpenError::Log(RecoverError::Header(HeaderError::Short)))) => {
                expect(&rt, count < 32 && device.bytes() == &bytes[..count]);
            }
            Err((device, OpenError::Log(RecoverError::NoBase))) => {
                expect(&rt, count >= 32 && device.bytes() == &bytes[..count]);
            }
            _ => panic!(rt; "{count}"),
        }
    }
}

// Opens bytes of which one has other bits. They are not cut off, and the error says where the damage is, or before that.
fn check_damage(rt: &impl Abort, alloc: Global, bytes: &[u8], index: usize, flipped: u8) {
    let mut changed = copy(rt, alloc, bytes);
    expect(rt, index < changed.len());
    changed[index] ^= flipped;
    let expected = copy(rt, alloc, &changed);
    let device = MemoryDevice::new(alloc, changed);
    let Err((device, error)) = Store::<1, MemoryDevice>::open(alloc, device) else {
        panic!(rt; "{index}")
    };
    expect(rt, device.bytes() == expected.as_slice());
    let OpenError::Log(RecoverError::Damaged { at, .. }) = error else {
        panic!(rt; "{index}")
    };
    expect(rt, at <= index as u64);
}

// A changed bit before the end is damage, and so is a changed byte.
#[test]
fn damage_is_left(rt: HostRuntime) {
    let alloc = rt.alloc();
    let (bytes, ends) = bytes_of_run(&rt, alloc);
    expect(&rt, !ends.is_empty());
    for index in ends[0]..bytes.len().saturating_sub(1) {
        for flipped in [1, 2, 4, 8, 16, 32, 64, 128, 255] {
            check_damage(&rt, alloc, &bytes, index, flipped);
        }
    }
}

// A device that has bytes gets no store.
#[test]
fn only_empty_devices_get_a_store(rt: HostRuntime) {
    let alloc = rt.alloc();
    let device = MemoryDevice::new(alloc, copy(&rt, alloc, &[0]));
    match Store::<1, MemoryDevice>::create(alloc, device) {
        Err((device, CreateError::NotEmpty)) => expect(&rt, device.bytes() == [0].as_slice()),
        _ => panic!(rt; "the device is not empty"),
    }
}
