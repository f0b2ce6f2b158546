//! Scenarios for runs in which allocations fail.
//!
//! A tool runs each test many times, and makes another allocation fail in each run. As a plain test, no allocation fails.

use crate::checked_calls::{Map, siblings_of, try_push_chunk};
use crate::known::{NO_BITS, ONE_CHUNK, TWO_CHUNKS, TWO_CHUNKS_PATH_0_0};
use authenticated_history::AuthenticatedBitMap;
use conformance_authenticated::sha::Sha;
use historical_bitmap::bitmap::historical::{Error, RewindError};
use std::alloc::{AllocError, Global};
use std::process::Abort;

/// Appends a chunk, and commits it at a number. Returns `None` if an allocation fails.
fn with_chunk(rt: &impl Abort, map: Map, chunk: &[u8; 4], number: u64) -> Option<Map> {
    let mut batch = map.into_dirty();
    try_push_chunk(rt, &mut batch, chunk).ok()?;
    batch.commit(number).ok()
}

/// Returns a bitmap with a chunk at 7 and two at 8.
fn two_versions(rt: &impl Abort, alloc: Global) -> Option<Map> {
    let map = with_chunk(rt, AuthenticatedBitMap::new(alloc, Sha), &[0; 4], 7)?;
    with_chunk(rt, map, &[1; 4], 8)
}

#[test]
fn commit(rt: HostRuntime) {
    let mut batch = AuthenticatedBitMap::new(rt.alloc(), Sha).into_dirty();
    if try_push_chunk(&rt, &mut batch, &[0; 4]).is_err() {
        assert!(rt; batch.abort().root() == NO_BITS);
        return;
    }
    match batch.commit(7) {
        Ok(map) => assert!(rt; map.root() == ONE_CHUNK),
        Err((batch, why)) => {
            assert!(rt; why == Error::Memory(AllocError));
            assert!(rt; batch.bits().len() == 32);
            assert!(rt; batch.abort().root() == NO_BITS);
        }
    }
}

#[test]
fn rewind(rt: HostRuntime) {
    let Some(map) = two_versions(&rt, rt.alloc()) else {
        return;
    };
    match map.rewind_to(7) {
        Ok(map) => assert!(rt; map.root() == ONE_CHUNK),
        Err((map, why)) => {
            assert!(rt; why == RewindError::Memory(AllocError));
            assert!(rt; map.root() == TWO_CHUNKS && map.root_at(7) == Some(ONE_CHUNK));
        }
    }
}

#[test]
fn path(rt: HostRuntime) {
    let Some(map) = two_versions(&rt, rt.alloc()) else {
        return;
    };
    if let Ok(found) = map.prove_at(8, 0) {
        let Some(path) = found else {
            panic!(rt; "no path");
        };
        assert!(rt; &*path == [TWO_CHUNKS_PATH_0_0].as_slice());
    }
}

#[test]
fn range(rt: HostRuntime) {
    let Some(map) = two_versions(&rt, rt.alloc()) else {
        return;
    };
    if let Ok(siblings) = siblings_of(&rt, &map, 0, 1) {
        assert!(rt; &*siblings == [TWO_CHUNKS_PATH_0_0].as_slice());
    }
}

#[test]
fn no_allocation_for_roots(rt: HostRuntime) {
    let Some(mut map) = two_versions(&rt, rt.alloc()) else {
        return;
    };
    assert!(rt; map.root() == TWO_CHUNKS && map.root_at(7) == Some(ONE_CHUNK));
    assert!(rt; map.prune_commits_before(8) == 1);
    map.clear_history();
}
