//! Roots and proofs of the versions that a bitmap keeps.

use crate::checked_calls::{Map, commit, pop, prune_to_bit, push, push_chunk, rewind, siblings_of};
use crate::known::{
    NO_BITS, VERSION_1, VERSION_2, VERSION_2_PATH_0_0, VERSION_2_PATH_0_1, VERSION_5,
    VERSION_5_PATH_2_0,
};
use authenticated_bitmap::range::verify_range;
use authenticated_bitmap::root::verify_chunk;
use authenticated_history::AuthenticatedBitMap;
use conformance_authenticated::sha::Sha;
use std::process::Abort;

/// Appends three chunks to a bitmap, and commits them at 1; a bit, at 2; and removes two bits and prunes a chunk, at 5.
fn three_versions(rt: &impl Abort, map: Map) -> Map {
    let mut batch = map.into_dirty();
    push_chunk(rt, &mut batch, &[0, 0, 0, 0]);
    push_chunk(rt, &mut batch, &[1, 1, 1, 1]);
    push_chunk(rt, &mut batch, &[2, 2, 2, 2]);
    let mut batch = commit(rt, batch, 1).into_dirty();
    push(rt, &mut batch, true);
    let mut batch = commit(rt, batch, 2).into_dirty();
    pop(rt, &mut batch);
    pop(rt, &mut batch);
    prune_to_bit(rt, &mut batch, 32);
    commit(rt, batch, 5)
}

#[test]
fn each_version_has_its_root(rt: HostRuntime) {
    let empty = AuthenticatedBitMap::new(rt.alloc(), Sha);
    assert!(rt; empty.root() == NO_BITS && empty.root_at(1) == None);
    let map = three_versions(&rt, empty);
    assert!(rt; map.root() == VERSION_5);
    assert!(rt; map.root_at(1) == Some(VERSION_1));
    assert!(rt; map.root_at(2) == Some(VERSION_2));
    assert!(rt; map.root_at(5) == Some(VERSION_5));
    assert!(rt; map.root_at(0) == None && map.root_at(3) == None);
    assert!(rt; map.root_at(u64::MAX) == None);
}

#[test]
fn chunks_of_versions_are_shown(rt: HostRuntime) {
    let map = three_versions(&rt, AuthenticatedBitMap::new(rt.alloc(), Sha));
    let Ok(Some(path)) = map.prove_at(2, 0) else {
        panic!(rt; "no path");
    };
    assert!(rt; &*path == [VERSION_2_PATH_0_0, VERSION_2_PATH_0_1].as_slice());
    assert!(rt; verify_chunk(&Sha, &VERSION_2, 97, 0, 0, &[0; 4], &path));
    assert!(rt; !verify_chunk(&Sha, &VERSION_1, 97, 0, 0, &[0; 4], &path));
    let Ok(Some(path)) = map.prove_at(5, 2) else {
        panic!(rt; "no path");
    };
    assert!(rt; &*path == [VERSION_5_PATH_2_0].as_slice());
    assert!(rt; verify_chunk(&Sha, &VERSION_5, 95, 1, 2, &[2; 4], &path));
    assert!(rt; map.prove_at(5, 3).is_ok_and(|found| found.is_none()));
    assert!(rt; map.prove_at(3, 0).is_ok_and(|found| found.is_none()));
}

#[test]
fn ranges_of_the_current_bitmap_are_those_of_the_last_version(rt: HostRuntime) {
    let map = three_versions(&rt, AuthenticatedBitMap::new(rt.alloc(), Sha));
    // Chunk 2 is the right half of the tree. So the only sibling is the left half, as on its path.
    let Ok(siblings) = siblings_of(&rt, &map, 2, 1) else {
        panic!(rt; "out of memory");
    };
    assert!(rt; &*siblings == [VERSION_5_PATH_2_0].as_slice());
    let Ok(siblings) = siblings_of(&rt, &map, 1, 2) else {
        panic!(rt; "out of memory");
    };
    let chunks = [[1; 4], [2; 4]];
    assert!(rt; verify_range(&Sha, &VERSION_5, 95, 1, 1, &chunks, &siblings));
    assert!(rt; !verify_range(&Sha, &VERSION_5, 95, 1, 0, &chunks, &siblings));
    let Ok(Some(kept)) = map.prove_range_at(5, 1, 2) else {
        panic!(rt; "no siblings");
    };
    assert!(rt; &*siblings == &*kept);
}

#[test]
fn rewinding_restores_the_roots(rt: HostRuntime) {
    let map = three_versions(&rt, AuthenticatedBitMap::new(rt.alloc(), Sha));
    let map = rewind(&rt, map, 1);
    assert!(rt; map.root() == VERSION_1);
    assert!(rt; map.root_at(1) == Some(VERSION_1) && map.root_at(2) == None);
    let mut batch = map.into_dirty();
    push(&rt, &mut batch, true);
    let map = commit(&rt, batch, 2);
    assert!(rt; map.root() == VERSION_2);
    assert!(rt; map.root_at(1) == Some(VERSION_1));
    assert!(rt; map.root_at(2) == Some(VERSION_2));
}

#[test]
fn dropped_versions_have_no_root(rt: HostRuntime) {
    let mut map = three_versions(&rt, AuthenticatedBitMap::new(rt.alloc(), Sha));
    assert!(rt; map.prune_commits_before(2) == 1);
    assert!(rt; map.root_at(1) == None && map.root_at(2) == Some(VERSION_2));
    assert!(rt; map.root_at(5) == Some(VERSION_5));
    map.clear_history();
    assert!(rt; map.root_at(2) == None && map.root_at(5) == None);
    assert!(rt; map.root() == VERSION_5);
}
