//! Scenarios for runs in which allocations fail.
//!
//! A tool runs each test many times, and makes another allocation fail in each run. As a plain test, no allocation fails.

mod no_allocation;

use crate::checks::{equal, equal_digests};
use crate::encodings::worked;
use crate::known::{
    FIVE_CHUNKS, PATH_5_OF_8_0, PATH_5_OF_8_1, PATH_5_OF_8_2, RANGE_2_TO_7_OF_8_0,
    RANGE_2_TO_7_OF_8_1, eight_digests,
};
use crate::range_encodings::worked_range;
use crate::sha::Sha;
use crate::stored::eight_stored;
use crate::stored_edits::eight_appended;
use authenticated_bitmap::encoding::Proof;
use authenticated_bitmap::range::prove_range;
use authenticated_bitmap::range_encoding::RangeProof;
use authenticated_bitmap::store::{
    append_leaf, node_count, prove_from_stored, prove_range_from_stored, truncate_leaves,
};
use authenticated_bitmap::tree::{leaf_digests, prove, tree_digest};

const PATH: [[u8; 32]; 3] = [PATH_5_OF_8_0, PATH_5_OF_8_1, PATH_5_OF_8_2];

#[test]
fn digests_of_chunks(rt: HostRuntime) {
    let chunks = [
        [0, 0, 0, 0],
        [1, 1, 1, 1],
        [2, 2, 2, 2],
        [3, 3, 3, 3],
        [4, 4, 4, 4],
    ];
    if let Ok(digests) = leaf_digests(rt.alloc(), &Sha, &chunks) {
        equal(&rt, tree_digest(&Sha, &digests), FIVE_CHUNKS);
    }
}

#[test]
fn path_from_all_digests(rt: HostRuntime) {
    if let Ok(path) = prove(rt.alloc(), &Sha, &eight_digests(), 5) {
        equal_digests(&rt, &path, &PATH);
    }
}

#[test]
fn path_from_stored_digests(rt: HostRuntime) {
    let stored = eight_stored();
    if stored.len() as u64 != node_count(8) {
        return;
    }
    if let Ok(path) = prove_from_stored(rt.alloc(), &Sha, &stored, 8, 5) {
        equal_digests(&rt, &path, &PATH);
    }
}

#[test]
fn siblings_of_a_range(rt: HostRuntime) {
    if let Ok(siblings) = prove_range(rt.alloc(), &Sha, &eight_digests(), 2, 5) {
        equal_digests(&rt, &siblings, &[RANGE_2_TO_7_OF_8_0, RANGE_2_TO_7_OF_8_1]);
    }
}

#[test]
fn siblings_of_a_range_from_stored_digests(rt: HostRuntime) {
    let stored = eight_stored();
    if stored.len() as u64 != node_count(8) {
        return;
    }
    if let Ok(siblings) = prove_range_from_stored(rt.alloc(), &Sha, &stored, 8, 2, 5) {
        equal_digests(&rt, &siblings, &[RANGE_2_TO_7_OF_8_0, RANGE_2_TO_7_OF_8_1]);
    }
}

#[test]
fn leaf_appended(rt: HostRuntime) {
    let Ok(mut stored) = eight_appended(rt.alloc()) else {
        return;
    };
    // There is space for two of the four digests that the eighth leaf adds.
    stored.truncate(13);
    stored.shrink_to_fit();
    truncate_leaves(&mut stored, 7);
    let whole = eight_stored();
    if stored.len() as u64 != node_count(7) {
        return;
    }
    let [_, _, _, _, _, _, _, last] = eight_digests();
    if append_leaf(&Sha, &mut stored, 7, &last).is_ok() {
        equal_digests(&rt, &stored, &whole);
    } else {
        equal_digests(&rt, &stored, &whole[..11]);
    }
}

#[test]
fn range_proof_written(rt: HostRuntime) {
    let bytes = worked_range();
    let Ok(proof) = RangeProof::<1>::read(&bytes) else {
        return;
    };
    if let Ok(written) = proof.write(rt.alloc()) {
        equal(&rt, written.as_slice() == bytes.as_slice(), true);
    }
}

#[test]
fn proof_written(rt: HostRuntime) {
    let bytes = worked();
    let Ok(proof) = Proof::<1>::read(&bytes) else {
        return;
    };
    if let Ok(written) = proof.write(rt.alloc()) {
        equal(&rt, written.as_slice() == bytes.as_slice(), true);
    }
}
