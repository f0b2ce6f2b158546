//! Calls that do not allocate: no allocation is made in these tests.

use crate::checks::equal;
use crate::encodings::worked;
use crate::known::{TREE_8, TREE_8_REPLACED_5, WORKED_ROOT, eight_digests};
use crate::range_encodings::worked_range;
use crate::sha::Sha;
use crate::stored::eight_stored;
use authenticated_bitmap::encoding::Proof;
use authenticated_bitmap::range_encoding::RangeProof;
use authenticated_bitmap::root::verify_bit;
use authenticated_bitmap::store::{node_count, replace_leaf, tree_from_stored};
use authenticated_bitmap::tree::{leaf_digest, tree_digest};

#[test]
fn proof_read_and_verified(rt: HostRuntime) {
    let bytes = worked();
    let Ok(proof) = Proof::<1>::read(&bytes) else {
        return;
    };
    equal(&rt, proof.verify(&Sha, &WORKED_ROOT), true);
    let verified = verify_bit(
        &Sha,
        &WORKED_ROOT,
        proof.len,
        proof.pruned,
        15,
        true,
        proof.chunk,
        proof.path,
    );
    equal(&rt, verified, true);
}

#[test]
fn range_proof_read_and_verified(rt: HostRuntime) {
    let bytes = worked_range();
    let Ok(proof) = RangeProof::<1>::read(&bytes) else {
        return;
    };
    equal(&rt, proof.verify(&Sha, &WORKED_ROOT), true);
}

#[test]
fn tree_digests_made(rt: HostRuntime) {
    equal(&rt, tree_digest(&Sha, &eight_digests()), TREE_8);
    let stored = eight_stored();
    if stored.len() as u64 == node_count(8) {
        equal(&rt, tree_from_stored(&Sha, &stored, 8), TREE_8);
    }
}

#[test]
fn leaf_replaced(rt: HostRuntime) {
    let mut stored = eight_stored();
    if stored.len() as u64 == node_count(8) {
        replace_leaf(&Sha, &mut stored, 8, 5, &leaf_digest(&Sha, b"other"));
        equal(&rt, tree_from_stored(&Sha, &stored, 8), TREE_8_REPLACED_5);
    }
}
