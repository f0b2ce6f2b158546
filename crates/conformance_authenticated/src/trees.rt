//! Trees, their audit paths, and proofs that are false.

use crate::checks::{equal, equal_digests, ok};
use crate::known::{
    LAST_FOUR, NOTHING, PATH_5_OF_8_0, PATH_5_OF_8_1, PATH_5_OF_8_2, PATH_6_OF_7_0, PATH_6_OF_7_1,
    TREE_1, TREE_2, TREE_3, TREE_4, TREE_5, TREE_6, TREE_7, TREE_8, eight_digests,
};
use crate::sha::Sha;
use authenticated_bitmap::tree::{prove, tree_digest, verify};

#[test]
fn trees_of_up_to_eight_leaves(rt: HostRuntime) {
    let digests = eight_digests();
    equal(&rt, tree_digest(&Sha, &[]), NOTHING);
    equal(&rt, tree_digest(&Sha, &digests[..1]), TREE_1);
    equal(&rt, tree_digest(&Sha, &digests[..2]), TREE_2);
    equal(&rt, tree_digest(&Sha, &digests[..3]), TREE_3);
    equal(&rt, tree_digest(&Sha, &digests[..4]), TREE_4);
    equal(&rt, tree_digest(&Sha, &digests[..5]), TREE_5);
    equal(&rt, tree_digest(&Sha, &digests[..6]), TREE_6);
    equal(&rt, tree_digest(&Sha, &digests[..7]), TREE_7);
    equal(&rt, tree_digest(&Sha, &digests), TREE_8);
}

#[test]
fn audit_paths(rt: HostRuntime) {
    let digests = eight_digests();
    let path = ok(&rt, prove(rt.alloc(), &Sha, &digests, 5));
    equal_digests(&rt, &path, &[PATH_5_OF_8_0, PATH_5_OF_8_1, PATH_5_OF_8_2]);
    let path = ok(&rt, prove(rt.alloc(), &Sha, &digests[..7], 6));
    equal_digests(&rt, &path, &[PATH_6_OF_7_0, PATH_6_OF_7_1]);
    let path = ok(&rt, prove(rt.alloc(), &Sha, &digests[..1], 0));
    equal_digests(&rt, &path, &[]);
}

#[test]
fn a_true_proof_verifies(rt: HostRuntime) {
    let path = [PATH_5_OF_8_0, PATH_5_OF_8_1, PATH_5_OF_8_2];
    equal(
        &rt,
        verify(&Sha, &TREE_8, 8, 5, b"\x40\x41\x42\x43", &path),
        true,
    );
    let path = [PATH_6_OF_7_0, PATH_6_OF_7_1];
    equal(
        &rt,
        verify(
            &Sha,
            &TREE_7,
            7,
            6,
            b"\x50\x51\x52\x53\x54\x55\x56\x57",
            &path,
        ),
        true,
    );
    equal(&rt, verify(&Sha, &TREE_1, 1, 0, b"", &[]), true);
}

#[test]
fn a_false_proof_does_not_verify(rt: HostRuntime) {
    let leaf = b"\x40\x41\x42\x43";
    let path = [PATH_5_OF_8_0, PATH_5_OF_8_1, PATH_5_OF_8_2];
    // Another place, another number of leaves, another leaf, and another tree.
    equal(&rt, verify(&Sha, &TREE_8, 8, 4, leaf, &path), false);
    equal(&rt, verify(&Sha, &TREE_8, 8, 8, leaf, &path), false);
    equal(&rt, verify(&Sha, &TREE_8, 5, 5, leaf, &path), false);
    equal(&rt, verify(&Sha, &TREE_8, 4, 5, leaf, &path), false);
    equal(
        &rt,
        verify(&Sha, &TREE_8, 8, 5, b"\x40\x41\x42\x44", &path),
        false,
    );
    equal(&rt, verify(&Sha, &TREE_7, 8, 5, leaf, &path), false);
    // A path that is too short, too long, or has two digests exchanged.
    equal(&rt, verify(&Sha, &TREE_8, 8, 5, leaf, &path[..2]), false);
    let long = [PATH_5_OF_8_0, PATH_5_OF_8_1, PATH_5_OF_8_2, TREE_8];
    equal(&rt, verify(&Sha, &TREE_8, 8, 5, leaf, &long), false);
    let exchanged = [PATH_5_OF_8_1, PATH_5_OF_8_0, PATH_5_OF_8_2];
    equal(&rt, verify(&Sha, &TREE_8, 8, 5, leaf, &exchanged), false);
    // A tree of no leaves has no leaf.
    equal(&rt, verify(&Sha, &NOTHING, 0, 0, b"", &[]), false);
}

#[test]
fn a_node_is_no_leaf(rt: HostRuntime) {
    // The two digests of the children of the root, as a leaf of a tree of one leaf.
    let mut children = [0u8; 64];
    children[..32].copy_from_slice(&TREE_4);
    children[32..].copy_from_slice(&LAST_FOUR);
    equal(&rt, verify(&Sha, &TREE_8, 1, 0, &children, &[]), false);
}
