//! Trees from stored digests.

use crate::checks::{equal, equal_digests, ok};
use crate::known::{
    PATH_5_OF_8_0, PATH_5_OF_8_1, PATH_5_OF_8_2, PATH_6_OF_7_0, PATH_6_OF_7_1, RANGE_2_TO_7_OF_8_0,
    RANGE_2_TO_7_OF_8_1, TREE_7, TREE_8, eight_digests,
};
use crate::sha::Sha;
use authenticated_bitmap::range::prove_range;
use authenticated_bitmap::store::{
    node_count, node_position, prove_from_stored, prove_range_from_stored, tree_from_stored,
};
use authenticated_bitmap::tree::node_digest;

/// Returns the stored digests of eight leaves: each complete subtree after its two halves.
pub fn stored_of(leaves: [[u8; 32]; 8]) -> [[u8; 32]; 15] {
    let [a, b, c, d, e, f, g, h] = leaves;
    let ab = node_digest(&Sha, &a, &b);
    let cd = node_digest(&Sha, &c, &d);
    let abcd = node_digest(&Sha, &ab, &cd);
    let ef = node_digest(&Sha, &e, &f);
    let gh = node_digest(&Sha, &g, &h);
    let efgh = node_digest(&Sha, &ef, &gh);
    let all = node_digest(&Sha, &abcd, &efgh);
    [a, b, ab, c, d, cd, abcd, e, f, ef, g, h, gh, efgh, all]
}

/// Returns the stored digests of the eight leaves of certificate transparency.
pub fn eight_stored() -> [[u8; 32]; 15] {
    stored_of(eight_digests())
}

#[test]
fn places(rt: HostRuntime) {
    equal(&rt, node_count(0), 0);
    equal(&rt, node_count(7), 11);
    equal(&rt, node_count(8), 15);
    equal(&rt, node_position(0, 0), 0);
    equal(&rt, node_position(0, 1), 1);
    equal(&rt, node_position(1, 0), 2);
    equal(&rt, node_position(0, 5), 8);
    equal(&rt, node_position(2, 1), 13);
    equal(&rt, node_position(3, 0), 14);
}

#[test]
fn eight_leaves(rt: HostRuntime) {
    let stored = eight_stored();
    if stored.len() as u64 == node_count(8) {
        equal(&rt, tree_from_stored(&Sha, &stored, 8), TREE_8);
        let path = ok(&rt, prove_from_stored(rt.alloc(), &Sha, &stored, 8, 5));
        equal_digests(&rt, &path, &[PATH_5_OF_8_0, PATH_5_OF_8_1, PATH_5_OF_8_2]);
    }
}

#[test]
fn seven_leaves_have_the_same_places(rt: HostRuntime) {
    let stored = eight_stored();
    let seven = &stored[..11];
    if seven.len() as u64 == node_count(7) {
        equal(&rt, tree_from_stored(&Sha, seven, 7), TREE_7);
        let path = ok(&rt, prove_from_stored(rt.alloc(), &Sha, seven, 7, 6));
        equal_digests(&rt, &path, &[PATH_6_OF_7_0, PATH_6_OF_7_1]);
    }
}

#[test]
fn siblings_of_a_range(rt: HostRuntime) {
    let stored = eight_stored();
    if stored.len() as u64 == node_count(8) {
        let siblings = ok(
            &rt,
            prove_range_from_stored(rt.alloc(), &Sha, &stored, 8, 2, 5),
        );
        equal_digests(&rt, &siblings, &[RANGE_2_TO_7_OF_8_0, RANGE_2_TO_7_OF_8_1]);
    }
}

#[test]
fn siblings_of_each_range_of_seven_leaves(rt: HostRuntime) {
    // The last part of the tree is not complete.
    let stored = eight_stored();
    let seven = &stored[..11];
    let digests = eight_digests();
    if seven.len() as u64 == node_count(7) {
        for first in 0..7 {
            for count in 1..8 - first {
                let from_stored = ok(
                    &rt,
                    prove_range_from_stored(rt.alloc(), &Sha, seven, 7, first as u64, count as u64),
                );
                let from_all = ok(
                    &rt,
                    prove_range(rt.alloc(), &Sha, &digests[..7], first, count),
                );
                equal_digests(&rt, &from_stored, &from_all);
            }
        }
    }
}
