//! Stored digests whose leaves are appended, replaced and removed.

use crate::checks::{equal, equal_digests, ok};
use crate::known::{
    TREE_1, TREE_2, TREE_3, TREE_4, TREE_5, TREE_6, TREE_7, TREE_7_REPLACED_6, TREE_8,
    TREE_8_REPLACED_5, eight_digests,
};
use crate::sha::Sha;
use crate::stored::{eight_stored, stored_of};
use authenticated_bitmap::store::{
    append_leaf, node_count, replace_leaf, tree_from_stored, truncate_leaves,
};
use authenticated_bitmap::tree::leaf_digest;
use std::alloc::{AllocError, Global};

const TREES: [[u8; 32]; 8] = [
    TREE_1, TREE_2, TREE_3, TREE_4, TREE_5, TREE_6, TREE_7, TREE_8,
];

/// Returns the stored digests of the eight leaves, which are appended one by one.
pub fn eight_appended(alloc: Global) -> Result<Vec<[u8; 32]>, AllocError> {
    let digests = eight_digests();
    let mut stored = Vec::new(alloc);
    for k in 0..8 {
        if stored.len() as u64 == node_count(k as u64) {
            append_leaf(&Sha, &mut stored, k as u64, &digests[k])?;
        }
    }
    Ok(stored)
}

#[test]
fn leaves_appended(rt: HostRuntime) {
    let digests = eight_digests();
    let whole = eight_stored();
    let mut stored = Vec::new(rt.alloc());
    for k in 0..8 {
        if stored.len() as u64 == node_count(k as u64) {
            ok(&rt, append_leaf(&Sha, &mut stored, k as u64, &digests[k]));
        }
        let count = (node_count(k as u64 + 1) as usize).min(15);
        equal_digests(&rt, &stored, &whole[..count]);
        if stored.len() as u64 == node_count(k as u64 + 1) {
            equal(&rt, tree_from_stored(&Sha, &stored, k as u64 + 1), TREES[k]);
        }
    }
}

#[test]
fn one_of_eight_replaced(rt: HostRuntime) {
    let mut stored = eight_stored();
    if stored.len() as u64 == node_count(8) {
        replace_leaf(&Sha, &mut stored, 8, 5, &leaf_digest(&Sha, b"other"));
        equal(&rt, tree_from_stored(&Sha, &stored, 8), TREE_8_REPLACED_5);
    }
}

#[test]
fn the_last_of_seven_replaced(rt: HostRuntime) {
    // No complete subtree of two leaves or more contains it.
    let [a, b, ab, c, d, cd, abcd, e, f, ef, g, _, _, _, _] = eight_stored();
    let other = leaf_digest(&Sha, b"other");
    let mut stored = [a, b, ab, c, d, cd, abcd, e, f, ef, g];
    if stored.len() as u64 == node_count(7) {
        replace_leaf(&Sha, &mut stored, 7, 6, &other);
        equal(&rt, tree_from_stored(&Sha, &stored, 7), TREE_7_REPLACED_6);
    }
    equal_digests(&rt, &stored, &[a, b, ab, c, d, cd, abcd, e, f, ef, other]);
}

#[test]
fn the_only_leaf_replaced(rt: HostRuntime) {
    let mut stored = [leaf_digest(&Sha, b"")];
    if stored.len() as u64 == node_count(1) {
        replace_leaf(&Sha, &mut stored, 1, 0, &leaf_digest(&Sha, b"other"));
        equal_digests(&rt, &stored, &[leaf_digest(&Sha, b"other")]);
    }
}

#[test]
fn each_leaf_of_each_tree_replaced(rt: HostRuntime) {
    // The digests past those of the tree stay as they are.
    let other = leaf_digest(&Sha, b"other");
    let before = eight_stored();
    for n in 1..9 {
        for i in 0..n {
            let mut leaves = eight_digests();
            leaves[i] = other;
            let after = stored_of(leaves);
            let count = (node_count(n as u64) as usize).min(15);
            let mut stored = eight_stored();
            let tree = &mut stored[..count];
            if tree.len() as u64 == node_count(n as u64) {
                replace_leaf(&Sha, tree, n as u64, i as u64, &other);
            }
            equal_digests(&rt, &stored[..count], &after[..count]);
            equal_digests(&rt, &stored[count..], &before[count..]);
        }
    }
}

#[test]
fn leaves_removed(rt: HostRuntime) {
    let whole = eight_stored();
    let digests = eight_digests();
    for kept in 0..8 {
        let mut stored = ok(&rt, eight_appended(rt.alloc()));
        truncate_leaves(&mut stored, kept as u64);
        let count = (node_count(kept as u64) as usize).min(15);
        equal_digests(&rt, &stored, &whole[..count]);
        // The tree grows again.
        if stored.len() as u64 == node_count(kept as u64) {
            ok(
                &rt,
                append_leaf(&Sha, &mut stored, kept as u64, &digests[kept]),
            );
        }
        let more = (node_count(kept as u64 + 1) as usize).min(15);
        equal_digests(&rt, &stored, &whole[..more]);
    }
}

#[test]
fn no_leaf_removed(rt: HostRuntime) {
    let whole = eight_stored();
    let mut stored = ok(&rt, eight_appended(rt.alloc()));
    truncate_leaves(&mut stored, 8);
    equal_digests(&rt, &stored, &whole);
    truncate_leaves(&mut stored, 9);
    equal_digests(&rt, &stored, &whole);
    truncate_leaves(&mut stored, 9_223_372_036_854_775_807);
    equal_digests(&rt, &stored, &whole);
}
