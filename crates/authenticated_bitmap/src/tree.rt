//! The digest of a tree, the audit path of a leaf, and the check of a leaf and its path.
//!
//! The tree is that of [RFC 9162](https://www.rfc-editor.org/rfc/rfc9162#section-2.1), section 2.1.
//! A leaf is any bytes. The tree is computed from the digests of its leaves, so a leaf whose bytes
//! are gone stays in the tree as long as its digest is kept.

ghost use Rattle.std.specs.Prelude.{◌++◌, ◌≡◌, ◌≤◌, ◌<◌, ◌^◌, ◌-◌, ◌↔◌, ℕ, List, length, reverse, IsTrue, IfOk, OnOk, OnSome, All};
ghost use Rattle.authenticated_bitmap.specs.Tree.{AreBytes, BindsLeaf, LeadsToTree, audit_path, climbed, leaf_hash, leaf_hashes, node_hash, root_from_path, siblings, subtree_hash, tree_hash};

use crate::hash::Digest;
use std::alloc::{AllocError, Global};

/// Returns the digest of a leaf: the hash of the byte 0 and the leaf.
///
/// # Memory
/// Does not allocate.
///
/// # Complexity
/// One hash.
pub fn leaf_digest<D: Digest>(hash: &D, leaf: &[u8]) -> [u8; 32]
    ensures value { result ≡ leaf_hash (D.digest_of hash.now) leaf.now }
    ensures bytes { AreBytes leaf.now }
{
    hash.digest(0, leaf, &[])
}

/// Returns the digest of a node: the hash of the byte 1 and the digests of its two children.
///
/// # Memory
/// Does not allocate.
///
/// # Complexity
/// One hash.
pub fn node_digest<D: Digest>(hash: &D, left: &[u8; 32], right: &[u8; 32]) -> [u8; 32]
    ensures value { result ≡ node_hash (D.digest_of hash.now) left.now right.now }
    ensures left_bytes { AreBytes left.now }
    ensures right_bytes { AreBytes right.now }
{
    hash.digest(1, left, right)
}

/// Returns the digest of each leaf, in the order of the leaves. Leaves have `N` bytes.
///
/// # Errors
/// `AllocError` if an allocation fails.
///
/// # Memory
/// Allocates 32 bytes per leaf.
///
/// # Complexity
/// One hash per leaf.
pub fn leaf_digests<D: Digest, const N: usize>(
    alloc: Global,
    hash: &D,
    leaves: &[[u8; N]],
) -> Result<Vec<[u8; 32]>, AllocError>
    ensures { IfOk result (λ digests.
        digests.items ≡ leaf_hashes (D.digest_of hash.now) leaves.now) }
{
    let mut digests = Vec::new(alloc);
    for leaf in leaves {
        digests.push(leaf_digest(hash, leaf))?;
    }
    Ok(digests)
}

// Half of the leaves that fit a height.
pub(crate) fn half_of(height: u32) -> usize
    requires low { 0 < height }
    requires high { height ≤ 64 }
    ensures { result ≡ 2 ^ (height - 1) }
{
    1 << (height - 1)
}

// The digest of the tree of at most `2 ^ height` leaves.
pub(crate) fn subtree_digest<D: Digest>(hash: &D, height: u32, digests: &[[u8; 32]]) -> [u8; 32]
    requires { height ≤ 64 }
    ensures { result ≡ subtree_hash (D.digest_of hash.now) height digests.now }
{
    if height == 0 {
        return match digests.first() {
            None => hash.digest_of_nothing(),
            Some(digest) => *digest,
        };
    }
    let half = half_of(height);
    if digests.len() <= half {
        return subtree_digest(hash, height - 1, digests);
    }
    let left = subtree_digest(hash, height - 1, &digests[..half]);
    let right = subtree_digest(hash, height - 1, &digests[half..]);
    node_digest(hash, &left, &right)
}

/// Returns the digest of the tree, from the digests of its leaves.
///
/// # Memory
/// Does not allocate.
///
/// # Complexity
/// One hash per leaf, less one.
pub fn tree_digest<D: Digest>(hash: &D, digests: &[[u8; 32]]) -> [u8; 32]
    ensures { result ≡ tree_hash (D.digest_of hash.now) digests.now }
{
    subtree_digest(hash, 64, digests)
}

// The digest of a tree of `n` leaves, at most `2 ^ height`, from the digest of leaf `i` and the
// digests beside its way, the root's last.
fn climb<D: Digest>(
    hash: &D,
    height: u32,
    i: u64,
    n: u64,
    digest: &[u8; 32],
    path: &[[u8; 32]],
) -> Option<[u8; 32]>
    requires { height ≤ 64 }
    ensures value { result
        ≡ climbed (D.digest_of hash.now) height i n digest.now (reverse path.now) }
    ensures bytes { OnSome result (All AreBytes path.now) }
{
    if height == 0 {
        return if path.is_empty() { Some(*digest) } else { None };
    }
    let half = half_of(height) as u64;
    if n <= half {
        return climb(hash, height - 1, i, n, digest, path);
    }
    let (beside, below) = path.split_last()?;
    if i < half {
        let left = climb(hash, height - 1, i, half, digest, below)?;
        Some(node_digest(hash, &left, beside))
    } else {
        let right = climb(hash, height - 1, i - half, n - half, digest, below)?;
        Some(node_digest(hash, beside, &right))
    }
}

/// Recomputes the digest of a tree of `n` leaves from the digest of leaf `i` and its audit path.
///
/// Returns `None` if the path has too many or too few digests.
///
/// # Memory
/// Does not allocate.
///
/// # Complexity
/// One hash per digest of the path.
pub fn recompute<D: Digest>(
    hash: &D,
    i: u64,
    n: u64,
    digest: &[u8; 32],
    path: &[[u8; 32]],
) -> Option<[u8; 32]>
    ensures value { result ≡ root_from_path (D.digest_of hash.now) i n digest.now path.now }
    ensures bytes { OnSome result (All AreBytes path.now) }
{
    climb(hash, 64, i, n, digest, path)
}

/// Returns whether a leaf and its audit path lead to the digest of a tree of `n` leaves, as leaf
/// `i`.
///
/// If so, the leaf is leaf `i` of each tree of `n` leaves with that digest, or two different inputs
/// have one digest: one that is hashed here, and one that is hashed for the tree.
///
/// # Memory
/// Does not allocate.
///
/// # Complexity
/// One hash for the leaf, and one per digest of the path.
pub fn verify<D: Digest>(
    hash: &D,
    tree: &[u8; 32],
    n: u64,
    i: u64,
    leaf: &[u8],
    path: &[[u8; 32]],
) -> bool
    ensures value { IsTrue result
        ↔ LeadsToTree (D.digest_of hash.now) tree.now n i leaf.now path.now }
    ensures binds { IsTrue result
        → BindsLeaf (D.digest_of hash.now) tree.now n i leaf.now path.now }
{
    if i >= n {
        return false;
    }
    match recompute(hash, i, n, &leaf_digest(hash, leaf), path) {
        None => false,
        Some(digest) => digest == *tree,
    }
}

// Appends the digests beside the way to leaf `i`, the root's last.
fn push_siblings<D: Digest>(
    hash: &D,
    height: u32,
    i: usize,
    digests: &[[u8; 32]],
    path: &mut Vec<[u8; 32]>,
) -> Result<(), AllocError>
    requires { height ≤ 64 }
    ensures { OnOk result (path.new.items
        ≡ path.old.items ++ reverse (siblings (D.digest_of hash.now) height i digests.now)) }
{
    if height == 0 {
        return Ok(());
    }
    let half = half_of(height);
    if digests.len() <= half {
        return push_siblings(hash, height - 1, i, digests, path);
    }
    let left = &digests[..half];
    let right = &digests[half..];
    if i < half {
        push_siblings(hash, height - 1, i, left, path)?;
        path.push(subtree_digest(hash, height - 1, right))?;
    } else {
        push_siblings(hash, height - 1, i - half, right, path)?;
        path.push(subtree_digest(hash, height - 1, left))?;
    }
    Ok(())
}

/// Returns the audit path of leaf `i`, from the digests of all leaves: the digests beside the way
/// from the leaf to the root, the leaf's sibling first.
///
/// `i` is below the number of leaves.
///
/// # Errors
/// `AllocError` if an allocation fails.
///
/// # Memory
/// Allocates 32 bytes per digest of the path, of which there are at most 64.
///
/// # Complexity
/// One hash per leaf, less one.
pub fn prove<D: Digest>(
    alloc: Global,
    hash: &D,
    digests: &[[u8; 32]],
    i: usize,
) -> Result<Vec<[u8; 32]>, AllocError>
    requires { i < length digests.now }
    ensures { IfOk result (λ path. path.items ≡ audit_path (D.digest_of hash.now) i digests.now) }
{
    let mut path = Vec::new(alloc);
    push_siblings(hash, 64, i, digests, &mut path)?;
    Ok(path)
}
