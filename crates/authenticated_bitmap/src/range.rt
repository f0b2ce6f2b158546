//! Proofs of ranges: one proof for chunks that follow one another, and its check against a root.
//!
//! A range is some chunks from a first one on. Beside it, the tree has parts that have no chunk of
//! the range. The digests of the largest of these parts, from left to right, are the *siblings* of
//! the range. With the chunks of the range and the siblings, the digest of the tree is recomputed,
//! and nothing else is needed. A range of one chunk has the digests of the chunk's audit path as
//! its siblings, in another order.

ghost use Rattle.std.specs.Prelude.{◌≡◌, ◌++◌, ◌+◌, ◌*◌, ◌^◌, ◌<◌, ◌≤◌, ◌↔◌, ℕ, List, length, None, IsTrue, IfOk, OnOk, OnSome, MatchOption, All};
ghost use Rattle.authenticated_bitmap.specs.Tree.{AreBytes, IsDigest, IsHash, leaf_hashes};
ghost use Rattle.authenticated_bitmap.specs.Range.{BindsRange, BindsRanges, KeepsRanges, RangeLeadsTo, Rebuilds, ShowsRanges, range_siblings, rebuilt, siblings_below, tree_from_range};

use crate::hash::Digest;
use crate::root::root_digest;
use crate::tree::{half_of, leaf_digest, node_digest, subtree_digest};
use std::alloc::{AllocError, Global};

/// Each range of retained chunks and its siblings lead to the root of the bitmap.
pub fn ranges_show_their_chunks()
    ensures { (H : List ℕ → List ℕ) → ShowsRanges H }
{}

/// A root binds its ranges. If the chunks of a range lead to the root of a bitmap, then the bitmap
/// has that shape and each of these chunks at its index, or two different inputs with one digest
/// are given: one that is hashed for the range and its siblings, and one that is hashed for the
/// bitmap. Of a pruned chunk the bitmap has the digest alone, and the chunk has that digest.
pub fn roots_bind_their_ranges()
    ensures { (H : List ℕ → List ℕ) → IsHash H → BindsRanges H }
{}

/// Pruning changes the digest of no chunk, so that a range and its siblings from before lead to
/// the new root.
pub fn pruning_keeps_ranges()
    ensures { (H : List ℕ → List ℕ) → KeepsRanges H }
{}

// Appends the siblings of the `count` leaves from `first` on.
fn push_siblings<D: Digest>(
    hash: &D,
    height: u32,
    first: usize,
    count: usize,
    digests: &[[u8; 32]],
    siblings: &mut Vec<[u8; 32]>,
) -> Result<(), AllocError>
    requires { height ≤ 64 }
    ensures { OnOk result (siblings.new.items ≡ siblings.old.items
        ++ siblings_below (D.digest_of hash.now) height first count digests.now) }
{
    if count == 0 {
        siblings.push(subtree_digest(hash, height, digests))?;
        return Ok(());
    }
    if height == 0 {
        return Ok(());
    }
    let half = half_of(height);
    if digests.len() <= half {
        return push_siblings(hash, height - 1, first, count, digests, siblings);
    }
    let before_half = half.saturating_sub(first);
    let in_left = before_half.min(count);
    let in_right = count.saturating_sub(before_half);
    let left = &digests[..half];
    let right = &digests[half..];
    push_siblings(hash, height - 1, first, in_left, left, siblings)?;
    push_siblings(
        hash,
        height - 1,
        first.saturating_sub(half),
        in_right,
        right,
        siblings,
    )
}

/// Returns the siblings of the `count` leaves from `first` on, from the digests of all leaves: the
/// digests of the largest parts of the tree that have none of these leaves, from left to right.
///
/// `count` is at least 1, and `first + count` is at most the number of leaves.
///
/// # Errors
/// `AllocError` if an allocation fails.
///
/// # Memory
/// Allocates 32 bytes per sibling, of which there are at most 128.
///
/// # Complexity
/// At most one hash per leaf that is not in the range.
pub fn prove_range<D: Digest>(
    alloc: Global,
    hash: &D,
    digests: &[[u8; 32]],
    first: usize,
    count: usize,
) -> Result<Vec<[u8; 32]>, AllocError>
    requires some { 0 < count }
    requires within { first + count ≤ length digests.now }
    ensures value { IfOk result (λ siblings.
        siblings.items ≡ range_siblings (D.digest_of hash.now) first count digests.now) }
    ensures few { IfOk result (λ siblings. length siblings.items ≤ 128) }
{
    let mut siblings = Vec::new(alloc);
    push_siblings(hash, 64, first, count, digests, &mut siblings)?;
    Ok(siblings)
}

// The digest of a tree of `n` leaves, at most `2 ^ height`, from its leaves from `first` on and
// their siblings, and the siblings that are left.
fn rebuild<'a, D: Digest, const N: usize>(
    hash: &D,
    height: u32,
    n: u64,
    first: u64,
    chunks: &[[u8; N]],
    siblings: &'a [[u8; 32]],
) -> Option<([u8; 32], &'a [[u8; 32]])>
    requires { height ≤ 64 }
    ensures { MatchOption result
        (rebuilt (D.digest_of hash.now) height n first
        (leaf_hashes (D.digest_of hash.now) chunks.now) siblings.now ≡ None)
        (λ tree. Rebuilds (rebuilt (D.digest_of hash.now) height n first
        (leaf_hashes (D.digest_of hash.now) chunks.now) siblings.now) tree.0 tree.1.now) }
{
    if chunks.is_empty() {
        let (sibling, rest) = siblings.split_first()?;
        return Some((*sibling, rest));
    }
    if height == 0 {
        return Some((leaf_digest(hash, &chunks[0]), siblings));
    }
    let half = half_of(height) as u64;
    if n <= half {
        return rebuild(hash, height - 1, n, first, chunks, siblings);
    }
    let count = half.saturating_sub(first).min(chunks.len() as u64) as usize;
    let in_left = &chunks[..count];
    let in_right = &chunks[count..];
    let (left, siblings) = rebuild(hash, height - 1, half, first, in_left, siblings)?;
    let (right, siblings) = rebuild(
        hash,
        height - 1,
        n - half,
        first.saturating_sub(half),
        in_right,
        siblings,
    )?;
    Some((node_digest(hash, &left, &right), siblings))
}

// The length of a slice of bytes. Its contract says that they are bytes: a proof has this of a slice
// of bytes, and not of a slice of arrays.
fn byte_count(bytes: &[u8]) -> usize
    ensures value { result ≡ length bytes.now }
    ensures bytes { AreBytes bytes.now }
{
    bytes.len()
}

// The digest of a tree of `n` leaves, from its leaves from `first` on and their siblings. `None` if
// there are too many or too few siblings.
fn recompute_range<D: Digest, const N: usize>(
    hash: &D,
    n: u64,
    first: u64,
    chunks: &[[u8; N]],
    siblings: &[[u8; 32]],
) -> Option<[u8; 32]>
    ensures value { result ≡ tree_from_range (D.digest_of hash.now) first n
        (leaf_hashes (D.digest_of hash.now) chunks.now) siblings.now }
    ensures bytes { All AreBytes chunks.now }
    ensures digests { All IsDigest siblings.now }
{
    let _chunks = byte_count(chunks.as_flattened());
    let _siblings = byte_count(siblings.as_flattened());
    let (tree, rest) = rebuild(hash, 64, n, first, chunks, siblings)?;
    if rest.is_empty() { Some(tree) } else { None }
}

/// Returns whether the chunks of a range and its siblings lead to a root, as the chunks from
/// `first` on of a bitmap of `len` bits of which `pruned` chunks are pruned.
///
/// `first` is the absolute index of the first chunk, and `len` counts the pruned bits too. A range
/// of no chunk does not lead to a root. If it returns `true`, then each bitmap with that root has
/// that length, that number of pruned chunks and each of these chunks, or two different inputs have
/// one digest: one that is hashed here, and one that is hashed for the bitmap. Of a pruned chunk a
/// bitmap has the digest alone, and the chunk has that digest.
///
/// `N` is at least 1, and `8N` fits `u64`.
///
/// # Memory
/// Does not allocate.
///
/// # Complexity
/// One hash per chunk of the range, one per node of the tree above it, and one for the root. There
/// are fewer nodes than chunks and siblings together.
pub fn verify_range<D: Digest, const N: usize>(
    hash: &D,
    root: &[u8; 32],
    len: u64,
    pruned: u64,
    first: u64,
    chunks: &[[u8; N]],
    siblings: &[[u8; 32]],
) -> bool
    requires some { 0 < N }
    requires fits { 8 * N < 2 ^ 64 }
    ensures value { IsTrue result ↔ RangeLeadsTo (D.digest_of hash.now) root.now
        (record { width = N; len = len; pruned = pruned }) first chunks.now siblings.now }
    ensures binds { IsTrue result → BindsRange (D.digest_of hash.now) root.now
        (record { width = N; len = len; pruned = pruned }) first chunks.now siblings.now }
{
    let n = len.div_ceil(8 * N as u64);
    let count = chunks.len() as u64;
    if count == 0 || n.saturating_sub(first) < count {
        return false;
    }
    match recompute_range(hash, n, first, chunks, siblings) {
        None => false,
        Some(tree) => root_digest::<D, N>(hash, len, pruned, &tree) == *root,
    }
}
