//! A tree whose digests are stored: those of its complete subtrees, by place.
//!
//! A complete subtree has `2 ^ level` leaves, and begins at a multiple of that number. Its digest
//! comes after those of its two halves. So the place of a digest does not depend on the number of
//! leaves, and a leaf that is appended appends digests and moves none.

ghost use Rattle.std.specs.Prelude.{◌++◌, ◌-◌, reverse, IfOk, IsOk, OnErr, OnOk, ◌≡◌, ◌+◌, ◌*◌, ◌^◌, ◌<◌, ◌≤◌, ℕ, List, [], ◌∷◌, length, slice_index_or, slice_set, take};
ghost use Rattle.authenticated_bitmap.specs.StoredBitmap.{full_chunks};
ghost use Rattle.authenticated_bitmap.specs.Stored.{KeepsApart, StoresSubtrees, leaves_under, nodes, position, stored as stored_of, stored_below};
ghost use Rattle.authenticated_bitmap.specs.Range.{range_siblings, siblings_below};
ghost use Rattle.authenticated_bitmap.specs.Tree.{audit_path, node_hash, siblings, subtree_hash, tree_hash};

use crate::hash::Digest;
use crate::node_source::{InBitmap, InSlice, Nodes};
use crate::node_target::{AppendNodes, InMutSlice, ReplaceNodes};
use crate::tree::node_digest;
use bitmap_core::bitmap::Readable;
use std::alloc::{AllocError, Global};

/// What is stored for a tree: how many digests, each complete subtree's at its place, and that
/// leaves which are appended only append digests.
pub fn subtrees_stay_where_they_are()
    ensures { (H : List ℕ → List ℕ) → StoresSubtrees H }
{}

/// Two complete subtrees are stored at two places, and a leaf that is replaced changes no subtree
/// that does not contain it.
pub fn subtrees_are_kept_apart()
    ensures { KeepsApart }
{}

/// Returns the number of digests that are stored for `n` leaves.
///
/// `n` is below 2 to the power 63. Does not allocate; constant time.
pub fn node_count(n: u64) -> u64
    requires { n < 2 ^ 63 }
    ensures { result ≡ nodes n }
{
    2 * n - n.count_ones() as u64
}

/// Returns the place of the digest of the complete subtree of `2 ^ level` leaves that begins at
/// leaf `index * 2 ^ level`.
///
/// `level` is below 62, and the subtree ends below 2 to the power 62. Does not allocate; constant
/// time.
pub fn node_position(level: u32, index: u64) -> u64
    requires low { level < 62 }
    requires fits { (index + 1) * 2 ^ level < 2 ^ 62 }
    ensures { result ≡ position level index }
{
    node_count(index << level) + (2 << level) - 2
}

// The number of leaves of a complete subtree.
fn size_of(level: u32) -> u64
    requires { level ≤ 61 }
    ensures { result ≡ 2 ^ level }
{
    1 << level
}

// The digest of a part of a tree of `n` leaves, from the stored ones: of the `index`-th `2 ^ level`
// leaves, or what there is of them.
fn stored_digest<D: Digest, S: Nodes>(
    hash: &D,
    stored: &S,
    n: u64,
    level: u32,
    index: u64,
) -> [u8; 32]
    requires low { level ≤ 61 }
    requires few { n ≤ 2 ^ 61 }
    requires some { index * 2 ^ level < n }
    requires count { length (S.held stored.now) ≡ nodes n }
    ensures { (digests : List (List ℕ)) → length digests ≡ n
        → S.held stored.now ≡ stored_of (D.digest_of hash.now) digests
        → result ≡ subtree_hash (D.digest_of hash.now) level (leaves_under level index digests) }
{
    if index * size_of(level) + size_of(level) <= n {
        return stored.node(node_position(level, index));
    }
    let left = stored_digest(hash, stored, n, level - 1, 2 * index);
    if (2 * index + 1) * size_of(level - 1) >= n {
        return left;
    }
    let right = stored_digest(hash, stored, n, level - 1, 2 * index + 1);
    node_digest(hash, &left, &right)
}

/// Returns the digest of the tree of `n` leaves, from the stored digests.
///
/// There are [`node_count(n)`](node_count) of them, and `n` is at most 2 to the power 61.
///
/// # Memory
/// Does not allocate.
///
/// # Complexity
/// Logarithmic in `n`: reads one digest per set bit of `n`, and hashes one time less.
pub fn tree_from_stored<D: Digest>(hash: &D, stored: &[[u8; 32]], n: u64) -> [u8; 32]
    requires few { n ≤ 2 ^ 61 }
    requires count { length stored.now ≡ nodes n }
    ensures { (digests : List (List ℕ)) → length digests ≡ n
        → stored.now ≡ stored_of (D.digest_of hash.now) digests
        → result ≡ tree_hash (D.digest_of hash.now) digests }
{
    if n == 0 {
        return hash.digest_of_nothing();
    }
    stored_digest(hash, &InSlice(stored), n, 61, 0)
}

/// Returns the digest of the tree of `n` leaves, from a bitmap that has the stored digests as chunks.
///
/// It does what [`tree_from_stored`] does. The digests are the [`node_count(n)`](node_count)
/// chunks of a bitmap of width 32 in which nothing is pruned, and the last chunk is full. If the
/// bitmap is a past version that is read in place, so is the tree. `n` is at most 2 to the power
/// 61.
///
/// # Memory
/// Does not allocate, if `get_chunk` of the bitmap does not.
///
/// # Complexity
/// Logarithmic in `n`: calls `get_chunk` once per set bit of `n`, and hashes one time less.
pub fn tree_from_bitmap<D: Digest, B: Readable<32>>(hash: &D, stored: &B, n: u64) -> [u8; 32]
    requires few { n ≤ 2 ^ 61 }
    requires pruned { (B.meaning stored.now).pruned ≡ 0 }
    requires count { (B.meaning stored.now).len ≡ 256 * nodes n }
    ensures { (digests : List (List ℕ)) → length digests ≡ n
        → full_chunks (B.meaning stored.now) ≡ stored_of (D.digest_of hash.now) digests
        → result ≡ tree_hash (D.digest_of hash.now) digests }
{
    if n == 0 {
        return hash.digest_of_nothing();
    }
    stored_digest(hash, &InBitmap::new(stored), n, 61, 0)
}

// Appends the digest of each subtree that is completed by the `index`-th subtree of `2 ^ level`
// leaves. That is the last so far, its digest is `above`, and it is the last of `stored`.
fn push_completed<D: Digest, S: AppendNodes>(
    hash: &D,
    stored: &mut S,
    level: u32,
    index: u64,
    above: &[u8; 32],
) -> Result<(), AllocError>
    requires low { level ≤ 61 }
    requires fits { (index + 1) * 2 ^ level ≤ 2 ^ 61 }
    requires ready { S.is_ready stored.old }
    requires count { length (S.held stored.old) ≡ position level index + 1 }
    ensures value { (all : List (List ℕ)) → length all ≡ (index + 1) * 2 ^ level
        → S.held stored.old ≡ take (position level index + 1) (stored_of (D.digest_of hash.now) all)
        → above.now ≡ subtree_hash (D.digest_of hash.now) level (leaves_under level index all)
        → OnOk result (S.held stored.new ≡ stored_of (D.digest_of hash.now) all) }
    ensures count { OnOk result (length (S.held stored.new) ≡ nodes ((index + 1) * 2 ^ level)) }
    ensures begins { take (length (S.held stored.old)) (S.held stored.new) ≡ S.held stored.old }
    ensures ready { S.is_ready stored.new }
    ensures rest { (begun : S) → S.has_rest begun stored.old → S.has_rest begun stored.new }
{
    if index % 2 == 0 {
        return Ok(());
    }
    let left = stored.node(node_position(level, index - 1));
    let whole = node_digest(hash, &left, above);
    stored.push_node(&whole)?;
    push_completed(hash, stored, level + 1, index / 2, &whole)
}

/// Appends the digests that leaf `n` adds. After an error, `stored` may have some of them.
pub(crate) fn push_leaf<D: Digest, S: AppendNodes>(
    hash: &D,
    stored: &mut S,
    n: u64,
    digest: &[u8; 32],
) -> Result<(), AllocError>
    requires few { n < 2 ^ 61 }
    requires ready { S.is_ready stored.old }
    requires count { length (S.held stored.old) ≡ nodes n }
    ensures value { (digests : List (List ℕ)) → length digests ≡ n
        → S.held stored.old ≡ stored_of (D.digest_of hash.now) digests
        → OnOk result (S.held stored.new
        ≡ stored_of (D.digest_of hash.now) (digests ++ digest.now ∷ [])) }
    ensures count { OnOk result (length (S.held stored.new) ≡ nodes (n + 1)) }
    ensures begins { take (length (S.held stored.old)) (S.held stored.new) ≡ S.held stored.old }
    ensures ready { S.is_ready stored.new }
    ensures rest { (begun : S) → S.has_rest begun stored.old → S.has_rest begun stored.new }
{
    stored.push_node(digest)?;
    push_completed(hash, stored, 0, n, digest)
}

/// Appends a leaf to a tree of `n` leaves, by its digest: appends the stored digests that it adds.
///
/// They are the digest of the leaf, and one per subtree that it completes. `stored` has
/// [`node_count(n)`](node_count) digests before, and `node_count(n + 1)` after. `n` is below 2 to
/// the power 61.
///
/// # Errors
/// `AllocError` if an allocation fails. `stored` is then unchanged.
///
/// # Memory
/// Allocates 32 bytes per digest that is appended, of which there are at most 62.
///
/// # Complexity
/// Reads one stored digest and hashes once per subtree that the leaf completes. These are as many
/// as `n` has set bits below its lowest unset bit: fewer than one per leaf over many leaves.
pub fn append_leaf<D: Digest>(
    hash: &D,
    stored: &mut Vec<[u8; 32]>,
    n: u64,
    digest: &[u8; 32],
) -> Result<(), AllocError>
    requires few { n < 2 ^ 61 }
    requires count { length stored.old.items ≡ nodes n }
    ensures value { (digests : List (List ℕ)) → length digests ≡ n
        → stored.old.items ≡ stored_of (D.digest_of hash.now) digests
        → OnOk result (stored.new.items
        ≡ stored_of (D.digest_of hash.now) (digests ++ digest.now ∷ [])) }
    ensures count { OnOk result (length stored.new.items ≡ nodes (n + 1)) }
    ensures unchanged { OnErr result (stored.new.items ≡ stored.old.items) }
{
    let count = stored.len();
    match push_leaf(hash, stored, n, digest) {
        Ok(()) => Ok(()),
        Err(error) => {
            stored.truncate(count);
            Err(error)
        }
    }
}

// Replaces the digest of a subtree of `2 * half` leaves, from those of its halves. The digests of
// its right half begin at place `right`. Does nothing if there are fewer than `2 * half` leaves.
fn rehash<D: Digest, S: ReplaceNodes>(
    hash: &D,
    stored: &mut S,
    right: u64,
    half: u64,
    count: u64,
) -> Result<(), AllocError>
    requires some { 0 < half }
    requires fits { right + 2 * half ≤ 2 ^ 63 }
    requires few { count ≤ 2 * half }
    requires after_left { 0 < right }
    requires ready { S.is_ready stored.old }
    requires within { count ≡ 2 * half → right + 2 * half - 1 < length (S.held stored.old) }
    ensures part { count < 2 * half → S.held stored.new ≡ S.held stored.old }
    ensures whole { count ≡ 2 * half → OnOk result (S.held stored.new
        ≡ slice_set (S.held stored.old) (right + 2 * half - 1) (node_hash (D.digest_of hash.now)
        (slice_index_or (S.held stored.old) (right - 1) [])
        (slice_index_or (S.held stored.old) (right + 2 * half - 2) []))) }
    ensures size { length (S.held stored.new) ≡ length (S.held stored.old) }
    ensures sure { S.never_fails → IsOk result }
    ensures ready { S.is_ready stored.new }
    ensures rest { (begun : S) → S.has_rest begun stored.old → S.has_rest begun stored.new }
{
    if count < 2 * half {
        return Ok(());
    }
    let top = right + 2 * half - 1;
    let left = stored.node(right - 1);
    let last = stored.node(top - 1);
    stored.set_node(top, &node_digest(hash, &left, &last))
}

/// Replaces leaf `i` of a part of the tree, by its digest. The part has `count` leaves, at most
/// `2 ^ level`, and its digests begin at `place`. After an error, `stored` may have some of the new
/// digests.
pub(crate) fn replace_below<D: Digest, S: ReplaceNodes>(
    hash: &D,
    stored: &mut S,
    place: u64,
    level: u32,
    count: u64,
    i: u64,
    digest: &[u8; 32],
) -> Result<(), AllocError>
    requires low { level ≤ 61 }
    requires few { count ≤ 2 ^ level }
    requires some { i < count }
    requires fits { place + 2 * count ≤ 2 ^ 62 }
    requires ready { S.is_ready stored.old }
    requires within { place + nodes count ≤ length (S.held stored.old) }
    ensures value { (before block after : List (List ℕ)) → length before ≡ place
        → length block ≡ count
        → S.held stored.old ≡ before ++ stored_below (D.digest_of hash.now) level block ++ after
        → OnOk result (S.held stored.new ≡ before
        ++ stored_below (D.digest_of hash.now) level (slice_set block i digest.now) ++ after) }
    ensures size { length (S.held stored.new) ≡ length (S.held stored.old) }
    ensures sure { S.never_fails → IsOk result }
    ensures ready { S.is_ready stored.new }
    ensures rest { (begun : S) → S.has_rest begun stored.old → S.has_rest begun stored.new }
{
    if level == 0 {
        return stored.set_node(place, digest);
    }
    let half = size_of(level - 1);
    if count <= half {
        return replace_below(hash, stored, place, level - 1, count, i, digest);
    }
    let right = place + 2 * half - 1;
    if i < half {
        replace_below(hash, stored, place, level - 1, half, i, digest)?;
        return rehash(hash, stored, right, half, count);
    }
    let rest = count - half;
    replace_below(hash, stored, right, level - 1, rest, i - half, digest)?;
    rehash(hash, stored, right, half, count)
}

// Replaces leaf `i` of a tree of `n` leaves in a slice, by its digest.
fn replace_in_slice<D: Digest>(
    hash: &D,
    stored: &mut InMutSlice<'_>,
    n: u64,
    i: u64,
    digest: &[u8; 32],
)
    requires few { n ≤ 2 ^ 61 }
    requires some { i < n }
    requires count { length stored.old.0.now ≡ nodes n }
    ensures value { (digests : List (List ℕ)) → length digests ≡ n
        → stored.old.0.now ≡ stored_of (D.digest_of hash.now) digests
        → stored.new.0.now
        ≡ stored_of (D.digest_of hash.now) (slice_set digests i digest.now) }
    ensures count { length stored.new.0.now ≡ nodes n }
    ensures same_reference { stored.new.0.ghost_name ≡ stored.old.0.ghost_name }
{
    // A write to a slice does not fail.
    let _ = replace_below(hash, stored, 0, 61, n, i, digest);
}

/// Replaces leaf `i` of a tree of `n` leaves, by the digest of the new leaf: replaces the stored
/// digest of the leaf, and that of each complete subtree that contains it.
///
/// `stored` has [`node_count(n)`](node_count) digests, `i` is below `n`, and `n` is at most 2 to
/// the power 61. The stored digests are then those of the leaves with leaf `i` replaced.
///
/// # Memory
/// Does not allocate.
///
/// # Complexity
/// Logarithmic in `n`: reads two digests and hashes once per complete subtree of two leaves or more
/// that contains the leaf.
pub fn replace_leaf<D: Digest>(hash: &D, stored: &mut [[u8; 32]], n: u64, i: u64, digest: &[u8; 32])
    requires few { n ≤ 2 ^ 61 }
    requires some { i < n }
    requires count { length stored.old ≡ nodes n }
    ensures value { (digests : List (List ℕ)) → length digests ≡ n
        → stored.old ≡ stored_of (D.digest_of hash.now) digests
        → stored.new ≡ stored_of (D.digest_of hash.now) (slice_set digests i digest.now) }
    ensures count { length stored.new ≡ nodes n }
{
    replace_in_slice(hash, &mut InMutSlice(stored), n, i, digest);
}

/// Keeps the first `kept` leaves of a tree, and removes the others: shortens the stored digests to
/// those of the first `kept` leaves.
///
/// Changes nothing if the tree has at most `kept` leaves. `kept` is below 2 to the power 63.
///
/// # Memory
/// Does not allocate, and frees nothing.
///
/// # Complexity
/// Constant: hashes nothing, since the digests of fewer leaves are the first of those of more.
pub fn truncate_leaves(stored: &mut Vec<[u8; 32]>, kept: u64)
    requires { kept < 2 ^ 63 }
    ensures value { (H : List ℕ → List ℕ) (digests : List (List ℕ))
        → stored.old.items ≡ stored_of H digests
        → stored.new.items ≡ stored_of H (take kept digests) }
    ensures prefix { stored.new.items ≡ take (nodes kept) stored.old.items }
{
    stored.truncate(node_count(kept) as usize);
}

// Appends the digests beside the way to leaf `i` in a part of the tree, the part's last, from the
// stored digests.
fn push_stored_siblings<D: Digest, S: Nodes>(
    hash: &D,
    stored: &S,
    n: u64,
    level: u32,
    index: u64,
    i: u64,
    path: &mut Vec<[u8; 32]>,
) -> Result<(), AllocError>
    requires low { level ≤ 61 }
    requires few { n ≤ 2 ^ 61 }
    requires some { i < n }
    requires from { index * 2 ^ level ≤ i }
    requires count { length (S.held stored.now) ≡ nodes n }
    ensures { (digests : List (List ℕ)) → length digests ≡ n
        → S.held stored.now ≡ stored_of (D.digest_of hash.now) digests
        → OnOk result (path.new.items ≡ path.old.items
        ++ reverse (siblings (D.digest_of hash.now) level (i - index * 2 ^ level)
        (leaves_under level index digests))) }
{
    if level == 0 {
        return Ok(());
    }
    let middle = (2 * index + 1) * size_of(level - 1);
    if middle >= n {
        return push_stored_siblings(hash, stored, n, level - 1, 2 * index, i, path);
    }
    if i < middle {
        push_stored_siblings(hash, stored, n, level - 1, 2 * index, i, path)?;
        path.push(stored_digest(hash, stored, n, level - 1, 2 * index + 1))?;
    } else {
        push_stored_siblings(hash, stored, n, level - 1, 2 * index + 1, i, path)?;
        path.push(stored_digest(hash, stored, n, level - 1, 2 * index))?;
    }
    Ok(())
}

/// Returns the audit path of leaf `i` of the tree of `n` leaves, from the stored digests.
///
/// There are [`node_count(n)`](node_count) of them, `i` is below `n`, and `n` is at most 2 to the
/// power 61.
///
/// # Errors
/// `AllocError` if an allocation fails.
///
/// # Memory
/// Allocates 32 bytes per digest of the path, of which there are at most 61.
///
/// # Complexity
/// Quadratic in the logarithm of `n`, and most digests of the path are read and not computed.
pub fn prove_from_stored<D: Digest>(
    alloc: Global,
    hash: &D,
    stored: &[[u8; 32]],
    n: u64,
    i: u64,
) -> Result<Vec<[u8; 32]>, AllocError>
    requires few { n ≤ 2 ^ 61 }
    requires some { i < n }
    requires count { length stored.now ≡ nodes n }
    ensures { (digests : List (List ℕ)) → length digests ≡ n
        → stored.now ≡ stored_of (D.digest_of hash.now) digests
        → IfOk result (λ path. path.items ≡ audit_path (D.digest_of hash.now) i digests) }
{
    let mut path = Vec::new(alloc);
    push_stored_siblings(hash, &InSlice(stored), n, 61, 0, i, &mut path)?;
    Ok(path)
}

/// Returns the audit path of leaf `i` of the tree of `n` leaves, from a bitmap that has the stored
/// digests as chunks.
///
/// It does what `prove_from_stored` does. The digests are the
/// [`node_count(n)`](node_count) chunks of a bitmap of width 32 in which nothing is pruned, and
/// the last chunk is full. `i` is below `n`, and `n` is at most 2 to the power 61.
///
/// # Errors
/// `AllocError` if an allocation fails.
///
/// # Memory
/// Allocates 32 bytes per digest of the path, of which there are at most 61.
///
/// # Complexity
/// Quadratic in the logarithm of `n`, and most digests of the path are read by `get_chunk` and not
/// computed.
pub fn prove_from_bitmap<D: Digest, B: Readable<32>>(
    alloc: Global,
    hash: &D,
    stored: &B,
    n: u64,
    i: u64,
) -> Result<Vec<[u8; 32]>, AllocError>
    requires few { n ≤ 2 ^ 61 }
    requires some { i < n }
    requires pruned { (B.meaning stored.now).pruned ≡ 0 }
    requires count { (B.meaning stored.now).len ≡ 256 * nodes n }
    ensures { (digests : List (List ℕ)) → length digests ≡ n
        → full_chunks (B.meaning stored.now) ≡ stored_of (D.digest_of hash.now) digests
        → IfOk result (λ path. path.items ≡ audit_path (D.digest_of hash.now) i digests) }
{
    let mut path = Vec::new(alloc);
    let nodes = InBitmap::new(stored);
    push_stored_siblings(hash, &nodes, n, 61, 0, i, &mut path)?;
    Ok(path)
}

// Appends the siblings of a range in a part of the tree, from the stored digests. `first` counts
// from the part's first leaf.
fn push_stored_range<D: Digest, S: Nodes>(
    hash: &D,
    stored: &S,
    n: u64,
    level: u32,
    index: u64,
    first: u64,
    count: u64,
    siblings: &mut Vec<[u8; 32]>,
) -> Result<(), AllocError>
    requires low { level ≤ 61 }
    requires few { n ≤ 2 ^ 61 }
    requires some { index * 2 ^ level < n }
    requires count { length (S.held stored.now) ≡ nodes n }
    ensures { (digests : List (List ℕ)) → length digests ≡ n
        → S.held stored.now ≡ stored_of (D.digest_of hash.now) digests
        → OnOk result (siblings.new.items ≡ siblings.old.items
        ++ siblings_below (D.digest_of hash.now) level first count
        (leaves_under level index digests)) }
{
    if count == 0 {
        siblings.push(stored_digest(hash, stored, n, level, index))?;
        return Ok(());
    }
    if level == 0 {
        return Ok(());
    }
    let half = size_of(level - 1);
    if (2 * index + 1) * half >= n {
        return push_stored_range(
            hash,
            stored,
            n,
            level - 1,
            2 * index,
            first,
            count,
            siblings,
        );
    }
    let before_half = half.saturating_sub(first);
    let in_left = before_half.min(count);
    let in_right = count.saturating_sub(before_half);
    let right = 2 * index + 1;
    push_stored_range(
        hash,
        stored,
        n,
        level - 1,
        2 * index,
        first,
        in_left,
        siblings,
    )?;
    push_stored_range(
        hash,
        stored,
        n,
        level - 1,
        right,
        first.saturating_sub(half),
        in_right,
        siblings,
    )
}

/// Returns the siblings of the `count` leaves from `first` on in the tree of `n` leaves, from the
/// stored digests, as [`prove_range`](crate::range::prove_range) does from those of all leaves.
///
/// There are [`node_count(n)`](node_count) of them, `count` is at least 1, `first + count` is at
/// most `n`, and `n` is at most 2 to the power 61.
///
/// # Errors
/// `AllocError` if an allocation fails.
///
/// # Memory
/// Allocates 32 bytes per sibling, of which there are at most 122.
///
/// # Complexity
/// Linear in `count`, and quadratic in the logarithm of `n`. Most siblings are read and not
/// computed.
pub fn prove_range_from_stored<D: Digest>(
    alloc: Global,
    hash: &D,
    stored: &[[u8; 32]],
    n: u64,
    first: u64,
    count: u64,
) -> Result<Vec<[u8; 32]>, AllocError>
    requires few { n ≤ 2 ^ 61 }
    requires some { 0 < count }
    requires within { first + count ≤ n }
    requires count { length stored.now ≡ nodes n }
    ensures { (digests : List (List ℕ)) → length digests ≡ n
        → stored.now ≡ stored_of (D.digest_of hash.now) digests
        → IfOk result (λ siblings.
        siblings.items ≡ range_siblings (D.digest_of hash.now) first count digests) }
{
    let mut siblings = Vec::new(alloc);
    push_stored_range(
        hash,
        &InSlice(stored),
        n,
        61,
        0,
        first,
        count,
        &mut siblings,
    )?;
    Ok(siblings)
}

/// Returns the siblings of the `count` leaves from `first` on in the tree of `n` leaves, from a
/// bitmap that has the stored digests as chunks.
///
/// It does what `prove_range_from_stored` does. The
/// digests are the [`node_count(n)`](node_count) chunks of a bitmap of width 32 in which nothing is
/// pruned, and the last chunk is full. `count` is at least 1, `first + count` is at most `n`, and
/// `n` is at most 2 to the power 61.
///
/// # Errors
/// `AllocError` if an allocation fails.
///
/// # Memory
/// Allocates 32 bytes per sibling, of which there are at most 122.
///
/// # Complexity
/// Linear in `count`, and quadratic in the logarithm of `n`. Most siblings are read and not
/// computed.
pub fn prove_range_from_bitmap<D: Digest, B: Readable<32>>(
    alloc: Global,
    hash: &D,
    stored: &B,
    n: u64,
    first: u64,
    count: u64,
) -> Result<Vec<[u8; 32]>, AllocError>
    requires few { n ≤ 2 ^ 61 }
    requires some { 0 < count }
    requires within { first + count ≤ n }
    requires pruned { (B.meaning stored.now).pruned ≡ 0 }
    requires count { (B.meaning stored.now).len ≡ 256 * nodes n }
    ensures { (digests : List (List ℕ)) → length digests ≡ n
        → full_chunks (B.meaning stored.now) ≡ stored_of (D.digest_of hash.now) digests
        → IfOk result (λ siblings.
        siblings.items ≡ range_siblings (D.digest_of hash.now) first count digests) }
{
    let mut siblings = Vec::new(alloc);
    let nodes = InBitmap::new(stored);
    push_stored_range(hash, &nodes, n, 61, 0, first, count, &mut siblings)?;
    Ok(siblings)
}
