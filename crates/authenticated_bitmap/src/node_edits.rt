//! Edits of stored digests that are the chunks of a batch.
//!
//! They do what `append_leaf`, `replace_leaf` and `truncate_leaves` do, on a batch of width 32 in
//! which nothing is pruned and the last chunk is full. If each version of the leaves is committed,
//! the tree of each kept version can be read in place by
//! [`tree_from_bitmap`](crate::store::tree_from_bitmap).
//!
//! After an error a batch may have a part of an edit. Its current bitmap and its commits are
//! unchanged, so the caller aborts it.

ghost use Rattle.std.specs.Prelude.{◌≡◌, ◌<◌, ◌++◌, ◌+◌, ◌*◌, ℕ, List, [], ◌∷◌, OnOk, length, min, slice_set, take};
ghost use Rattle.bitmap_core.specs.PrunedBits.{bit_len};
ghost use Rattle.historical_bitmap.specs.View.{pending_of};
ghost use Rattle.authenticated_bitmap.specs.Stored.{nodes, stored as stored_of};
ghost use Rattle.authenticated_bitmap.specs.StoredBitmap.{IsOnBaseOf, digests_in};

use crate::hash::Digest;
use crate::store::{node_count, push_leaf, replace_below};
use historical_bitmap::bitmap::historical::DirtyBitMap;
use std::alloc::AllocError;

/// Appends a leaf to a tree of `n` leaves, by its digest: appends the stored digests that it adds.
///
/// `stored` has [`node_count(n)`](crate::store::node_count) digests as chunks before, and
/// `node_count(n + 1)` after. Nothing is pruned in it.
///
/// # Errors
/// `AllocError` if an allocation fails, or if the digests would have 2 to the power 64 bits or
/// more. The batch may then have some of the digests.
///
/// # Memory
/// Allocates an edited chunk per digest that is appended, of which there are at most 62.
///
/// # Complexity
/// Reads one stored digest and hashes once per subtree that the leaf completes, as `append_leaf`
/// does. Each digest that is read or appended takes a few searches among the edited chunks at most.
pub fn append_leaf_in_batch<D: Digest>(
    hash: &D,
    stored: &mut DirtyBitMap<32>,
    n: u64,
    digest: &[u8; 32],
) -> Result<(), AllocError>
    requires pruned { (pending_of 32 stored.old).pruned ≡ 0 }
    requires count { bit_len 32 (pending_of 32 stored.old) ≡ 256 * nodes n }
    ensures value { (digests : List (List ℕ)) → length digests ≡ n
        → digests_in stored.old ≡ stored_of (D.digest_of hash.now) digests
        → OnOk result (digests_in stored.new
        ≡ stored_of (D.digest_of hash.now) (digests ++ digest.now ∷ [])) }
    ensures count { OnOk result (bit_len 32 (pending_of 32 stored.new) ≡ 256 * nodes (n + 1)) }
    ensures pruned { (pending_of 32 stored.new).pruned ≡ 0 }
    ensures base { IsOnBaseOf stored.old stored.new }
{
    let _ = stored.len();
    push_leaf(hash, stored, n, digest)
}

/// Replaces leaf `i` of a tree of `n` leaves, by the digest of the new leaf: replaces the stored
/// digest of the leaf, and that of each complete subtree that contains it.
///
/// `stored` has [`node_count(n)`](crate::store::node_count) digests as chunks, and nothing is
/// pruned in it. `i` is below `n`. The stored digests are then those of the leaves with leaf `i`
/// replaced.
///
/// # Errors
/// `AllocError` if an allocation fails. The batch may then have some of the new digests.
///
/// # Memory
/// Allocates an edited chunk per digest that is replaced, unless it is edited already. There are at
/// most 62.
///
/// # Complexity
/// Logarithmic in `n`: reads two digests, hashes once and replaces one digest per complete subtree
/// of two leaves or more that contains the leaf. Each takes a few searches among the edited chunks
/// at most.
pub fn replace_leaf_in_batch<D: Digest>(
    hash: &D,
    stored: &mut DirtyBitMap<32>,
    n: u64,
    i: u64,
    digest: &[u8; 32],
) -> Result<(), AllocError>
    requires some { i < n }
    requires pruned { (pending_of 32 stored.old).pruned ≡ 0 }
    requires count { bit_len 32 (pending_of 32 stored.old) ≡ 256 * nodes n }
    ensures value { (digests : List (List ℕ)) → length digests ≡ n
        → digests_in stored.old ≡ stored_of (D.digest_of hash.now) digests
        → OnOk result (digests_in stored.new
        ≡ stored_of (D.digest_of hash.now) (slice_set digests i digest.now)) }
    ensures count { bit_len 32 (pending_of 32 stored.new) ≡ 256 * nodes n }
    ensures pruned { (pending_of 32 stored.new).pruned ≡ 0 }
    ensures base { IsOnBaseOf stored.old stored.new }
{
    let _ = stored.len();
    replace_below(hash, stored, 0, 61, n, i, digest)
}

/// Keeps the first `kept` leaves of a tree of `n` leaves, and removes the others: removes their
/// stored digests from the end of a batch.
///
/// Changes nothing if `kept` is at least `n`. `stored` has
/// [`node_count(n)`](crate::store::node_count) digests as chunks before, and the `node_count(kept)`
/// first of them after if `kept` is below `n`. Nothing is pruned in it.
///
/// # Memory
/// Does not allocate.
///
/// # Complexity
/// As [`DirtyBitMap::truncate`]: at most linear in the edited chunks that are cut off. It hashes
/// nothing.
pub fn truncate_leaves_in_batch(stored: &mut DirtyBitMap<32>, n: u64, kept: u64)
    requires pruned { (pending_of 32 stored.old).pruned ≡ 0 }
    requires count { bit_len 32 (pending_of 32 stored.old) ≡ 256 * nodes n }
    ensures value { (H : List ℕ → List ℕ) (digests : List (List ℕ)) → length digests ≡ n
        → digests_in stored.old ≡ stored_of H digests
        → digests_in stored.new ≡ stored_of H (take kept digests) }
    ensures count { bit_len 32 (pending_of 32 stored.new) ≡ 256 * nodes (min kept n) }
    ensures pruned { (pending_of 32 stored.new).pruned ≡ 0 }
    ensures base { IsOnBaseOf stored.old stored.new }
{
    let _ = stored.len();
    if kept < n {
        stored.truncate(256 * node_count(kept));
    }
}
