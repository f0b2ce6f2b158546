//! Stored digests follow the commits of a bitmap.
//!
//! The digests of the chunks of a bitmap are the leaves of a tree whose stored digests are the
//! chunks of a second bitmap, of width 32. Both are committed under the same numbers. A commit of
//! the first is prepared, [`update_digests`] makes the batch of the second follow it, the second is
//! committed, and then the first is finished, which cannot fail. So each kept version of the first
//! has its tree in the version of the second under the same number.

ghost use Rattle.std.specs.Prelude.{◌≡◌, ◌++◌, ◌-◌, ◌*◌, ◌^◌, ◌<◌, ℕ, IfOk, List, OnOk, replicate};
ghost use Rattle.historical_bitmap.specs.Changes.{changed, chunk_total, listed};
ghost use Rattle.historical_bitmap.specs.View.{pending_of};
ghost use Rattle.bitmap_bytes.specs.Chunk.{IsWidth};
ghost use Rattle.bitmap_core.specs.PrunedBits.{PrunedBits, bit_len};
ghost use Rattle.authenticated_bitmap.specs.LeafDigests.{Authenticates, HasTreeSize, StoresTree, bitmap_of, leaves_in, next_leaves, with_leaf, with_leaves, zero_leaf};
ghost use Rattle.authenticated_bitmap.specs.Root.{IsBitmap, root_of, root_over};
ghost use Rattle.authenticated_bitmap.specs.Stored.{nodes};
ghost use Rattle.authenticated_bitmap.specs.StoredBitmap.{IsOnBaseOf};
ghost use Rattle.authenticated_bitmap.specs.Tree.{tree_hash};

use crate::hash::Digest;
use crate::node_edits::{append_leaf_in_batch, replace_leaf_in_batch, truncate_leaves_in_batch};
use crate::tree::leaf_digest;
use bitmap_core::chunk::chunk_count;
use historical_bitmap::bitmap::historical::{DirtyBitMap, PreparedBitMap};
use std::alloc::AllocError;

/// A state of a bitmap that is authenticated by stored digests has a root, and the tree of their
/// leaves is the tree of that root. So the laws of roots hold of it, and its root can be computed
/// from the stored digests.
pub fn stored_digests_have_the_root()
    ensures bitmap { (H : List ℕ → List ℕ) (n : ℕ) (s t : PrunedBits) → IsWidth n
        → bit_len n s < 2 ^ 64 → Authenticates H n s t → IsBitmap (bitmap_of n s t) }
    ensures root { (H : List ℕ → List ℕ) (n : ℕ) (s t : PrunedBits) → IsWidth n
        → Authenticates H n s t → root_of H (bitmap_of n s t)
        ≡ root_over H (record { width = n; len = bit_len n s; pruned = s.pruned })
        (tree_hash H (leaves_in (chunk_total n s) t)) }
{}

// Appends the digest of a chunk of zero bytes to a tree of `from` leaves, until there are `to`. Returns
// the number of leaves. After an error, some of them may be appended.
fn append_zeros<D: Digest, const N: usize>(
    hash: &D,
    stored: &mut DirtyBitMap<32>,
    from: u64,
    to: u64,
) -> Result<u64, AllocError>
    requires width { IsWidth N }
    requires size { HasTreeSize from (pending_of 32 stored.old) }
    ensures size { IfOk result (λ count. HasTreeSize count (pending_of 32 stored.new)) }
    ensures tree { StoresTree (D.digest_of hash.now) from (pending_of 32 stored.old)
        → IfOk result (λ count.
        StoresTree (D.digest_of hash.now) count (pending_of 32 stored.new)) }
    ensures leaves { StoresTree (D.digest_of hash.now) from (pending_of 32 stored.old)
        → IfOk result (λ count. leaves_in count (pending_of 32 stored.new)
        ≡ leaves_in from (pending_of 32 stored.old)
        ++ replicate (to - from) (zero_leaf (D.digest_of hash.now) N)) }
    ensures base { IsOnBaseOf stored.old stored.new }
{
    if to <= from {
        return Ok(from);
    }
    let digest = leaf_digest(hash, &[0; N]);
    for count in from..to {
        append_leaf_in_batch(hash, stored, count, &digest)?;
    }
    Ok(to)
}

// Makes the digest of a changed chunk follow, in a tree of `count` leaves. Returns the number of leaves.
// After an error, some of the digests may be changed.
fn put_leaf<D: Digest, const N: usize>(
    hash: &D,
    stored: &mut DirtyBitMap<32>,
    count: u64,
    chunk: usize,
    bytes: &[u8; N],
) -> Result<u64, AllocError>
    requires { HasTreeSize count (pending_of 32 stored.old) }
    ensures size { IfOk result (λ next. HasTreeSize next (pending_of 32 stored.new)) }
    ensures tree { StoresTree (D.digest_of hash.now) count (pending_of 32 stored.old)
        → IfOk result (λ next.
        StoresTree (D.digest_of hash.now) next (pending_of 32 stored.new)) }
    ensures leaves { StoresTree (D.digest_of hash.now) count (pending_of 32 stored.old)
        → IfOk result (λ next. leaves_in next (pending_of 32 stored.new)
        ≡ with_leaf (D.digest_of hash.now) (leaves_in count (pending_of 32 stored.old))
        (chunk, bytes.now)) }
    ensures base { IsOnBaseOf stored.old stored.new }
{
    let digest = leaf_digest(hash, bytes);
    if (chunk as u64) < count {
        replace_leaf_in_batch(hash, stored, count, chunk as u64, &digest)?;
        return Ok(count);
    }
    // The prover learns from this call that the number of leaves fits.
    let _ = stored.len();
    append_leaf_in_batch(hash, stored, count, &digest)?;
    Ok(count + 1)
}

// Makes the digests of the chunks that a prepared commit changes follow, in a tree of `count` leaves.
fn put_changed<D: Digest, const N: usize>(
    hash: &D,
    prepared: &PreparedBitMap<N>,
    stored: &mut DirtyBitMap<32>,
    count: u64,
) -> Result<u64, AllocError>
    requires { HasTreeSize count (pending_of 32 stored.old) }
    ensures size { IfOk result (λ next. HasTreeSize next (pending_of 32 stored.new)) }
    ensures tree { StoresTree (D.digest_of hash.now) count (pending_of 32 stored.old)
        → IfOk result (λ next.
        StoresTree (D.digest_of hash.now) next (pending_of 32 stored.new)) }
    ensures leaves { StoresTree (D.digest_of hash.now) count (pending_of 32 stored.old)
        → IfOk result (λ next. let new = pending_of N prepared.now.batch in
        leaves_in next (pending_of 32 stored.new)
        ≡ with_leaves (D.digest_of hash.now) (leaves_in count (pending_of 32 stored.old))
        (listed N new (changed N prepared.now.batch.current new))) }
    ensures base { IsOnBaseOf stored.old stored.new }
{
    let mut next = count;
    let mut changes = prepared.changed_chunks();
    while let Some(change) = changes.next() {
        next = put_leaf(hash, stored, next, change.0, &change.1)?;
    }
    Ok(next)
}

/// Makes the stored digests of a bitmap follow a prepared commit: the batch then has those of the
/// state that the commit leaves.
///
/// `count` is the number of chunks of the current bitmap, pruned ones and a partly used last one
/// too. `stored` has [`node_count(count)`](crate::store::node_count) chunks, and nothing is pruned in
/// it. If they are the digests that are stored for the current bitmap, then after success they are
/// those that are stored for the new state. The leaf of each chunk that it retains is the digest of
/// its bytes. The leaf of each pruned chunk stays as it is. A chunk that the batch both appended and pruned is in no committed state, and has
/// the leaf of a chunk of zero bytes.
///
/// # Errors
/// `AllocError` if an allocation fails, or if the digests would have 2 to the power 64 bits or
/// more. The batch may then have a part of the change, and its current bitmap and its commits are
/// unchanged.
///
/// # Memory
/// Allocates an edited chunk per stored digest that changes, of which there are at most 62 per
/// changed chunk.
///
/// # Complexity
/// One hash per changed chunk and per complete subtree that contains it, of which there are at most
/// 61. It is the same for each chunk that the batch both appended and pruned. A chunk that is
/// removed takes no hash. The other chunks are not read.
pub fn update_digests<D: Digest, const N: usize>(
    hash: &D,
    prepared: &PreparedBitMap<N>,
    stored: &mut DirtyBitMap<32>,
    count: u64,
) -> Result<(), AllocError>
    requires width { IsWidth N }
    requires pruned { (pending_of 32 stored.old).pruned ≡ 0 }
    requires count { bit_len 32 (pending_of 32 stored.old) ≡ 256 * nodes count }
    ensures next { let old = prepared.now.batch.current in count ≡ chunk_total N old
        → Authenticates (D.digest_of hash.now) N old (pending_of 32 stored.old)
        → OnOk result (Authenticates (D.digest_of hash.now) N
        (pending_of N prepared.now.batch) (pending_of 32 stored.new)) }
    ensures leaves { let old = prepared.now.batch.current in count ≡ chunk_total N old
        → Authenticates (D.digest_of hash.now) N old (pending_of 32 stored.old)
        → OnOk result (let new = pending_of N prepared.now.batch in
        leaves_in (chunk_total N new) (pending_of 32 stored.new)
        ≡ next_leaves (D.digest_of hash.now) N (leaves_in count (pending_of 32 stored.old)) new) }
    ensures base { IsOnBaseOf stored.old stored.new }
{
    let after = chunk_count::<N>(prepared.pending_len()) as u64;
    truncate_leaves_in_batch(stored, count, after);
    let kept = after.min(count);
    let pruned = prepared.pending_pruned_chunks() as u64;
    let kept = append_zeros::<D, N>(hash, stored, kept, pruned)?;
    put_changed(hash, prepared, stored, kept)?;
    Ok(())
}
