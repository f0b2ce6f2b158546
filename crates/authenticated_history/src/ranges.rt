//! Proofs of several chunks that follow one another.

ghost use Rattle.std.specs.Prelude.{◌≡◌, ◌*◌, ◌+◌, ◌<◌, ◌≤◌, ℕ, List, IfOk, IfSome, Some, map};
ghost use Rattle.std.specs.Int.{div_ceil};
ghost use Rattle.std.specs.List.{range_with_len};
ghost use Rattle.std.specs.Option.{option_map};
ghost use Rattle.bitmap_bytes.specs.Chunk.{IsWidth};
ghost use Rattle.bitmap_core.specs.Meaning.{pruned_meaning};
ghost use Rattle.bitmap_core.specs.PrunedBits.{PrunedBits, bit_len, chunk};
ghost use Rattle.historical_bitmap.specs.Changes.{chunk_total};
ghost use Rattle.historical_bitmap.specs.History.{kept_under};
ghost use Rattle.historical_bitmap.specs.View.{history_of};
ghost use Rattle.authenticated_bitmap.specs.LeafDigests.{Authenticates, bitmap_of};
ghost use Rattle.authenticated_bitmap.specs.Range.{RangeLeadsTo, range_siblings};
ghost use Rattle.authenticated_bitmap.specs.Root.{chunk_digests, root_of};
ghost use Rattle.authenticated_bitmap.specs.Stored.{nodes};
ghost use Rattle.authenticated_history.specs.Ranges.{has_range as has_range_of, siblings_if};
ghost use Rattle.authenticated_history.specs.Versions.{current_of, version_of};

use crate::clean::AuthenticatedBitMap;
use authenticated_bitmap::hash::Digest;
use authenticated_bitmap::store::prove_range_from_bitmap;
use bitmap_core::bitmap::{Prunable, Readable};
use bitmap_core::chunk::chunk_count;
use historical_bitmap::bitmap::historical::AtCommit;
use std::alloc::{AllocError, Global};

// Returns whether a bitmap of `total` chunks has the `count` chunks from `first` on, of which there is one at least.
fn has_range(first: usize, count: usize, total: usize) -> bool
    ensures { result ≡ has_range_of first count total }
{
    count > 0 && first <= total && count <= total - first
}

// Returns the siblings of a range of chunks of a state of `len` bits, from the bitmap that stores its digests.
fn siblings_from<D: Digest, const N: usize, T: Readable<32>>(
    alloc: Global,
    hash: &D,
    len: u64,
    stored: &T,
    first: usize,
    count: usize,
) -> Result<Vec<[u8; 32]>, AllocError>
    requires width { IsWidth N }
    requires pruned { (T.meaning stored.now).pruned ≡ 0 }
    requires size { (T.meaning stored.now).len ≡ 256 * nodes (div_ceil len (8 * N)) }
    requires some { 0 < count }
    requires within { first + count ≤ div_ceil len (8 * N) }
    ensures { (s t : PrunedBits) → bit_len N s ≡ len
        → T.meaning stored.now ≡ pruned_meaning 32 t
        → Authenticates (D.digest_of hash.now) N s t
        → IfOk result (λ siblings. siblings.items
        ≡ range_siblings (D.digest_of hash.now) first count
        (chunk_digests (D.digest_of hash.now) (bitmap_of N s t))) }
{
    // The prover learns from this call that the number of leaves fits.
    let _ = stored.len();
    prove_range_from_bitmap(
        alloc,
        hash,
        stored,
        chunk_count::<N>(len) as u64,
        first as u64,
        count as u64,
    )
}

impl<const N: usize, D: Digest> AuthenticatedBitMap<N, D> {
    /// Returns the siblings of the `count` chunks from the absolute index `first` on of the current bitmap. The bitmap has these chunks, pruned or not,
    /// and `count` is at least 1.
    ///
    /// If the chunks are retained, they and the siblings lead to the root of the current bitmap. `verify_range` of the crate `authenticated_bitmap`
    /// checks them. Bits of the last chunk past the length are zero.
    ///
    /// # Errors
    /// `AllocError` if an allocation fails.
    ///
    /// # Memory
    /// Allocates 32 bytes per sibling, of which there are at most 122.
    ///
    /// # Complexity
    /// Linear in `count`, and quadratic in the logarithm of the number of chunks. Most siblings are read and not computed.
    pub fn prove_range(&self, first: usize, count: usize) -> Result<Vec<[u8; 32]>, AllocError>
        requires some { 0 < count }
        requires within { first + count ≤ chunk_total N self.now.bits.current }
        ensures siblings { IfOk result (λ siblings.
            siblings.items ≡ range_siblings (D.digest_of self.now.hash) first count
            (chunk_digests (D.digest_of self.now.hash) (current_of N self.now))) }
        ensures shows { self.now.bits.current.pruned ≤ first
            → IfOk result (λ siblings. RangeLeadsTo (D.digest_of self.now.hash)
            (root_of (D.digest_of self.now.hash) (current_of N self.now))
            (current_of N self.now).shape first
            (map (chunk N self.now.bits.current) (range_with_len first count))
            siblings.items) }
    {
        siblings_from::<D, N, Prunable<32>>(
            self.bits.allocator(),
            &self.hash,
            self.bits.len(),
            self.digests.current(),
            first,
            count,
        )
    }

    /// Returns the siblings of the `count` chunks from the absolute index `first` on of the bitmap at commit `number`. Returns `None` if that commit is
    /// not kept, if the bitmap at it does not have these chunks, or if `count` is 0.
    ///
    /// If the chunks are retained at that commit, they and the siblings lead to the root that [`root_at`](AuthenticatedBitMap::root_at) returns for
    /// it. `verify_range` of the crate `authenticated_bitmap` checks them. Bits of the last chunk past the length are zero.
    ///
    /// # Errors
    /// `AllocError` if an allocation fails.
    ///
    /// # Memory
    /// Allocates 32 bytes per sibling, of which there are at most 122. Does not allocate if it returns `None`.
    ///
    /// # Complexity
    /// A search among the kept commits, and then linear in `count`, and quadratic in the logarithm of the number of chunks. Most siblings are read,
    /// each as `at` of a historical bitmap reads a chunk, and not computed.
    pub fn prove_range_at(
        &self,
        number: u64,
        first: usize,
        count: usize,
    ) -> Result<Option<Vec<[u8; 32]>>, AllocError>
        ensures siblings { IfOk result (λ found.
            option_map (λ siblings. siblings.items) found
            ≡ siblings_if (D.digest_of self.now.hash) first count (version_of N self.now number)) }
        ensures shows { (s : PrunedBits) → kept_under (history_of N self.now.bits) number ≡ Some s
            → s.pruned ≤ first
            → IfOk result (λ found. IfSome found (λ siblings.
            IfSome (version_of N self.now number) (λ b.
            RangeLeadsTo (D.digest_of self.now.hash)
            (root_of (D.digest_of self.now.hash) b) b.shape first
            (map (chunk N s) (range_with_len first count)) siblings.items))) }
    {
        let Some(bits) = self.bits.at(number) else {
            return Ok(None);
        };
        let Some(digests) = self.digests.at(number) else {
            return Ok(None);
        };
        let len = bits.len();
        if !has_range(first, count, chunk_count::<N>(len)) {
            return Ok(None);
        }
        let siblings = siblings_from::<D, N, AtCommit<'_, 32>>(
            self.bits.allocator(),
            &self.hash,
            len,
            &digests,
            first,
            count,
        )?;
        Ok(Some(siblings))
    }
}
