//! An authenticated bitmap without pending edits.

ghost use Rattle.std.specs.Prelude.{◌≡◌, ◌<◌, ◌≤◌, ◌+◌, ◌^◌, ℕ, [], length, None, Some, Ok, IfErr, IfOk, IfSome, is_some, nat_le, alloc_error, if◌then◌else◌};
ghost use Rattle.std.specs.Option.{option_map};
ghost use Rattle.bitmap_bytes.specs.Chunk.{IsWidth};
ghost use Rattle.bitmap_core.specs.PrunedBits.{PrunedBits, chunk as chunk_of};
ghost use Rattle.historical_bitmap.specs.Batch.{begun};
ghost use Rattle.historical_bitmap.specs.Changes.{chunk_total};
ghost use Rattle.historical_bitmap.specs.History.{from_number, kept_under, up_to_number};
ghost use Rattle.historical_bitmap.specs.View.{history_of, marked_of, pending_of};
ghost use Rattle.historical_bitmap.specs.declared.bitmap.historical.error.RewindError.TheVariants.{Memory, NoSuchCommit};
ghost use Rattle.authenticated_bitmap.specs.Root.{IsBitmap, LeadsTo, chunk_digests, root_of};
ghost use Rattle.authenticated_bitmap.specs.Tree.{audit_path};
ghost use Rattle.authenticated_history.specs.Versions.{Follows, current_of, nothing, path_if, version_of};

use crate::dirty::DirtyAuthenticatedBitMap;
use crate::reading::{path_from, root_from};
use authenticated_bitmap::hash::Digest;
use bitmap_core::bitmap::{Prunable, Readable};
use bitmap_core::chunk::chunk_count;
use historical_bitmap::bitmap::historical::{AtCommit, CleanBitMap, RewindError};
use std::alloc::{AllocError, Global};
use std::marker::Model;

/// A historical bitmap in chunks of `N` bytes, with the digests of its chunks under the hash `D`,
/// for the current bitmap and for every version that it keeps.
///
/// The digests are the chunks of a second historical bitmap, which is committed, pruned and rewound
/// together with the first. So a root or an audit path of a kept version needs a few stored digests
/// and a few hashes, and no chunk of the version is read.
///
/// # Memory
/// The two historical bitmaps. The second stores fewer than two digests of 32 bytes per chunk of
/// the first, pruned ones too, and per commit at most 62 per changed chunk.
#[derive(Drop)]
pub struct AuthenticatedBitMap<const N: usize, D: Digest> {
    pub(crate) hash: D,
    pub(crate) bits: CleanBitMap<N>,
    pub(crate) digests: CleanBitMap<32>,
}

impl<const N: usize, D: Digest> Model for AuthenticatedBitMap<N, D> {
    ghost use Rattle.std.specs.Prelude.{⊤};
    ghost use Rattle.authenticated_history.specs.Versions.{Authenticated, Follows};

    ghost Value = { Authenticated D ⊤ };

    ghost view = { λ v. record { hash = v.hash; bits = v.bits; digests = v.digests } };

    ghost invariant = { λ v. Follows (D.digest_of v.hash) N v.bits v.digests };
}

impl<const N: usize, D: Digest> AuthenticatedBitMap<N, D> {
    /// Returns an empty bitmap: no bits, no pruned chunks and no commits.
    ///
    /// `N`, the width of a chunk in bytes, has to be at least 1, and `8 * N` has to fit `u64`. Does not allocate; constant time.
    pub fn new(alloc: Global, hash: D) -> Self
        requires width { IsWidth N }
        ensures { result ≡ record { hash = hash; bits = nothing; digests = nothing } }
    {
        let bits = CleanBitMap::new(alloc);
        let digests = CleanBitMap::new(alloc);
        AuthenticatedBitMap {
            hash,
            bits,
            digests,
        }
    }

    /// Returns the historical bitmap. Its commits are the kept versions.
    ///
    /// Does not allocate; constant time.
    pub fn bits(&self) -> &CleanBitMap<N>
        ensures { result.now ≡ self.now.bits }
    {
        &self.bits
    }

    /// Returns the hash.
    ///
    /// Does not allocate; constant time.
    pub fn hash(&self) -> &D
        ensures { result.now ≡ self.now.hash }
    {
        &self.hash
    }

    /// Turns the bitmap into a batch with no pending edits.
    ///
    /// Does not allocate; constant time.
    pub fn into_dirty(self) -> DirtyAuthenticatedBitMap<N, D>
        ensures value { result ≡ record {
          hash = self.hash;
          bits = begun N self.bits;
          digests = self.digests;
        } }
        ensures pending { pending_of N result.bits ≡ self.bits.current }
        ensures marks { marked_of N result.bits ≡ [] }
        ensures follows { Follows (D.digest_of result.hash) N result.bits result.digests }
    {
        let count = chunk_count::<N>(self.bits.len()) as u64;
        let bits = self.bits.into_dirty();
        DirtyAuthenticatedBitMap {
            hash: self.hash,
            bits,
            digests: self.digests,
            count,
        }
    }

    /// Returns the root of the current bitmap.
    ///
    /// # Memory
    /// Does not allocate.
    ///
    /// # Complexity
    /// Logarithmic in the number of chunks: reads and hashes one digest per set bit of that number.
    pub fn root(&self) -> [u8; 32]
        ensures value { result ≡ root_of (D.digest_of self.now.hash) (current_of N self.now) }
        ensures bitmap { IsBitmap (current_of N self.now) }
    {
        root_from::<D, N, Prunable<32>>(
            &self.hash,
            self.bits.len(),
            self.bits.pruned_chunks(),
            self.digests.current(),
        )
    }

    /// Returns the root of the bitmap at commit `number`, or `None` if that commit is not kept.
    ///
    /// # Memory
    /// Does not allocate.
    ///
    /// # Complexity
    /// A search among the kept commits, and then logarithmic in the number of chunks: reads one
    /// digest per set bit of that number, each as `at` of a historical bitmap reads a chunk, and
    /// hashes as many.
    pub fn root_at(&self, number: u64) -> Option<[u8; 32]>
        ensures value { result ≡ option_map (root_of (D.digest_of self.now.hash))
            (version_of N self.now number) }
        ensures kept { is_some result ≡ is_some (kept_under (history_of N self.now.bits) number) }
        ensures bitmap { IfSome (version_of N self.now number) IsBitmap }
    {
        let bits = self.bits.at(number)?;
        let digests = self.digests.at(number)?;
        Some(root_from::<D, N, AtCommit<'_, 32>>(
            &self.hash,
            bits.len(),
            bits.pruned_chunks(),
            &digests,
        ))
    }

    /// Returns the audit path of a chunk of the current bitmap, by its absolute index. The chunk is
    /// one of the bitmap, pruned or not.
    ///
    /// If the chunk is retained, it and the path lead to the root of the current bitmap. Bits of the chunk past the length are zero.
    ///
    /// # Errors
    /// `AllocError` if an allocation fails.
    ///
    /// # Memory
    /// Allocates 32 bytes per digest of the path, of which there are at most 61.
    ///
    /// # Complexity
    /// Quadratic in the logarithm of the number of chunks, and most digests of the path are read
    /// and not computed.
    pub fn prove(&self, chunk: usize) -> Result<Vec<[u8; 32]>, AllocError>
        requires { chunk < chunk_total N self.now.bits.current }
        ensures path { IfOk result (λ path.
            path.items ≡ audit_path (D.digest_of self.now.hash) chunk
            (chunk_digests (D.digest_of self.now.hash) (current_of N self.now))) }
        ensures shows { self.now.bits.current.pruned ≤ chunk
            → IfOk result (λ path. LeadsTo (D.digest_of self.now.hash)
            (root_of (D.digest_of self.now.hash) (current_of N self.now))
            (current_of N self.now).shape chunk
            (chunk_of N self.now.bits.current chunk) path.items) }
    {
        path_from::<D, N, Prunable<32>>(
            self.bits.allocator(),
            &self.hash,
            self.bits.len(),
            self.digests.current(),
            chunk,
        )
    }

    /// Returns the audit path of a chunk of the bitmap at commit `number`, by its absolute index. Returns `None` if that commit is not kept, or if the
    /// bitmap at it has no such chunk.
    ///
    /// If the chunk is retained at that commit, it and the path lead to the root that [`root_at`](AuthenticatedBitMap::root_at) returns for it.
    /// Bits of the chunk past the length are zero. `get_chunk` of `at` may return others there.
    ///
    /// # Errors
    /// `AllocError` if an allocation fails.
    ///
    /// # Memory
    /// Allocates 32 bytes per digest of the path, of which there are at most 61. Does not allocate if it returns `None`.
    ///
    /// # Complexity
    /// A search among the kept commits, and then quadratic in the logarithm of the number of chunks. Most digests of the path are read, each as `at`
    /// of a historical bitmap reads a chunk, and not computed.
    pub fn prove_at(&self, number: u64, chunk: usize) -> Result<Option<Vec<[u8; 32]>>, AllocError>
        ensures path { IfOk result (λ found.
            option_map (λ path. path.items) found
            ≡ path_if (D.digest_of self.now.hash) chunk (version_of N self.now number)) }
        ensures shows { (s : PrunedBits) → kept_under (history_of N self.now.bits) number ≡ Some s
            → s.pruned ≤ chunk
            → IfOk result (λ found. IfSome found (λ path.
            IfSome (version_of N self.now number) (λ b.
            LeadsTo (D.digest_of self.now.hash)
            (root_of (D.digest_of self.now.hash) b) b.shape chunk
            (chunk_of N s chunk) path.items))) }
    {
        let Some(bits) = self.bits.at(number) else {
            return Ok(None);
        };
        let Some(digests) = self.digests.at(number) else {
            return Ok(None);
        };
        let len = bits.len();
        if chunk >= chunk_count::<N>(len) {
            return Ok(None);
        }
        let path = path_from::<D, N, AtCommit<'_, 32>>(
            self.bits.allocator(),
            &self.hash,
            len,
            &digests,
            chunk,
        )?;
        Ok(Some(path))
    }

    /// Drops the kept versions whose numbers are below `number`, and returns how many were dropped.
    ///
    /// The current bitmap, its root, the other versions and the last number are unchanged. Does not allocate.
    ///
    /// # Complexity
    /// At most linear in the dropped commits and the entries of their reverse records, which are freed.
    pub fn prune_commits_before(&mut self, number: u64) -> usize
        ensures hash { self.new.hash ≡ self.old.hash }
        ensures bits { self.new.bits
            ≡ record self.old.bits { commits = from_number number self.old.bits.commits } }
        ensures history { history_of N self.new.bits
            ≡ from_number number (history_of N self.old.bits) }
        ensures current { current_of N self.new ≡ current_of N self.old }
        ensures versions { (k : ℕ)
            → version_of N self.new k
            ≡ (if nat_le number k then version_of N self.old k else None) }
        ensures count { result + length (history_of N self.new.bits)
            ≡ length (history_of N self.old.bits) }
    {
        self.digests.prune_commits_before(number);
        self.bits.prune_commits_before(number)
    }

    /// Drops all kept versions.
    ///
    /// The current bitmap, its root and the last number are unchanged. Does not allocate.
    ///
    /// # Complexity
    /// At most linear in the kept commits and the entries of their reverse records, which are freed.
    pub fn clear_history(&mut self)
        ensures hash { self.new.hash ≡ self.old.hash }
        ensures bits { self.new.bits ≡ record self.old.bits { commits = [] } }
        ensures current { current_of N self.new ≡ current_of N self.old }
        ensures versions { (k : ℕ) → version_of N self.new k ≡ None }
    {
        self.digests.clear_history();
        self.bits.clear_history();
    }

    /// Rewinds to commit `number`: the bitmap at that commit becomes the current one, and the versions past it are dropped.
    ///
    /// The other versions are unchanged. `number` becomes the last number, so the next commit has to have a greater one. The digests are rewound in a
    /// copy of them, since a failed call has to leave them as they were, and then the bitmap is rewound in place.
    ///
    /// # Errors
    /// `NoSuchCommit` if the number is not kept, as `u64::MAX` never is; else `Memory` if an allocation fails, or if there are more than
    /// 2^31 - 1 chunks or digests to restore. The bitmap is returned unchanged with the error.
    ///
    /// # Memory
    /// Allocates a copy of the digests, those of the kept versions too, and what `rewind_to` of the two historical bitmaps allocates.
    /// Does not allocate if the number is not kept.
    ///
    /// # Complexity
    /// Linear in the digests and in those of the kept versions, and then that of `rewind_to` of the two historical bitmaps. Hashes nothing.
    pub fn rewind_to(
        self,
        number: u64,
    ) -> Result<AuthenticatedBitMap<N, D>, (AuthenticatedBitMap<N, D>, RewindError)>
        ensures refused { IfErr result (λ e.
            e.1 ≡ (if is_some (kept_under (history_of N self.bits) number) then Memory alloc_error
            else NoSuchCommit)) }
        ensures unchanged { IfErr result (λ e. e.0 ≡ self) }
        ensures hash { IfOk result (λ b. b.hash ≡ self.hash) }
        ensures current { IfOk result (λ b.
            kept_under (history_of N self.bits) number ≡ Some b.bits.current) }
        ensures history { IfOk result (λ b.
            history_of N b.bits ≡ up_to_number number (history_of N self.bits)) }
        ensures last { IfOk result (λ b. b.bits.last ≡ Some number) }
        ensures version { IfOk result (λ b. version_of N self number ≡ Some (current_of N b)) }
        ensures versions { IfOk result (λ b.
            (k : ℕ) → version_of N b k ≡ (if nat_le k number then version_of N self k else None)) }
    {
        if !self.bits.commit_exists(number) {
            return Err((self, RewindError::NoSuchCommit));
        }
        let Ok(copy) = self.digests.clone() else {
            return Err((self, RewindError::Memory(AllocError)));
        };
        let Ok(digests) = copy.rewind_to(number) else {
            return Err((self, RewindError::Memory(AllocError)));
        };
        let hash = self.hash;
        match self.bits.rewind_to(number) {
            Ok(bits) => Ok(AuthenticatedBitMap {
                hash,
                bits,
                digests,
            }),
            Err((bits, why)) => {
                let digests = self.digests;
                let bitmap = AuthenticatedBitMap {
                    hash,
                    bits,
                    digests,
                };
                Err((bitmap, why))
            }
        }
    }
}
