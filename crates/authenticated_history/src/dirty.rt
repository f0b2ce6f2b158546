//! A batch of an authenticated bitmap.

ghost use Rattle.std.specs.Prelude.{◌≡◌, ◌≢◌, [], ◌∷◌, ◌++◌, ℕ, IfErr, IfOk, None, OnOk, Some, unwrap_or, alloc_error};
ghost use Rattle.std.specs.Borrow.{Lends, sem};
ghost use Rattle.historical_bitmap.specs.Batch.{aborted};
ghost use Rattle.historical_bitmap.specs.Lends.{dirty_row};
ghost use Rattle.historical_bitmap.specs.View.{AddsCost, commit_error, history_of, pending_of};
ghost use Rattle.historical_bitmap.specs.declared.bitmap.historical.error.Error.TheVariants.{Memory};
ghost use Rattle.authenticated_bitmap.specs.LeafDigests.{next_leaves};
ghost use Rattle.authenticated_bitmap.specs.Root.{chunk_digests};
ghost use Rattle.authenticated_history.specs.Versions.{Follows, current_of, version_of};
ghost use Rattle.authenticated_history.specs.contracts.dirty.DirtyAuthenticatedBitMap.{the_row};

use crate::clean::AuthenticatedBitMap;
use crate::committing::commit_digests;
use authenticated_bitmap::hash::Digest;
use historical_bitmap::bitmap::historical::{CleanBitMap, DirtyBitMap, Error};
use std::alloc::AllocError;
use std::marker::Model;

/// A batch: an authenticated bitmap with pending edits, of which there may be none yet.
///
/// [`edits`](DirtyAuthenticatedBitMap::edits) lends the bitmap with its pending edits, a
/// `DirtyBitMap`, which has the calls that edit it. The digests stay those of the current bitmap
/// until the batch is committed.
///
/// [`commit`](DirtyAuthenticatedBitMap::commit) and [`abort`](DirtyAuthenticatedBitMap::abort)
/// require that the digests still follow the bitmap. They do after
/// [`into_dirty`](AuthenticatedBitMap::into_dirty), and after each edit, since no edit changes the
/// current bitmap, the commits or the last number. They may not if the lent bitmap is replaced by
/// another one.
///
/// # Memory
/// That of the authenticated bitmap, and of the pending edits.
#[derive(Drop)]
pub struct DirtyAuthenticatedBitMap<const N: usize, D> {
    pub(crate) hash: D,
    pub(crate) bits: DirtyBitMap<N>,
    pub(crate) digests: CleanBitMap<32>,
    // The number of chunks of the current bitmap, from which the digests are.
    pub(crate) count: u64,
}

impl<const N: usize, D> Model for DirtyAuthenticatedBitMap<N, D> {
    ghost use Rattle.historical_bitmap.specs.Pending.{PendingEdits};
    ghost use Rattle.authenticated_bitmap.specs.LeafDigests.{HasTreeSize};
    ghost use Rattle.authenticated_history.specs.Versions.{Authenticated};

    ghost Value = { Authenticated D PendingEdits };

    ghost view = { λ v. record { hash = v.hash; bits = v.bits; digests = v.digests } };

    ghost invariant = { λ v. HasTreeSize v.count v.digests.current };
}

impl<const N: usize, D> DirtyAuthenticatedBitMap<N, D> {
    /// Returns the bitmap with its pending edits.
    ///
    /// Does not allocate; constant time.
    pub fn bits(&self) -> &DirtyBitMap<N>
        ensures { result.now ≡ self.now.bits }
    {
        &self.bits
    }

    /// Lends the bitmap with its pending edits, to be edited.
    ///
    /// Does not allocate; constant time.
    pub fn edits(&mut self) -> &mut DirtyBitMap<N>
        ensures value { result.now ≡ self.old.bits }
        ensures* writes_back { sem 𝓛
            (Lends (the_row N.row D.row) (dirty_row N.row) self.entry result (λ w.
            record self.old { bits = w })) }
    {
        &mut self.bits
    }
}

impl<const N: usize, D: Digest> DirtyAuthenticatedBitMap<N, D> {
    /// Applies the pending edits, and keeps the result under a number. The digests are brought up
    /// to date, and kept under the same number.
    ///
    /// The digest of a pruned chunk stays as it was. A chunk that the batch both appended and pruned
    /// has the digest of a chunk of zero bytes, since no version has its bytes.
    ///
    /// The number has to be above the last number, and `u64::MAX` is reserved. The digests of the
    /// batch follow its bitmap: see [`DirtyAuthenticatedBitMap`].
    ///
    /// # Errors
    /// - `ReservedCommitNumber` if the number is `u64::MAX`;
    /// - `NonMonotonicCommit` if the number is not above the last number;
    /// - `Memory` if an allocation fails, or if the digests would have 2 to the power 64 bits or
    ///   more.
    ///
    /// The batch is returned with the error, unchanged.
    ///
    /// # Memory
    /// That of the commit of the bitmap, and of a commit of its digests, of which at most 62 per
    /// changed chunk change.
    ///
    /// # Complexity
    /// That of the commit of the bitmap, and per changed chunk at most 62 hashes and as many edited
    /// digests. A chunk that the batch both appended and pruned counts as a changed chunk. The other
    /// chunks are not read.
    pub fn commit(
        self,
        number: u64,
    ) -> Result<AuthenticatedBitMap<N, D>, (DirtyAuthenticatedBitMap<N, D>, Error)>
        requires { Follows (D.digest_of self.hash) N self.bits self.digests }
        ensures accepted { OnOk result (commit_error self.bits.last number ≡ None) }
        ensures refused { IfErr result (λ e.
            e.1 ≡ unwrap_or (commit_error self.bits.last number) (Memory alloc_error)) }
        ensures unchanged { IfErr result (λ e. e.0 ≡ self) }
        ensures hash { IfOk result (λ b. b.hash ≡ self.hash) }
        ensures current { IfOk result (λ b. b.bits.current ≡ pending_of N self.bits) }
        ensures history { IfOk result (λ b.
            history_of N b.bits ≡ history_of N self.bits ++ (number, pending_of N self.bits) ∷ []) }
        ensures last { IfOk result (λ b. b.bits.last ≡ Some number) }
        ensures costs { IfOk result (λ b. AddsCost N self.bits number b.bits) }
        ensures leaves { IfOk result (λ b. chunk_digests (D.digest_of self.hash) (current_of N b)
            ≡ next_leaves (D.digest_of self.hash) N
            (chunk_digests (D.digest_of self.hash) (current_of N self))
            (pending_of N self.bits)) }
        ensures version { IfOk result (λ b. version_of N b number ≡ Some (current_of N b)) }
        ensures versions { IfOk result (λ b.
            (k : ℕ) → k ≢ number → version_of N b k ≡ version_of N self k) }
    {
        // The prover learns the width from this call.
        let _ = self.bits.len();
        let hash = self.hash;
        let digests = self.digests;
        let count = self.count;
        match self.bits.prepare(number) {
            Ok(prepared) => match commit_digests(&hash, &prepared, digests, count) {
                Ok(digests) => {
                    let bits = prepared.commit();
                    // The prover learns from this call that the number is new.
                    let _ = bits.commits();
                    Ok(AuthenticatedBitMap {
                        hash,
                        bits,
                        digests,
                    })
                }
                Err(digests) => {
                    let bits = prepared.into_dirty();
                    let batch = DirtyAuthenticatedBitMap {
                        hash,
                        bits,
                        digests,
                        count,
                    };
                    Err((batch, Error::Memory(AllocError)))
                }
            },
            Err((bits, why)) => {
                let batch = DirtyAuthenticatedBitMap {
                    hash,
                    bits,
                    digests,
                    count,
                };
                Err((batch, why))
            }
        }
    }

    /// Drops the pending edits: the result is the bitmap that became this batch.
    ///
    /// The digests of the batch follow its bitmap: see [`DirtyAuthenticatedBitMap`].
    ///
    /// # Memory
    /// Does not allocate.
    ///
    /// # Complexity
    /// Linear in the pending edits, which are freed.
    pub fn abort(self) -> AuthenticatedBitMap<N, D>
        requires { Follows (D.digest_of self.hash) N self.bits self.digests }
        ensures { result ≡ record {
          hash = self.hash;
          bits = aborted self.bits;
          digests = self.digests;
        } }
    {
        let bits = self.bits.abort();
        AuthenticatedBitMap {
            hash: self.hash,
            bits,
            digests: self.digests,
        }
    }
}
