//! A proof of a range as a value, and its encoding.
//!
//! The encoding has six numbers, each in eight bytes, most significant byte first: `N`, the length
//! of the bitmap in bits, the number of pruned chunks, the index of the first chunk, the number of
//! chunks, and the number of siblings. The bytes of the chunks follow, and then the siblings, 32
//! bytes each, from left to right. Each proof has one encoding, and bytes are the encoding of one
//! proof at most.

ghost use Rattle.std.specs.Prelude.{◌≡◌, ◌↔◌, ◌^◌, ◌*◌, ◌<◌, Ok, Err, IfOk, IsTrue, MatchResult};
ghost use Rattle.authenticated_bitmap.specs.Range.{BindsRange, RangeLeadsTo};
ghost use Rattle.authenticated_bitmap.specs.RangeEncoding.{IsRangeReadAgain, IsRangeWrittenSo, range_encoding as encoding_of, range_proof_in};

use crate::encoding::{DecodeError, number_at};
use crate::hash::Digest;
use crate::range::verify_range;
use crate::root::header_bytes;
use std::alloc::{AllocError, Global};

/// A proof of a range: what [`verify_range`] takes besides the hash and the root.
#[derive(Clone, Copy)]
pub struct RangeProof<'a, const N: usize> {
    /// The length of the bitmap in bits, with the pruned ones.
    pub len: u64,

    /// The number of pruned chunks.
    pub pruned: u64,

    /// The absolute index of the first chunk.
    pub first: u64,

    /// The bytes of the chunks.
    pub chunks: &'a [[u8; N]],

    /// The siblings of the range, from left to right.
    pub siblings: &'a [[u8; 32]],
}

/// What is read is encoded so: if bytes are read as a proof of a range, they are its encoding.
pub fn what_is_read_is_the_range_encoding()
    ensures { IsRangeWrittenSo }
{}

/// An encoding is read again: the encoding of a proof of a range with at most 128 siblings is read
/// as that proof.
pub fn range_encodings_are_read_again()
    ensures { IsRangeReadAgain }
{}

impl<'a, const N: usize> RangeProof<'a, N> {
    /// Reads a proof from its encoding. The proof borrows its chunks and its siblings from the
    /// bytes.
    ///
    /// `N` is at least 1, and `8N` fits `u64`.
    ///
    /// # Errors
    /// The first in the order of [`DecodeError`] that applies.
    ///
    /// # Memory
    /// Does not allocate.
    ///
    /// # Complexity
    /// Constant time.
    pub fn read(bytes: &'a [u8]) -> Result<RangeProof<'a, N>, DecodeError>
        requires some { 0 < N }
        requires fits { 8 * N < 2 ^ 64 }
        ensures { MatchResult result (λ p. range_proof_in N bytes.now ≡ Ok (record {
          shape = record { width = N; len = p.len; pruned = p.pruned };
          first = p.first;
          chunks = p.chunks.now;
          siblings = p.siblings.now;
        }))
            (λ e. range_proof_in N bytes.now ≡ Err e) }
    {
        if bytes.len() < 48 {
            return Err(DecodeError::Short);
        }
        let width = number_at(bytes, 0);
        if width != N as u64 {
            return Err(DecodeError::Width(width));
        }
        let digests = number_at(bytes, 40);
        if digests > 128 {
            return Err(DecodeError::TooManyDigests(digests));
        }
        let rest = &bytes[48..];
        let size = 32 * digests as usize;
        if rest.len() < size {
            return Err(DecodeError::Length);
        }
        let (front, back) = rest.split_at(rest.len() - size);
        let (chunks, remainder) = front.as_chunks::<N>();
        let count = number_at(bytes, 32);
        if chunks.len() as u64 != count || !remainder.is_empty() {
            return Err(DecodeError::Length);
        }
        let (siblings, _) = back.as_chunks::<32>();
        Ok(RangeProof {
            len: number_at(bytes, 8),
            pruned: number_at(bytes, 16),
            first: number_at(bytes, 24),
            chunks,
            siblings,
        })
    }

    /// Returns the encoding of the proof.
    ///
    /// `8N` fits `u64`.
    ///
    /// # Errors
    /// `AllocError` if an allocation fails.
    ///
    /// # Memory
    /// Allocates the bytes of the encoding: 48, `N` per chunk, and 32 per sibling.
    ///
    /// # Complexity
    /// Linear in the number of bytes.
    pub fn write(&self, alloc: Global) -> Result<Vec<u8>, AllocError>
        requires { 8 * N < 2 ^ 64 }
        ensures { IfOk result (λ bytes. bytes.items ≡ encoding_of (record {
          shape = record { width = N; len = self.now.len; pruned = self.now.pruned };
          first = self.now.first;
          chunks = self.now.chunks.now;
          siblings = self.now.siblings.now;
        })) }
    {
        let chunks = self.chunks;
        let siblings = self.siblings;
        let mut bytes = Vec::new(alloc);
        bytes.extend_from_slice(&header_bytes(N as u64, self.len, self.pruned))?;
        bytes.extend_from_slice(&self.first.to_be_bytes())?;
        bytes.extend_from_slice(&(chunks.len() as u64).to_be_bytes())?;
        bytes.extend_from_slice(&(siblings.len() as u64).to_be_bytes())?;
        bytes.extend_from_slice(chunks.as_flattened())?;
        bytes.extend_from_slice(siblings.as_flattened())?;
        Ok(bytes)
    }

    /// Returns whether the proof verifies against a root, by [`verify_range`].
    ///
    /// `N` is at least 1, and `8N` fits `u64`.
    ///
    /// # Memory
    /// Does not allocate.
    ///
    /// # Complexity
    /// As [`verify_range`].
    pub fn verify<D: Digest>(&self, hash: &D, root: &[u8; 32]) -> bool
        requires some { 0 < N }
        requires fits { 8 * N < 2 ^ 64 }
        ensures value { IsTrue result ↔ RangeLeadsTo (D.digest_of hash.now) root.now
            (record { width = N; len = self.now.len; pruned = self.now.pruned })
            self.now.first self.now.chunks.now self.now.siblings.now }
        ensures binds { IsTrue result → BindsRange (D.digest_of hash.now) root.now
            (record { width = N; len = self.now.len; pruned = self.now.pruned })
            self.now.first self.now.chunks.now self.now.siblings.now }
    {
        verify_range(
            hash,
            root,
            self.len,
            self.pruned,
            self.first,
            self.chunks,
            self.siblings,
        )
    }
}
