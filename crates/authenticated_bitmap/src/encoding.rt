//! A proof of a chunk as a value, and its encoding.
//!
//! The encoding has five numbers, each in eight bytes, most significant byte first: `N`, the length
//! of the bitmap in bits, the number of pruned chunks, the index of the chunk, and the number of
//! digests of the audit path. The bytes of the chunk follow, and then the digests, 32 bytes each,
//! the leaf's sibling first. Each proof has one encoding, and bytes are the encoding of one proof
//! at most.

ghost use Rattle.std.specs.Prelude.{◌≡◌, ◌↔◌, ◌^◌, ◌*◌, ◌<◌, ◌+◌, ◌≤◌, ℕ, List, length, Ok, Err, IfOk, IsTrue, MatchResult};
ghost use Rattle.authenticated_bitmap.specs.Encoding.{IsReadAgain, IsWrittenSo, encoding, number_at as number_in, proof_in};
ghost use Rattle.authenticated_bitmap.specs.Root.{BindsChunk, LeadsTo};

use crate::hash::Digest;
use crate::root::{header_bytes, verify_chunk};
use std::alloc::{AllocError, Global};

/// Why bytes are not the encoding of a proof. [`Proof::read`] and
/// [`RangeProof::read`](crate::range_encoding::RangeProof::read) report the first of these that
/// applies.
#[derive(Clone, Copy, Debug, PartialEq, Eq)]
pub enum DecodeError {
    /// There are fewer bytes than the numbers of a proof have: 40 for a chunk, and 48 for a range.
    Short,

    /// The proof is of a bitmap with chunks of this many bytes.
    Width(u64),

    /// The proof has this many digests, which is more than 64 for a chunk, or 128 for a range.
    TooManyDigests(u64),

    /// The number of bytes is not that of the numbers, and `N` for each chunk, and 32 for each
    /// digest.
    Length,
}

/// A proof of a chunk: what [`verify_chunk`] takes besides the hash and the root.
#[derive(Clone, Copy)]
pub struct Proof<'a, const N: usize> {
    /// The length of the bitmap in bits, with the pruned ones.
    pub len: u64,

    /// The number of pruned chunks.
    pub pruned: u64,

    /// The absolute index of the chunk.
    pub index: u64,

    /// The bytes of the chunk.
    pub chunk: &'a [u8; N],

    /// The audit path of the chunk, its sibling first.
    pub path: &'a [[u8; 32]],
}

/// What is read is encoded so: if bytes are read as a proof, they are its encoding.
pub fn what_is_read_is_the_encoding()
    ensures { IsWrittenSo }
{}

/// An encoding is read again: the encoding of a proof with at most 64 digests is read as that
/// proof.
pub fn encodings_are_read_again()
    ensures { IsReadAgain }
{}

// The number in the eight bytes from `start` on, most significant byte first.
pub(crate) fn number_at(bytes: &[u8], start: usize) -> u64
    requires { start + 8 ≤ length bytes.now }
    ensures { result ≡ number_in start bytes.now }
{
    let (number, _) = bytes[start..].split_first_chunk::<8>().unwrap();
    u64::from_be_bytes(*number)
}

impl<'a, const N: usize> Proof<'a, N> {
    /// Reads a proof from its encoding. The proof borrows its chunk and its path from the bytes.
    ///
    /// `8N` fits `u64`.
    ///
    /// # Errors
    /// The first in the order of [`DecodeError`] that applies.
    ///
    /// # Memory
    /// Does not allocate.
    ///
    /// # Complexity
    /// Constant time.
    pub fn read(bytes: &'a [u8]) -> Result<Proof<'a, N>, DecodeError>
        requires { 8 * N < 2 ^ 64 }
        ensures { MatchResult result (λ p. proof_in N bytes.now ≡ Ok (record {
          shape = record { width = N; len = p.len; pruned = p.pruned };
          index = p.index;
          chunk = p.chunk.now;
          path = p.path.now;
        }))
            (λ e. proof_in N bytes.now ≡ Err e) }
    {
        if bytes.len() < 40 {
            return Err(DecodeError::Short);
        }
        let width = number_at(bytes, 0);
        if width != N as u64 {
            return Err(DecodeError::Width(width));
        }
        let count = number_at(bytes, 32);
        if count > 64 {
            return Err(DecodeError::TooManyDigests(count));
        }
        let rest = &bytes[40..];
        match rest.split_first_chunk::<N>() {
            None => Err(DecodeError::Length),
            Some((chunk, digests)) => {
                if digests.len() as u64 != 32 * count {
                    return Err(DecodeError::Length);
                }
                let (path, _) = digests.as_chunks::<32>();
                Ok(Proof {
                    len: number_at(bytes, 8),
                    pruned: number_at(bytes, 16),
                    index: number_at(bytes, 24),
                    chunk,
                    path,
                })
            }
        }
    }

    /// Returns the encoding of the proof.
    ///
    /// `8N` fits `u64`.
    ///
    /// # Errors
    /// `AllocError` if an allocation fails.
    ///
    /// # Memory
    /// Allocates the bytes of the encoding: 40, `N`, and 32 per digest.
    ///
    /// # Complexity
    /// Linear in the number of bytes.
    pub fn write(&self, alloc: Global) -> Result<Vec<u8>, AllocError>
        requires { 8 * N < 2 ^ 64 }
        ensures { IfOk result (λ bytes. bytes.items ≡ encoding (record {
          shape = record { width = N; len = self.now.len; pruned = self.now.pruned };
          index = self.now.index;
          chunk = self.now.chunk.now;
          path = self.now.path.now;
        })) }
    {
        let chunk = self.chunk;
        let path = self.path;
        let mut bytes = Vec::new(alloc);
        bytes.extend_from_slice(&header_bytes(N as u64, self.len, self.pruned))?;
        bytes.extend_from_slice(&self.index.to_be_bytes())?;
        bytes.extend_from_slice(&(path.len() as u64).to_be_bytes())?;
        bytes.extend_from_slice(chunk)?;
        bytes.extend_from_slice(path.as_flattened())?;
        Ok(bytes)
    }

    /// Returns whether the proof verifies against a root, by [`verify_chunk`].
    ///
    /// `N` is at least 1, and `8N` fits `u64`.
    ///
    /// # Memory
    /// Does not allocate.
    ///
    /// # Complexity
    /// As [`verify_chunk`].
    pub fn verify<D: Digest>(&self, hash: &D, root: &[u8; 32]) -> bool
        requires some { 0 < N }
        requires fits { 8 * N < 2 ^ 64 }
        ensures value { IsTrue result ↔ LeadsTo (D.digest_of hash.now) root.now
            (record { width = N; len = self.now.len; pruned = self.now.pruned })
            self.now.index self.now.chunk.now self.now.path.now }
        ensures binds { IsTrue result → BindsChunk (D.digest_of hash.now) root.now
            (record { width = N; len = self.now.len; pruned = self.now.pruned })
            self.now.index self.now.chunk.now self.now.path.now }
    {
        verify_chunk(
            hash,
            root,
            self.len,
            self.pruned,
            self.index,
            self.chunk,
            self.path,
        )
    }
}
