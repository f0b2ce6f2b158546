//! SHA-256 as the hash of roots: an implementation of [`Digest`] over the proved SHA-256 of `sha2`.
//!
//! `authenticated_bitmap` takes any hash with digests of 32 bytes. This crate has the one that most
//! programs want, so that a library which has to choose a hash, as the C library does, needs no
//! code of tests.
#![tactic(auto)]

ghost use Rattle.sha2.specs.Sha256.{sha256};
ghost use Rattle.sha256_digest.specs.Sha256Hash.{sha256_is_hash};

use authenticated_bitmap::hash::Digest;
use sha2::{Digest as Hasher, Sha256 as Sha256Hasher};

/// SHA-256, as FIPS 180-4 defines it.
///
/// The digest of a list of bytes is `sha256` of `sha2`, for lists of fewer than 2^61 bytes, which
/// are those that the standard covers.
#[derive(Drop)]
pub struct Sha256;

impl Digest for Sha256 {
    ghost digest_of = { λ _. sha256 };

    ghost is_hash = { λ _. sha256_is_hash };

    fn digest(&self, tag: u8, first: &[u8], second: &[u8]) -> [u8; 32] {
        let tags = [tag];
        let mut hasher = Sha256Hasher::new();
        hasher.update(tags.as_slice());
        hasher.update(first);
        hasher.update(second);
        hasher.finalize()
    }

    fn digest_of_nothing(&self) -> [u8; 32] {
        Sha256Hasher::new().finalize()
    }
}
