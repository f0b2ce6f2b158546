//! SHA-256 as the hash of a tree.

ghost use Rattle.sha2.specs.Sha256.{sha256};
ghost use Rattle.conformance_authenticated.specs.Sha.{sha256_is_hash};

use authenticated_bitmap::hash::Digest;
use sha2::{Digest as Hasher, Sha256};

/// SHA-256.
#[derive(Drop)]
pub struct Sha;

impl Digest for Sha {
    ghost digest_of = { λ _. sha256 };

    ghost is_hash = { λ _. sha256_is_hash };

    fn digest(&self, tag: u8, first: &[u8], second: &[u8]) -> [u8; 32] {
        let tags = [tag];
        let mut hasher = Sha256::new();
        hasher.update(tags.as_slice());
        hasher.update(first);
        hasher.update(second);
        hasher.finalize()
    }

    fn digest_of_nothing(&self) -> [u8; 32] {
        Sha256::new().finalize()
    }
}
