//! The hash that a tree is made with.

ghost use Rattle.std.specs.Prelude.{◌≡◌, ◌∷◌, ◌++◌, ℕ, List, []};
ghost use Rattle.authenticated_bitmap.specs.Tree.{IsHash};

/// A hash function whose digests have 32 bytes.
///
/// Nothing is assumed of it but that its digests have 32 bytes: that two inputs with one digest
/// are hard to find is what makes a root useful, and no proof depends on it.
pub trait Digest {
    /// The digest of a list of bytes.
    ghost digest_of: { Self → List ℕ → List ℕ };

    /// Returns the digest of a tag byte followed by two slices.
    ///
    /// The three parts are hashed one after another, so that a caller does not join them in memory.
    fn digest(&self, tag: u8, first: &[u8], second: &[u8]) -> [u8; 32]
        ensures { result ≡ digest_of self.now (tag ∷ first.now ++ second.now) };

    /// Returns the digest of no bytes.
    fn digest_of_nothing(&self) -> [u8; 32]
        ensures { result ≡ digest_of self.now [] };

    /// Each digest is a list of 32 bytes.
    ghost is_hash: { (hash : Self) → IsHash (digest_of hash) };
}
