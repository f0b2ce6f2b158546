//! Digests of bytes: SipHash-1-3 with both keys 0, which is the hasher that `DefaultHasher::new` makes.

ghost use Rattle.std.specs.Prelude.{◌≡◌, ◌++◌};
ghost use Rattle.log_frames.specs.Digest.{digest};

use std::hash::{DefaultHasher, Hasher};

// Returns the digest of the bytes.
#[tactic(auto, unfolding(crate::specs::Digest::digest))]
pub fn digest_of(bytes: &[u8]) -> u64
    ensures { result ≡ digest bytes.now }
{
    let mut hasher = DefaultHasher::new();
    hasher.write(bytes);
    hasher.finish()
}

// Returns the digest of `first` and, after it, `second`.
pub fn digest_of_both(first: &[u8], second: &[u8]) -> u64
    ensures { result ≡ digest (first.now ++ second.now) }
{
    let mut hasher = DefaultHasher::new();
    hasher.write(first);
    hasher.write(second);
    hasher.finish()
}
