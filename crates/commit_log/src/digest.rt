//! Digests of bytes: SipHash-1-3 with both keys 0, which is the hasher that `DefaultHasher::new` makes.

ghost use Rattle.std.specs.Prelude.{◌≡◌};
ghost use Rattle.bitmap_bytes.specs.Chunk.{IsWidth};
ghost use Rattle.log_frames.specs.Digest.{digest};
ghost use Rattle.commit_log.specs.Delta.{replaced};
ghost use Rattle.commit_log.specs.Entries.{all_chunks};

use crate::check::split_chunk;
use crate::retained::RetainedChunks;
use std::hash::{DefaultHasher, Hasher};

// Returns the digest of the bytes.
#[tactic(auto, unfolding(log_frames::specs::Digest::digest))]
pub(crate) fn digest_of(bytes: &[u8]) -> u64
    ensures { result ≡ digest bytes.now }
{
    let mut hasher = DefaultHasher::new();
    hasher.write(bytes);
    hasher.finish()
}

// Returns the digest of the bytes that a list of chunks replaces in an older state.
pub(crate) fn digest_of_replaced<S: RetainedChunks<N>, const N: usize>(
    older: &S,
    chunks: &[u8],
) -> u64
    requires { IsWidth N }
    ensures { result ≡ digest (replaced N (S.bits older.now) (all_chunks N chunks.now)) }
{
    let mut hasher = DefaultHasher::new();
    let mut rest = chunks;
    while let Some((index, _, after)) = split_chunk::<N>(rest) {
        if let Some(bytes) = older.bytes_at(index) {
            hasher.write(&bytes);
        }
        rest = after;
    }
    hasher.finish()
}
