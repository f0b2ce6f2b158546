//! The chunks of a state, read by any index.

ghost use Rattle.std.specs.Prelude.{◌≡◌};

use crate::check::bytes_of;
use bitmap_core::bitmap::{Prunable, Readable};
use bitmap_core::chunk::chunk_count;
use historical_bitmap::bitmap::historical::AtCommit;

// A state whose retained chunks are read by index.
pub(crate) trait RetainedChunks<const N: usize> {
    ghost use Rattle.bitmap_core.specs.PrunedBits.{PrunedBits};
    ghost use Rattle.historical_bitmap.specs.Changes.{retained_bytes};

    // The state.
    ghost bits: { Self → PrunedBits };

    // Returns the bytes of a chunk, or `None` if none of its bits is retained. Any index is allowed.
    fn bytes_at(&self, chunk: u64) -> Option<[u8; N]>
        ensures { result ≡ retained_bytes N (bits self.now) chunk };
}

impl<const N: usize> RetainedChunks<N> for Prunable<N> {
    ghost bits = { λ b. b };

    fn bytes_at(&self, chunk: u64) -> Option<[u8; N]> {
        let total = chunk_count::<N>(self.len()) as u64;
        if chunk >= total {
            return None;
        }
        bytes_of(self, chunk as usize)
    }
}

impl<'a, const N: usize> RetainedChunks<N> for AtCommit<'a, N> {
    ghost bits = { λ b. b };

    fn bytes_at(&self, chunk: u64) -> Option<[u8; N]> {
        let total = chunk_count::<N>(self.len()) as u64;
        if chunk >= total {
            return None;
        }
        self.retained_bytes(chunk as usize)
    }
}
