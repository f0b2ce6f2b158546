//! Where stored digests are read from: a slice, or a bitmap whose chunks they are.

ghost use Rattle.std.specs.Prelude.{◌≡◌, ◌<◌, ℕ, List, [], length, slice_index_or};
ghost use Rattle.authenticated_bitmap.specs.StoredBitmap.{full_chunks};

use bitmap_core::bitmap::Readable;
use bitmap_core::chunk::facts::known;
use std::marker::Model;

/// Stored digests that are read by place.
pub(crate) trait Nodes {
    /// The digests, in the order of their places.
    ghost held: { Self → List (List ℕ) };

    /// Returns the digest at a place.
    fn node(&self, place: u64) -> [u8; 32]
        requires { place < length (held self.now) }
        ensures { result ≡ slice_index_or (held self.now) place [] };
}

/// The digests of a slice.
#[derive(Drop)]
pub(crate) struct InSlice<'a>(pub(crate) &'a [[u8; 32]]);

impl<'a> Nodes for InSlice<'a> {
    ghost held = { λ s. s.0.now };

    fn node(&self, place: u64) -> [u8; 32] {
        self.0[place as usize]
    }
}

/// The full chunks of a bitmap of width 32 in which nothing is pruned.
#[derive(Drop)]
pub(crate) struct InBitmap<'a, B: Readable<32>> {
    chunks: &'a B,
}

impl<'a, B: Readable<32>> Model for InBitmap<'a, B> {
    ghost use Rattle.std.specs.Prelude.{◌≡◌, ℕ, List};
    ghost use Rattle.authenticated_bitmap.specs.StoredBitmap.{full_chunks};

    ghost Value = { List (List ℕ) };

    ghost view = { λ b. full_chunks (B.meaning b.chunks.now) };

    ghost invariant = { λ b. (B.meaning b.chunks.now).pruned ≡ 0 };
}

impl<'a, B: Readable<32>> InBitmap<'a, B> {
    /// Reads the chunks of a bitmap.
    pub(crate) fn new(chunks: &'a B) -> Self
        requires { (B.meaning chunks.now).pruned ≡ 0 }
        ensures { result ≡ full_chunks (B.meaning chunks.now) }
    {
        InBitmap { chunks }
    }
}

impl<'a, B: Readable<32>> Nodes for InBitmap<'a, B> {
    ghost held = { λ b. b };

    fn node(&self, place: u64) -> [u8; 32] {
        let digest = self.chunks.get_chunk(place as usize);
        known(&digest);
        digest
    }
}
