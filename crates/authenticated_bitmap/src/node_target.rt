//! Where stored digests are edited: a vector, a slice, or a batch whose chunks they are.

ghost use Rattle.std.specs.Prelude.{⊤, ◌≡◌, ◌<◌, ◌++◌, ℕ, List, [], ◌∷◌, IsOk, OnErr, OnOk, length, slice_index_or, slice_set};
ghost use Rattle.authenticated_bitmap.specs.StoredBitmap.{HasWholeChunks, IsOnBaseOf, digests_in};

use crate::node_source::{InBitmap, Nodes};
use bitmap_core::chunk::facts::known;
use historical_bitmap::bitmap::historical::DirtyBitMap;
use std::alloc::AllocError;

/// Stored digests that are read and edited by place.
pub(crate) trait EditNodes {
    /// The digests, in the order of their places.
    ghost held: { Self → List (List ℕ) };

    /// The digests can be edited.
    ghost is_ready: { Self → Type 0 };

    /// The second value has what the first one has besides its digests.
    ghost has_rest: { Self → Self → Type 0 };

    /// Returns the digest at a place.
    fn node(&self, place: u64) -> [u8; 32]
        requires ready { is_ready self.now }
        requires within { place < length (held self.now) }
        ensures { result ≡ slice_index_or (held self.now) place [] };
}

/// Stored digests to which others can be appended.
pub(crate) trait AppendNodes: EditNodes {
    /// Appends a digest.
    fn push_node(&mut self, digest: &[u8; 32]) -> Result<(), AllocError>
        requires ready { Self.is_ready self.old }
        ensures ok { OnOk result (Self.held self.new ≡ Self.held self.old ++ digest.now ∷ []) }
        ensures err { OnErr result (Self.held self.new ≡ Self.held self.old) }
        ensures ready { Self.is_ready self.new }
        ensures rest { (begun : Self) → Self.has_rest begun self.old
            → Self.has_rest begun self.new };
}

/// Stored digests that can be replaced.
pub(crate) trait ReplaceNodes: EditNodes {
    /// No call of `set_node` fails.
    ghost never_fails: { Type 0 };

    /// Replaces the digest at a place.
    fn set_node(&mut self, place: u64, digest: &[u8; 32]) -> Result<(), AllocError>
        requires ready { Self.is_ready self.old }
        requires within { place < length (Self.held self.old) }
        ensures ok { OnOk result (Self.held self.new
            ≡ slice_set (Self.held self.old) place digest.now) }
        ensures size { length (Self.held self.new) ≡ length (Self.held self.old) }
        ensures sure { never_fails → IsOk result }
        ensures ready { Self.is_ready self.new }
        ensures rest { (begun : Self) → Self.has_rest begun self.old
            → Self.has_rest begun self.new };
}

impl EditNodes for Vec<[u8; 32]> {
    ghost held = { λ v. v.items };

    ghost is_ready = { λ _. ⊤ };

    ghost has_rest = { λ _ _. ⊤ };

    fn node(&self, place: u64) -> [u8; 32] {
        self[place as usize]
    }
}

impl AppendNodes for Vec<[u8; 32]> {
    fn push_node(&mut self, digest: &[u8; 32]) -> Result<(), AllocError> {
        self.push(*digest)?;
        Ok(())
    }
}

/// The digests of a slice that is edited.
#[derive(Drop)]
pub(crate) struct InMutSlice<'a>(pub(crate) &'a mut [[u8; 32]]);

impl<'a> EditNodes for InMutSlice<'a> {
    ghost held = { λ s. s.0.now };

    ghost is_ready = { λ _. ⊤ };

    ghost has_rest = { λ begun s. s.0.ghost_name ≡ begun.0.ghost_name };

    fn node(&self, place: u64) -> [u8; 32] {
        self.0[place as usize]
    }
}

impl<'a> ReplaceNodes for InMutSlice<'a> {
    ghost never_fails = { ⊤ };

    fn set_node(&mut self, place: u64, digest: &[u8; 32]) -> Result<(), AllocError> {
        self.0[place as usize] = *digest;
        Ok(())
    }
}

impl EditNodes for DirtyBitMap<32> {
    ghost held = { digests_in };

    ghost is_ready = { HasWholeChunks };

    ghost has_rest = { IsOnBaseOf };

    fn node(&self, place: u64) -> [u8; 32] {
        InBitmap::new(self).node(place)
    }
}

impl AppendNodes for DirtyBitMap<32> {
    fn push_node(&mut self, digest: &[u8; 32]) -> Result<(), AllocError> {
        known(digest);
        if self.len() > u64::MAX - 256 {
            return Err(AllocError);
        }
        self.try_push_chunk(digest)
    }
}

impl ReplaceNodes for DirtyBitMap<32> {
    ghost never_fails = { ⊥ };

    fn set_node(&mut self, place: u64, digest: &[u8; 32]) -> Result<(), AllocError> {
        known(digest);
        self.try_set_chunk(place as usize, digest)
    }
}
