//! Bitmaps with a root for every version that they keep.
//!
//! An [`AuthenticatedBitMap`] is a historical bitmap together with the digests of its chunks. Both
//! keep the same versions. So the current bitmap and each kept version have a root, which stands
//! for the whole state, and each chunk of them has a proof, which anyone can check against that
//! root.
//!
//! - [`into_dirty`](AuthenticatedBitMap::into_dirty) turns it into a batch,
//!   [`edits`](DirtyAuthenticatedBitMap::edits) lends the pending bitmap for edits, and
//!   [`commit`](DirtyAuthenticatedBitMap::commit) keeps the result as a version and brings the
//!   digests up to date.
//! - [`root`](AuthenticatedBitMap::root) returns the root of the current bitmap, and
//!   [`root_at`](AuthenticatedBitMap::root_at) that of a kept version. Neither needs more than a
//!   few hashes.
//! - [`prove`](AuthenticatedBitMap::prove) returns the audit path of a chunk of the current bitmap,
//!   and [`prove_at`](AuthenticatedBitMap::prove_at) that of a chunk of a kept version.
//!   `verify_chunk` of the crate `authenticated_bitmap` checks a chunk and its path against a root.
//! - [`prove_range`](AuthenticatedBitMap::prove_range) returns the siblings of chunks of the current
//!   bitmap that follow one another, and [`prove_range_at`](AuthenticatedBitMap::prove_range_at)
//!   those of chunks of a kept version. `verify_range` checks the chunks with them.
//!
//! The tree of a root is over all chunks by their absolute index. The digest of a pruned chunk
//! stays in it, so a path from before a chunk was pruned stays good.
#![tactic(auto)]

mod clean;
mod committing;
mod dirty;
pub mod laws;
mod ranges;
mod reading;

pub use clean::AuthenticatedBitMap;
pub use dirty::DirtyAuthenticatedBitMap;
