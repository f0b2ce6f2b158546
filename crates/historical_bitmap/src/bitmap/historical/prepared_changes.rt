//! The chunks that a prepared commit changes, with their new bytes.

ghost use Rattle.std.specs.Prelude.{◌≡◌, ℕ, ◌*◌, ◌^◌, ◌<◌, ◌≤◌, length, None, if◌then◌else◌};
ghost use Rattle.std.specs.Iterator.{YieldsFirst, item_count};
ghost use Rattle.std.specs.Map.{keys_of};
ghost use Rattle.bitmap_core.specs.PrunedBits.{truncated};
ghost use Rattle.historical_bitmap.specs.Changes.{differs, retained_bytes as retained_bytes_of};
ghost use Rattle.historical_bitmap.specs.Pending.{pending_bits};
ghost use Rattle.historical_bitmap.specs.Prepared.{AreIndices, IsExtended, IsNextFrom, changes_in};
ghost use Rattle.historical_bitmap.specs.Stored.{entry_values};

use crate::bitmap::historical::Dirty;
use crate::bitmap::historical::record::ChunkDiff;
use bitmap_core::bitmap::Prunable;
use bitmap_core::chunk::chunk_width;
use std::marker::Model;

/// An iterator over the chunks that a prepared commit changes and that the new bitmap retains: the absolute index and the new bytes of each.
///
/// `PreparedBitMap::changed_chunks` returns it. The indices ascend. After the last chunk, `next` returns `None`, however often it is called.
///
/// Does not allocate.
///
/// # Complexity
/// Each marked chunk is examined once, with at most one search among the edited chunks.
#[derive(Drop)]
pub struct PreparedChanges<'a, const N: usize> {
    // The current bitmap, extended to the pending length.
    grown: &'a Prunable<N>,
    // The length of the current bitmap before it was extended.
    old_len: u64,
    edits: &'a Dirty<N>,
    // The entries of the prepared record.
    entries: &'a [(usize, ChunkDiff<N>)],
    // The position of the first entry that is still to be examined.
    at: usize,
}

impl<'a, const N: usize> Model for PreparedChanges<'a, N> {
    ghost use Rattle.std.specs.Prelude.{List, ℕ, ◌≤◌, drop, length};
    ghost use Rattle.std.specs.Map.{keys_of};
    ghost use Rattle.bitmap_core.specs.PrunedBits.{truncated};
    ghost use Rattle.historical_bitmap.specs.Pending.{pending_bits};
    ghost use Rattle.historical_bitmap.specs.Prepared.{AreIndices, IsExtended, changes_in};
    ghost use Rattle.historical_bitmap.specs.Stored.{entry_values};

    ghost Value = { List (ℕ × List ℕ) };

    ghost view = { λ c. let old = truncated N c.grown.now c.old_len
        in changes_in N old (pending_bits N old c.edits.now)
        (drop c.at (keys_of (entry_values c.entries.now))) };

    ghost invariant = { λ c. IsExtended N c.grown.now c.old_len c.edits.now
        × AreIndices N c.grown.now (keys_of (entry_values c.entries.now))
        × (c.at ≤ length c.entries.now) };
}

// Returns the pending bytes of a chunk, if the pending bitmap retains it and the bitmap before had other bytes there, or none.
fn changed_bytes<const N: usize>(
    grown: &Prunable<N>,
    old_len: u64,
    edits: &Dirty<N>,
    chunk: usize,
) -> Option<[u8; N]>
    requires is_extended { IsExtended N grown.now old_len edits.now }
    requires low { grown.now.pruned ≤ chunk }
    requires small { 8 * N * chunk < 2 ^ 64 }
    ensures { let old = truncated N grown.now old_len in let new = pending_bits N old edits.now in
        result ≡ (if differs N old new chunk then retained_bytes_of N new chunk else None) }
{
    let start = chunk_width::<N>() * chunk as u64;
    if chunk < edits.pruned_chunks() || start >= edits.len() {
        return None;
    }
    let bytes = edits.chunk(grown, chunk);
    if start < old_len && *grown.get_chunk(chunk) == bytes {
        return None;
    }
    Some(bytes)
}

// Examines the chunks of some entries from position `at` on, up to the first one that the commit changes and the new bitmap retains. Returns its
// index and its new bytes, and moves `at` past the entries that were examined.
fn next_change<const N: usize>(
    grown: &Prunable<N>,
    old_len: u64,
    edits: &Dirty<N>,
    entries: &[(usize, ChunkDiff<N>)],
    at: &mut usize,
) -> Option<(usize, [u8; N])>
    requires is_extended { IsExtended N grown.now old_len edits.now }
    requires indices { AreIndices N grown.now (keys_of (entry_values entries.now)) }
    requires within { at.old ≤ length entries.now }
    ensures next { let old = truncated N grown.now old_len in
        IsNextFrom N old (pending_bits N old edits.now) (keys_of (entry_values entries.now)) at.old at.new result }
    ensures within { at.new ≤ length entries.now }
{
    while *at < entries.len() {
        let entry = &entries[*at];
        *at += 1;
        if let Some(bytes) = changed_bytes(grown, old_len, edits, entry.0) {
            return Some((entry.0, bytes));
        }
    }
    None
}

impl<'a, const N: usize> PreparedChanges<'a, N> {
    // Returns an iterator over the changes in the chunks of some entries.
    pub(crate) fn new(
        grown: &'a Prunable<N>,
        old_len: u64,
        edits: &'a Dirty<N>,
        entries: &'a [(usize, ChunkDiff<N>)],
    ) -> PreparedChanges<'a, N>
        requires is_extended { IsExtended N grown.now old_len edits.now }
        requires indices { AreIndices N grown.now (keys_of (entry_values entries.now)) }
        ensures { let old = truncated N grown.now old_len in
            result ≡ changes_in N old (pending_bits N old edits.now) (keys_of (entry_values entries.now)) }
    {
        PreparedChanges {
            grown,
            old_len,
            edits,
            entries,
            at: 0,
        }
    }
}

impl<'a, const N: usize> Iterator for PreparedChanges<'a, N> {
    type Item = (usize, [u8; N]);

    ghost next_gives = { YieldsFirst (λ s. s) };

    ghost remaining = { item_count (λ s. s) };

    fn next(&mut self) -> Option<(usize, [u8; N])> {
        next_change(
            self.grown,
            self.old_len,
            self.edits,
            self.entries,
            &mut self.at,
        )
    }

    /// Returns 0 and the number of marked chunks that are still to be examined.
    ///
    /// Does not allocate; constant time.
    fn size_hint(&self) -> (usize, Option<usize>) {
        let _ = self.edits.len();
        (0, Some(self.entries.len() - self.at))
    }
}
