//! The chunks in which the pending bitmap of a batch differs from the current one.

ghost use Rattle.std.specs.Prelude.{◌≡◌, ℕ, ◌*◌, ◌^◌, ◌<◌, ◌≤◌, IfSome, length};
ghost use Rattle.std.specs.Iterator.{YieldsFirst, item_count};
ghost use Rattle.bitmap_bytes.specs.Chunk.{IsWidth};
ghost use Rattle.historical_bitmap.specs.Changes.{changed, retained_bytes as retained_bytes_of};
ghost use Rattle.historical_bitmap.specs.Compared.{IsComparingPending, IsNextChange};
ghost use Rattle.historical_bitmap.specs.Pending.{PendingFits, pending_bits};
ghost use Rattle.historical_bitmap.specs.View.{pending_of};

use crate::bitmap::historical::{BitMap, Dirty};
use bitmap_core::bitmap::Prunable;
use bitmap_core::chunk::{chunk_count, chunk_width};
use std::marker::Model;

/// An iterator over the absolute indices of the chunks that differ between the current and the pending bitmap of a batch, ascending, each once.
///
/// `DirtyBitMap::changed_chunks` returns it. After the last index, `next` returns `None`, however often it is called.
///
/// Does not allocate.
///
/// # Complexity
/// For each chunk that `next` examines: a few searches among the edited chunks. It examines only marked chunks: those that the pending edits
/// have edited, cut off or pruned. A whole pass takes at most one search more per chunk that the batch edited and then popped.
/// The same holds of a chunk that a `set_range` had inserted when it ran out of memory.
#[derive(Drop)]
pub struct PendingChanges<'a, const N: usize> {
    current: &'a Prunable<N>,
    edits: &'a Dirty<N>,
    // The first index that is still to be examined.
    next: usize,
    // The number of chunks of the longer bitmap.
    end: usize,
}

impl<'a, const N: usize> Model for PendingChanges<'a, N> {
    ghost use Rattle.std.specs.Prelude.{List, ℕ};
    ghost use Rattle.historical_bitmap.specs.Changes.{changed_from};
    ghost use Rattle.historical_bitmap.specs.Compared.{IsComparingPending};
    ghost use Rattle.historical_bitmap.specs.Pending.{pending_bits};

    ghost Value = { List ℕ };

    ghost view = { λ c. changed_from N c.current.now
        (pending_bits N c.current.now c.edits.now) c.next c.end };

    ghost invariant = { λ c. IsComparingPending N c.current.now c.edits.now c.next c.end };
}

// Returns the bytes of a chunk of the current bitmap, if it is retained.
pub(crate) fn current_bytes<const N: usize>(current: &Prunable<N>, chunk: usize) -> Option<[u8; N]>
    requires { 8 * N * chunk < 2 ^ 64 }
    ensures { result ≡ retained_bytes_of N current.now chunk }
{
    let len = current.len();
    let start = chunk_width::<N>() * chunk as u64;
    if chunk < current.pruned_chunks() || start >= len {
        return None;
    }
    Some(*current.get_chunk(chunk))
}

// Returns the bytes of a chunk of the pending bitmap, if it is retained.
pub(crate) fn pending_bytes<const N: usize>(
    current: &Prunable<N>,
    edits: &Dirty<N>,
    chunk: usize,
) -> Option<[u8; N]>
    requires edits_fit { PendingFits N current.now edits.now }
    requires small { 8 * N * chunk < 2 ^ 64 }
    ensures { result ≡ retained_bytes_of N (pending_bits N current.now edits.now) chunk }
{
    let len = edits.len();
    let start = chunk_width::<N>() * chunk as u64;
    if chunk < edits.pruned_chunks() || start >= len {
        return None;
    }
    Some(edits.chunk(current, chunk))
}

// Returns the first chunk from `first` on, and before `end`, in which the current and the pending bitmap differ.
fn next_pending<const N: usize>(
    current: &Prunable<N>,
    edits: &Dirty<N>,
    first: usize,
    end: usize,
) -> Option<usize>
    requires { IsComparingPending N current.now edits.now first end }
    ensures next { IsNextChange N current.now
        (pending_bits N current.now edits.now) first end result }
    ensures after { IfSome result (λ i. first ≤ i) }
{
    let mut at = first;
    while let Some(chunk) = edits.next_marked(current, at) {
        if chunk >= end {
            return None;
        }
        if current_bytes(current, chunk) != pending_bytes(current, edits, chunk) {
            return Some(chunk);
        }
        at = chunk + 1;
    }
    None
}

impl<const N: usize> BitMap<N, Dirty<N>> {
    /// Returns an iterator over the absolute indices of the chunks that differ between the current and the pending bitmap, ascending, each once.
    ///
    /// A chunk differs if it is retained in only one of the bitmaps, or if its bytes differ. Bits past the length count as zero.
    ///
    /// Does not allocate; constant time. `PendingChanges` says what the iterator costs.
    pub fn changed_chunks(&self) -> PendingChanges<'_, N>
        ensures value { result ≡ changed N self.now.current (pending_of N self.now) }
        ensures bound { length result < 2 ^ 64 }
    {
        let end = chunk_count::<N>(self.current.len()).max(chunk_count::<N>(self.state.len()));
        let next = self.current.pruned_chunks();
        PendingChanges {
            current: &self.current,
            edits: &self.state,
            next,
            end,
        }
    }
}

impl<'a, const N: usize> Iterator for PendingChanges<'a, N> {
    type Item = usize;

    ghost next_gives = { YieldsFirst (λ s. s) };

    ghost remaining = { item_count (λ s. s) };

    fn next(&mut self) -> Option<usize> {
        let found = next_pending(self.current, self.edits, self.next, self.end);
        if let Some(chunk) = found {
            self.next = chunk + 1;
        }
        found
    }
}
