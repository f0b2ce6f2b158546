//! The reverse record of a commit: what turns the bitmap after the commit into the one before it.

ghost use Rattle.std.specs.Prelude.{◌≡◌, ℕ, ◌<◌, ◌≤◌, [], ◌∷◌, ◌++◌, IfOk, IsSome, OnOk, OnErr, length, nat_eq, option_copied, option_map};
ghost use Rattle.std.specs.List.Sorted.{IsStrictlySortedBy};
ghost use Rattle.std.specs.Map.{keys_of, lookup};
ghost use Rattle.std.specs.Ordering.{nat_cmp};
ghost use Rattle.bitmap_bytes.specs.Chunk.{IsWidth};
ghost use Rattle.chunk_map.specs.Entries.{IsNextMember};
ghost use Rattle.historical_bitmap.specs.Record.{bytes_of, kept, kept_bytes};
ghost use Rattle.historical_bitmap.specs.Stored.{diff_value, entry_values};
ghost use Rattle.historical_bitmap.specs.Undo.{kept_between, pruned_chunk_bytes};

use std::alloc::{AllocError, Global};
use std::marker::Model;

// What a commit did to a chunk, with the chunk's old bytes.
#[derive(Clone, Copy, Debug)]
pub(crate) enum ChunkDiff<const N: usize> {
    // It changed bits of the chunk.
    Modified([u8; N]),
    // It removed the chunk from the end.
    Removed([u8; N]),
    // It added the chunk, which has no old bytes.
    Added,
    // It pruned the chunk.
    Pruned([u8; N]),
}

/// The reverse record of a commit.
///
/// It has the length in bits and the number of pruned chunks before the commit, and what the commit did to each touched chunk.
/// The entries are strictly ascending by chunk index.
#[derive(Debug, Drop)]
pub struct CommitDiff<const N: usize> {
    len: u64,
    pruned_chunks: usize,
    chunk_diffs: Vec<(usize, ChunkDiff<N>)>,
}

impl<const N: usize> ChunkDiff<N> {
    // Returns the bytes before the commit, or `None` if the commit added the chunk.
    pub(crate) fn old_bytes(&self) -> Option<&[u8; N]>
        ensures { option_copied result ≡ kept_bytes (diff_value self.now) }
    {
        match self {
            ChunkDiff::Modified(bytes) => Some(bytes),
            ChunkDiff::Removed(bytes) => Some(bytes),
            ChunkDiff::Added => None,
            ChunkDiff::Pruned(bytes) => Some(bytes),
        }
    }
}

impl<const N: usize> Model for CommitDiff<N> {
    ghost use Rattle.historical_bitmap.specs.Record.{ReverseRecord};
    ghost use Rattle.historical_bitmap.specs.Stored.{entry_values};

    ghost Value = { ReverseRecord };

    ghost use Rattle.bitmap_bytes.specs.Chunk.{IsWidth};

    ghost invariant = { λ r. IsWidth N };

    ghost view = { λ r. record {
      len = r.len;
      pruned = r.pruned_chunks;
      entries = entry_values r.chunk_diffs.items;
    } };
}

impl<const N: usize> CommitDiff<N> {
    // Returns a record without entries, and with capacity for `count` of them. Allocates once, or never if `count` is 0.
    pub(crate) fn with_capacity(
        alloc: Global,
        len: u64,
        pruned_chunks: usize,
        count: usize,
    ) -> Result<Self, AllocError>
        requires width { IsWidth N }
        ensures { IfOk result (λ r.
            r ≡ record { len = len; pruned = pruned_chunks; entries = [] }) }
    {
        Ok(CommitDiff {
            len,
            pruned_chunks,
            chunk_diffs: Vec::with_capacity(alloc, count)?,
        })
    }

    // Appends an entry. If an allocation fails, the record is unchanged.
    pub(crate) fn push(&mut self, chunk: usize, diff: ChunkDiff<N>) -> Result<(), AllocError>
        ensures ok { OnOk result
            (self.new ≡ record self.old
            { entries = self.old.entries ++ (chunk, diff_value diff.entry) ∷ [] }) }
        ensures err { OnErr result (self.new ≡ self.old) }
    {
        self.chunk_diffs.push((chunk, diff))?;
        Ok(())
    }

    // Returns the number of entries.
    pub(crate) fn entries(&self) -> usize
        ensures { result ≡ length self.now.entries }
    {
        self.chunk_diffs.len()
    }

    // Returns the length in bits before the commit.
    pub(crate) fn len(&self) -> u64
        ensures value { result ≡ self.now.len }
        ensures width { IsWidth N }
    {
        self.len
    }

    // Returns the number of pruned chunks before the commit.
    pub(crate) fn pruned_chunks(&self) -> usize
        ensures { result ≡ self.now.pruned }
    {
        self.pruned_chunks
    }

    // Returns the entries.
    pub(crate) fn chunk_diffs(&self) -> &[(usize, ChunkDiff<N>)]
        ensures { entry_values result.now ≡ self.now.entries }
    {
        &self.chunk_diffs
    }

    // Returns the old bytes of a chunk, if the record has them, by binary search.
    pub(crate) fn kept(&self, chunk: usize) -> Option<&[u8; N]>
        requires { IsStrictlySortedBy nat_cmp (keys_of self.now.entries) }
        ensures { option_copied result ≡ kept self.now chunk }
    {
        find(&self.chunk_diffs, chunk)?.old_bytes()
    }

    // Returns the first chunk from `from` on that has an entry, by binary search.
    pub(crate) fn next_from(&self, from: usize) -> Option<usize>
        requires { IsStrictlySortedBy nat_cmp (keys_of self.now.entries) }
        ensures { IsNextMember (keys_of self.now.entries) from result }
    {
        next_entry(&self.chunk_diffs, from)
    }

    // Returns the old bytes of the chunks that the commit pruned, in order. It left `pruned` chunks pruned. Allocates once, for these.
    pub(crate) fn pruned_bytes(&self, pruned: usize) -> Result<Vec<[u8; N]>, AllocError>
        requires sorted { IsStrictlySortedBy nat_cmp (keys_of self.now.entries) }
        requires rises { self.now.pruned ≤ pruned }
        requires kept { (i : ℕ) → self.now.pruned ≤ i → i < pruned → IsSome (kept self.now i) }
        ensures { IfOk result (λ chunks. chunks.items ≡ pruned_chunk_bytes self.now pruned) }
    {
        let from = self.pruned_chunks;
        let mut chunks = Vec::with_capacity(*self.chunk_diffs.allocator(), pruned - from)?;
        collect_between(&mut chunks, &self.chunk_diffs, from, pruned)?;
        Ok(chunks)
    }
}

// Returns the entry of a chunk among ascending ones, by binary search.
fn find<const N: usize>(entries: &[(usize, ChunkDiff<N>)], chunk: usize) -> Option<&ChunkDiff<N>>
    requires { IsStrictlySortedBy nat_cmp (keys_of (entry_values entries.now)) }
    ensures { option_map (λ diff. diff_value diff.now) result
        ≡ lookup (nat_eq chunk) (entry_values entries.now) }
{
    let mut start = 0;
    let mut end = entries.len();
    while start < end {
        let middle = start + (end - start) / 2;
        let entry = &entries[middle];
        if entry.0 == chunk {
            return Some(&entry.1);
        }
        if entry.0 < chunk {
            start = middle + 1;
        } else {
            end = middle;
        }
    }
    None
}

// Returns the first chunk from chunk `from` on that has one of some ascending entries, by binary search.
fn next_entry<const N: usize>(entries: &[(usize, ChunkDiff<N>)], from: usize) -> Option<usize>
    requires { IsStrictlySortedBy nat_cmp (keys_of (entry_values entries.now)) }
    ensures { IsNextMember (keys_of (entry_values entries.now)) from result }
{
    let mut start = 0;
    let mut end = entries.len();
    while start < end {
        let middle = start + (end - start) / 2;
        let entry = &entries[middle];
        if entry.0 < from {
            start = middle + 1;
        } else {
            end = middle;
        }
    }
    if start < entries.len() {
        let entry = &entries[start];
        return Some(entry.0);
    }
    None
}

// Appends the old bytes in ascending entries of the chunks from index `from` up to `to`. Stops at the first entry from `to` on.
fn collect_between<const N: usize>(
    chunks: &mut Vec<[u8; N]>,
    entries: &[(usize, ChunkDiff<N>)],
    from: usize,
    to: usize,
) -> Result<(), AllocError>
    requires { IsStrictlySortedBy nat_cmp (keys_of (entry_values entries.now)) }
    ensures { OnOk result (chunks.new.items
        ≡ chunks.old.items ++ kept_between from to (entry_values entries.now)) }
{
    for entry in entries {
        if to <= entry.0 {
            return Ok(());
        }
        if from <= entry.0 {
            if let Some(bytes) = entry.1.old_bytes() {
                chunks.push(*bytes)?;
            }
        }
    }
    Ok(())
}

impl<const N: usize> Clone for CommitDiff<N> {
    ghost is_clone = { λ a b. b ≡ a };

    // Returns an equal record. Allocates for its entries, and fails if that fails.
    fn clone(&self) -> Result<Self, AllocError> {
        Ok(CommitDiff {
            len: self.len,
            pruned_chunks: self.pruned_chunks,
            chunk_diffs: self.chunk_diffs.clone()?,
        })
    }
}
