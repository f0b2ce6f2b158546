//! Undoing a commit: from the bitmap after it and its reverse record, the bitmap before it.

ghost use Rattle.std.specs.Prelude.{◌≡◌, ℕ, ◌*◌, ◌^◌, ◌<◌, ◌≤◌, IfOk, IsSome, MatchOption, OnOk, nat_eq, nat_le, option_copied};
ghost use Rattle.std.specs.Int.{div_ceil};
ghost use Rattle.std.specs.List.{filter};
ghost use Rattle.std.specs.List.Sorted.{IsStrictlySortedBy};
ghost use Rattle.std.specs.Map.{keys_of, lookup};
ghost use Rattle.std.specs.Ordering.{nat_cmp};
ghost use Rattle.bitmap_bytes.specs.Chunk.{IsWidth};
ghost use Rattle.bitmap_core.specs.PrunedBits.{PrunedBits, bit_len, pruned_bits, unpruned};
ghost use Rattle.historical_bitmap.specs.Record.{before, bytes_of, kept};
ghost use Rattle.historical_bitmap.specs.Stored.{entry_values};
ghost use Rattle.historical_bitmap.specs.Undo.{CanUndo, IsOldChunk, pruned_chunk_bytes, put_back, put_back_one, resized};

use crate::bitmap::historical::record::{ChunkDiff, CommitDiff};
use bitmap_core::bitmap::Prunable;
use bitmap_core::chunk::chunk_count;
use std::alloc::AllocError;

// Turns the bitmap after a commit into the one before it. Allocates for the chunks that it restores, and for no others.
// After an error the bitmap may have any value: it is a working copy.
pub(crate) fn undo<const N: usize>(
    newer: &mut Prunable<N>,
    diff: &CommitDiff<N>,
) -> Result<(), AllocError>
    requires { CanUndo N diff.now newer.old }
    ensures { OnOk result (newer.new ≡ before N diff.now newer.old) }
{
    let _ = newer.len();
    if chunk_count::<N>(diff.len()) < newer.pruned_chunks() {
        *newer = rebuilt(diff)?;
        return Ok(());
    }
    undo_in_steps(newer, diff)
}

// Returns the bitmap before a commit from its record alone, which keeps all of its chunks. Allocates for these.
fn rebuilt<const N: usize>(diff: &CommitDiff<N>) -> Result<Prunable<N>, AllocError>
    requires fits { 8 * N * diff.now.pruned ≤ diff.now.len }
    requires small { 8 * N * div_ceil diff.now.len (8 * N) < 2 ^ 64 }
    requires kept { (i : ℕ) → diff.now.pruned ≤ i → 8 * N * i < diff.now.len
        → IsSome (kept diff.now i) }
    requires sorted { IsStrictlySortedBy nat_cmp (keys_of diff.now.entries) }
    ensures { (newer : PrunedBits) → IfOk result (λ older. older ≡ before N diff.now newer) }
{
    let len = diff.len();
    let end = chunk_count::<N>(len);
    let chunks = diff.pruned_bytes(end)?;
    let mut older = Prunable::new_with_pruned_chunks(*chunks.allocator(), end).unwrap();
    older.unprune(&chunks)?;
    older.truncate(len);
    Ok(older)
}

// As `undo`, if the newer bitmap has at most as many pruned chunks as the older one has chunks.
fn undo_in_steps<const N: usize>(
    newer: &mut Prunable<N>,
    diff: &CommitDiff<N>,
) -> Result<(), AllocError>
    requires undo { CanUndo N diff.now newer.old }
    requires short { newer.old.pruned ≤ div_ceil diff.now.len (8 * N) }
    ensures { OnOk result (newer.new ≡ before N diff.now newer.old) }
{
    let pruned = newer.pruned_chunks();
    restore_front(newer, diff)?;
    resize(newer, diff.len())?;
    put_back_from(newer, diff.chunk_diffs(), pruned);
    Ok(())
}

// Restores the chunks that the commit pruned, if it pruned any. Allocates for these.
fn restore_front<const N: usize>(
    newer: &mut Prunable<N>,
    diff: &CommitDiff<N>,
) -> Result<(), AllocError>
    requires undo { CanUndo N diff.now newer.old }
    requires short { newer.old.pruned ≤ div_ceil diff.now.len (8 * N) }
    ensures { OnOk result (newer.new
        ≡ unpruned N newer.old (pruned_chunk_bytes diff.now newer.old.pruned)) }
{
    let pruned = newer.pruned_chunks();
    if diff.pruned_chunks() == pruned {
        return Ok(());
    }
    let _ = diff.len();
    let prefix = diff.pruned_bytes(pruned)?;
    newer.unprune(&prefix)?;
    Ok(())
}

// Truncates the bitmap, or extends it with zeros, to a length.
fn resize<const N: usize>(bitmap: &mut Prunable<N>, len: u64) -> Result<(), AllocError>
    requires { pruned_bits N bitmap.old ≤ len }
    ensures { OnOk result (bitmap.new ≡ resized N bitmap.old len) }
{
    if bitmap.len() < len {
        return bitmap.extend_to(len);
    }
    if len < bitmap.len() {
        bitmap.truncate(len);
    }
    Ok(())
}

// Restores the old bytes in entries of the chunks from index `from` on. Does not allocate.
fn put_back_from<const N: usize>(
    bitmap: &mut Prunable<N>,
    entries: &[(usize, ChunkDiff<N>)],
    from: usize,
)
    requires width { IsWidth N }
    requires sorted { IsStrictlySortedBy nat_cmp (keys_of (entry_values entries.now)) }
    requires retained { bitmap.old.pruned ≤ from }
    requires old { (i : ℕ) → from ≤ i
        → MatchOption (bytes_of (lookup (nat_eq i) (entry_values entries.now))) (Unit {0})
        (IsOldChunk N (bit_len N bitmap.old) i) }
    ensures { bitmap.new ≡ put_back N bitmap.old
        (filter (λ entry. nat_le from entry.0) (entry_values entries.now)) }
{
    for entry in entries {
        if from <= entry.0 {
            put_back_chunk(bitmap, entry.0, entry.1.old_bytes());
        }
    }
}

// Replaces the bits of a chunk by its old bytes, if there are any. Does not allocate.
fn put_back_chunk<const N: usize>(bitmap: &mut Prunable<N>, chunk: usize, bytes: Option<&[u8; N]>)
    requires width { IsWidth N }
    requires retained { bitmap.old.pruned ≤ chunk }
    requires old { MatchOption (option_copied bytes) (Unit {0})
        (IsOldChunk N (bit_len N bitmap.old) chunk) }
    ensures { bitmap.new ≡ put_back_one N bitmap.old chunk (option_copied bytes.entry) }
{
    if let Some(bytes) = bytes {
        bitmap.set_chunk_by_index(chunk, bytes);
    }
}
