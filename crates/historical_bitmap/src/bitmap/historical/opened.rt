//! Chunks that are opened at the end of the edited chunks of a batch.

ghost use Rattle.std.specs.Prelude.{◌≡◌, ℕ, ◌*◌, ◌^◌, ◌<◌, ◌≤◌, Some, None, OnOk, OnErr, IsOk, IsSome, nat_eq};
ghost use Rattle.std.specs.List.Sorted.{IsStrictlySortedBy};
ghost use Rattle.std.specs.Map.{keys_of, lookup};
ghost use Rattle.std.specs.Ordering.{nat_cmp};
ghost use Rattle.bitmap_bytes.specs.Chunk.{IsWidth};
ghost use Rattle.bitmap_core.specs.PrunedBits.{chunk, truncated};
ghost use Rattle.historical_bitmap.specs.Edits.{from_to};
ghost use Rattle.historical_bitmap.specs.Lengths.{OpensChunks};
ghost use Rattle.historical_bitmap.specs.Pending.{PutsEach};

use crate::bitmap::historical::cut_chunks::first_chunk;
use crate::bitmap::historical::edited::EditedChunks;
use bitmap_core::bitmap::prunable::Prunable;
use std::alloc::AllocError;

// Inserts the current bitmap's chunk, cut to `len` bits, at each index from `first` up to `past`. There is no chunk from `first` on.
// After an error nothing is changed. Does not allocate, and succeeds, if there are no indices.
fn open_each<const N: usize>(
    chunks: &mut EditedChunks<N>,
    current: &Prunable<N>,
    len: u64,
    first: usize,
    past: usize,
) -> Result<(), AllocError>
    requires width { IsWidth N }
    requires sorted { IsStrictlySortedBy nat_cmp (keys_of chunks.old) }
    requires order { first ≤ past }
    requires low { current.now.pruned ≤ first }
    requires fits { (q : ℕ) → q < past → 8 * N * q < 2 ^ 64 }
    requires last { (q : ℕ) → first ≤ q → lookup (nat_eq q) chunks.old ≡ None }
    ensures ok { OnOk result (PutsEach chunks.old chunks.new (from_to first past)
        (λ q. Some (chunk N (truncated N current.now len) q))) }
    ensures err { OnErr result (chunks.new ≡ chunks.old) }
    ensures none { past ≤ first → IsOk result }
{
    if first < past {
        // A length that no memory has space for fails here, before any chunk is written.
        chunks.reserve(first, past - first)?;
    }
    for index in first..past {
        if chunks
            .open(index, first_chunk(current, len, index))
            .is_err()
        {
            chunks.drop_from(first);
            return Err(AllocError);
        }
    }
    Ok(())
}

// Inserts the current bitmap's chunk, cut to `len` bits, at each index from `first` up to `past` that has no chunk. There is no chunk past `first`.
// After an error nothing is changed. Does not allocate, and succeeds, if there is a chunk at each of these indices.
pub(crate) fn open_to<const N: usize>(
    chunks: &mut EditedChunks<N>,
    current: &Prunable<N>,
    len: u64,
    first: usize,
    past: usize,
) -> Result<(), AllocError>
    requires width { IsWidth N }
    requires some { first < past }
    requires low { current.now.pruned ≤ first }
    requires fits { (q : ℕ) → q < past → 8 * N * q < 2 ^ 64 }
    requires last { (q : ℕ) → first < q → lookup (nat_eq q) chunks.old ≡ None }
    ensures ok { OnOk result (OpensChunks (chunk N (truncated N current.now len))
        chunks.old chunks.new first past) }
    ensures err { OnErr result (chunks.new ≡ chunks.old) }
    ensures edited { ((q : ℕ) → first ≤ q → q < past → IsSome (lookup (nat_eq q) chunks.old))
        → IsOk result }
{
    if chunks.get(first).is_some() {
        return open_each(chunks, current, len, first + 1, past);
    }
    open_each(chunks, current, len, first, past)
}
