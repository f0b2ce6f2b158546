//! Ranges of bits, set in the edited chunks of a batch.

ghost use Rattle.std.specs.Prelude.{◌≡◌, ℕ, ◌+◌, ◌-◌, ◌*◌, ◌/◌, ◌^◌, ◌<◌, ◌≤◌, [], List, Some, IfOk, OnOk, OnErr, IsOk, IsSome, nat_eq, unwrap_or};
ghost use Rattle.std.specs.Map.{lookup};
ghost use Rattle.bitmap_bytes.specs.Chunk.{IsWidth};
ghost use Rattle.bitmap_core.specs.PrunedBits.{chunk, truncated};
ghost use Rattle.chunk_map.specs.Entries.{Puts};
ghost use Rattle.historical_bitmap.specs.Pending.{AreMissing, IsRangeSet, SetsChunks};

use crate::bitmap::historical::edited::EditedChunks;
use bitmap_core::bitmap::prunable::Prunable;
use bitmap_core::chunk::{chunk_index, chunk_width};
use std::alloc::{AllocError, Global};

// Returns the indices from `first` up to `past` at which there is no chunk. Does not allocate, and succeeds, if there are none.
fn missing<const N: usize>(
    chunks: &EditedChunks<N>,
    first: usize,
    past: usize,
    alloc: Global,
) -> Result<Vec<usize>, AllocError>
    requires width { IsWidth N }
    requires order { first ≤ past }
    ensures indices { IfOk result (λ indices. AreMissing chunks.now first past indices.items) }
    ensures edited { ((q : ℕ) → first ≤ q → q < past → IsSome (lookup (nat_eq q) chunks.now))
        → IsOk result }
{
    let mut indices = Vec::new(alloc);
    for index in first..past {
        if chunks.get(index).is_none() {
            indices.push(index)?;
        }
    }
    Ok(indices)
}

// Sets the bits of the chunk at an index at the positions from `from` up to `to`. Does not allocate.
fn fill_chunk<const N: usize>(
    chunks: &mut EditedChunks<N>,
    index: usize,
    from: u64,
    to: u64,
    value: bool,
)
    requires width { IsWidth N }
    requires fits { 8 * N * index < 2 ^ 64 }
    requires edited { IsSome (lookup (nat_eq index) chunks.old) }
    ensures { (bytes : List ℕ)
        × IsRangeSet N (unwrap_or (lookup (nat_eq index) chunks.old) []) from to value index bytes
        × Puts chunks.old chunks.new index (Some bytes) }
{
    let width = chunk_width::<N>();
    let start = width * index as u64;
    let past = to.saturating_sub(start).min(width);
    chunks.set_in(index, from.saturating_sub(start), past, value);
}

// Sets the bits of the chunks from index `first` up to `past` at the positions from `from` up to `to`. Does not allocate.
fn fill<const N: usize>(
    chunks: &mut EditedChunks<N>,
    first: usize,
    past: usize,
    from: u64,
    to: u64,
    value: bool,
)
    requires width { IsWidth N }
    requires order { first ≤ past }
    requires fits { (q : ℕ) → q < past → 8 * N * q < 2 ^ 64 }
    requires edited { (q : ℕ) → first ≤ q → q < past → IsSome (lookup (nat_eq q) chunks.old) }
    ensures { SetsChunks N (λ q. []) chunks.old chunks.new first past from to value }
{
    for index in first..past {
        fill_chunk(chunks, index, from, to, value);
    }
}

// Sets the bits at the positions from `from` up to `to`. Starts from the current bitmap's chunks, cut to `len` bits, if none are edited there.
// It first allocates the chunks that are missing. After an error nothing is changed.
// Does not allocate, and succeeds, if each chunk of the range is edited.
pub(crate) fn set_range<const N: usize>(
    chunks: &mut EditedChunks<N>,
    current: &Prunable<N>,
    len: u64,
    from: u64,
    to: u64,
    value: bool,
    alloc: Global,
) -> Result<(), AllocError>
    requires some { from < to }
    requires low { current.now.pruned ≤ from / (8 * N) }
    ensures ok { OnOk result
        (SetsChunks N (chunk N (truncated N current.now len)) chunks.old chunks.new (from / (8 * N))
        ((to - 1) / (8 * N) + 1) from to value) }
    ensures err { OnErr result (chunks.new ≡ chunks.old) }
    ensures edited { ((q : ℕ) → from / (8 * N) ≤ q → q ≤ (to - 1) / (8 * N)
        → IsSome (lookup (nat_eq q) chunks.old)) → IsOk result }
{
    let _ = current.len();
    let first = chunk_index::<N>(from);
    let past = chunk_index::<N>(to - 1) + 1;
    let indices = missing(chunks, first, past, alloc)?;
    chunks.insert_each(current, len, &indices)?;
    fill(chunks, first, past, from, to, value);
    Ok(())
}
