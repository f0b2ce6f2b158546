//! Whether a bitmap accepts a change, found without a write.

ghost use Rattle.std.specs.Prelude.{◌≡◌, ℕ, ◌+◌, ◌*◌, ◌/◌, ◌^◌, ◌<◌, ◌≤◌, ◌∷◌, [], Option, None, length, is_ok, IfSome, IfErr};
ghost use Rattle.std.specs.Bool.{Decides};
ghost use Rattle.bitmap_bytes.specs.Chunk.{IsWidth};
ghost use Rattle.historical_bitmap.specs.Changes.{retained_bytes as retained_bytes_of};
ghost use Rattle.historical_bitmap.specs.View.{commit_error};
ghost use Rattle.commit_log.specs.Accepted.{Accepts, Follows, HasExtent, IsChangeError};
ghost use Rattle.commit_log.specs.Entries.{all_chunks, view_change};
ghost use Rattle.commit_log.specs.Entries.Entry.{Commit};
ghost use Rattle.commit_log.specs.Kept.{kept_of};
ghost use Rattle.commit_log.specs.ListOfChanges.{IsLeftOut, IsListOfChanges, IsZeroFrom};

use crate::entry::Change;
use crate::error::EntryError;
use bitmap_core::bitmap::Prunable;
use bitmap_core::chunk::facts::known;
use bitmap_core::chunk::{chunk_count, chunk_index, chunk_width, is_set_from};
use historical_bitmap::bitmap::historical::CleanBitMap;

// Whether a commit may have a number, given the last one.
pub(crate) fn accepts_number(last: Option<u64>, number: u64) -> bool
    ensures { Decides result (commit_error last number ≡ None) }
{
    if number == u64::MAX {
        return false;
    }
    match last {
        Some(previous) => previous < number,
        None => true,
    }
}

// Whether a bitmap accepts the pruned count and the length of a change.
fn accepts_extent<const N: usize>(current: &Prunable<N>, change: &Change<'_>) -> bool
    ensures { Decides result (HasExtent N current.now (view_change N change.now)) }
{
    let _ = current.len();
    let whole = chunk_index::<N>(change.len) as u64;
    let pruned = current.pruned_chunks() as u64;
    if change.pruned < pruned {
        return false;
    }
    if change.pruned > whole {
        return false;
    }
    true
}

// Returns the bytes of a chunk, or `None` if none of its bits is retained.
pub(crate) fn bytes_of<const N: usize>(current: &Prunable<N>, chunk: usize) -> Option<[u8; N]>
    requires { 8 * N * chunk < 2 ^ 64 }
    ensures { result ≡ retained_bytes_of N current.now chunk }
{
    let len = current.len();
    let start = chunk_width::<N>() * chunk as u64;
    if chunk < current.pruned_chunks() || start >= len {
        return None;
    }
    Some(*current.get_chunk(chunk))
}

// Whether the bytes of a chunk have no set bit from position `len` on.
fn is_zero_from<const N: usize>(bytes: &[u8; N], chunk: u64, len: u64) -> bool
    requires width { IsWidth N }
    requires begins { 8 * N * chunk ≤ len }
    ensures { Decides result (IsZeroFrom N len chunk bytes.now) }
{
    !is_set_from(bytes, len - chunk_width::<N>() * chunk)
}

// Returns the first chunk of a list, with its index, and the bytes after it.
pub(crate) fn split_chunk<const N: usize>(chunks: &[u8]) -> Option<(u64, &[u8; N], &[u8])>
    requires { 8 + N < 2 ^ 64 }
    ensures none { result ≡ None → all_chunks N chunks.now ≡ [] }
    ensures some { IfSome result (λ found. all_chunks N chunks.now
        ≡ (found.0, found.1.now) ∷ all_chunks N found.2.now) }
    ensures fewer { IfSome result (λ found. length found.2.now < length chunks.now) }
{
    let (index, rest) = chunks.split_first_chunk::<8>()?;
    let (bytes, rest) = rest.split_first_chunk::<N>()?;
    Some((u64::from_be_bytes(*index), bytes, rest))
}

// Whether no chunk from `from` on need be listed.
fn are_left_out<const N: usize>(current: &Prunable<N>, len: u64, from: u64) -> bool
    requires { current.now.pruned ≤ from }
    ensures { Decides result ((i : ℕ) → from ≤ i → 8 * N * i < len
        → IsLeftOut N current.now len i) }
{
    let _ = current.len();
    let total = chunk_count::<N>(len) as u64;
    if total <= from {
        return true;
    }
    match bytes_of(current, (total - 1) as usize) {
        Some(bytes) => is_zero_from(&bytes, total - 1, len),
        None => false,
    }
}

// Whether a change lists the chunks that differ, and no others.
fn lists_changes<const N: usize>(current: &Prunable<N>, change: &Change<'_>) -> bool
    requires size { 8 + N < 2 ^ 64 }
    requires extent { HasExtent N current.now (view_change N change.now) }
    ensures { Decides result (IsListOfChanges N current.now (view_change N change.now)) }
{
    let old_total = chunk_count::<N>(current.len()) as u64;
    let total = chunk_count::<N>(change.len) as u64;
    let mut from = change.pruned;
    let mut rest = change.chunks;
    while let Some((index, bytes, after)) = split_chunk::<N>(rest) {
        known(bytes);
        let last = from.max(old_total);
        if index < from {
            return false;
        }
        if index > last {
            return false;
        }
        if index >= total {
            return false;
        }
        if !is_zero_from(bytes, index, change.len) {
            return false;
        }
        if bytes_of(current, index as usize) == Some(*bytes) {
            return false;
        }
        from = index + 1;
        rest = after;
    }
    are_left_out(current, change.len, from)
}

// Tests a change against a bitmap and its last number.
fn check<const N: usize>(
    current: &Prunable<N>,
    last: Option<u64>,
    change: &Change<'_>,
) -> Result<(), EntryError>
    ensures accepted { Decides (is_ok result) ((commit_error last change.now.number ≡ None)
        × Follows N current.now (view_change N change.now)) }
    ensures error { IfErr result (IsChangeError N current.now last (view_change N change.now)) }
{
    let _ = current.len();
    if !accepts_number(last, change.number) {
        return Err(EntryError::Number);
    }
    if !accepts_extent(current, change) {
        return Err(EntryError::Length);
    }
    if !lists_changes(current, change) {
        return Err(EntryError::Chunks);
    }
    Ok(())
}

/// Tests whether a bitmap accepts a change as its next commit. Writes nothing.
///
/// Does not allocate.
///
/// # Errors
/// Returns the first of `Number`, `Length` and `Chunks` that applies.
///
/// # Complexity
/// Linear in the chunks that the change lists.
pub fn check_change<const N: usize>(
    bitmap: &CleanBitMap<N>,
    change: &Change<'_>,
) -> Result<(), EntryError>
    ensures accepted { Decides (is_ok result) (Accepts N (kept_of N bitmap.now)
        (Commit (view_change N change.now))) }
    ensures error { IfErr result (IsChangeError N bitmap.now.current bitmap.now.last
        (view_change N change.now)) }
{
    check(bitmap.current(), bitmap.last_number(), change)
}
