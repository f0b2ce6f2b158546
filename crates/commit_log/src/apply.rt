//! A change applied to the bitmap that it was made from.

ghost use Rattle.std.specs.Prelude.{◌≡◌, ◌+◌, ◌*◌, ◌^◌, ◌<◌, ◌≤◌, [], IfOk, IfErr, OnOk};
ghost use Rattle.bitmap_bytes.specs.Chunk.{IsWidth};
ghost use Rattle.bitmap_core.specs.PrunedBits.{bit_len, pruned_bits};
ghost use Rattle.historical_bitmap.specs.View.{pending_of};
ghost use Rattle.commit_log.specs.Accepted.{Accepts, HasExtent, IsApplyError};
ghost use Rattle.commit_log.specs.Entries.{all_chunks, view_change};
ghost use Rattle.commit_log.specs.Entries.Entry.{Commit};
ghost use Rattle.commit_log.specs.Kept.{after, applied, kept_of};
ghost use Rattle.commit_log.specs.Making.{AscendFrom, IsOn, Overlays, Replaces, Resizes};

use crate::check::{check_change, split_chunk};
use crate::entry::Change;
use crate::error::ApplyError;
use bitmap_core::bitmap::{Prunable, Readable};
use bitmap_core::chunk::chunk_width;
use historical_bitmap::bitmap::historical::{CleanBitMap, DirtyBitMap};
use std::alloc::{AllocError, Global};

// Drops the bits from `len` on.
fn shrink<const N: usize>(batch: &mut DirtyBitMap<N>, len: u64)
    requires from { pruned_bits N (pending_of N batch.old) ≤ len }
    requires to { len ≤ bit_len N (pending_of N batch.old) }
    ensures { Resizes N batch.old len batch.new }
{
    batch.truncate(len);
}

// Appends zeros up to `len`.
fn grow<const N: usize>(batch: &mut DirtyBitMap<N>, len: u64) -> Result<(), AllocError>
    requires { bit_len N (pending_of N batch.old) ≤ len }
    ensures on { IsOn batch.old batch.new }
    ensures made { OnOk result (Resizes N batch.old len batch.new) }
{
    batch.try_extend_to(len)
}

// Makes the length `len`. New bits are zero.
fn resize<const N: usize>(batch: &mut DirtyBitMap<N>, len: u64) -> Result<(), AllocError>
    requires { pruned_bits N (pending_of N batch.old) ≤ len }
    ensures on { IsOn batch.old batch.new }
    ensures made { OnOk result (Resizes N batch.old len batch.new) }
{
    if batch.len() > len {
        shrink(batch, len);
        return Ok(());
    }
    grow(batch, len)
}

// Gives the retained bits of a chunk the values of some bytes.
fn write_chunk<const N: usize>(
    batch: &mut DirtyBitMap<N>,
    index: usize,
    bytes: &[u8; N],
) -> Result<(), AllocError>
    requires from { (pending_of N batch.old).pruned ≤ index }
    requires to { 8 * N * index < bit_len N (pending_of N batch.old) }
    ensures on { IsOn batch.old batch.new }
    ensures made { OnOk result (Replaces N batch.old index bytes.now batch.new) }
{
    batch.try_set_chunk(index, bytes)?;
    Ok(())
}

// Gives the retained bits of each listed chunk the values of its bytes.
fn write_chunks<const N: usize>(batch: &mut DirtyBitMap<N>, chunks: &[u8]) -> Result<(), AllocError>
    requires size { 8 + N < 2 ^ 64 }
    requires ascend { AscendFrom N (bit_len N (pending_of N batch.old))
        (pending_of N batch.old).pruned (all_chunks N chunks.now) }
    ensures on { IsOn batch.old batch.new }
    ensures made { OnOk result (Overlays N batch.old (all_chunks N chunks.now) batch.new) }
{
    let _ = batch.len();
    let mut rest = chunks;
    while let Some((index, bytes, after)) = split_chunk::<N>(rest) {
        write_chunk(batch, index as usize, bytes)?;
        rest = after;
    }
    Ok(())
}

// Makes the edits of a change that the batch accepts.
fn edit_all<const N: usize>(
    batch: &mut DirtyBitMap<N>,
    change: &Change<'_>,
) -> Result<(), AllocError>
    requires extent { HasExtent N (pending_of N batch.old) (view_change N change.now) }
    requires ascend { AscendFrom N change.now.len change.now.pruned
        (all_chunks N change.now.chunks.now) }
    ensures on { IsOn batch.old batch.new }
    ensures made { OnOk result (pending_of N batch.new
        ≡ applied N (pending_of N batch.old) (view_change N change.now)) }
{
    let _ = batch.len();
    let first = chunk_width::<N>() * change.pruned;
    resize(batch, change.len)?;
    write_chunks(batch, change.chunks)?;
    batch.try_prune_to_bit(first)?;
    Ok(())
}

// Returns the bitmap that a change makes of one that retains nothing and has its pruned count.
fn made_anew<const N: usize>(alloc: Global, change: &Change<'_>) -> Result<Prunable<N>, AllocError>
    requires width { IsWidth N }
    requires covers { 8 * N * change.now.pruned ≤ change.now.len }
    requires ascend { AscendFrom N change.now.len change.now.pruned
        (all_chunks N change.now.chunks.now) }
    ensures { IfOk result (λ made. made ≡ applied N
        (record { pruned = change.now.pruned; bits = [] }) (view_change N change.now)) }
{
    let nothing = Prunable::new_with_pruned_chunks(alloc, change.pruned as usize).unwrap();
    let mut batch = CleanBitMap::from_bitmap(alloc, nothing).into_dirty();
    edit_all(&mut batch, change)?;
    match batch.commit(0) {
        Ok(made) => made.current().clone(),
        Err(_) => Err(AllocError),
    }
}

// Applies a change that the bitmap accepts and that prunes all of its chunks.
fn replace<const N: usize>(
    bitmap: CleanBitMap<N>,
    change: &Change<'_>,
) -> Result<CleanBitMap<N>, (CleanBitMap<N>, AllocError)>
    requires accepted { Accepts N (kept_of N bitmap) (Commit (view_change N change.now)) }
    requires pruned { bit_len N bitmap.current ≤ 8 * N * change.now.pruned }
    ensures entry { IfOk result (λ b. kept_of N b
        ≡ after N (kept_of N bitmap.entry) (Commit (view_change N change.now))) }
    ensures unchanged { IfErr result (λ e. e.0 ≡ bitmap.entry) }
{
    let _ = bitmap.len();
    let made = match made_anew::<N>(bitmap.allocator(), change) {
        Ok(made) => made,
        Err(error) => return Err((bitmap, error)),
    };
    match bitmap.commit_replaced(change.number, made) {
        Ok(bitmap) => Ok(bitmap),
        // The number is accepted, so that the only error is that of an allocation.
        Err((bitmap, _)) => Err((bitmap, AllocError)),
    }
}

// Applies a change that the bitmap accepts.
pub(crate) fn apply_accepted<const N: usize>(
    bitmap: CleanBitMap<N>,
    change: &Change<'_>,
) -> Result<CleanBitMap<N>, (CleanBitMap<N>, AllocError)>
    requires accepted { Accepts N (kept_of N bitmap) (Commit (view_change N change.now)) }
    ensures entry { IfOk result (λ b. kept_of N b
        ≡ after N (kept_of N bitmap.entry) (Commit (view_change N change.now))) }
    ensures unchanged { IfErr result (λ e. e.0 ≡ bitmap.entry) }
{
    if bitmap.len() <= chunk_width::<N>() * change.pruned {
        return replace(bitmap, change);
    }
    let mut batch = bitmap.into_dirty();
    if let Err(error) = edit_all(&mut batch, change) {
        return Err((batch.abort(), error));
    }
    match batch.commit(change.number) {
        Ok(bitmap) => Ok(bitmap),
        // The number is accepted, so that the only error is that of an allocation.
        Err((batch, _)) => Err((batch.abort(), AllocError)),
    }
}

/// Applies a change as the next commit of a bitmap, if the bitmap accepts it.
///
/// What is then kept is what the entry of the change makes of what was kept.
///
/// # Errors
/// Returns the bitmap, unchanged, with the error of `check_change`. If the bitmap accepts the change and an allocation fails, the error is `Memory`.
///
/// # Memory
/// Allocates what the commit takes: per listed chunk, and per chunk that the change prunes or cuts off, a constant number of bytes beside the
/// chunk itself. Each chunk that is new is listed, so that neither the length nor the pruned count takes memory by itself.
///
/// # Complexity
/// Linear in the bytes of the listed chunks, with a few searches among the edited chunks for each one, and in the chunks that the change prunes or
/// cuts off.
pub fn apply_change<const N: usize>(
    bitmap: CleanBitMap<N>,
    change: &Change<'_>,
) -> Result<CleanBitMap<N>, (CleanBitMap<N>, ApplyError)>
    ensures entry { IfOk result (λ b. kept_of N b
        ≡ after N (kept_of N bitmap.entry) (Commit (view_change N change.now))) }
    ensures accepted { OnOk result (Accepts N (kept_of N bitmap.entry)
        (Commit (view_change N change.now))) }
    ensures error { IfErr result (λ e. IsApplyError N (kept_of N bitmap.entry)
        (view_change N change.now) e.1) }
    ensures unchanged { IfErr result (λ e. e.0 ≡ bitmap.entry) }
{
    match check_change(&bitmap, change) {
        Ok(()) => {}
        Err(error) => return Err((bitmap, ApplyError::Entry(error))),
    }
    match apply_accepted(bitmap, change) {
        Ok(bitmap) => Ok(bitmap),
        Err((bitmap, error)) => Err((bitmap, ApplyError::Memory(error))),
    }
}
