//! A commit of a whole new bitmap, in which every chunk of the current one is pruned.

ghost use Rattle.std.specs.Prelude.{◌≡◌, ℕ, ◌+◌, ◌<◌, ◌≤◌, [], ◌∷◌, ◌++◌, length, None, Some, IfErr, IfOk, OnErr, OnOk, unwrap_or, alloc_error};
ghost use Rattle.std.specs.List.{All};
ghost use Rattle.std.specs.Map.{keys_of};
ghost use Rattle.bitmap_core.specs.PrunedBits.{bit_len, pruned_bits};
ghost use Rattle.historical_bitmap.specs.History.{before_latest};
ghost use Rattle.historical_bitmap.specs.Replaced.{added_entries, pruned_entries, replaced_record, retained_chunks, with_entries};
ghost use Rattle.historical_bitmap.specs.View.{commit_error, costs_of, history_of};
ghost use Rattle.historical_bitmap.specs.declared.bitmap.historical.error.Error.TheVariants.{Memory};

use crate::bitmap::historical::commit_list::CommitList;
use crate::bitmap::historical::dirty::check_number;
use crate::bitmap::historical::record::{ChunkDiff, CommitDiff};
use crate::bitmap::historical::{BitMap, Clean, CleanBitMap, Error};
use bitmap_core::bitmap::Prunable;
use std::alloc::{AllocError, Global};

// Appends the entry of each chunk that the old bitmap retains: the commit prunes it.
fn record_pruned<const N: usize>(
    diff: &mut CommitDiff<N>,
    old: &Prunable<N>,
) -> Result<(), AllocError>
    ensures { OnOk result (diff.new ≡ with_entries diff.old (pruned_entries N old.now)) }
{
    let _ = old.len();
    for index in old.pruned_chunks()..old.chunks_len() {
        diff.push(index, ChunkDiff::Pruned(*old.get_chunk(index)))?;
    }
    Ok(())
}

// Appends the entry of each chunk that the new bitmap retains: the commit adds it.
fn record_added<const N: usize>(
    diff: &mut CommitDiff<N>,
    new: &Prunable<N>,
) -> Result<(), AllocError>
    ensures { OnOk result (diff.new ≡ with_entries diff.old (added_entries N new.now)) }
{
    let _ = new.len();
    for index in new.pruned_chunks()..new.chunks_len() {
        diff.push(index, ChunkDiff::Added)?;
    }
    Ok(())
}

// Returns the number of chunks that a bitmap retains.
fn count_retained<const N: usize>(bitmap: &Prunable<N>) -> usize
    ensures { result ≡ length (retained_chunks N bitmap.now) }
{
    let _ = bitmap.len();
    bitmap.chunks_len() - bitmap.pruned_chunks()
}

// Returns the record of a commit that replaces the old bitmap by the new one. Allocates it once.
fn replaced<const N: usize>(
    alloc: Global,
    old: &Prunable<N>,
    new: &Prunable<N>,
) -> Result<CommitDiff<N>, AllocError>
    requires { bit_len N old.now ≤ pruned_bits N new.now }
    ensures { IfOk result (λ r. r ≡ replaced_record N old.now new.now) }
{
    let _ = new.len();
    let count = count_retained(old) + count_retained(new);
    let mut diff = CommitDiff::with_capacity(alloc, old.len(), old.pruned_chunks(), count)?;
    record_pruned(&mut diff, old)?;
    record_added(&mut diff, new)?;
    Ok(diff)
}

// Keeps the new bitmap as commit `number`, whose record leads back to the old one. If an allocation fails, the commits are unchanged.
fn keep_replaced<const N: usize>(
    old: &Prunable<N>,
    new: &Prunable<N>,
    commits: &mut CommitList<N>,
    number: u64,
    alloc: Global,
) -> Result<(), AllocError>
    requires pruned { bit_len N old.now ≤ pruned_bits N new.now }
    requires number { All (λ kept. kept < number) (keys_of commits.old) }
    ensures ok { OnOk result (commits.new
        ≡ commits.old ++ (number, replaced_record N old.now new.now) ∷ []) }
    ensures err { OnErr result (commits.new ≡ commits.old) }
{
    let _ = new.len();
    let diff = replaced(alloc, old, new)?;
    commits.append(number, diff)?;
    Ok(())
}

impl<const N: usize> BitMap<N, Clean> {
    /// Replaces the current bitmap by another, and keeps that one as commit `number`. The other commits are unchanged.
    ///
    /// Every chunk of the current bitmap has to be pruned in the new one: its pruned bits are at least as many as the bits of the current bitmap.
    /// A batch can make the same commit, but it has to append each chunk between the two bitmaps, and its record keeps each of them.
    ///
    /// # Errors
    ///
    /// The value is returned unchanged with one of these, the first that applies. The new bitmap is dropped.
    ///
    /// - `ReservedCommitNumber` if `number` is `u64::MAX`;
    /// - `NonMonotonicCommit` if `number` is not above the last number (last committed or rewound to);
    /// - `Memory` if an allocation fails.
    ///
    /// # Memory
    ///
    /// Allocates the reverse record, and a place in the list of commits, if there is no capacity for it.
    /// The record has one entry per chunk that the current or the new bitmap retains, and none for the chunks between them.
    ///
    /// # Complexity
    ///
    /// Linear in the retained chunks of both bitmaps. Amortized, since the list of commits may have to reallocate to grow.
    /// Independent of the lengths of the bitmaps and of the number of kept commits.
    pub fn commit_replaced(
        mut self,
        number: u64,
        bitmap: Prunable<N>,
    ) -> Result<CleanBitMap<N>, (CleanBitMap<N>, Error)>
        requires { bit_len N self.current ≤ pruned_bits N bitmap }
        ensures accepted { OnOk result (commit_error self.entry.last number ≡ None) }
        ensures refused { IfErr result (λ e. e.1
            ≡ unwrap_or (commit_error self.entry.last number) (Memory alloc_error)) }
        ensures unchanged { IfErr result (λ e. e.0 ≡ self.entry) }
        ensures current { IfOk result (λ b. b.current ≡ bitmap.entry) }
        ensures history { IfOk result (λ b. history_of N b
            ≡ history_of N self.entry ++ (number, bitmap.entry) ∷ []) }
        ensures earlier { IfOk result (λ b. before_latest b.commits ≡ self.entry.commits) }
        ensures last { IfOk result (λ b. b.last ≡ Some number) }
        ensures costs { IfOk result (λ b. costs_of b ≡ costs_of self.entry
            ++ (
              number,
              length (retained_chunks N self.entry.current)
                  + length (retained_chunks N bitmap.entry),
            ) ∷ []) }
    {
        if let Err(why) = check_number(self.last, number) {
            return Err((self, why));
        }
        let alloc = self.state.allocator();
        let Ok(()) = keep_replaced(&self.current, &bitmap, &mut self.commits, number, alloc) else {
            return Err((self, Error::Memory(AllocError)));
        };
        Ok(BitMap {
            current: bitmap,
            commits: self.commits,
            last: Some(number),
            state: self.state,
        })
    }
}
