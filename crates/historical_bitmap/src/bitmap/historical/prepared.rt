//! A commit in two steps: it is prepared, which takes all its memory and may fail, and then finished or undone, which cannot fail.

ghost use Rattle.std.specs.Prelude.{◌≡◌, ℕ, ◌<◌, [], ◌∷◌, ◌++◌, None, Some, IfErr, IfOk, OnErr, OnOk, unwrap_or, alloc_error};
ghost use Rattle.std.specs.List.{All};
ghost use Rattle.std.specs.Map.{keys_of};
ghost use Rattle.bitmap_core.specs.PrunedBits.{bit_len};
ghost use Rattle.historical_bitmap.specs.declared.bitmap.historical.error.Error.TheVariants.{Memory};
ghost use Rattle.historical_bitmap.specs.Changes.{changed, listed};
ghost use Rattle.historical_bitmap.specs.History.{before_latest};
ghost use Rattle.historical_bitmap.specs.Pending.{PendingFits};
ghost use Rattle.historical_bitmap.specs.Prepared.{IsPrepared};
ghost use Rattle.historical_bitmap.specs.View.{AddsCost, commit_error, history_of, pending_of};

use crate::bitmap::historical::apply::{grow, overwrite, shrink_back};
use crate::bitmap::historical::commit_list::CommitList;
use crate::bitmap::historical::dirty::check_number;
use crate::bitmap::historical::prepared_changes::PreparedChanges;
use crate::bitmap::historical::{BitMap, Clean, CleanBitMap, Dirty, DirtyBitMap, Error};
use bitmap_core::bitmap::Prunable;
use std::alloc::AllocError;
use std::marker::Model;

/// A batch whose commit has all the memory that it needs.
///
/// [`prepare`](DirtyBitMap::prepare) returns it. Then [`commit`](PreparedBitMap::commit) finishes the commit and cannot fail, and
/// [`into_dirty`](PreparedBitMap::into_dirty) gives the batch back. So a program can make a second change between the two steps, such as an entry
/// in a log or a commit of another bitmap, and both changes are made or neither is.
///
/// # Memory
/// That of the bitmap after the commit, and of the pending edits.
#[derive(Debug, Drop)]
pub struct PreparedBitMap<const N: usize> {
    // The current bitmap, extended with zeros to the pending length if that is longer.
    current: Prunable<N>,
    // The length of the current bitmap before it was extended.
    old_len: u64,
    // The kept commits, and after them the prepared one.
    commits: CommitList<N>,
    last: Option<u64>,
    edits: Dirty<N>,
    number: u64,
}

impl<const N: usize> Model for PreparedBitMap<N> {
    ghost use Rattle.bitmap_core.specs.PrunedBits.{truncated};
    ghost use Rattle.historical_bitmap.specs.History.{before_latest};
    ghost use Rattle.historical_bitmap.specs.Prepared.{CanFinish, PreparedView};

    ghost Value = { PreparedView };

    ghost view = { λ p. record {
      batch = record {
        current = truncated N p.current p.old_len;
        commits = before_latest p.commits;
        last = p.last;
        state = p.edits;
      };
      number = p.number;
    } };

    ghost invariant = { λ p. CanFinish N p.current p.old_len p.commits p.last p.edits p.number };
}

// Prepares a commit of pending edits: extends the current bitmap to the pending length, and appends the record of the edits to the commits.
// Returns the length before. If an allocation fails, nothing is changed.
#[inline]
pub(crate) fn add_commit<const N: usize>(
    current: &mut Prunable<N>,
    commits: &mut CommitList<N>,
    edits: &Dirty<N>,
    number: u64,
) -> Result<u64, AllocError>
    requires edits_fit { PendingFits N current.old edits.now }
    requires above { All (λ kept. kept < number) (keys_of commits.old) }
    ensures old_len { IfOk result (λ old_len. old_len ≡ bit_len N current.old) }
    ensures prepared { OnOk result
        (IsPrepared N current.old commits.old edits.now number current.new commits.new) }
    ensures same_bitmap { OnErr result (current.new ≡ current.old) }
    ensures same_commits { OnErr result (commits.new ≡ commits.old) }
{
    let record = edits.record(current, edits.allocator())?;
    let old_len = grow(current, edits.len())?;
    if commits.append(number, record).is_err() {
        shrink_back(current, old_len);
        return Err(AllocError);
    }
    Ok(old_len)
}

impl<const N: usize> BitMap<N, Dirty<N>> {
    /// Takes all the memory that a commit under a number needs, as the first of the two steps of `commit`.
    ///
    /// # Errors
    /// Those of `commit`, in the same order. Also returns the batch, unchanged.
    ///
    /// # Memory
    /// As `commit`.
    ///
    /// # Complexity
    /// At most that of `commit`.
    pub fn prepare(mut self, number: u64) -> Result<PreparedBitMap<N>, (DirtyBitMap<N>, Error)>
        ensures accepted { OnOk result (commit_error self.entry.last number ≡ None) }
        ensures prepared { IfOk result (λ p. p ≡ record { batch = self.entry; number = number }) }
        ensures refused { IfErr result
            (λ e. e.1 ≡ unwrap_or (commit_error self.entry.last number) (Memory alloc_error)) }
        ensures unchanged { IfErr result (λ e. e.0 ≡ self.entry) }
    {
        let _ = self.current.len();
        if let Err(why) = check_number(self.last, number) {
            return Err((self, why));
        }
        let Ok(old_len) = add_commit(&mut self.current, &mut self.commits, &self.state, number)
        else {
            return Err((self, Error::Memory(AllocError)));
        };
        Ok(PreparedBitMap {
            current: self.current,
            old_len,
            commits: self.commits,
            last: self.last,
            edits: self.state,
            number,
        })
    }
}

impl<const N: usize> PreparedBitMap<N> {
    /// Finishes the commit: the result is that of `commit` for the batch and the number.
    ///
    /// # Memory
    /// Does not allocate.
    ///
    /// # Complexity
    /// At most that of `commit`.
    pub fn commit(mut self) -> CleanBitMap<N>
        ensures current { result.current ≡ pending_of N self.entry.batch }
        ensures history { history_of N result
            ≡ history_of N self.entry.batch
            ++ (self.entry.number, pending_of N self.entry.batch) ∷ [] }
        ensures earlier { before_latest result.commits ≡ self.entry.batch.commits }
        ensures last { result.last ≡ Some self.entry.number }
        ensures costs { AddsCost N self.entry.batch self.entry.number result }
    {
        let alloc = self.edits.allocator();
        let len = self.edits.len();
        let pruned = self.edits.pruned_chunks();
        let edited = self.edits.into_edited();
        overwrite(&mut self.current, len, edited, pruned);
        BitMap {
            current: self.current,
            commits: self.commits,
            last: Some(self.number),
            state: Clean::new(alloc),
        }
    }

    /// Returns the number under which the batch will be committed.
    ///
    /// Does not allocate; constant time.
    pub fn number(&self) -> u64
        ensures { result ≡ self.now.number }
    {
        self.number
    }

    /// Returns the length of the pending bitmap in bits, pruned bits included.
    ///
    /// Does not allocate; constant time.
    pub fn pending_len(&self) -> u64
        ensures { result ≡ bit_len N (pending_of N self.now.batch) }
    {
        self.edits.len()
    }

    /// Returns the number of pruned chunks of the pending bitmap.
    ///
    /// Does not allocate; constant time.
    pub fn pending_pruned_chunks(&self) -> usize
        ensures { result ≡ (pending_of N self.now.batch).pruned }
    {
        self.edits.pruned_chunks()
    }

    /// Returns an iterator over the chunks that the commit changes and that the new bitmap retains: the absolute index and the new bytes of each.
    ///
    /// A chunk is changed if its bytes in the two bitmaps differ, or if only the new one retains it. Bits past the length count as zero.
    ///
    /// Does not allocate; constant time. [`PreparedChanges`] says what the iterator costs.
    pub fn changed_chunks(&self) -> PreparedChanges<'_, N>
        ensures { let new = pending_of N self.now.batch in
            result ≡ listed N new (changed N self.now.batch.current new) }
    {
        let _ = self.current.len();
        let _ = self.edits.len();
        let (_, record) = self.commits.commit(self.commits.len() - 1);
        PreparedChanges::new(
            &self.current,
            self.old_len,
            &self.edits,
            record.chunk_diffs(),
        )
    }

    /// Gives the batch back, as it was before it was prepared.
    ///
    /// # Memory
    /// Does not allocate.
    ///
    /// # Complexity
    /// Linear in the chunks by which the commit would have extended the bitmap, and in the entries of its record if the commits are indexed.
    pub fn into_dirty(mut self) -> DirtyBitMap<N>
        ensures { result ≡ self.entry.batch }
    {
        shrink_back(&mut self.current, self.old_len);
        let count = self.commits.len();
        self.commits.truncate(count - 1);
        BitMap {
            current: self.current,
            commits: self.commits,
            last: self.last,
            state: self.edits,
        }
    }
}
