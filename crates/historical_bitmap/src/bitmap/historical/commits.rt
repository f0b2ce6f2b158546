//! The commits of a historical bitmap: reading what is kept under a number, listing, dropping and rewinding.

ghost use Rattle.std.specs.Prelude.{◌≡◌, ℕ, ◌+◌, ◌-◌, ◌^◌, ◌<◌, [], length, None, Some, Ok, is_some, IsSome, IfErr, IfOk, IfSome, OnOk, if◌then◌else◌, alloc_error};
ghost use Rattle.std.specs.List.{sum_by};
ghost use Rattle.std.specs.Map.{keys_of};
ghost use Rattle.historical_bitmap.specs.History.{AllCanUndo, at_least, earliest, from_number, is_above, kept_under, latest, LatestIsLast, past_number, RiseInNumber, undone, up_to_number};
ghost use Rattle.historical_bitmap.specs.View.{costs_of, history_of};
ghost use Rattle.historical_bitmap.specs.declared.bitmap.historical.error.RewindError.TheVariants.{Memory, NoSuchCommit};

use crate::bitmap::historical::commit_list::CommitList;
use crate::bitmap::historical::error::RewindError;
use crate::bitmap::historical::record::CommitDiff;
use crate::bitmap::historical::rewind::rewind;
use crate::bitmap::historical::state::Clean;
use crate::bitmap::historical::undo::undo;
use crate::bitmap::historical::{BitMap, CleanBitMap};
use bitmap_core::bitmap::Prunable;
use std::alloc::AllocError;
use std::collections::vec_deque::Iter;
use std::marker::Model;

/// An iterator over the commit numbers in a list of numbered values, in the order of the list, each once.
///
/// After the last number, `next` returns `None`, however often it is called.
#[derive(Drop)]
pub struct CommitNumbers<'a, V> {
    commits: Iter<'a, (u64, V)>,
}

impl<'a, V> Model for CommitNumbers<'a, V> {
    ghost use Rattle.std.specs.Prelude.{List, ℕ};
    ghost use Rattle.std.specs.Map.{keys_of};
    ghost use Rattle.std.specs.VecDeque.Iter.{deque_iter_rest};

    ghost Value = { List ℕ };

    ghost view = { λ n. keys_of (deque_iter_rest n.commits) };
}

impl<'a, V> Iterator for CommitNumbers<'a, V> {
    type Item = u64;

    ghost use Rattle.std.specs.Iterator.{YieldsFirst, item_count};

    ghost next_gives = { YieldsFirst (λ s. s) };

    ghost remaining = { item_count (λ s. s) };

    /// Returns the next number, or `None` if none is left.
    ///
    /// Does not allocate; constant time.
    fn next(&mut self) -> Option<u64> {
        match self.commits.next() {
            Some(commit) => Some(commit.0),
            None => None,
        }
    }
}

/// An iterator over the numbers of the kept commits of a historical bitmap, ascending, each once.
pub type Commits<'a, const N: usize> = CommitNumbers<'a, CommitDiff<N>>;

// Undoes the reverse records past a number, the newest first.
fn undo_past<const N: usize>(
    bitmap: &mut Prunable<N>,
    commits: &CommitList<N>,
    number: u64,
) -> Result<(), AllocError>
    requires { AllCanUndo N (past_number number commits.now) bitmap.old }
    ensures ok { OnOk result (bitmap.new ≡ undone N (past_number number commits.now) bitmap.old) }
{
    let first = commits.past(number);
    let mut position = commits.len();
    while first < position {
        position -= 1;
        let (_, record) = commits.commit(position);
        undo(bitmap, record)?;
    }
    Ok(())
}

// Returns whether a number is above the last number, or there is none: then no commit is kept under it.
#[inline]
fn is_past(last: Option<u64>, number: u64) -> bool
    ensures { result ≡ is_above last number }
{
    match last {
        Some(last) => last < number,
        None => true,
    }
}

// Drops the commits whose numbers are below a number, from the first on. Looks at these and at one more. Does not allocate.
fn drop_before<const N: usize>(commits: &mut CommitList<N>, number: u64)
    requires { RiseInNumber commits.old }
    ensures { commits.new ≡ from_number number commits.old }
{
    while let Some(first) = commits.first_number() {
        if first >= number {
            return;
        }
        commits.pop_first();
    }
}

// Drops the commits whose numbers are above a number, which are found by one search. Does not allocate.
fn drop_past<const N: usize>(commits: &mut CommitList<N>, number: u64)
    ensures { commits.new ≡ up_to_number number commits.old }
{
    let kept = commits.past(number);
    commits.truncate(kept);
}

// Returns the total number of entries of some reverse records.
fn count_entries<const N: usize>(commits: &CommitList<N>) -> u128
    ensures { result ≡ sum_by (λ commit. length commit.1.entries) commits.now }
{
    let mut total: u128 = 0;
    for position in 0..commits.len() {
        let (_, record) = commits.commit(position);
        total += record.entries() as u128;
    }
    total
}

impl<const N: usize> BitMap<N, Clean> {
    /// Returns the bitmap at commit `number` as a bitmap of its own, or `None` if that commit is not kept.
    ///
    /// The current bitmap is copied, and the reverse records past the number are undone in the copy, newest first. `u64::MAX` is never kept.
    /// To read a few bits, `at` is cheaper.
    ///
    /// # Errors
    /// `AllocError` if an allocation fails. A number that is not kept is no error.
    ///
    /// # Memory
    /// Allocates the bitmap, and temporarily the chunks that later commits pruned and whose bytes their records keep.
    /// Does not allocate if the number is not kept.
    ///
    /// # Complexity
    /// Linear in the retained chunks of the current bitmap, plus the reverse records past the number and their entries.
    /// Logarithmic in the kept commits if the number is not kept.
    pub fn get_at_commit(&self, number: u64) -> Result<Option<Prunable<N>>, AllocError>
        ensures ok { IfOk result (λ found. found ≡ kept_under (history_of N self.now) number) }
        ensures absent { kept_under (history_of N self.now) number ≡ None → result ≡ Ok None }
        ensures reserved { kept_under (history_of N self.now) (2 ^ 64 - 1) ≡ None }
    {
        if !self.commit_exists(number) {
            return Ok(None);
        }
        Ok(Some(self.undone_to(number)?))
    }

    // Returns the bitmap at a kept commit.
    fn undone_to(&self, number: u64) -> Result<Prunable<N>, AllocError>
        requires { IsSome (kept_under (history_of N self.now) number) }
        ensures { IfOk result (λ found. kept_under (history_of N self.now) number ≡ Some found) }
    {
        let mut found = self.current.clone()?;
        undo_past(&mut found, &self.commits, number)?;
        Ok(found)
    }

    /// Returns whether a commit is kept under `number`. `u64::MAX` is never kept.
    ///
    /// Does not allocate.
    ///
    /// # Complexity
    /// Constant for the latest commit and for a number above it; else logarithmic in the kept commits.
    pub fn commit_exists(&self, number: u64) -> bool
        ensures value { result ≡ is_some (kept_under (history_of N self.now) number) }
        ensures reserved { kept_under (history_of N self.now) (2 ^ 64 - 1) ≡ None }
    {
        if is_past(self.last, number) {
            return false;
        }
        self.commits.contains(number)
    }

    /// Returns the greatest number of a kept commit, or `None` if no commit is kept.
    ///
    /// Does not allocate; constant time.
    pub fn latest_commit(&self) -> Option<u64>
        ensures { result ≡ latest (history_of N self.now) }
    {
        self.commits.last_number()
    }

    /// Returns the least number of a kept commit, or `None` if no commit is kept.
    ///
    /// Does not allocate; constant time.
    pub fn earliest_commit(&self) -> Option<u64>
        ensures { result ≡ earliest (history_of N self.now) }
    {
        self.commits.first_number()
    }

    /// Returns the number last committed or rewound to, even if its commit is not kept, or `None` if there is none.
    ///
    /// If any commit is kept, it is the greatest number of a kept commit. A commit's number has to be above it. It is never `u64::MAX`.
    ///
    /// Does not allocate; constant time.
    pub fn last_number(&self) -> Option<u64>
        ensures value { result ≡ self.now.last }
        ensures latest { LatestIsLast (history_of N self.now) self.now.last }
        ensures unreserved { IfSome self.now.last (λ number. number < 2 ^ 64 - 1) }
    {
        self.last
    }

    /// Returns an iterator over the numbers of the kept commits, ascending, each once.
    ///
    /// Does not allocate.
    ///
    /// # Complexity
    /// Constant; a whole pass is linear in the kept commits.
    pub fn commits(&self) -> Commits<'_, N>
        ensures items { result ≡ keys_of (history_of N self.now) }
        ensures ascending { RiseInNumber (history_of N self.now) }
    {
        CommitNumbers {
            commits: self.commits.iter(),
        }
    }

    /// Returns an iterator over the numbers of the kept commits that are at least `number`, ascending, each once.
    ///
    /// Does not allocate.
    ///
    /// # Complexity
    /// Logarithmic in the kept commits; a whole pass is linear in the commits that it returns. The earlier commits are not visited.
    pub fn commits_from(&self, number: u64) -> Commits<'_, N>
        ensures items { result ≡ at_least number (keys_of (history_of N self.now)) }
        ensures ascending { RiseInNumber (history_of N self.now) }
    {
        CommitNumbers {
            commits: self.commits.iter_from(number),
        }
    }

    /// Drops the commits whose numbers are below `number`, and returns how many were dropped.
    ///
    /// The current bitmap, the other commits and the last number are unchanged. Does not allocate.
    ///
    /// # Complexity
    /// At most linear in the dropped commits and the entries of their reverse records, which are freed. The other commits are not visited.
    /// If the bitmap is indexed, per entry also at most three searches in the index, each of which visits at most 16 nodes, and one that is
    /// logarithmic in the kept commits that changed the chunk.
    pub fn prune_commits_before(&mut self, number: u64) -> usize
        ensures value { self.new
            ≡ record self.old { commits = from_number number self.old.commits } }
        ensures history { history_of N self.new ≡ from_number number (history_of N self.old) }
        ensures costs { costs_of self.new ≡ from_number number (costs_of self.old) }
        ensures count { result + length (history_of N self.new) ≡ length (history_of N self.old) }
    {
        let before = self.commits.len();
        drop_before(&mut self.commits, number);
        before - self.commits.len()
    }

    /// Rewinds to commit `number`: the bitmap at that commit becomes the current one, and the commits past it are dropped.
    ///
    /// The other commits are unchanged. `number` becomes the last number, so the next commit has to have a greater one.
    /// The current bitmap is changed in place: only the chunks that the dropped commits touched are written.
    ///
    /// # Errors
    /// `NoSuchCommit` if the number is not kept, as `u64::MAX` never is; else `Memory` if an allocation fails, or if there are more than
    /// 2^31 - 1 chunks to restore. The bitmap is returned unchanged with the error.
    ///
    /// # Memory
    /// Allocates temporarily a map with the old bytes of each chunk that is restored, with at most one node of 80 bytes per such chunk, and the
    /// chunks of the bitmap at that commit that were pruned since. Allocates the chunks by which the bitmap grows, at either end, if there is no
    /// capacity for them. Does not allocate if the number is not kept.
    ///
    /// # Complexity
    /// A search among the kept commits. Amortized, per entry of the reverse records past the number: at most two searches among the restored
    /// chunks, each of which visits at most 16 nodes. Per dropped commit, constant. The length of the bitmap does not matter, except that the
    /// retained chunks may be moved in memory if the bitmap grows.
    /// If the bitmap is indexed, per entry also at most three searches in the index, each of which visits at most 16 nodes, and one that is
    /// logarithmic in the kept commits that changed the chunk.
    ///
    /// # Examples
    /// ```
    /// ghost use Rattle.std.specs.Prelude.{◌≡◌, None, Some, Err, OnErr, OnOk};
    /// ghost use Rattle.historical_bitmap.specs.History.{kept_under};
    /// ghost use Rattle.historical_bitmap.specs.View.{history_of};
    /// ghost use Rattle.historical_bitmap.specs.declared.bitmap.historical.error.RewindError.TheVariants.{NoSuchCommit};
    ///
    /// use historical_bitmap::bitmap::historical::{CleanBitMap, RewindError};
    ///
    /// /// Rewinds flags to a checkpoint. On an error they are unchanged.
    /// pub fn restored(flags: CleanBitMap<8>, checkpoint: u64) -> (CleanBitMap<8>, Result<(), RewindError>)
    ///     ensures back { OnOk result.1 (kept_under (history_of 8 flags) checkpoint ≡ Some result.0.current) }
    ///     ensures stay { OnErr result.1 (result.0 ≡ flags) }
    ///     ensures unknown { kept_under (history_of 8 flags) checkpoint ≡ None → result.1 ≡ Err NoSuchCommit }
    /// {
    ///     match flags.rewind_to(checkpoint) {
    ///         Ok(flags) => (flags, Ok(())),
    ///         Err((flags, why)) => (flags, Err(why)),
    ///     }
    /// }
    /// ```
    pub fn rewind_to(mut self, number: u64) -> Result<CleanBitMap<N>, (CleanBitMap<N>, RewindError)>
        ensures refused { IfErr result
            (λ e. e.1 ≡ (if is_some (kept_under (history_of N self.entry) number)
            then Memory alloc_error else NoSuchCommit)) }
        ensures unchanged { IfErr result (λ e. e.0 ≡ self.entry) }
        ensures current { IfOk result
            (λ b. kept_under (history_of N self.entry) number ≡ Some b.current) }
        ensures history { IfOk result
            (λ b. history_of N b ≡ up_to_number number (history_of N self.entry)) }
        ensures commits { IfOk result (λ b. b.commits ≡ up_to_number number self.entry.commits) }
        ensures costs { IfOk result (λ b. costs_of b ≡ up_to_number number (costs_of self.entry)) }
        ensures last { IfOk result (λ b. b.last ≡ Some number) }
        ensures reserved { kept_under (history_of N self.entry) (2 ^ 64 - 1) ≡ None }
    {
        if !self.commit_exists(number) {
            return Err((self, RewindError::NoSuchCommit));
        }
        let (len, pruned) = self.extent_before(self.commits.past(number));
        let alloc = self.state.allocator();
        let Ok(()) = rewind(&mut self.current, &self.commits, number, len, pruned, alloc) else {
            return Err((self, RewindError::Memory(AllocError)));
        };
        drop_past(&mut self.commits, number);
        Ok(BitMap {
            current: self.current,
            commits: self.commits,
            last: Some(number),
            state: self.state,
        })
    }

    /// Drops all commits.
    ///
    /// The current bitmap and the last number are unchanged. Does not allocate.
    ///
    /// # Complexity
    /// At most linear in the kept commits and the entries of their reverse records, which are freed.
    /// If the bitmap is indexed, the entries of the index are freed too.
    pub fn clear_history(&mut self)
        ensures value { self.new ≡ record self.old { commits = [] } }
        ensures history { history_of N self.new ≡ [] }
        ensures costs { costs_of self.new ≡ [] }
    {
        self.commits.clear();
    }

    /// Returns the total number of entries of the kept reverse records. An entry has the old bytes of at most one chunk.
    ///
    /// A record has at most one entry per chunk that its commit touched, and one more if the batch popped down to whole chunks.
    /// Does not allocate.
    ///
    /// # Complexity
    /// Visits every kept commit.
    pub fn reverse_entries(&self) -> u128
        ensures { result ≡ sum_by (λ kept. kept.1) (costs_of self.now) }
    {
        count_entries(&self.commits)
    }
}
