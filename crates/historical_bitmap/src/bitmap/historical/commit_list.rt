//! The kept commits of a historical bitmap, in ascending order of number.
//!
//! A commit is appended after all others, and removed at either end. So the commits are in a queue, and a number is found by binary search.
//! A list may have an index of its commits by chunk. No clause speaks of it, but it is always that of the commits.

ghost use Rattle.std.specs.Prelude.{◌≡◌, ℕ, ◌<◌, ◌≤◌, [], ◌∷◌, ◌++◌, drop, is_some, length, IfSome, IsOk, OnErr, OnOk, Some, slice_get, slice_index, take};
ghost use Rattle.std.specs.List.{All};
ghost use Rattle.std.specs.List.Sorted.{IsStrictlySortedBy};
ghost use Rattle.std.specs.Map.{keys_of};
ghost use Rattle.std.specs.Ordering.{nat_cmp};
ghost use Rattle.std.specs.VecDeque.Iter.{deque_iter_rest};
ghost use Rattle.bitmap_bytes.specs.Chunk.{IsWidth};
ghost use Rattle.historical_bitmap.specs.History.{earliest, EntriesRise, from_number, kept_under, latest, past_number, RiseInNumber, up_to_number};
ghost use Rattle.historical_bitmap.specs.Index.{IsIndexOf};

use crate::bitmap::historical::index::{
    index_last, index_of, unindex_all, unindex_first, unindex_from,
};
use crate::bitmap::historical::kept_bytes::KeptBytes;
use crate::bitmap::historical::record::CommitDiff;
use std::alloc::{AllocError, Global};
use std::collections::VecDeque;
use std::collections::vec_deque::Iter;
use std::fmt;
use std::marker::Model;

// Reverse records with the numbers of their commits. The numbers strictly ascend.
#[derive(Drop)]
pub(crate) struct CommitList<const N: usize> {
    commits: VecDeque<(u64, CommitDiff<N>)>,
    // The index of the commits, if they are indexed.
    index: Option<KeptBytes<N>>,
}

impl<const N: usize> Model for CommitList<N> {
    ghost use Rattle.std.specs.Prelude.{List, ℕ};
    ghost use Rattle.historical_bitmap.specs.Index.{IsIndexed};
    ghost use Rattle.historical_bitmap.specs.Record.{ReverseRecord};

    ghost Value = { List (ℕ × ReverseRecord) };

    ghost view = { λ list. list.commits.items };

    ghost invariant = { λ list. IsIndexed N list.commits.items list.index };
}

// The estimated cost of a search for a chunk in an index. The unit of costs is the time of one search
// for a chunk in a reverse record.
pub(crate) const SEARCH_IN_INDEX: u64 = 5;

// Returns the position of the first number past one, or the count of the commits if there is none, by binary search.
fn search_past<const N: usize>(commits: &VecDeque<(u64, CommitDiff<N>)>, number: u64) -> usize
    requires { RiseInNumber commits.now.items }
    ensures within { result ≤ length commits.now.items }
    ensures earlier { (i : ℕ) → i < result → slice_index (keys_of commits.now.items) i ≤ number }
    ensures later { (i : ℕ) → result ≤ i → i < length commits.now.items
        → number < slice_index (keys_of commits.now.items) i }
{
    let mut start = 0;
    let mut end = commits.len();
    while start < end {
        let middle = start + (end - start) / 2;
        let commit = &commits[middle];
        if commit.0 <= number {
            start = middle + 1;
        } else {
            end = middle;
        }
    }
    start
}

// As `search_past`, but it looks at the last commit first, since that is the one most often asked for, and then at the commit that has the number
// if the numbers up to it are consecutive.
fn first_past<const N: usize>(commits: &VecDeque<(u64, CommitDiff<N>)>, number: u64) -> usize
    requires { RiseInNumber commits.now.items }
    ensures within { result ≤ length commits.now.items }
    ensures earlier { (i : ℕ) → i < result → slice_index (keys_of commits.now.items) i ≤ number }
    ensures later { (i : ℕ) → result ≤ i → i < length commits.now.items
        → number < slice_index (keys_of commits.now.items) i }
{
    let count = commits.len();
    if count == 0 {
        return 0;
    }
    let last = &commits[count - 1];
    if last.0 <= number {
        return count;
    }
    let first = &commits[0];
    if number < first.0 {
        return 0;
    }
    let near = (number - first.0) as usize;
    if near < count {
        let commit = &commits[near];
        if commit.0 == number {
            return near + 1;
        }
    }
    search_past(commits, number)
}

// Returns whether one of some commits has a number, by binary search.
fn has_number<const N: usize>(commits: &VecDeque<(u64, CommitDiff<N>)>, number: u64) -> bool
    requires { RiseInNumber commits.now.items }
    ensures { result ≡ is_some (kept_under commits.now.items number) }
{
    let past = first_past(commits, number);
    if past == 0 {
        return false;
    }
    let commit = &commits[past - 1];
    commit.0 == number
}

// Returns the number of entries of the records from position `first` up to `end`, or `u64::MAX` if
// that is less.
pub(crate) fn entries_between<const N: usize>(
    commits: &CommitList<N>,
    first: usize,
    end: usize,
) -> u64
    requires { end ≤ length commits.now }
{
    let mut entries: u64 = 0;
    for position in first..end {
        let (_, record) = commits.commit(position);
        entries = entries.saturating_add(record.entries() as u64);
    }
    entries
}

impl<const N: usize> CommitList<N> {
    // Returns a list of no commits. Does not allocate.
    pub(crate) fn new(alloc: Global) -> Self
        requires width { IsWidth N }
        ensures { result ≡ [] }
    {
        CommitList {
            commits: VecDeque::new(alloc),
            index: None,
        }
    }

    // Returns the number of commits.
    pub(crate) fn len(&self) -> usize
        ensures { result ≡ length self.now }
    {
        self.commits.len()
    }

    // Returns the least number, or `None` if there are no commits.
    pub(crate) fn first_number(&self) -> Option<u64>
        ensures { result ≡ earliest self.now }
    {
        let first = self.commits.front()?;
        Some(first.0)
    }

    // Returns the greatest number, or `None` if there are no commits.
    pub(crate) fn last_number(&self) -> Option<u64>
        ensures { result ≡ latest self.now }
    {
        let last = self.commits.back()?;
        Some(last.0)
    }

    // Returns whether one of the commits has a number, by binary search.
    pub(crate) fn contains(&self, number: u64) -> bool
        ensures { result ≡ is_some (kept_under self.now number) }
    {
        has_number(&self.commits, number)
    }

    // Returns the position of the first commit past a number, or the count of the commits if there is none, by binary search.
    pub(crate) fn past(&self, number: u64) -> usize
        ensures within { result ≤ length self.now }
        ensures earlier { take result self.now ≡ up_to_number number self.now }
        ensures later { drop result self.now ≡ past_number number self.now }
    {
        first_past(&self.commits, number)
    }

    // Returns the number and the record of the commit at a position.
    pub(crate) fn commit(&self, position: usize) -> (u64, &CommitDiff<N>)
        requires { position < length self.now }
        ensures { slice_get self.now position ≡ Some (result.0, result.1.now) }
    {
        let commit = &self.commits[position];
        (commit.0, &commit.1)
    }

    // Returns an iterator over the commits, in order.
    pub(crate) fn iter(&self) -> Iter<'_, (u64, CommitDiff<N>)>
        ensures { deque_iter_rest result ≡ self.now }
    {
        self.commits.iter()
    }

    // Returns an iterator over the commits whose numbers are at least one, in order. The first is found by binary search.
    pub(crate) fn iter_from(&self, number: u64) -> Iter<'_, (u64, CommitDiff<N>)>
        ensures { deque_iter_rest result ≡ from_number number self.now }
    {
        if number == 0 {
            return self.commits.iter();
        }
        let first = first_past(&self.commits, number - 1);
        self.commits.range(first..)
    }

    // Returns the index of the commits, or `None` if they are not indexed.
    pub(crate) fn index(&self) -> Option<&KeptBytes<N>>
        ensures { IfSome result (λ rows. IsIndexOf rows.now self.now) }
    {
        self.index.as_ref()
    }

    // Indexes the commits, if they are not indexed yet. Allocates the index. If an allocation fails, the list is unchanged.
    pub(crate) fn add_index(&mut self, alloc: Global) -> Result<(), AllocError>
        requires { EntriesRise self.old }
        ensures same { self.new ≡ self.old }
        ensures none { self.old ≡ [] → IsOk result }
    {
        if self.index.is_none() {
            self.index = Some(index_of(alloc, &self.commits)?);
        }
        Ok(())
    }

    // Drops the index, if there is one. Does not allocate.
    pub(crate) fn drop_index(&mut self)
        ensures { self.new ≡ self.old }
    {
        self.index = None;
    }

    // Appends a commit, whose number is above all others, and whose entries ascend. Adds it to the index, if there is one.
    // If an allocation fails, the list is unchanged.
    #[inline]
    pub(crate) fn append(&mut self, number: u64, diff: CommitDiff<N>) -> Result<(), AllocError>
        requires number { All (λ kept. kept < number) (keys_of self.old) }
        requires entries { IsStrictlySortedBy nat_cmp (keys_of diff.entries) }
        ensures ok { OnOk result (self.new ≡ self.old ++ (number, diff.entry) ∷ []) }
        ensures err { OnErr result (self.new ≡ self.old) }
    {
        self.commits.push_back((number, diff))?;
        let Ok(()) = index_last(&mut self.index, &self.commits) else {
            let _ = self.commits.pop_back();
            return Err(AllocError);
        };
        Ok(())
    }

    // Removes the first commit, if there is one. Does not allocate.
    pub(crate) fn pop_first(&mut self)
        ensures value { self.new ≡ drop 1 self.old }
        ensures rise { RiseInNumber self.new }
    {
        unindex_first(&mut self.index, &self.commits);
        let _ = self.commits.pop_front();
    }

    // Removes the commits from a position on. Does not allocate.
    pub(crate) fn truncate(&mut self, position: usize)
        ensures { self.new ≡ take position self.old }
    {
        unindex_from(&mut self.index, &self.commits, position);
        self.commits.truncate(position);
    }

    // Removes all commits. Does not allocate.
    pub(crate) fn clear(&mut self)
        ensures { self.new ≡ [] }
    {
        unindex_all(&mut self.index);
        self.commits.clear();
    }
}

impl<const N: usize> Clone for CommitList<N> {
    ghost use Rattle.std.specs.Prelude.{◌≡◌};

    ghost is_clone = { λ a b. b ≡ a };

    // Returns an equal list, with a copy of the index, if there is one.
    // Allocates for the commits, their entries and the index, and fails if that fails.
    fn clone(&self) -> Result<Self, AllocError> {
        Ok(CommitList {
            commits: self.commits.clone()?,
            index: self.index.clone()?,
        })
    }
}

impl<const N: usize> fmt::Debug for CommitList<N> {
    // Writes each number with its record, as a map does.
    fn fmt<W: fmt::Write>(&self, f: &mut fmt::Formatter<W>) -> fmt::Result {
        let mut map = f.debug_map();
        for commit in &self.commits {
            map.entry(&commit.0, &commit.1);
        }
        map.finish()
    }
}
