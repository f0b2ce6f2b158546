//! The chunks in which two kept states of a historical bitmap differ.

ghost use Rattle.std.specs.Prelude.{◌≡◌, ℕ, ◌+◌, ◌*◌, ◌++◌, ◌^◌, ◌<◌, ◌≤◌, List, length, Some, IfSome};
ghost use Rattle.std.specs.Iterator.{YieldsFirst, item_count};
ghost use Rattle.bitmap_core.specs.PrunedBits.{PrunedBits};
ghost use Rattle.chunk_map.specs.Entries.{IsNextMember};
ghost use Rattle.historical_bitmap.specs.Changes.{changed_between, retained_bytes as retained_bytes_of};
ghost use Rattle.historical_bitmap.specs.Compared.{between_numbers, IsNextChange, named_chunks, PassesEqual};
ghost use Rattle.historical_bitmap.specs.History.{at_least, EntriesRise, kept_under};
ghost use Rattle.historical_bitmap.specs.Index.{IsIndexOf};
ghost use Rattle.historical_bitmap.specs.View.{history_of};

use crate::bitmap::historical::at::AtCommit;
use crate::bitmap::historical::commit_list::{CommitList, SEARCH_IN_INDEX, entries_between};
use crate::bitmap::historical::cut_chunks::cut;
use crate::bitmap::historical::kept_bytes::KeptBytes;
use crate::bitmap::historical::{BitMap, Clean};
use bitmap_core::bitmap::Readable;
use bitmap_core::chunk::{chunk_count, chunk_width};
use std::marker::Model;

/// An iterator over the absolute indices of the chunks that differ between two kept states, ascending, each once.
///
/// `CleanBitMap::changed_chunks` returns it. After the last index, `next` returns `None`, however often it is called.
///
/// Does not allocate.
///
/// # Complexity
///
/// Each chunk that `next` examines is read in both states, as `AtCommit` does. Which chunks it
/// examines, and how it finds them, depends on the bitmap:
///
/// - Without an index: the chunks with an entry in a reverse record between the two states. For each
///   of them: two searches among the kept commits, and one binary search per such record.
/// - With an index, if that is estimated to cost less: the chunks with old bytes in such a record, and
///   those that the older state has in part or not at all. For each chunk with a row in the index:
///   a search in the trie, and one that is logarithmic in the kept commits that changed the chunk.
#[derive(Drop)]
pub struct ChangedChunks<'a, const N: usize> {
    states: Comparison<'a, N>,
    // The first index that is still to be examined.
    next: usize,
}

impl<'a, const N: usize> Model for ChangedChunks<'a, N> {
    ghost use Rattle.std.specs.Prelude.{List, ℕ};
    ghost use Rattle.historical_bitmap.specs.Changes.{changed_from};

    ghost Value = { List ℕ };

    ghost view = { λ c. changed_from N c.states.old c.states.new c.next c.states.end };
}

// Two kept states that are compared.
#[derive(Drop)]
struct Comparison<'a, const N: usize> {
    commits: &'a CommitList<N>,
    from: u64,
    to: u64,
    older: AtCommit<'a, N>,
    newer: AtCommit<'a, N>,
    // The number of chunks of the longer state.
    end: usize,
    // The index of the commits, if it is searched for the chunks that may differ.
    rows: Option<&'a KeptBytes<N>>,
}

impl<'a, const N: usize> Model for Comparison<'a, N> {
    ghost use Rattle.std.specs.Prelude.{IfSome};
    ghost use Rattle.historical_bitmap.specs.Compared.{Compared, IsComparing};
    ghost use Rattle.historical_bitmap.specs.Index.{IsIndexOf};

    ghost Value = { Compared };

    ghost view = { λ c. record { old = c.older; new = c.newer; end = c.end } };

    ghost invariant = { λ c. IsComparing N c.from c.to c.commits.now c.older c.newer c.end
        × IfSome c.rows (λ rows. IsIndexOf rows.now c.commits.now) };
}

// Returns the lesser of two numbers, or the only one.
fn least(left: Option<usize>, right: Option<usize>) -> Option<usize>
    ensures { (from : ℕ) (xs ys : List ℕ) → IsNextMember xs from left → IsNextMember ys from right
        → IsNextMember (xs ++ ys) from result }
{
    match (left, right) {
        (None, None) => None,
        (Some(i), None) => Some(i),
        (None, Some(j)) => Some(j),
        (Some(i), Some(j)) => { if i <= j { Some(i) } else { Some(j) } }
    }
}

// Returns the first chunk from `first` on with an entry in a record past `from` and up to `to`.
fn next_named<const N: usize>(
    commits: &CommitList<N>,
    from: u64,
    to: u64,
    first: usize,
) -> Option<usize>
    requires order { from ≤ to }
    requires rise { EntriesRise (between_numbers from to commits.now) }
    ensures { IsNextMember (named_chunks (between_numbers from to commits.now)) first result }
{
    let mut next = None;
    for position in commits.past(from)..commits.past(to) {
        let (_, record) = commits.commit(position);
        next = least(next, record.next_from(first));
    }
    next
}

impl<'a, const N: usize> AtCommit<'a, N> {
    /// Returns a copy of the chunk at an absolute index, or `None` if the bitmap retains none of its bits.
    ///
    /// Bits past the length are zero. The first position of the chunk fits `u64`. Does not allocate.
    ///
    /// # Complexity
    /// At most a binary search per reverse record past the commit.
    pub fn retained_bytes(&self, chunk: usize) -> Option<[u8; N]>
        requires { 8 * N * chunk < 2 ^ 64 }
        ensures { result ≡ retained_bytes_of N self.now chunk }
    {
        let len = self.len();
        let start = chunk_width::<N>() * chunk as u64;
        if chunk < self.pruned_chunks() || start >= len {
            return None;
        }
        let mut bytes = self.get_chunk(chunk);
        cut(&mut bytes, len - start);
        Some(bytes)
    }
}

// Returns the index of some commits, if there is one, and if a search in it is estimated to cost less
// than searches in the records from position `first` up to `end`.
fn cheaper_index<const N: usize>(
    commits: &CommitList<N>,
    first: usize,
    end: usize,
) -> Option<&KeptBytes<N>>
    requires { end ≤ length commits.now }
    ensures { IfSome result (λ rows. IsIndexOf rows.now commits.now) }
{
    let rows = commits.index()?;
    let chunks = rows.len() as u64;
    let records = end.saturating_sub(first) as u64;
    let examined = entries_between(commits, first, end).min(chunks);
    if examined.saturating_mul(records) > chunks.saturating_mul(SEARCH_IN_INDEX) {
        Some(rows)
    } else {
        None
    }
}

impl<'a, const N: usize> Comparison<'a, N> {
    // Returns the number of chunks of the longer state.
    fn end(&self) -> usize
        ensures { result ≡ self.now.end }
    {
        self.end
    }

    // Returns the first chunk from `first` on that may differ. The chunks before it do not.
    fn next_candidate(&self, first: usize) -> Option<usize>
        ensures { PassesEqual N self.now.old self.now.new first result }
    {
        let Some(rows) = self.rows else {
            return next_named(self.commits, self.from, self.to, first);
        };
        let complete = self.older.complete_chunks();
        let kept = rows.next_between(self.from, self.to, first, complete);
        if let Some(chunk) = kept {
            return Some(chunk);
        }
        // Old bytes are kept of no chunk that the older state lacks.
        let next = first.max(complete);
        if next < chunk_count::<N>(self.older.len()) {
            return Some(next);
        }
        Some(next.max(self.newer.pruned_chunks()))
    }

    // Returns the first chunk from `first` on that differs.
    fn next_changed(&self, first: usize) -> Option<usize>
        ensures { IsNextChange N self.now.old self.now.new first self.now.end result }
    {
        let mut at = first;
        while let Some(chunk) = self.next_candidate(at) {
            if chunk >= self.end {
                return None;
            }
            if self.older.retained_bytes(chunk) != self.newer.retained_bytes(chunk) {
                return Some(chunk);
            }
            at = chunk + 1;
        }
        None
    }
}

impl<const N: usize> BitMap<N, Clean> {
    /// Returns an iterator over the absolute indices of the chunks that differ between the states under two numbers, ascending, each once.
    ///
    /// A chunk differs if it is retained in only one of the states, or if its bytes differ. Bits past the length count as zero.
    /// Returns `None` unless both numbers are kept and `from` is at most `to`. Does not allocate.
    ///
    /// # Complexity
    ///
    /// Logarithmic in the kept commits. If the bitmap is indexed, also a visit of each commit between
    /// the two. `ChangedChunks` says what the iterator costs.
    pub fn changed_chunks(&self, from: u64, to: u64) -> Option<ChangedChunks<'_, N>>
        ensures value { result ≡ changed_between N (history_of N self.now) from to }
        ensures bound { IfSome result (λ changes. length changes < 2 ^ 64) }
    {
        if to < from {
            return None;
        }
        let older = self.at(from)?;
        let newer = self.at(to)?;
        let end = chunk_count::<N>(older.len()).max(chunk_count::<N>(newer.len()));
        let past = self.commits.past(from);
        let rows = cheaper_index(&self.commits, past, self.commits.past(to));
        let states = Comparison {
            commits: &self.commits,
            from,
            to,
            older,
            newer,
            end,
            rows,
        };
        Some(ChangedChunks { states, next: 0 })
    }

    /// States that of two kept states, the later one has at least as many pruned chunks as the earlier one.
    ///
    /// It holds of every bitmap.
    ///
    /// Does not allocate; constant time.
    pub fn pruned_counts_rise(&self)
        ensures { (from to : ℕ) (old new : PrunedBits) → from ≤ to
            → kept_under (history_of N self.now) from ≡ Some old
            → kept_under (history_of N self.now) to ≡ Some new → old.pruned ≤ new.pruned }
    {
        let _ = &self.state;
    }
}

impl<'a, const N: usize> ChangedChunks<'a, N> {
    /// Removes the indices below `chunk` from what is left. Examines no chunk.
    ///
    /// Does not allocate; constant time.
    pub fn skip_below(&mut self, chunk: usize)
        ensures { self.new ≡ at_least chunk self.old }
    {
        if self.next < chunk {
            self.next = chunk;
        }
    }
}

impl<'a, const N: usize> Iterator for ChangedChunks<'a, N> {
    type Item = usize;

    ghost next_gives = { YieldsFirst (λ s. s) };

    ghost remaining = { item_count (λ s. s) };

    fn next(&mut self) -> Option<usize> {
        let end = self.states.end();
        let found = self.states.next_changed(self.next);
        match found {
            Some(chunk) => self.next = chunk + 1,
            None => self.next = end,
        }
        found
    }
}
