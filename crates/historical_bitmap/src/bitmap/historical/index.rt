//! An index of kept commits by chunk: the old bytes that their reverse records keep, which a past state finds without a walk over the records.
//!
//! The list of kept commits owns an index, if it has one, and updates it with each commit that is appended or removed.

ghost use Rattle.std.specs.Prelude.{◌≡◌, ◌+◌, ◌<◌, [], drop, length, take, IfOk, IfSome, IsOk, OnErr, OnOk};
ghost use Rattle.std.specs.List.Sorted.{IsStrictlySortedBy};
ghost use Rattle.std.specs.Map.{keys_of};
ghost use Rattle.std.specs.Ordering.{nat_cmp};
ghost use Rattle.bitmap_bytes.specs.Chunk.{IsWidth};
ghost use Rattle.historical_bitmap.specs.History.{before_latest, EntriesRise, LatestRises, RiseInNumber};
ghost use Rattle.historical_bitmap.specs.Index.{AddsPlaces, EndsBefore, IsIndexOf, KeepsOthers, RemovesPlaces, RisesAt};
ghost use Rattle.historical_bitmap.specs.Stored.{entry_values};

use crate::bitmap::historical::kept_bytes::KeptBytes;
use crate::bitmap::historical::record::{ChunkDiff, CommitDiff};
use std::alloc::{AllocError, Global};
use std::collections::VecDeque;

// Adds the old bytes that some entries keep, at a number past all others. If an allocation fails, some of them are added.
fn add_entries<const N: usize>(
    index: &mut KeptBytes<N>,
    number: u64,
    entries: &[(usize, ChunkDiff<N>)],
) -> Result<(), AllocError>
    requires width { IsWidth N }
    requires rise { IsStrictlySortedBy nat_cmp (keys_of (entry_values entries.now)) }
    requires past { EndsBefore number index.old }
    ensures ok { OnOk result (AddsPlaces number (entry_values entries.now) index.old index.new) }
    ensures others { KeepsOthers number (entry_values entries.now) index.old index.new }
{
    for entry in entries {
        if let Some(bytes) = entry.1.old_bytes() {
            index.push(entry.0, number, *bytes)?;
        }
    }
    Ok(())
}

// Removes the places of a number and the chunks that some entries are for. Does not allocate.
fn remove_entries<const N: usize>(
    index: &mut KeptBytes<N>,
    number: u64,
    entries: &[(usize, ChunkDiff<N>)],
)
    requires width { IsWidth N }
    ensures { RemovesPlaces number (entry_values entries.now) index.old index.new }
{
    for entry in entries {
        index.remove(entry.0, number);
    }
}

// Adds the places of the record of a commit, which is at a position, to an index of the earlier commits.
// If an allocation fails, the index is that of the earlier commits.
fn add_at<const N: usize>(
    index: &mut KeptBytes<N>,
    commits: &VecDeque<(u64, CommitDiff<N>)>,
    position: usize,
) -> Result<(), AllocError>
    requires width { IsWidth N }
    requires rise { RiseInNumber commits.now.items }
    requires within { position < length commits.now.items }
    requires entries { RisesAt commits.now.items position }
    requires index { IsIndexOf index.old (take position commits.now.items) }
    ensures ok { OnOk result (IsIndexOf index.new (take (position + 1) commits.now.items)) }
    ensures err { OnErr result (IsIndexOf index.new (take position commits.now.items)) }
{
    let commit = &commits[position];
    let entries = commit.1.chunk_diffs();
    let Ok(()) = add_entries(index, commit.0, entries) else {
        remove_entries(index, commit.0, entries);
        return Err(AllocError);
    };
    Ok(())
}

// Returns an index of some commits. Does not allocate if there are none.
pub(crate) fn index_of<const N: usize>(
    alloc: Global,
    commits: &VecDeque<(u64, CommitDiff<N>)>,
) -> Result<KeptBytes<N>, AllocError>
    requires width { IsWidth N }
    requires rise { RiseInNumber commits.now.items }
    requires entries { EntriesRise commits.now.items }
    ensures ok { IfOk result (λ index. IsIndexOf index commits.now.items) }
    ensures none { commits.now.items ≡ [] → IsOk result }
{
    let mut index = KeptBytes::new(alloc);
    for position in 0..commits.len() {
        add_at(&mut index, commits, position)?;
    }
    Ok(index)
}

// Adds the places of the record of the last of some commits. If an allocation fails, the index is that of the earlier ones.
fn add_last<const N: usize>(
    index: &mut KeptBytes<N>,
    commits: &VecDeque<(u64, CommitDiff<N>)>,
) -> Result<(), AllocError>
    requires width { IsWidth N }
    requires rise { RiseInNumber commits.now.items }
    requires entries { LatestRises commits.now.items }
    requires index { IsIndexOf index.old (before_latest commits.now.items) }
    ensures ok { OnOk result (IsIndexOf index.new commits.now.items) }
    ensures err { OnErr result (IsIndexOf index.new (before_latest commits.now.items)) }
{
    let count = commits.len();
    if count == 0 {
        return Ok(());
    }
    index.compact();
    add_at(index, commits, count - 1)
}

// Removes the places of the records of some commits from a position on, the last commit first. Does not allocate.
fn remove_from<const N: usize>(
    index: &mut KeptBytes<N>,
    commits: &VecDeque<(u64, CommitDiff<N>)>,
    first: usize,
)
    requires width { IsWidth N }
    requires rise { RiseInNumber commits.now.items }
    requires index { IsIndexOf index.old commits.now.items }
    ensures { IsIndexOf index.new (take first commits.now.items) }
{
    let mut count = commits.len();
    while first < count {
        count -= 1;
        let commit = &commits[count];
        remove_entries(index, commit.0, commit.1.chunk_diffs());
    }
}

// Removes the places of the record of the first of some commits. Does not allocate.
fn remove_first<const N: usize>(index: &mut KeptBytes<N>, commits: &VecDeque<(u64, CommitDiff<N>)>)
    requires width { IsWidth N }
    requires rise { RiseInNumber commits.now.items }
    requires index { IsIndexOf index.old commits.now.items }
    ensures { IsIndexOf index.new (drop 1 commits.now.items) }
{
    if commits.len() == 0 {
        return;
    }
    let commit = &commits[0];
    remove_entries(index, commit.0, commit.1.chunk_diffs());
}

// Adds the last of some commits to an index of the earlier ones, if there is an index.
//
// Allocates space for the old bytes of the commit's record. If an allocation fails, the index is that of the earlier commits.
#[inline]
pub(crate) fn index_last<const N: usize>(
    index: &mut Option<KeptBytes<N>>,
    commits: &VecDeque<(u64, CommitDiff<N>)>,
) -> Result<(), AllocError>
    requires width { IsWidth N }
    requires rise { RiseInNumber commits.now.items }
    requires entries { LatestRises commits.now.items }
    requires index { IfSome index.old (λ rows. IsIndexOf rows (before_latest commits.now.items)) }
    ensures ok { OnOk result (IfSome index.new (λ rows. IsIndexOf rows commits.now.items)) }
    ensures err { OnErr result
        (IfSome index.new (λ rows. IsIndexOf rows (before_latest commits.now.items))) }
{
    match index {
        Some(rows) => add_last(rows, commits),
        None => Ok(()),
    }
}

// Removes some commits from a position on from an index of them, if there is an index. Does not allocate.
pub(crate) fn unindex_from<const N: usize>(
    index: &mut Option<KeptBytes<N>>,
    commits: &VecDeque<(u64, CommitDiff<N>)>,
    first: usize,
)
    requires width { IsWidth N }
    requires rise { RiseInNumber commits.now.items }
    requires index { IfSome index.old (λ rows. IsIndexOf rows commits.now.items) }
    ensures { IfSome index.new (λ rows. IsIndexOf rows (take first commits.now.items)) }
{
    if let Some(rows) = index {
        remove_from(rows, commits, first);
    }
}

// Removes the first of some commits from an index of them, if there is an index. Does not allocate.
pub(crate) fn unindex_first<const N: usize>(
    index: &mut Option<KeptBytes<N>>,
    commits: &VecDeque<(u64, CommitDiff<N>)>,
)
    requires width { IsWidth N }
    requires rise { RiseInNumber commits.now.items }
    requires index { IfSome index.old (λ rows. IsIndexOf rows commits.now.items) }
    ensures { IfSome index.new (λ rows. IsIndexOf rows (drop 1 commits.now.items)) }
{
    if let Some(rows) = index {
        remove_first(rows, commits);
    }
}

// Removes all commits from an index, if there is one. Does not allocate.
pub(crate) fn unindex_all<const N: usize>(index: &mut Option<KeptBytes<N>>)
    ensures { IfSome index.new (λ rows. IsIndexOf rows []) }
{
    if let Some(rows) = index {
        rows.clear();
    }
}
