//! The chunks in which two states of a bitmap differ, and how they make one state from the other.

ghost use Rattle.std.specs.Prelude.{◌≡◌, ℕ, List, [], None, Some, IfOk, IfSome, nat_eq};
ghost use Rattle.std.specs.Iterator.{YieldsFirst};
ghost use Rattle.std.specs.List.Sorted.{IsStrictlyIncreasing};
ghost use Rattle.std.specs.Option.{option_map};
ghost use Rattle.std.specs.Set.{is_member};
ghost use Rattle.historical_bitmap.specs.Changes.{changed_between, differs, patched};
ghost use Rattle.historical_bitmap.specs.History.{kept_under};
ghost use Rattle.historical_bitmap.specs.View.{history_of, pending_of};

use crate::bitmap::historical::{
    AtCommit, ChangedChunks, CleanBitMap, DirtyBitMap, PendingChanges,
};

/// Returns the states under two kept numbers, and the indices of the chunks in which they differ.
///
/// The list has exactly the chunks that differ, ascending, each once. The state under `from`, with those chunks and with the length
/// and the pruned count of the state under `to`, is the state under `to`. So a remote copy can be brought from one to the other.
///
/// Returns `None` unless both numbers are kept and `from` is at most `to`. Does not allocate.
///
/// # Complexity
/// Logarithmic in the kept commits. The chunks are found when the iterator is used: see `ChangedChunks`.
pub fn changes_make_the_newer_state<'a, const N: usize>(
    bitmap: &'a CleanBitMap<N>,
    from: u64,
    to: u64,
) -> Option<(AtCommit<'a, N>, AtCommit<'a, N>, ChangedChunks<'a, N>)>
    ensures value { option_map (λ found. found.2) result
        ≡ changed_between N (history_of N bitmap.now) from to }
    ensures older { IfSome result
        (λ found. kept_under (history_of N bitmap.now) from ≡ Some found.0) }
    ensures newer { IfSome result
        (λ found. kept_under (history_of N bitmap.now) to ≡ Some found.1) }
    ensures exactly { IfSome result
        (λ found. (i : ℕ) → is_member nat_eq found.2 i ≡ differs N found.0 found.1 i) }
    ensures ascending { IfSome result (λ found. IsStrictlyIncreasing found.2) }
    ensures patched { IfSome result (λ found. patched N found.0 found.1 found.2 ≡ found.1) }
{
    let _ = bitmap.len();
    let older = bitmap.at(from)?;
    let newer = bitmap.at(to)?;
    let changes = bitmap.changed_chunks(from, to)?;
    Some((older, newer, changes))
}

/// Returns the indices of the chunks in which the pending bitmap of a batch differs from the current one.
///
/// The list has exactly the chunks that differ, ascending, each once. The current bitmap, with those chunks and with the length
/// and the pruned count of the pending bitmap, is the pending bitmap.
///
/// Does not allocate; constant time. The chunks are found when the iterator is used: see `PendingChanges`.
pub fn changes_make_the_pending_bitmap<'a, const N: usize>(
    batch: &'a DirtyBitMap<N>,
) -> PendingChanges<'a, N>
    ensures exactly { (i : ℕ)
        → is_member nat_eq result i ≡ differs N batch.now.current (pending_of N batch.now) i }
    ensures ascending { IsStrictlyIncreasing result }
    ensures patched { patched N batch.now.current (pending_of N batch.now) result
        ≡ pending_of N batch.now }
{
    let _ = batch.len();
    batch.changed_chunks()
}

/// Calls `next` twice. If the first call returns `None`, no chunk was left, and the second call returns `None` too.
///
/// Does not allocate.
///
/// # Complexity
/// Two calls of `next`: see `ChangedChunks`.
pub fn changes_stay_ended<const N: usize>(
    changes: &mut ChangedChunks<'_, N>,
) -> (Option<usize>, Option<usize>)
    ensures ends { result.0 ≡ None → (changes.old ≡ []) × (result.1 ≡ None) × (changes.new ≡ []) }
    ensures steps { (between : List ℕ) × YieldsFirst (λ left. left) changes.old result.0 between
        × YieldsFirst (λ left. left) between result.1 changes.new }
{
    (changes.next(), changes.next())
}
