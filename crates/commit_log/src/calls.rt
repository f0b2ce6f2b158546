//! Each call that changes what is kept makes of it what an entry does.

ghost use Rattle.std.specs.Prelude.{◌≡◌, ◌++◌, ◌∷◌, [], IfOk, IfErr, OnOk, None, is_some, unwrap_or, alloc_error, if◌then◌else◌};
ghost use Rattle.historical_bitmap.specs.declared.bitmap.historical.error.Error.TheVariants as commit_errors;
ghost use Rattle.historical_bitmap.specs.declared.bitmap.historical.error.RewindError.TheVariants.{Memory, NoSuchCommit};
ghost use Rattle.historical_bitmap.specs.History.{kept_under, up_to_number};
ghost use Rattle.historical_bitmap.specs.View.{AddsCost, commit_error, costs_of, history_of, pending_of};
ghost use Rattle.commit_log.specs.Accepted.{Accepts};
ghost use Rattle.commit_log.specs.Entries.Entry.{Clear, DropBefore, Rewind};
ghost use Rattle.commit_log.specs.Kept.{after, entry_of_commit, kept_of};

use historical_bitmap::bitmap::historical::{CleanBitMap, DirtyBitMap, Error, RewindError};

/// Commits a batch: `commit`, with a contract in the words of entries. The entry is that of the change to the pending bitmap.
///
/// # Errors
/// Those of `commit`.
pub fn commit_is_an_entry<const N: usize>(
    batch: DirtyBitMap<N>,
    number: u64,
) -> Result<CleanBitMap<N>, (DirtyBitMap<N>, Error)>
    ensures entry { IfOk result (λ b. kept_of N b
        ≡ after N (kept_of N batch.entry) (entry_of_commit N batch.entry number)) }
    ensures accepted { OnOk result (Accepts N (kept_of N batch.entry)
        (entry_of_commit N batch.entry number)) }
    ensures current { IfOk result (λ b. b.current ≡ pending_of N batch.entry) }
    ensures history { IfOk result (λ b. history_of N b
        ≡ history_of N batch.entry ++ (number, pending_of N batch.entry) ∷ []) }
    ensures costs { IfOk result (AddsCost N batch.entry number) }
    ensures refused { IfErr result (λ e. e.1
        ≡ unwrap_or (commit_error batch.entry.last number) (commit_errors.Memory alloc_error)) }
    ensures unchanged { IfErr result (λ e. e.0 ≡ batch.entry) }
{
    let _ = batch.len();
    let _ = batch.newly_pruned_chunks();
    batch.commit(number)
}

/// Rewinds: `rewind_to`, with a contract in the words of entries.
///
/// # Errors
/// Those of `rewind_to`.
pub fn rewind_is_an_entry<const N: usize>(
    bitmap: CleanBitMap<N>,
    number: u64,
) -> Result<CleanBitMap<N>, (CleanBitMap<N>, RewindError)>
    ensures entry { IfOk result
        (λ b. kept_of N b ≡ after N (kept_of N bitmap.entry) (Rewind number)) }
    ensures accepted { OnOk result (Accepts N (kept_of N bitmap.entry) (Rewind number)) }
    ensures costs { IfOk result (λ b. costs_of b ≡ up_to_number number (costs_of bitmap.entry)) }
    ensures refused { IfErr result (λ e. e.1
        ≡ (if is_some (kept_under (history_of N bitmap.entry) number) then Memory alloc_error
        else NoSuchCommit)) }
    ensures unchanged { IfErr result (λ e. e.0 ≡ bitmap.entry) }
{
    bitmap.rewind_to(number)
}

/// Drops the commits before a number: `prune_commits_before`, with a contract in the words of entries.
pub fn drop_is_an_entry<const N: usize>(bitmap: &mut CleanBitMap<N>, number: u64)
    ensures { kept_of N bitmap.new ≡ after N (kept_of N bitmap.old) (DropBefore number) }
{
    let _ = bitmap.prune_commits_before(number);
}

/// Drops all commits: `clear_history`, with a contract in the words of entries.
pub fn clear_is_an_entry<const N: usize>(bitmap: &mut CleanBitMap<N>)
    ensures { kept_of N bitmap.new ≡ after N (kept_of N bitmap.old) Clear }
{
    bitmap.clear_history();
}
