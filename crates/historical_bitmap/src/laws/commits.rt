//! The numbers that the iterator over commits yields, and what is kept when commits are dropped.

ghost use Rattle.std.specs.Prelude.{◌≡◌, ◌+◌, ℕ, List, [], None, IfOk, length, nat_le, if◌then◌else◌};
ghost use Rattle.std.specs.Iterator.{YieldsFirst};
ghost use Rattle.std.specs.List.Sorted.{IsStrictlyIncreasing};
ghost use Rattle.std.specs.Map.{keys_of};
ghost use Rattle.historical_bitmap.specs.History.{kept_under};
ghost use Rattle.historical_bitmap.specs.View.{history_of};

use crate::bitmap::historical::{CleanBitMap, Commits};
use std::alloc::{AllocError, Global};

/// Collects the numbers of the kept commits: those of the history, ascending, each once.
///
/// # Errors
/// `AllocError` if an allocation fails.
///
/// # Memory
/// Allocates the vector of numbers.
///
/// # Complexity
/// Linear in the kept commits.
pub fn numbers_collected<const N: usize>(
    alloc: Global,
    bitmap: &CleanBitMap<N>,
) -> Result<Vec<u64>, AllocError>
    ensures numbers { IfOk result (λ v. v.items ≡ keys_of (history_of N bitmap.now)) }
    ensures ascend { IfOk result (λ v. IsStrictlyIncreasing v.items) }
{
    bitmap.commits().collect(alloc)
}

/// Calls `next` twice. If the first call returns `None`, no number was left, and the second call returns `None` too.
///
/// Does not allocate; constant time.
pub fn numbers_stay_ended<const N: usize>(
    numbers: &mut Commits<'_, N>,
) -> (Option<u64>, Option<u64>)
    ensures ends { result.0 ≡ None → (numbers.old ≡ []) × (result.1 ≡ None) × (numbers.new ≡ []) }
    ensures steps { (between : List ℕ) × YieldsFirst (λ left. left) numbers.old result.0 between
        × YieldsFirst (λ left. left) between result.1 numbers.new }
{
    (numbers.next(), numbers.next())
}

/// Drops the commits below a number, by `prune_commits_before`, and returns how many were dropped.
///
/// Under each number from `number` on, the same bitmap is kept as before. Under a smaller number none is kept.
/// The current bitmap is unchanged.
///
/// Does not allocate.
///
/// # Complexity
/// That of `prune_commits_before`.
pub fn drop_leaves_the_later<const N: usize>(bitmap: &mut CleanBitMap<N>, number: u64) -> usize
    ensures states { (k : ℕ)
        → kept_under (history_of N bitmap.new) k
        ≡ (if nat_le number k then kept_under (history_of N bitmap.old) k else None) }
    ensures current { bitmap.new.current ≡ bitmap.old.current }
    ensures count { result + length (history_of N bitmap.new) ≡ length (history_of N bitmap.old) }
{
    bitmap.prune_commits_before(number)
}
