//! What holds after a bitmap is rewound to a commit.

ghost use Rattle.std.specs.Prelude.{◌≡◌, ℕ, ◌<◌, ◌≤◌, None, Some, IfErr, IfOk, OnOk, nat_le, if◌then◌else◌};
ghost use Rattle.historical_bitmap.specs.History.{kept_under};
ghost use Rattle.historical_bitmap.specs.View.{history_of};
ghost use Rattle.historical_bitmap.specs.declared.bitmap.historical.error.Error.TheVariants.{NonMonotonicCommit};

use crate::bitmap::historical::{CleanBitMap, DirtyBitMap, Error, RewindError};
use bitmap_core::bitmap::Prunable;

/// Rewinds a bitmap to a number, and reads the bitmap under that number: it is the current one, and the one kept under it before.
///
/// # Errors
/// Those of `rewind_to`, with the bitmap unchanged. `Memory` if the allocation for the bitmap that is read fails, with the bitmap rewound.
///
/// # Memory
/// Allocates what `rewind_to` allocates, and a bitmap as `get_at_commit` does.
///
/// # Complexity
/// That of `rewind_to`, plus a copy of the bitmap that is rewound to.
pub fn number_read_again<const N: usize>(
    bitmap: CleanBitMap<N>,
    number: u64,
) -> Result<(CleanBitMap<N>, Option<Prunable<N>>), (CleanBitMap<N>, RewindError)>
    ensures current { IfOk result (λ back. back.1 ≡ Some back.0.current) }
    ensures before { IfOk result (λ back. back.1 ≡ kept_under (history_of N bitmap.entry) number) }
{
    let back = bitmap.rewind_to(number)?;
    match back.get_at_commit(number) {
        Ok(found) => Ok((back, found)),
        Err(error) => Err((back, RewindError::Memory(error))),
    }
}

/// Rewinds a bitmap to a number. Under each number up to it, the same bitmap is kept as before. Under a greater number none is kept.
///
/// # Errors
/// Those of `rewind_to`.
///
/// # Memory
/// Allocates what `rewind_to` allocates.
///
/// # Complexity
/// That of `rewind_to`.
pub fn rewinding_leaves_the_earlier<const N: usize>(
    bitmap: CleanBitMap<N>,
    number: u64,
) -> Result<CleanBitMap<N>, (CleanBitMap<N>, RewindError)>
    ensures { IfOk result (λ back.
        (k : ℕ) → kept_under (history_of N back) k
        ≡ (if nat_le k number then kept_under (history_of N bitmap.entry) k else None)) }
{
    bitmap.rewind_to(number)
}

/// Rewinds a bitmap to `number`, and commits it under `next`, which has to be greater than `number`.
///
/// # Errors
/// The outer error is that of `rewind_to`. The inner one is that of `commit`: `NonMonotonicCommit`, with both numbers, if `next` is at most
/// `number`.
///
/// # Memory
/// Allocates what `rewind_to` allocates, and what `commit` allocates for a batch with no edits.
///
/// # Complexity
/// That of `rewind_to`, plus that of a `commit` with no edits: amortized constant.
pub fn next_number_is_above<const N: usize>(
    bitmap: CleanBitMap<N>,
    number: u64,
    next: u64,
) -> Result<Result<CleanBitMap<N>, (DirtyBitMap<N>, Error)>, (CleanBitMap<N>, RewindError)>
    ensures accepted { IfOk result (λ committed. OnOk committed (number < next)) }
    ensures refused { next ≤ number
        → IfOk result (λ committed. IfErr committed (λ e. e.1 ≡ NonMonotonicCommit number next)) }
{
    let back = bitmap.rewind_to(number)?;
    Ok(back.into_dirty().commit(next))
}
