//! A past state that is read in place equals the same state rebuilt as a bitmap of its own.

ghost use Rattle.std.specs.Prelude.{◌≡◌, IfOk};

use crate::bitmap::historical::{AtCommit, CleanBitMap};
use bitmap_core::bitmap::Prunable;
use std::alloc::AllocError;

/// Returns the state under a number twice: read in place, by `at`, and as a bitmap of its own, by `get_at_commit`.
///
/// Both are the same state, with the same bits and the same number of pruned chunks, or both are `None`.
/// The methods of `Readable` depend on nothing else, so each read returns the same from both.
///
/// # Errors
/// `AllocError` if an allocation fails.
///
/// # Memory
/// Allocates the bitmap of its own, as `get_at_commit` does.
///
/// # Complexity
/// That of `get_at_commit`.
pub fn in_place_is_owned<'a, const N: usize>(
    bitmap: &'a CleanBitMap<N>,
    number: u64,
) -> Result<(Option<AtCommit<'a, N>>, Option<Prunable<N>>), AllocError>
    ensures { IfOk result (λ found. found.0 ≡ found.1) }
{
    let owned = bitmap.get_at_commit(number)?;
    Ok((bitmap.at(number), owned))
}
