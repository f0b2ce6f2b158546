//! A batch that is aborted after an edit if the bitmap is full.

ghost use Rattle.std.specs.Prelude.{◌≡◌, ◌+◌, ◌^◌, ◌<◌, ◌≤◌, IfErr, IfOk};
ghost use Rattle.bitmap_core.specs.PrunedBits.{bit_len, pushed};

use historical_bitmap::bitmap::historical::{ApplyError, CleanBitMap};
use std::alloc::AllocError;

/// Why a bit was not kept.
#[derive(Debug, PartialEq, Eq, Drop)]
pub enum NotKept {
    /// The bitmap has 32 bits already.
    Full,
    /// An allocation failed.
    OutOfMemory,
}

impl From<AllocError> for NotKept {
    fn from(_error: AllocError) -> NotKept {
        NotKept::OutOfMemory
    }
}

/// Appends a bit and commits, if there are at most 32 bits then. On an error the bitmap is returned unchanged.
pub fn keep_bit(
    bitmap: CleanBitMap<4>,
    number: u64,
    bit: bool,
) -> Result<CleanBitMap<4>, (CleanBitMap<4>, ApplyError<NotKept>)>
    requires { bit_len 4 bitmap.current + 1 < 2 ^ 64 }
    ensures kept { IfOk result (λ b. b.current ≡ pushed bitmap.current bit) }
    ensures short { IfOk result (λ b. bit_len 4 b.current ≤ 32) }
    ensures unchanged { IfErr result (λ e. e.0 ≡ bitmap) }
{
    bitmap.apply_batch(number, |batch| {
        batch.push(bit)?;
        if batch.len() > 32 {
            return Err(NotKept::Full);
        }
        Ok(())
    })
}

#[cfg(test)]
mod tests {
    use super::*;
    use crate::checks::{equal, ok};

    #[test]
    fn at_most_32(rt: HostRuntime) {
        let first = ok(&rt, keep_bit(CleanBitMap::new(rt.alloc()), 7, true));
        equal(&rt, (first.len(), first.latest_commit()), (1, Some(7)));

        let full = ok(&rt, CleanBitMap::new_with_pruned_chunks(rt.alloc(), 1));
        let Err((same, why)) = keep_bit(full, 7, true) else {
            panic!(rt; "33 bits are kept");
        };
        equal(&rt, (same.len(), same.latest_commit()), (32, None));
        assert!(rt; matches!(why, ApplyError::Batch(NotKept::Full)));
    }
}
