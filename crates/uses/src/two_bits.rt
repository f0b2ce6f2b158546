//! A batch that a closure edits, and that is then committed.

ghost use Rattle.std.specs.Prelude.{◌≡◌, ◌+◌, ◌^◌, ◌<◌, ◌++◌, ◌∷◌, [], true, false, IfErr, IfOk, OnOk};
ghost use Rattle.bitmap_core.specs.PrunedBits.{bit_len, pushed};
ghost use Rattle.historical_bitmap.specs.Batch.{aborted};
ghost use Rattle.historical_bitmap.specs.View.{history_of, pending_of};

use historical_bitmap::bitmap::historical::{ApplyError, CleanBitMap};
use std::alloc::AllocError;

/// Appends two bits, and commits. After an error the bitmap is unchanged.
pub fn append_two(
    bitmap: CleanBitMap<4>,
    number: u64,
) -> Result<CleanBitMap<4>, (CleanBitMap<4>, ApplyError<AllocError>)>
    requires { bit_len 4 bitmap.current + 2 < 2 ^ 64 }
    ensures current { IfOk result (λ b. b.current ≡ pushed (pushed bitmap.current true) false) }
    ensures history { IfOk result
        (λ b. history_of 4 b ≡ history_of 4 bitmap ++ (number, b.current) ∷ []) }
    ensures refused { IfErr result (λ e. e.0 ≡ bitmap) }
{
    bitmap.apply_batch(
        number,
        |batch| -> Result<(), AllocError>
            requires { bit_len 4 (pending_of 4 batch.now) + 2 < 2 ^ 64 }
            ensures bits { OnOk result
                (pending_of 4 batch.exit.now
                ≡ pushed (pushed (pending_of 4 batch.entry.now) true) false) }
            ensures others { aborted batch.exit.now ≡ aborted batch.entry.now }
        {
            batch.push(true)?.push(false)?;
            Ok(())
        },
    )
}

#[cfg(test)]
mod tests {
    use super::*;
    use crate::checks::{equal, ok};

    #[test]
    fn kept_under_its_number(rt: HostRuntime) {
        let bitmap = ok(&rt, append_two(CleanBitMap::new(rt.alloc()), 5));
        equal(&rt, (bitmap.len(), bitmap.latest_commit()), (2, Some(5)));
        let Err((same, _)) = append_two(bitmap, 5) else {
            panic!(rt; "5 is committed twice");
        };
        equal(&rt, (same.len(), same.latest_commit()), (2, Some(5)));
    }
}
