//! A batch that appends a bit, and its commit.

ghost use Rattle.std.specs.Prelude.{◌≡◌, ◌+◌, ◌^◌, ◌<◌, ◌++◌, ◌∷◌, [], IfErr, IfOk};
ghost use Rattle.bitmap_core.specs.PrunedBits.{bit_len, pushed};
ghost use Rattle.historical_bitmap.specs.View.{history_of};

use historical_bitmap::bitmap::historical::{ApplyError, CleanBitMap};
use std::alloc::AllocError;

/// Appends a bit and commits. On an error the bitmap is returned unchanged.
pub fn append_version(
    map: CleanBitMap<8>,
    number: u64,
    bit: bool,
) -> Result<CleanBitMap<8>, (CleanBitMap<8>, ApplyError<AllocError>)>
    requires { bit_len 8 map.current + 1 < 2 ^ 64 }
    ensures current { IfOk result (λ new. new.current ≡ pushed map.current bit) }
    ensures history { IfOk result
        (λ new. history_of 8 new ≡ history_of 8 map ++ (number, new.current) ∷ []) }
    ensures unchanged { IfErr result (λ e. e.0 ≡ map) }
{
    map.apply_batch(number, |batch| -> Result<(), AllocError> {
        batch.push(bit)?;
        Ok(())
    })
}

#[cfg(test)]
mod tests {
    use super::*;
    use crate::checks::{equal, ok};

    #[test]
    fn commits_under_a_greater_number(rt: HostRuntime) {
        let map = ok(&rt, append_version(CleanBitMap::new(rt.alloc()), 5, true));
        equal(&rt, (map.len(), map.latest_commit()), (1, Some(5)));
        let Err((same, _)) = append_version(map, 5, true) else {
            panic!(rt; "5 is committed twice");
        };
        equal(&rt, (same.len(), same.latest_commit()), (1, Some(5)));
    }
}
