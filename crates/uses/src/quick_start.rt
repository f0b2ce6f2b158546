//! Two versions of a bitmap are committed. The first one is read, and then the bitmap is rewound to it.

ghost use Rattle.std.specs.Prelude.{◌≡◌, ◌∷◌, [], true, IfSome};
ghost use Rattle.historical_bitmap.specs.View.{history_of};

use historical_bitmap::bitmap::Readable;
use historical_bitmap::bitmap::historical::CleanBitMap;
use std::alloc::{AllocError, Global};

/// Commits version 1, which has one bit, and that bit is set. Returns `None` if an allocation fails.
pub fn first_version(alloc: Global) -> Option<CleanBitMap<8>>
    ensures bits { IfSome result (λ map. map.current ≡ record { pruned = 0; bits = true ∷ [] }) }
    ensures kept { IfSome result (λ map. history_of 8 map ≡ (1, map.current) ∷ []) }
{
    CleanBitMap::<8>::new(alloc)
        .apply_batch(1, |batch| -> Result<(), AllocError> {
            batch.push(true)?;
            Ok(())
        })
        .ok()
}

/// Commits two versions, reads the first one, and rewinds to it. Returns `None` if an allocation fails.
pub fn first_again(alloc: Global) -> Option<(bool, CleanBitMap<8>)>
    ensures read { IfSome result (λ found. found.0 ≡ true) }
    ensures rewound { IfSome result
        (λ found. found.1.current ≡ record { pruned = 0; bits = true ∷ [] }) }
    ensures dropped { IfSome result (λ found. history_of 8 found.1 ≡ (1, found.1.current) ∷ []) }
{
    // Version 2 clears the bit of version 1 and appends another one.
    let map = first_version(alloc)?
        .apply_batch(2, |batch| -> Result<(), AllocError> {
            batch.set_bit(0, false)?.push(true)?;
            Ok(())
        })
        .ok()?;

    // In version 1 the bit is still set. Rewinding makes version 1 current again.
    let bit = map.at(1)?.get_bit(0);
    Some((bit, map.rewind_to(1).ok()?))
}

#[cfg(test)]
mod tests {
    use super::*;
    use crate::checks::equal;

    #[test]
    fn rewinds_to_the_first_version(rt: HostRuntime) {
        let Some((bit, map)) = first_again(rt.alloc()) else {
            panic!(rt; "out of memory");
        };
        assert!(rt; bit);
        equal(&rt, (map.len(), map.latest_commit()), (1, Some(1)));
    }
}
