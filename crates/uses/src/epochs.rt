//! Slots in epochs of 1024, which are counted and freed together.

ghost use Rattle.std.specs.Prelude.{◌≡◌, ◌+◌, ◌*◌, ◌^◌, ◌<◌, ◌≤◌, false, length};
ghost use Rattle.bitmap_core.specs.Meaning.{plain_meaning};
ghost use Rattle.bitmap_core.specs.Ranges.{set_between};
ghost use Rattle.bitmap_core.specs.Searches.{ones_count};

use bitmap_core::bitmap::{BitMap, Readable};

/// Returns the number of taken slots in an epoch.
pub fn taken_in(slots: &BitMap<8>, epoch: u64) -> u64
    requires { epoch < 2 ^ 32 }
    ensures { result ≡ ones_count 8 (plain_meaning slots.now) (1024 * epoch) (1024 * epoch + 1024) }
{
    let first = 1024 * epoch;
    slots.count_ones_range(first..first + 1024)
}

/// Frees the slots of an epoch.
pub fn free_all(slots: &mut BitMap<8>, epoch: u64)
    requires fits { epoch < 2 ^ 32 }
    requires exists { 1024 * epoch + 1024 ≤ length slots.old }
    ensures { slots.new ≡ set_between slots.old (1024 * epoch) (1024 * epoch + 1024) false }
{
    let first = 1024 * epoch;
    slots.set_range(first..first + 1024, false);
}

#[cfg(test)]
mod tests {
    use super::*;
    use crate::checks::equal;
    use std::alloc::AllocError;

    #[test]
    fn counts_and_frees_an_epoch(rt: HostRuntime) -> Result<(), AllocError> {
        let mut slots = BitMap::<8>::ones(rt.alloc(), 2050)?;
        assert!(rt; slots.len() == 2050);
        free_all(&mut slots, 1);
        equal(&rt, taken_in(&slots, 0), 1024);
        equal(&rt, taken_in(&slots, 1), 0);
        equal(&rt, taken_in(&slots, 2), 2);
        Ok(())
    }
}
