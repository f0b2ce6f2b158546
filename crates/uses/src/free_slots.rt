//! A map of slots: a set bit is a slot that is taken.

ghost use Rattle.std.specs.Prelude.{◌≡◌, true, false, IfSome, IfNone, slice_set};
ghost use Rattle.bitmap_core.specs.Meaning.{plain_meaning};
ghost use Rattle.bitmap_core.specs.Searches.{HasNoNext, IsNext};

use bitmap_core::bitmap::BitMap;
use bitmap_core::laws::searches::next_zero_is_least;

/// Takes the first free slot, or returns `None` if all are taken.
pub fn take_slot(slots: &mut BitMap<8>) -> Option<u64>
    ensures first { IfSome result (λ slot. IsNext 8 (plain_meaning slots.old) false 0 slot) }
    ensures taken { IfSome result (λ slot. slots.new ≡ slice_set slots.old slot true) }
    ensures full { IfNone result
        (HasNoNext 8 (plain_meaning slots.old) false 0 × (slots.new ≡ slots.old)) }
{
    let slot = next_zero_is_least(slots, 0)?;
    slots.set(slot, true);
    Some(slot)
}

#[cfg(test)]
mod tests {
    use super::*;
    use crate::checks::equal;
    use std::alloc::AllocError;

    #[test]
    fn takes_each_slot_once(rt: HostRuntime) -> Result<(), AllocError> {
        let mut slots = BitMap::<8>::zeroes(rt.alloc(), 3)?;
        slots.set(1, true);
        equal(&rt, take_slot(&mut slots), Some(0));
        equal(&rt, take_slot(&mut slots), Some(2));
        equal(&rt, take_slot(&mut slots), None);
        Ok(())
    }
}
