//! The first free slot of a batch: a batch is searched before it is committed.

ghost use Rattle.std.specs.Prelude.{◌≡◌, true, false, IfNone, IfOk, IfSome, OnErr};
ghost use Rattle.bitmap_core.specs.Meaning.{pruned_meaning};
ghost use Rattle.bitmap_core.specs.PrunedBits.{set_at};
ghost use Rattle.bitmap_core.specs.Searches.{HasNoNext, IsNext};
ghost use Rattle.historical_bitmap.specs.View.{pending_of};

use bitmap_core::laws::searches::next_zero_is_least;
use historical_bitmap::bitmap::historical::DirtyBitMap;
use std::alloc::AllocError;

/// Takes the first free slot of a batch, or returns `None` if all are taken. After an error the batch is unchanged.
pub fn take_pending_slot(batch: &mut DirtyBitMap<8>) -> Result<Option<u64>, AllocError>
    ensures first { IfOk result
        (λ taken. IfSome taken (IsNext 8 (pruned_meaning 8 (pending_of 8 batch.old)) false 0)) }
    ensures taken { IfOk result
        (λ taken. IfSome taken (λ slot.
        pending_of 8 batch.new ≡ set_at 8 (pending_of 8 batch.old) slot true)) }
    ensures full { IfOk result
        (λ taken. IfNone taken (HasNoNext 8 (pruned_meaning 8 (pending_of 8 batch.old)) false 0
        × (batch.new ≡ batch.old))) }
    ensures err { OnErr result (batch.new ≡ batch.old) }
{
    let Some(slot) = next_zero_is_least(batch, 0) else {
        return Ok(None);
    };
    batch.set_bit(slot, true)?;
    Ok(Some(slot))
}

#[cfg(test)]
mod tests {
    use super::*;
    use crate::checks::{equal, ok};
    use historical_bitmap::bitmap::historical::CleanBitMap;

    #[test]
    fn takes_each_slot_of_a_batch_once(rt: HostRuntime) {
        let mut batch = CleanBitMap::<8>::new(rt.alloc()).into_dirty();
        assert!(rt; batch.len() < 1000);
        assert!(rt; batch.push_byte(0xfd).is_ok());
        equal(&rt, ok(&rt, take_pending_slot(&mut batch)), Some(1));
        equal(&rt, ok(&rt, take_pending_slot(&mut batch)), None);
        assert!(rt; batch.len() < 1000);
        assert!(rt; batch.push(false).is_ok());
        equal(&rt, ok(&rt, take_pending_slot(&mut batch)), Some(8));
    }
}
