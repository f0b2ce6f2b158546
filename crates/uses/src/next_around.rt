//! The next set position of any bitmap, from a position on and then from the start.

ghost use Rattle.std.specs.Prelude.{◌≡◌};
ghost use Rattle.std.specs.Option.{option_or};
ghost use Rattle.bitmap_core.specs.Searches.{next_one};

use bitmap_core::bitmap::Readable;

/// Returns the first set position from `from` on, or the first of all if there is none.
pub fn next_around<B: Readable<N>, const N: usize>(bitmap: &B, from: u64) -> Option<u64>
    ensures { result ≡ option_or (next_one N (B.meaning bitmap.now) from)
        (next_one N (B.meaning bitmap.now) 0) }
{
    bitmap.next_one(from).or(bitmap.next_one(0))
}

#[cfg(test)]
mod tests {
    use super::*;
    use crate::checks::equal;
    use bitmap_core::bitmap::{BitMap, Prunable};
    use std::alloc::AllocError;

    #[test]
    fn is_the_same_for_both_bitmaps(rt: HostRuntime) -> Result<(), AllocError> {
        let dense = BitMap::<3>::from_bools(rt.alloc(), [false, true, false, true].as_slice())?;
        equal(
            &rt,
            (
                next_around(&dense, 0),
                next_around(&dense, 2),
                next_around(&dense, 4),
            ),
            (Some(1), Some(3), Some(1)),
        );
        let mut pruned = Prunable::<3>::new(rt.alloc());
        pruned.push_chunk(&[255, 255, 255])?;
        pruned.push(true)?;
        pruned.prune_to_bit(24);
        equal(&rt, next_around(&pruned, 0), Some(24));
        Ok(())
    }
}
