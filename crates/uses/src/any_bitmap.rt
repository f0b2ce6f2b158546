//! Functions over any `Readable`: a dense bitmap, one with a pruned prefix, a past version, or a type of your own.

ghost use Rattle.std.specs.Prelude.{◌≡◌, nat_lt};
ghost use Rattle.bitmap_core.specs.Searches.{ones_count};

use bitmap_core::bitmap::Readable;

/// Returns whether a bit is set among the retained positions from `from` up to `to`.
pub fn is_any_set<B: Readable<N>, const N: usize>(bitmap: &B, from: u64, to: u64) -> bool
    ensures { result ≡ nat_lt 0 (ones_count N (B.meaning bitmap.now) from to) }
{
    bitmap.count_ones_range(from..to) > 0
}

/// Returns the sum of the set positions from `from` on, or `u64::MAX` if it passes that.
pub fn position_sum<B: Readable<N>, const N: usize>(bitmap: &B, from: u64) -> u64 {
    // The iterator holds a chunk. The contract of `len` gives the proof a bound on its size.
    let _ = bitmap.len();
    let mut sum: u64 = 0;
    for position in bitmap.ones_iter_from(from) {
        sum = sum.saturating_add(position);
    }
    sum
}

#[cfg(test)]
mod tests {
    use super::*;
    use crate::checks::equal;
    use bitmap_core::bitmap::{BitMap, Prunable};
    use std::alloc::AllocError;

    #[test]
    fn takes_both_bitmaps(rt: HostRuntime) -> Result<(), AllocError> {
        let dense = BitMap::<3>::from_bools(rt.alloc(), [false, true, false, true].as_slice())?;
        assert!(rt; is_any_set(&dense, 2, 4) && !is_any_set(&dense, 2, 3));
        equal(&rt, position_sum(&dense, 0), 4);
        let mut pruned = Prunable::<1>::new(rt.alloc());
        pruned.push_byte(255)?;
        pruned.push_byte(5)?;
        pruned.prune_to_bit(8);
        assert!(rt; !is_any_set(&pruned, 0, 8));
        equal(&rt, position_sum(&pruned, 0), 18);
        Ok(())
    }
}
