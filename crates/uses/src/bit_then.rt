//! A bit of a past version.

ghost use Rattle.std.specs.Prelude.{◌≡◌, None, Some, IfSome};
ghost use Rattle.bitmap_core.specs.PrunedBits.{bit_at, IsRetained};
ghost use Rattle.historical_bitmap.specs.History.{kept_under};
ghost use Rattle.historical_bitmap.specs.View.{history_of};

use historical_bitmap::bitmap::Readable;
use historical_bitmap::bitmap::historical::CleanBitMap;

/// Returns the bit at a position of the version under a number. Returns `None` if that version is not kept or does not retain the position.
pub fn bit_then(versions: &CleanBitMap<8>, number: u64, position: u64) -> Option<bool>
    ensures unknown { kept_under (history_of 8 versions.now) number ≡ None → result ≡ None }
    ensures absent { IfSome (kept_under (history_of 8 versions.now) number)
        (λ version. ¬ (IsRetained 8 version position) → result ≡ None) }
    ensures found { IfSome (kept_under (history_of 8 versions.now) number)
        (λ version. IsRetained 8 version position → result ≡ Some (bit_at 8 version position)) }
{
    let version = versions.at(number)?;
    if position < version.pruned_bits() || position >= version.len() {
        return None;
    }
    Some(version.get_bit(position))
}

#[cfg(test)]
mod tests {
    use super::*;
    use crate::checks::equal;
    use crate::quick_start::first_again;

    #[test]
    fn reads_what_was_committed(rt: HostRuntime) {
        let Some((_, versions)) = first_again(rt.alloc()) else {
            panic!(rt; "out of memory");
        };
        equal(&rt, bit_then(&versions, 1, 0), Some(true));
        equal(&rt, bit_then(&versions, 1, 1), None);
        equal(&rt, bit_then(&versions, 2, 0), None);
    }
}
