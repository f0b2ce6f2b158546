//! Laws of the positions that an iterator over set positions returns.

ghost use Rattle.std.specs.Prelude.{◌≡◌, ℕ, ◌<◌, ◌≤◌, true, false, length, slice_index_or, IfOk, ◌↔◌};
ghost use Rattle.std.specs.List.{Contains, count_by};
ghost use Rattle.std.specs.List.Sorted.{IsStrictlyIncreasing};
ghost use Rattle.bitmap_core.specs.Meaning.{Meaning, IsRetained, ones};

use crate::bitmap::BitMap;
use std::alloc::{AllocError, Global};

/// The set positions of a range ascend strictly. They are exactly the retained positions in the range whose bit is true.
pub fn set_positions()
    ensures ascend { (n : ℕ) (m : Meaning) (a b : ℕ) → IsStrictlyIncreasing (ones n m a b) }
    ensures exact { (n : ℕ) (m : Meaning) (a b k : ℕ)
        → Contains (ones n m a b) k ↔ ((a ≤ k) × (k < b) × IsRetained n m k × (m.bit k ≡ true)) }
{}

/// The set positions of a bitmap ascend strictly. They are exactly the positions whose bit is true, and as many as `count_ones` counts.
///
/// # Errors
///
/// Returns `AllocError` if an allocation fails.
pub fn set_positions_of_a_bitmap<const N: usize>(
    alloc: Global,
    bitmap: &BitMap<N>,
) -> Result<Vec<u64>, AllocError>
    ensures ascend { IfOk result (λ v. IsStrictlyIncreasing v.items) }
    ensures exact { IfOk result
        (λ v. (k : ℕ) → Contains v.items k ↔
        ((k < length bitmap.now) × (slice_index_or bitmap.now k false ≡ true))) }
    ensures count { IfOk result (λ v. length v.items ≡ count_by (λ b. b) bitmap.now) }
{
    let _ = bitmap.len();
    bitmap.ones_iter().collect(alloc)
}
