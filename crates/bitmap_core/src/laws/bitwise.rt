//! `and`, `or`, `xor`, `and_not`, the operators `&`, `|`, `^`, `-`, and `is_subset` and `is_disjoint`, position by position.
//!
//! The two bitmaps have the same length. The operators allocate the new bitmap; the other calls do not allocate.

ghost use Rattle.std.specs.Prelude.{◌≡◌, ℕ, ◌<◌, ◌&&◌, ◌||◌, false, not, true, length, slice_index_or, IfOk};
ghost use Rattle.std.specs.Bool.{Decides};
ghost use Rattle.std.proofs.Math.Bool.{xor};

use crate::bitmap::BitMap;
use std::alloc::AllocError;

/// `and` keeps the length, and leaves a bit set if it is set in both bitmaps.
pub fn and_at_each_position<const N: usize>(bitmap: &mut BitMap<N>, other: &BitMap<N>)
    requires { length bitmap.old ≡ length other.now }
    ensures len { length bitmap.new ≡ length bitmap.old }
    ensures bits { (k : ℕ) → k < length bitmap.old
        → slice_index_or bitmap.new k false
        ≡ (slice_index_or bitmap.old k false && slice_index_or other.now k false) }
{
    bitmap.and(other);
}

/// `or` keeps the length, and leaves a bit set if it is set in at least one of the bitmaps.
pub fn or_at_each_position<const N: usize>(bitmap: &mut BitMap<N>, other: &BitMap<N>)
    requires { length bitmap.old ≡ length other.now }
    ensures len { length bitmap.new ≡ length bitmap.old }
    ensures bits { (k : ℕ) → k < length bitmap.old
        → slice_index_or bitmap.new k false
        ≡ (slice_index_or bitmap.old k false || slice_index_or other.now k false) }
{
    bitmap.or(other);
}

/// `xor` keeps the length, and leaves a bit set if the bits of the two bitmaps differ.
pub fn xor_at_each_position<const N: usize>(bitmap: &mut BitMap<N>, other: &BitMap<N>)
    requires { length bitmap.old ≡ length other.now }
    ensures len { length bitmap.new ≡ length bitmap.old }
    ensures bits { (k : ℕ) → k < length bitmap.old
        → slice_index_or bitmap.new k false
        ≡ xor (slice_index_or bitmap.old k false) (slice_index_or other.now k false) }
{
    bitmap.xor(other);
}

/// `and_not` keeps the length, and leaves a bit set if it was set and is not set in `other`.
pub fn and_not_at_each_position<const N: usize>(bitmap: &mut BitMap<N>, other: &BitMap<N>)
    requires { length bitmap.old ≡ length other.now }
    ensures len { length bitmap.new ≡ length bitmap.old }
    ensures bits { (k : ℕ) → k < length bitmap.old
        → slice_index_or bitmap.new k false
        ≡ (slice_index_or bitmap.old k false && not (slice_index_or other.now k false)) }
{
    bitmap.and_not(other);
}

/// `&` returns a bitmap of the same length whose bit is set if it is set in both bitmaps.
///
/// # Errors
///
/// Returns `AllocError` if the allocation fails.
pub fn bitand_at_each_position<const N: usize>(
    a: &BitMap<N>,
    b: &BitMap<N>,
) -> Result<BitMap<N>, AllocError>
    requires { length a.now ≡ length b.now }
    ensures len { IfOk result (λ c. length c ≡ length a.now) }
    ensures bits { IfOk result
        (λ c. (k : ℕ) → k < length a.now
        → slice_index_or c k false
        ≡ (slice_index_or a.now k false && slice_index_or b.now k false)) }
{
    a & b
}

/// `|` returns a bitmap of the same length whose bit is set if it is set in at least one of the bitmaps.
///
/// # Errors
///
/// Returns `AllocError` if the allocation fails.
pub fn bitor_at_each_position<const N: usize>(
    a: &BitMap<N>,
    b: &BitMap<N>,
) -> Result<BitMap<N>, AllocError>
    requires { length a.now ≡ length b.now }
    ensures len { IfOk result (λ c. length c ≡ length a.now) }
    ensures bits { IfOk result
        (λ c. (k : ℕ) → k < length a.now
        → slice_index_or c k false
        ≡ (slice_index_or a.now k false || slice_index_or b.now k false)) }
{
    a | b
}

/// `^` returns a bitmap of the same length whose bit is set if the bits of the two bitmaps differ.
///
/// # Errors
///
/// Returns `AllocError` if the allocation fails.
pub fn bitxor_at_each_position<const N: usize>(
    a: &BitMap<N>,
    b: &BitMap<N>,
) -> Result<BitMap<N>, AllocError>
    requires { length a.now ≡ length b.now }
    ensures len { IfOk result (λ c. length c ≡ length a.now) }
    ensures bits { IfOk result
        (λ c. (k : ℕ) → k < length a.now
        → slice_index_or c k false
        ≡ xor (slice_index_or a.now k false) (slice_index_or b.now k false)) }
{
    a ^ b
}

/// `-` returns a bitmap of the same length whose bit is set if it is set in the left bitmap and not in the right.
///
/// # Errors
///
/// Returns `AllocError` if the allocation fails.
pub fn sub_at_each_position<const N: usize>(
    a: &BitMap<N>,
    b: &BitMap<N>,
) -> Result<BitMap<N>, AllocError>
    requires { length a.now ≡ length b.now }
    ensures len { IfOk result (λ c. length c ≡ length a.now) }
    ensures bits { IfOk result
        (λ c. (k : ℕ) → k < length a.now
        → slice_index_or c k false
        ≡ (slice_index_or a.now k false && not (slice_index_or b.now k false))) }
{
    a - b
}

/// `is_subset` returns true if and only if each position that is set in the one bitmap is set in the other.
pub fn subset_at_each_position<const N: usize>(a: &BitMap<N>, b: &BitMap<N>) -> bool
    requires { length a.now ≡ length b.now }
    ensures { Decides result
        ((k : ℕ) → k < length a.now → slice_index_or a.now k false ≡ true
        → slice_index_or b.now k false ≡ true) }
{
    a.is_subset(b)
}

/// `is_disjoint` returns true if and only if no position is set in both bitmaps.
pub fn disjoint_at_each_position<const N: usize>(a: &BitMap<N>, b: &BitMap<N>) -> bool
    requires { length a.now ≡ length b.now }
    ensures { Decides result
        ((k : ℕ) → k < length a.now → slice_index_or a.now k false ≡ true
        → slice_index_or b.now k false ≡ true → ⊥) }
{
    a.is_disjoint(b)
}
