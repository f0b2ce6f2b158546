//! Laws of whole bitmaps: counts, inversion, push and pop, equality and hashes.

ghost use Rattle.std.specs.Prelude.{◌≡◌, ◌+◌, ◌^◌, ◌<◌, List, Bool, [], ◌∷◌, ◌++◌, length, map, not, IfOk, IsTrue, ◌↔◌};
ghost use Rattle.std.specs.List.{count_by, fold};
ghost use Rattle.bitmap_core.specs.Fed.{fed_bits};

use crate::bitmap::BitMap;
use std::alloc::AllocError;
use std::hash::{Hash, Hasher};

/// The number of ones and the number of zeros of a bitmap add up to its length. Returns both.
pub fn counts_add_up<const N: usize>(bitmap: &BitMap<N>) -> (u64, u64)
    ensures ones { result.0 ≡ count_by (λ b. b) bitmap.now }
    ensures zeros { result.1 ≡ count_by not bitmap.now }
    ensures sum { result.0 + result.1 ≡ length bitmap.now }
{
    (bitmap.count_ones(), bitmap.count_zeros())
}

/// Inverting every bit twice leaves the bitmap unchanged.
pub fn flip_all_twice<const N: usize>(bitmap: &mut BitMap<N>)
    ensures same { bitmap.new ≡ bitmap.old }
    ensures inverse { (v : List Bool) → map not (map not v) ≡ v }
{
    bitmap.flip_all();
    bitmap.flip_all();
}

/// A push followed by a pop returns the pushed bit, and leaves the bitmap unchanged. The length is below `u64::MAX`.
///
/// # Errors
///
/// Returns `AllocError` if the push does; the bitmap is unchanged.
pub fn push_then_pop<const N: usize>(bitmap: &mut BitMap<N>, bit: bool) -> Result<bool, AllocError>
    requires space { length bitmap.old + 1 < 2 ^ 64 }
    ensures ok { IfOk result (λ b. b ≡ bit) }
    ensures same { bitmap.new ≡ bitmap.old }
    ensures inverse { (v w : List Bool) (x y : Bool) → v ++ x ∷ [] ≡ w ++ y ∷ []
        → (w ≡ v) × (y ≡ x) }
{
    bitmap.push(bit)?;
    Ok(bitmap.pop())
}

/// Two bitmaps are equal if and only if their bits are the same.
pub fn equal<const N: usize>(a: &BitMap<N>, b: &BitMap<N>) -> bool
    ensures { IsTrue result ↔ (a.now ≡ b.now) }
{
    a == b
}

/// Equal bitmaps have equal hashes: two hashers in the same state are in the same state afterwards.
pub fn hashes_alike<const N: usize, H: Hasher>(
    a: &BitMap<N>,
    b: &BitMap<N>,
    left: &mut H,
    right: &mut H,
)
    requires bits { a.now ≡ b.now }
    requires states { left.old ≡ right.old }
    ensures fed { left.new ≡ fold H.write left.old (fed_bits N a.now) }
    ensures same { left.new ≡ right.new }
{
    a.hash(left);
    b.hash(right);
}
