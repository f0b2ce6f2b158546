//! Operations on every bit of a chunk.
//!
//! The head of the module `range` has an example.

ghost use Rattle.std.specs.Prelude.{◌≡◌, ℕ, ◌<◌, Bool, false, not, ◌&&◌, ◌||◌, ◌==◌};
ghost use Rattle.std.specs.Int.{bit_at};
ghost use Rattle.std.proofs.Common.{refl};
ghost use Rattle.std.proofs.Math.Bool.{xor};
ghost use Rattle.bitmap_bytes.specs.Chunk.{chunk_bit, IsChunk};
ghost use Rattle.bitmap_bytes.specs.Combined.{xor_zeros};

use crate::chunk::facts::fit;

/// Inverts every bit of a chunk.
///
/// `N` is at least 1.
///
/// # Memory
///
/// Does not allocate.
///
/// # Complexity
///
/// Linear in `N`.
pub fn flip<const N: usize>(chunk: &mut [u8; N])
    requires { 0 < N }
    ensures { (i : ℕ) → chunk_bit N chunk.new i ≡ not (chunk_bit N chunk.old i) }
{
    fit(chunk);
    for byte in chunk.iter_mut() {
        *byte = !*byte;
    }
}

/// Sets every bit of a chunk to `value`.
///
/// `N` is at least 1.
///
/// # Memory
///
/// Does not allocate.
///
/// # Complexity
///
/// Linear in `N`.
pub fn fill<const N: usize>(chunk: &mut [u8; N], value: bool)
    requires { 0 < N }
    ensures { (i : ℕ) → chunk_bit N chunk.new i ≡ value }
{
    chunk.fill(if value { u8::MAX } else { 0 });
}

/// A function of two bits that is computed for eight bits at a time. Its value for two zeros is zero.
pub trait Bitwise {
    // The function of two bits.
    ghost gives: { Bool → Bool → Bool };

    // Past the length of a bitmap both bits are zero, and must remain zero.
    ghost keeps_zeros: { gives false false ≡ false };

    /// Combines each bit of `a` with the same bit of `b`.
    ///
    /// Does not allocate; constant time.
    fn of_bytes(a: u8, b: u8) -> u8
        ensures { (k : ℕ) → (bit_at result k == 1) ≡ gives (bit_at a k == 1) (bit_at b k == 1) };
}

/// The bit is set if both bits are set.
pub struct And;

impl Bitwise for And {
    ghost gives = { λ a b. a && b };

    ghost keeps_zeros = { refl };

    fn of_bytes(a: u8, b: u8) -> u8 {
        a & b
    }
}

/// The bit is set if at least one of the bits is set.
pub struct Or;

impl Bitwise for Or {
    ghost gives = { λ a b. a || b };

    ghost keeps_zeros = { refl };

    fn of_bytes(a: u8, b: u8) -> u8 {
        a | b
    }
}

/// The bit is set if exactly one of the bits is set.
pub struct Xor;

impl Bitwise for Xor {
    ghost gives = { xor };

    ghost keeps_zeros = { xor_zeros };

    fn of_bytes(a: u8, b: u8) -> u8 {
        a ^ b
    }
}

/// The bit is set if the first bit is set and the second is not.
pub struct AndNot;

impl Bitwise for AndNot {
    ghost gives = { λ a b. a && not b };

    ghost keeps_zeros = { refl };

    fn of_bytes(a: u8, b: u8) -> u8 {
        a & !b
    }
}

/// Combines every bit of `chunk` with the same bit of `other`.
///
/// `N` is at least 1.
///
/// # Memory
///
/// Does not allocate.
///
/// # Complexity
///
/// Linear in `N`.
pub fn combine<B: Bitwise, const N: usize>(chunk: &mut [u8; N], other: &[u8; N])
    requires { 0 < N }
    ensures { (i : ℕ) → chunk_bit N chunk.new i
        ≡ B.gives (chunk_bit N chunk.old i) (chunk_bit N other.now i) }
{
    if N < 8 {
        return combine_in_place::<B, N>(chunk, other);
    }
    // Works on copies, so that the compiler knows that no write changes `other` and combines whole words at once.
    let other = *other;
    let mut combined = *chunk;
    combine_in_place::<B, N>(&mut combined, &other);
    *chunk = combined;
}

fn combine_in_place<B: Bitwise, const N: usize>(chunk: &mut [u8; N], other: &[u8; N])
    requires { 0 < N }
    ensures { (i : ℕ) → chunk_bit N chunk.new i
        ≡ B.gives (chunk_bit N chunk.old i) (chunk_bit N other.now i) }
{
    for j in 0..N {
        chunk[j] = B::of_bytes(chunk[j], other[j]);
    }
}
