//! Tests of the bits of two slices of bytes, position by position.
//!
//! This module is for the layers above. Bit `i` of a slice is bit `i mod 8` of byte `i / 8`.

ghost use Rattle.std.specs.Prelude.{◌≡◌, ℕ, ◌<◌, false, length};
ghost use Rattle.std.specs.Bool.{Decides};
ghost use Rattle.bitmap_bytes.specs.Bits.{chunks_bit};
ghost use Rattle.bitmap_bytes.specs.Chunk.{bytes_bit};

use crate::chunk::facts::known;
use crate::chunk::whole::{self, Bitwise};

/// Returns whether no bit of `a` gives true if it is combined with the same bit of `b`. The slices have the same length.
///
/// # Memory
///
/// Does not allocate.
///
/// # Complexity
///
/// At most linear in the words of `a`. It stops at the first 64 bytes with such a bit.
pub fn gives_none<B: Bitwise>(a: &[u8], b: &[u8]) -> bool
    requires { length a.now ≡ length b.now }
    ensures { Decides result ((i : ℕ) → B.gives (bytes_bit a.now i) (bytes_bit b.now i) ≡ false) }
{
    let (a_blocks, a_rest) = a.as_chunks::<64>();
    let (b_blocks, b_rest) = b.as_chunks::<64>();
    blocks_give_none::<B, 64>(a_blocks, b_blocks) && end_gives_none::<B>(a_rest, b_rest)
}

// The same, in words, and the rest byte by byte.
fn end_gives_none<B: Bitwise>(a: &[u8], b: &[u8]) -> bool
    requires { length a.now ≡ length b.now }
    ensures { Decides result ((i : ℕ) → B.gives (bytes_bit a.now i) (bytes_bit b.now i) ≡ false) }
{
    let (a_words, a_rest) = a.as_chunks::<8>();
    let (b_words, b_rest) = b.as_chunks::<8>();
    blocks_give_none::<B, 8>(a_words, b_words) && bytes_give_none::<B>(a_rest, b_rest)
}

// The same, one block per step. The compiler knows the length of a block, so it combines whole words.
fn blocks_give_none<B: Bitwise, const M: usize>(a: &[[u8; M]], b: &[[u8; M]]) -> bool
    requires positive { 0 < M }
    requires same { length a.now ≡ length b.now }
    ensures { Decides result
        ((i : ℕ) → B.gives (chunks_bit M a.now i) (chunks_bit M b.now i) ≡ false) }
{
    for i in 0..a.len() {
        let mut combined = a[i];
        whole::combine::<B, M>(&mut combined, &b[i]);
        known(&combined);
        if combined != [0; M] {
            return false;
        }
    }
    true
}

// The same, byte by byte.
fn bytes_give_none<B: Bitwise>(a: &[u8], b: &[u8]) -> bool
    requires { length a.now ≡ length b.now }
    ensures { Decides result ((i : ℕ) → B.gives (bytes_bit a.now i) (bytes_bit b.now i) ≡ false) }
{
    for i in 0..a.len() {
        if B::of_bytes(a[i], b[i]) != 0 {
            return false;
        }
    }
    true
}
