//! Counts and tests of the bits of a slice of bytes, by words of 64 bits.
//!
//! This module is for the layers above. Bit `i` of a slice is bit `i mod 8` of byte `i / 8`.

ghost use Rattle.std.specs.Prelude.{◌≡◌, ℕ, ◌+◌, ◌-◌, ◌*◌, ◌^◌, ◌<◌, ◌≤◌, length, not, ◌==◌};
ghost use Rattle.std.specs.Int.{bit_at};
ghost use Rattle.std.specs.List.{count_by, list_all, range_with_len, slice_range};
ghost use Rattle.bitmap_bytes.specs.Chunk.{chunk_bit, chunk_bits};
ghost use Rattle.bitmap_bytes.specs.Bits.{bits};

use crate::chunk::facts::all_known;

/// Returns the number of set bits of `bytes`, which fits `u64`.
///
/// # Memory
///
/// Does not allocate.
///
/// # Complexity
///
/// Linear in the words of `bytes`.
pub fn count_ones(bytes: &[u8]) -> u64
    requires { count_by (λ b. b) (chunk_bits (length bytes.now) bytes.now) < 2 ^ 64 }
    ensures { result ≡ count_by (λ b. b) (chunk_bits (length bytes.now) bytes.now) }
{
    let (words, rest) = bytes.as_chunks::<8>();
    word_ones(words) + byte_ones(rest)
}

/// Returns whether no bit at or above bit `from` and below bit `to` is set. `to` is at most the number of bits of `bytes`.
///
/// If `from` is not below `to`, there is no such bit, and the result is true.
///
/// # Memory
///
/// Does not allocate.
///
/// # Complexity
///
/// At most linear in the words of the range.
pub fn is_unset(bytes: &[u8], from: u64, to: u64) -> bool
    requires { to ≤ 8 * length bytes.now }
    ensures { result ≡ list_all not
        (slice_range (chunk_bits (length bytes.now) bytes.now) from to) }
{
    if from >= to {
        return true;
    }
    let first = (from / 8) as usize;
    let last = ((to - 1) / 8) as usize;
    let past = (to - 1) % 8 + 1;
    if first == last {
        return is_byte_unset(bytes[first], from % 8, past);
    }
    is_byte_unset(bytes[first], from % 8, 8)
        && is_byte_unset(bytes[last], 0, past)
        && is_zero(&bytes[first + 1..last])
}

// Whether every byte is zero: in blocks of 64 bytes, and the rest in words.
fn is_zero(bytes: &[u8]) -> bool
    ensures { result ≡ list_all not (chunk_bits (length bytes.now) bytes.now) }
{
    let (blocks, rest) = bytes.as_chunks::<64>();
    are_blocks_zero(blocks) && is_end_zero(rest)
}

// Whether every byte is zero: in words, and the rest byte by byte.
fn is_end_zero(bytes: &[u8]) -> bool
    ensures { result ≡ list_all not (chunk_bits (length bytes.now) bytes.now) }
{
    let (words, rest) = bytes.as_chunks::<8>();
    are_blocks_zero(words) && are_bytes_zero(rest)
}

// The number of set bits of some words.
fn word_ones(words: &[[u8; 8]]) -> u64
    requires { count_by (λ b. b) (bits 8 words.now (64 * length words.now)) < 2 ^ 64 }
    ensures { result ≡ count_by (λ b. b) (bits 8 words.now (64 * length words.now)) }
{
    let mut total = 0u64;
    for word in words {
        total += load(word).count_ones() as u64;
    }
    total
}

// The number of set bits of some bytes, byte by byte.
fn byte_ones(bytes: &[u8]) -> u64
    requires { count_by (λ b. b) (chunk_bits (length bytes.now) bytes.now) < 2 ^ 64 }
    ensures { result ≡ count_by (λ b. b) (chunk_bits (length bytes.now) bytes.now) }
{
    let mut total = 0u64;
    for byte in bytes {
        total += byte.count_ones() as u64;
    }
    total
}

// Whether every byte of some blocks is zero, one block per step.
fn are_blocks_zero<const M: usize>(blocks: &[[u8; M]]) -> bool
    requires { 0 < M }
    ensures { result ≡ list_all not (bits M blocks.now (8 * M * length blocks.now)) }
{
    all_known(blocks);
    for block in blocks {
        if *block != [0; M] {
            return false;
        }
    }
    true
}

// Whether every byte is zero, byte by byte.
fn are_bytes_zero(bytes: &[u8]) -> bool
    ensures { result ≡ list_all not (chunk_bits (length bytes.now) bytes.now) }
{
    for byte in bytes {
        if *byte != 0 {
            return false;
        }
    }
    true
}

// Eight bytes as a word.
fn load(word: &[u8; 8]) -> u64
    ensures { (t : ℕ) → t < 64 → (bit_at result t == 1) ≡ chunk_bit 8 word.now t }
{
    u64::from_le_bytes(*word)
}

// Whether no bit of a byte at or above bit `from` and below bit `to` is set.
fn is_byte_unset(byte: u8, from: u64, to: u64) -> bool
    requires some { from < to }
    requires within { to ≤ 8 }
    ensures { result ≡ list_all (λ t. not (bit_at byte t == 1)) (range_with_len from (to - from)) }
{
    let mask = (u8::MAX >> (8 - (to - from))) << from;
    byte & mask == 0
}
