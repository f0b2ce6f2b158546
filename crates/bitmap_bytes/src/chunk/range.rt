//! Counts and searches in a range of the bits of one chunk, by words of 64 bits, and writes to such a range.
//!
//! `N` is at least 1, and `8N` fits `u64`. Indices of bits count from the start of the chunk.
//!
//! ```
//! use bitmap_bytes::chunk::range;
//! use bitmap_bytes::chunk::whole::{self, And};
//!
//! /// Returns the number of bits from bit 4 up to bit 20 that are set in both chunks.
//! pub fn common_ones(a: &[u8; 3], b: &[u8; 3]) -> u64 {
//!     let mut both = *a;
//!     whole::combine::<And, 3>(&mut both, b);
//!     range::ones_in(&both, 4, 20)
//! }
//! ```

ghost use Rattle.std.specs.Prelude.{◌≡◌, ℕ, ◌+◌, ◌-◌, ◌*◌, ◌%◌, ◌^◌, ◌<◌, ◌≤◌, ◌⊎◌, ◌==◌, false, min, MatchOption};
ghost use Rattle.std.specs.Int.{bit_at};
ghost use Rattle.std.specs.List.{count_by, range_with_len};
ghost use Rattle.bitmap_bytes.specs.Chunk.{chunk_bit, is_wanted, IsLastBelow, IsNth, IsWidth};
ghost use Rattle.bitmap_bytes.specs.Words.{IsPart};

use crate::chunk::load::{high_bits, highest, nth_one, wanted_below, word_below};
use crate::chunk::words::count_ones;

// The width is written as `8 * N`: for a call of `chunk_width`, the goals of the proofs name its result and not this value.

/// Returns the number of set bits of a chunk at or above bit `from` and below bit `to`, which is at most `8N`.
///
/// If `from` is not below `to`, the number is 0.
///
/// # Memory
///
/// Does not allocate.
///
/// # Complexity
///
/// Linear in the words of the range. A whole chunk is counted as fast as `words::count_ones` counts its bytes.
pub fn ones_in<const N: usize>(chunk: &[u8; N], from: u64, to: u64) -> u64
    requires width { IsWidth N }
    requires within { to ≤ 8 * N }
    ensures { result ≡ count_by (chunk_bit N chunk.now) (range_with_len from (to - from)) }
{
    if from == 0 && to == 8 * N as u64 {
        return all_ones(chunk);
    }
    some_ones(chunk, from, to)
}

// The number of set bits of a whole chunk.
fn all_ones<const N: usize>(chunk: &[u8; N]) -> u64
    requires width { IsWidth N }
    ensures { result ≡ count_by (chunk_bit N chunk.now) (range_with_len 0 (8 * N)) }
{
    count_ones(&chunk[..])
}

// The number of set bits of a part of a chunk, one word per step.
fn some_ones<const N: usize>(chunk: &[u8; N], from: u64, to: u64) -> u64
    requires width { IsWidth N }
    requires within { to ≤ 8 * N }
    ensures { result ≡ count_by (chunk_bit N chunk.now) (range_with_len from (to - from)) }
{
    let mut total = 0;
    let mut at = from;
    while at < to {
        total += part_word(chunk, at, to).count_ones() as u64;
        at += (64 - at % 64).min(to - at);
    }
    total
}

// The word that contains bit `at`, with zeros below bit `at` and from bit `to` on.
fn part_word<const N: usize>(chunk: &[u8; N], at: u64, to: u64) -> u64
    requires width { IsWidth N }
    requires below { at < to }
    requires within { to ≤ 8 * N }
    ensures { IsPart (chunk_bit N chunk.now) (at - at % 64) result at to }
{
    let place = at % 64;
    high_bits(word_below(chunk, at - place, to), place)
}

/// Returns the set bit of a chunk in a range that has `k` set bits of the range below it.
///
/// The range begins at bit `from` and ends before bit `to`, which is at most `8N`.
/// Returns `None` if the range has at most `k` set bits.
///
/// # Memory
///
/// Does not allocate.
///
/// # Complexity
///
/// Linear in the words of the range up to the returned bit.
pub fn nth_in<const N: usize>(chunk: &[u8; N], from: u64, to: u64, k: u64) -> Option<u64>
    requires width { IsWidth N }
    requires within { to ≤ 8 * N }
    ensures { MatchOption result
        (count_by (chunk_bit N chunk.now) (range_with_len from (to - from)) ≤ k)
        (IsNth (chunk_bit N chunk.now) from to k) }
{
    let mut left = k;
    let mut at = from;
    while at < to {
        let word = part_word(chunk, at, to);
        let count = word.count_ones() as u64;
        if left < count {
            return Some(at - at % 64 + nth_one(word, left));
        }
        left -= count;
        at += (64 - at % 64).min(to - at);
    }
    None
}

/// Returns the greatest bit of a chunk below bit `to` that is set or, if `wanted` is false, that is not set.
///
/// `to` is at most `8N`. Returns `None` if there is no such bit.
///
/// # Memory
///
/// Does not allocate.
///
/// # Complexity
///
/// Linear in the words from the returned bit up to `to`.
pub fn last_in<const N: usize>(chunk: &[u8; N], to: u64, wanted: bool) -> Option<u64>
    requires width { IsWidth N }
    requires within { to ≤ 8 * N }
    ensures { MatchOption result
        ((i : ℕ) → i < to → is_wanted wanted (chunk_bit N chunk.now i) ≡ false)
        (λ k. IsLastBelow (λ i. is_wanted wanted (chunk_bit N chunk.now i)) to k) }
{
    let mut top = to;
    while top > 0 {
        let base = top - 1 - (top - 1) % 64;
        let word = wanted_below(chunk, base, top, wanted);
        if word != 0 {
            return Some(base + highest(word));
        }
        top = base;
    }
    None
}

/// Sets the bits of a chunk at or above bit `from` and below bit `to`, which is at most `8N`, to `value`.
///
/// The other bits do not change. If `from` is not below `to`, nothing changes.
///
/// # Memory
///
/// Does not allocate.
///
/// # Complexity
///
/// Linear in the bytes of the range. All bytes but the first and the last are written at once.
pub fn set_in<const N: usize>(chunk: &mut [u8; N], from: u64, to: u64, value: bool)
    requires width { IsWidth N }
    requires within { to ≤ 8 * N }
    ensures inside { (i : ℕ) → from ≤ i % (8 * N) → i % (8 * N) < to
        → chunk_bit N chunk.new i ≡ value }
    ensures outside { (i : ℕ) → (i % (8 * N) < from) ⊎ (to ≤ i % (8 * N))
        → chunk_bit N chunk.new i ≡ chunk_bit N chunk.old i }
{
    if from >= to {
        return;
    }
    let first = (from / 8) as usize;
    let last = ((to - 1) / 8) as usize;
    let past = (to - 1) % 8 + 1;
    if first == last {
        chunk[first] = set_in_byte(chunk[first], from % 8, past, value);
        return;
    }
    chunk[first] = set_in_byte(chunk[first], from % 8, 8, value);
    chunk[last] = set_in_byte(chunk[last], 0, past, value);
    let bytes = &mut chunk[..];
    bytes[first + 1..last].fill(if value { u8::MAX } else { 0 });
}

// A byte with its bits at or above bit `from` and below bit `to` set to `value`.
fn set_in_byte(byte: u8, from: u64, to: u64, value: bool) -> u8
    requires some { from < to }
    requires within { to ≤ 8 }
    ensures inside { (t : ℕ) → from ≤ t → t < to → (bit_at result t == 1) ≡ value }
    ensures outside { (t : ℕ) → t < 8 → (t < from) ⊎ (to ≤ t)
        → (bit_at result t == 1) ≡ (bit_at byte t == 1) }
{
    let mask = (u8::MAX >> (8 - (to - from))) << from;
    if value { byte | mask } else { byte & !mask }
}
