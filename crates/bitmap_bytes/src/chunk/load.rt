//! Words of 64 bits that are read from a chunk. The lowest bit of a word is its first.
//!
//! This module is for the layers above. The words of a chunk follow one another from the start of the chunk; the last one may be short.

ghost use Rattle.std.specs.Prelude.{◌≡◌, ◌≢◌, ℕ, ◌+◌, ◌*◌, ◌/◌, ◌%◌, ◌^◌, ◌<◌, ◌≤◌, ◌==◌, true, false, length, slice_index_or, count_ones, MatchOption};
ghost use Rattle.std.specs.Int.{bit_at};
ghost use Rattle.bitmap_bytes.specs.Chunk.{chunk_bit, is_wanted, IsNth, IsWidth};
ghost use Rattle.bitmap_bytes.specs.Words.{IsCut, next_word, starts_word, word_start};

// The width is written as `8 * N`: for a call of `chunk_width`, the goals of the proofs name its result and not this value.

// The 64 bits of a chunk from byte `byte` on, at which a word begins, with zeros past the end of the chunk.
// Both tests are of constants. At a width of one word, or of whole words, the compiled code tests no length and copies no bytes.
fn word_at<const N: usize>(chunk: &[u8; N], byte: usize) -> u64
    requires within { byte ≤ N }
    requires only { N ≤ 8 → byte ≡ 0 }
    requires whole { N % 8 ≡ 0 → byte + 8 ≤ N }
    ensures inside { (t : ℕ) → t < 64 → 8 * byte + t < 8 * N
        → (bit_at result t == 1) ≡ chunk_bit N chunk.now (8 * byte + t) }
    ensures past { (t : ℕ) → t < 64 → 8 * N ≤ 8 * byte + t → (bit_at result t == 1) ≡ false }
{
    let bytes = &chunk[..];
    if N <= 8 {
        return first_word(bytes);
    }
    let rest = &bytes[byte..];
    if N % 8 == 0 {
        return first_word(&rest[..8]);
    }
    first_word(rest)
}

// The first eight bytes, with zeros if there are fewer.
fn first_word(bytes: &[u8]) -> u64
    ensures { (t : ℕ) → t < 64
        → bit_at result t ≡ bit_at (slice_index_or bytes.now (t / 8) 0) (t % 8) }
{
    match bytes.first_chunk::<8>() {
        Some(word) => u64::from_le_bytes(*word),
        None => short_word(bytes),
    }
}

// Fewer than eight bytes, with zeros after them.
fn short_word(bytes: &[u8]) -> u64
    requires { length bytes.now < 8 }
    ensures { (t : ℕ) → t < 64
        → bit_at result t ≡ bit_at (slice_index_or bytes.now (t / 8) 0) (t % 8) }
{
    let mut word = [0; 8];
    for i in 0..bytes.len() {
        word[i] = bytes[i];
    }
    u64::from_le_bytes(word)
}

// A word without its bits from `count` on. If `count` is 64 or more, the whole word.
fn low_bits(word: u64, count: u64) -> u64
    ensures kept { (t : ℕ) → t < 64 → t < count → (bit_at result t == 1) ≡ (bit_at word t == 1) }
    ensures cut { (t : ℕ) → t < 64 → count ≤ t → (bit_at result t == 1) ≡ false }
{
    if count < 64 {
        word & ((1 << count) - 1)
    } else {
        word
    }
}

/// Returns a word with zeros in place of its bits below `start`, which is below 64.
///
/// Does not allocate; constant time.
pub fn high_bits(word: u64, start: u64) -> u64
    requires { start < 64 }
    ensures kept { (t : ℕ) → t < 64 → start ≤ t → (bit_at result t == 1) ≡ (bit_at word t == 1) }
    ensures cut { (t : ℕ) → t < start → (bit_at result t == 1) ≡ false }
{
    word & (u64::MAX << start)
}

/// Clears the lowest set bit of a word that is not 0, and returns the index of that bit.
///
/// Does not allocate; constant time.
pub fn take_lowest(word: &mut u64) -> u64
    requires { 0 < word.old }
    ensures within { result < 64 }
    ensures set { (bit_at word.old result == 1) ≡ true }
    ensures lowest { (t : ℕ) → t < result → (bit_at word.old t == 1) ≡ false }
    ensures cleared { (bit_at word.new result == 1) ≡ false }
    ensures others { (t : ℕ) → t < 64 → t ≢ result
        → (bit_at word.new t == 1) ≡ (bit_at word.old t == 1) }
{
    let old = *word;
    *word = old & (old - 1);
    old.trailing_zeros() as u64
}

/// Returns the position at which the word that contains position `position` begins. Both positions are in a whole bitmap.
///
/// `N` is at least 1, and `8N` fits `u64`. Does not allocate; constant time.
pub fn word_base<const N: usize>(position: u64) -> u64
    requires width { IsWidth N }
    ensures { result ≡ word_start N position }
{
    position - position % (8 * N as u64) % 64
}

/// Returns the position at which the next word begins after the word at `base`, or `None` if that position does not fit `u64`.
///
/// Both positions are in a whole bitmap. `N` is at least 1, and `8N` fits `u64`. Does not allocate; constant time.
pub fn following_word<const N: usize>(base: u64) -> Option<u64>
    requires width { IsWidth N }
    ensures { MatchOption result (2 ^ 64 ≤ next_word N base) (λ k. k ≡ next_word N base) }
{
    let width = 8 * N as u64;
    let stride = (width - base % width).min(64);
    base.checked_add(stride)
}

/// Loads the word of a chunk that begins at `base`, with zeros past the end of the chunk and at positions from `end` on.
///
/// `base` and `end` are positions in a whole bitmap. A word begins at `base`, and `base` is below `end`.
/// `N` is at least 1, and `8N` fits `u64`. Does not allocate; constant time.
pub fn word_below<const N: usize>(chunk: &[u8; N], base: u64, end: u64) -> u64
    requires width { IsWidth N }
    requires start { starts_word N base ≡ true }
    requires below { base < end }
    ensures inside { (i : ℕ) → i < 64 → base + i < end → base % (8 * N) + i < 8 * N
        → (bit_at result i == 1) ≡ chunk_bit N chunk.now (base % (8 * N) + i) }
    ensures past_chunk { (i : ℕ) → i < 64 → 8 * N ≤ base % (8 * N) + i
        → (bit_at result i == 1) ≡ false }
    ensures past_end { IsCut base result end }
{
    let byte = (base % (8 * N as u64) / 8) as usize;
    low_bits(word_at(chunk, byte), end - base)
}

/// Loads the word that `word_below` loads. If `wanted` is false, each bit of the chunk below `end` is inverted.
///
/// `base` and `end` are positions in a whole bitmap. A word begins at `base`, and `base` is below `end`.
/// `N` is at least 1, and `8N` fits `u64`. Does not allocate; constant time.
pub fn wanted_below<const N: usize>(chunk: &[u8; N], base: u64, end: u64, wanted: bool) -> u64
    requires width { IsWidth N }
    requires start { starts_word N base ≡ true }
    requires below { base < end }
    ensures inside { (i : ℕ) → i < 64 → base + i < end → base % (8 * N) + i < 8 * N
        → (bit_at result i == 1) ≡ is_wanted wanted (chunk_bit N chunk.now (base % (8 * N) + i)) }
    ensures past_chunk { (i : ℕ) → i < 64 → 8 * N ≤ base % (8 * N) + i
        → (bit_at result i == 1) ≡ false }
    ensures past_end { IsCut base result end }
{
    let word = word_below(chunk, base, end);
    if wanted {
        return word;
    }
    let width = 8 * N as u64;
    low_bits(!word, (end - base).min(width - base % width))
}

/// Returns the index of the highest set bit of a word that is not 0.
///
/// Does not allocate; constant time.
pub fn highest(word: u64) -> u64
    requires { 0 < word }
    ensures within { result < 64 }
    ensures set { (bit_at word result == 1) ≡ true }
    ensures highest { (t : ℕ) → result < t → (bit_at word t == 1) ≡ false }
{
    63 - word.leading_zeros() as u64
}

/// Returns the index of the set bit of a word that has `k` set bits below it. The word has more than `k` set bits.
///
/// # Memory
///
/// Does not allocate.
///
/// # Complexity
///
/// Linear in `k`, which is below 64.
pub fn nth_one(word: u64, k: u64) -> u64
    requires { k < count_ones word }
    ensures { IsNth (λ t. bit_at word t == 1) 0 64 k result }
{
    let mut rest = word;
    for _ in 0..k {
        take_lowest(&mut rest);
    }
    take_lowest(&mut rest)
}
