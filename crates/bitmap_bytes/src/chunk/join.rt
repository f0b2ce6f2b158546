//! Chunks that are filled from a run of bytes, starting at any bit of the run.
//!
//! This module is for the layers above.
//! The run is `front` followed by `back`. Its bit `i` is bit `i mod 8` of byte `i / 8`, and every bit past its bytes is zero.

ghost use Rattle.std.specs.Prelude.{◌≡◌, ℕ, ◌+◌, ◌-◌, ◌*◌, ◌/◌, ◌%◌, ◌^◌, ◌<◌, ◌≤◌, ◌++◌, length, ◌==◌, slice_index_or};
ghost use Rattle.std.specs.Int.{bit_at};
ghost use Rattle.bitmap_bytes.specs.Chunk.{chunk_bit, bytes_bit, IsByteJoined, IsWidth};

use crate::chunk::byte_index;

// The eight bits that begin `skip` bits into `low` and continue in `high`. Both bytes are shifted as one number of 16 bits, which takes one shift.
fn joined_byte(low: u8, high: u8, skip: u64) -> u8
    requires { skip < 8 }
    ensures low { (t : ℕ) → t + skip < 8 → bit_at result t ≡ bit_at low (t + skip) }
    ensures high { (t : ℕ) → t < 8 → 8 ≤ t + skip → bit_at result t ≡ bit_at high (t + skip - 8) }
{
    let both = (low as u16) | ((high as u16) << 8);
    ((both >> skip) % 256) as u8
}

// The low `shift` bits of `kept`, and above them the low bits of `next`.
fn opened_byte(kept: u8, next: u8, shift: u64) -> u8
    requires { shift < 8 }
    ensures low { (t : ℕ) → t < shift → bit_at result t ≡ bit_at kept t }
    ensures high { (t : ℕ) → t < 8 → shift ≤ t → bit_at result t ≡ bit_at next (t - shift) }
{
    (kept & ((1 << shift) - 1)) | (next << shift)
}

// Byte `at` of the run, or 0 past its end.
fn byte_at(front: &[u8], back: &[u8], at: usize) -> u8
    ensures { result ≡ slice_index_or (front.now ++ back.now) at 0 }
{
    if at < front.len() {
        return front[at];
    }
    let rest = at - front.len();
    if rest < back.len() { back[rest] } else { 0 }
}

// The eight bits of the run that begin `skip` bits into byte `at`.
fn bits_from(front: &[u8], back: &[u8], at: usize, skip: u64) -> u8
    requires place { skip < 8 }
    requires space { at + 1 < 2 ^ 64 }
    ensures { (t : ℕ) → t < 8
        → (bit_at result t == 1) ≡ bytes_bit (front.now ++ back.now) (8 * at + skip + t) }
{
    joined_byte(byte_at(front, back, at), byte_at(front, back, at + 1), skip)
}

// Fills a chunk, from its byte `from` on, with the bits of the run from bit `bit` on.
fn fill_from<const N: usize>(chunk: &mut [u8; N], from: usize, front: &[u8], back: &[u8], bit: u64)
    requires width { IsWidth N }
    ensures kept { (i : ℕ) → i % (8 * N) < 8 * from
        → chunk_bit N chunk.new i ≡ chunk_bit N chunk.old i }
    ensures filled { (i : ℕ) → 8 * from ≤ i % (8 * N)
        → chunk_bit N chunk.new i
        ≡ bytes_bit (front.now ++ back.now) (bit + (i % (8 * N) - 8 * from)) }
{
    let at = (bit / 8) as usize;
    for j in from..N {
        chunk[j] = bits_from(front, back, at + (j - from), bit % 8);
    }
}

// The 64 bits that begin `skip` bits into `low` and continue in `high`.
fn joined_word(low: u64, high: u8, skip: u64) -> u64
    requires { skip < 8 }
    ensures low { (t : ℕ) → t + skip < 64 → bit_at result t ≡ bit_at low (t + skip) }
    ensures high { (t : ℕ) → t < 64 → 64 ≤ t + skip
        → bit_at result t ≡ bit_at high (t + skip - 64) }
{
    (low >> skip) | (((high as u64) << (63 - skip)) << 1)
}

// The 64 bits that begin `skip` bits into byte `at`.
fn word_from(bytes: &[u8], at: usize, skip: u64) -> u64
    requires place { skip < 8 }
    requires within { at + 8 < length bytes.now }
    ensures { (t : ℕ) → t < 64 → (bit_at result t == 1) ≡ bytes_bit bytes.now (8 * at + skip + t) }
{
    let word: [u8; 8] = bytes[at..at + 8].try_into().unwrap();
    joined_word(u64::from_le_bytes(word), bytes[at + 8], skip)
}

// Writes a word to the eight bytes of a chunk from byte `at` on.
fn put_word<const N: usize>(chunk: &mut [u8; N], at: usize, word: u64)
    requires { at + 8 ≤ N }
    ensures size { length chunk.new ≡ N }
    ensures here { (j t : ℕ) → j < 8 → t < 8
        → bit_at (slice_index_or chunk.new (at + j) 0) t ≡ bit_at word (8 * j + t) }
    ensures kept { (k : ℕ) → k < at → slice_index_or chunk.new k 0 ≡ slice_index_or chunk.old k 0 }
{
    let bytes = word.to_le_bytes();
    for j in 0..8 {
        chunk[at + j] = bytes[j];
    }
}

// Fills the whole words of a chunk with the bits from bit `skip` on of `bytes`, which has more bytes than the chunk.
fn fill_words<const N: usize>(chunk: &mut [u8; N], bytes: &[u8], skip: u64)
    requires place { skip < 8 }
    requires more { N < length bytes.now }
    ensures size { length chunk.new ≡ N }
    ensures bits { (k t : ℕ) → k < 8 * (N / 8) → t < 8
        → (bit_at (slice_index_or chunk.new k 0) t == 1)
        ≡ bytes_bit bytes.now (skip + (8 * k + t)) }
{
    for word in 0..N / 8 {
        put_word(chunk, 8 * word, word_from(bytes, 8 * word, skip));
    }
}

// The chunk of the bits from bit `skip` on of `bytes`, which has more bytes than the chunk. From the start of a byte it is a copy.
// This and `chunk_from` are inlined: their callers fill one chunk after another, and for a narrow one a call takes longer than the bytes.
#[inline(always)]
fn chunk_within<const N: usize>(bytes: &[u8], skip: u64) -> [u8; N]
    requires positive { 0 < N }
    requires place { skip < 8 }
    requires more { N < length bytes.now }
    ensures { (i : ℕ) → chunk_bit N result i ≡ bytes_bit bytes.now (skip + i % (8 * N)) }
{
    if skip == 0 {
        return bytes[..N].try_into().unwrap();
    }
    let mut chunk = [0; N];
    fill_words(&mut chunk, bytes, skip);
    for j in 8 * (N / 8)..N {
        chunk[j] = joined_byte(bytes[j], bytes[j + 1], skip);
    }
    chunk
}

/// Returns the chunk of the `8N` bits of the run from bit `bit` on.
///
/// `N` is at least 1, and `8N` fits `u64`.
///
/// # Memory
///
/// Does not allocate.
///
/// # Complexity
///
/// Linear in `N`. Whole words of 64 bits are written at once if `front` or `back` alone has the `N + 1` bytes from bit `bit` on.
#[inline(always)]
pub fn chunk_from<const N: usize>(front: &[u8], back: &[u8], bit: u64) -> [u8; N]
    requires width { IsWidth N }
    ensures { (i : ℕ) → chunk_bit N result i
        ≡ bytes_bit (front.now ++ back.now) (bit + i % (8 * N)) }
{
    let at = (bit / 8) as usize;
    if at + N < front.len() {
        return chunk_within(&front[at..], bit % 8);
    }
    if front.len() <= at && at - front.len() + N < back.len() {
        return chunk_within(&back[at - front.len()..], bit % 8);
    }
    let mut chunk = [0; N];
    fill_from(&mut chunk, 0, front, back, bit);
    chunk
}

/// Writes the run, from its first bit on, to the bits of a chunk from bit `len mod 8N` on. The bits before do not change.
///
/// `N` is at least 1, and `8N` fits `u64`.
///
/// # Memory
///
/// Does not allocate.
///
/// # Complexity
///
/// Linear in the bytes of the chunk from the one that contains bit `len mod 8N` on.
pub fn join<const N: usize>(chunk: &mut [u8; N], len: u64, front: &[u8], back: &[u8])
    requires width { IsWidth N }
    ensures kept { (i : ℕ) → i % (8 * N) < len % (8 * N)
        → chunk_bit N chunk.new i ≡ chunk_bit N chunk.old i }
    ensures joined { (i : ℕ) → len % (8 * N) ≤ i % (8 * N)
        → chunk_bit N chunk.new i
        ≡ bytes_bit (front.now ++ back.now) (i % (8 * N) - len % (8 * N)) }
{
    let byte = byte_index::<N>(len);
    let shift = len % 8;
    chunk[byte] = opened_byte(chunk[byte], byte_at(front, back, 0), shift);
    fill_from(chunk, byte + 1, front, back, 8 - shift);
}

/// Writes the eight bits of `byte` to the eight bits of a chunk from bit `bit mod 8N` on. The other bits do not change.
///
/// The chunk has eight bits from there on. `N` is at least 1, and `8N` fits `u64`. Does not allocate; constant time.
pub fn join_byte<const N: usize>(chunk: &mut [u8; N], bit: u64, byte: u8)
    requires width { IsWidth N }
    requires space { bit % (8 * N) + 8 ≤ 8 * N }
    ensures { IsByteJoined N chunk.old chunk.new bit byte }
{
    let at = byte_index::<N>(bit);
    let shift = bit % 8;
    chunk[at] = opened_byte(chunk[at], byte, shift);
    if shift > 0 {
        chunk[at + 1] = joined_byte(byte, chunk[at + 1] >> shift, 8 - shift);
    }
}
