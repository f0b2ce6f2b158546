//! The bits of one chunk, a byte array `[u8; N]`.
//!
//! A chunk has `8N` bits. Bit `i` is bit `i mod 8` of byte `i / 8`, counted from the least significant bit.
//! A parameter `bit` may also be a position in a whole bitmap: the function then uses bit `bit mod 8N` of the chunk.
//! `N` is at least 1, and `8N` fits `u64`. Each function requires only the part of this condition that it uses.
//!
//! No function of this module or its submodules allocates.
//!
//! ```
//! use bitmap_bytes::chunk;
//!
//! /// Returns the chunk `[8, 0, 0, 0]`, and whether its bit 3 is set: true.
//! pub fn marked() -> ([u8; 4], bool) {
//!     let mut marks = [0; 4];
//!     chunk::set_bit(&mut marks, 3, true);
//!     let is_set = chunk::get_bit(&marks, 3);
//!     (marks, is_set)
//! }
//! ```

ghost use Rattle.std.specs.Prelude.{◌≡◌, ℕ, ◌+◌, ◌-◌, ◌*◌, ◌/◌, ◌%◌, ◌^◌, ◌<◌, ◌≤◌, ◌++◌, ◌==◌, Bool, false, not, length, map, slice_index, slice_index_or, vec_len, vec_capacity};
ghost use Rattle.std.specs.List.{list_any, range_with_len};
ghost use Rattle.std.specs.Int.{bit_at, div_ceil};
ghost use Rattle.bitmap_bytes.specs.Chunk.{byte_of as byte_from_bits, chunk_bit, IsBitWritten, IsByteWritten, IsWidth};

#[doc(hidden)]
pub mod facts;
#[doc(hidden)]
pub mod join;
#[doc(hidden)]
pub mod load;
#[doc(hidden)]
pub mod pairs;
pub mod range;
pub mod whole;
#[doc(hidden)]
pub mod words;

/// Returns the width of a chunk in bits, `8N`.
///
/// `8N` fits `u64`. Does not allocate; constant time.
pub fn chunk_width<const N: usize>() -> u64
    requires { 8 * N < 2 ^ 64 }
    ensures { result ≡ 8 * N }
{
    8 * (N as u64)
}

/// Returns the index of the chunk that contains bit `bit` of a whole bitmap: `bit / 8N`.
///
/// `N` is at least 1, and `8N` fits `u64`. Does not allocate; constant time.
pub fn chunk_index<const N: usize>(bit: u64) -> usize
    requires width { IsWidth N }
    ensures { result ≡ bit / (8 * N) }
{
    (bit / chunk_width::<N>()) as usize
}

/// Returns the number of chunks that `len` bits fill, including a partly used last chunk.
///
/// `N` is at least 1, and `8N` fits `u64`. Does not allocate; constant time.
pub fn chunk_count<const N: usize>(len: u64) -> usize
    requires width { IsWidth N }
    ensures { result ≡ div_ceil len (8 * N) }
{
    len.div_ceil(chunk_width::<N>()) as usize
}

/// Returns the index of the byte of a chunk that contains bit `bit mod 8N`.
///
/// `N` is at least 1. Does not allocate; constant time.
pub fn byte_index<const N: usize>(bit: u64) -> usize
    requires { 0 < N }
    ensures value { result ≡ bit / 8 % N }
    ensures within { result < N }
{
    ((bit / 8) % (N as u64)) as usize
}

/// Returns the mask of bit `bit` in its byte: 2 to the power `bit mod 8`.
///
/// Does not allocate; constant time.
pub fn bit_mask(bit: u64) -> u8
    ensures value { result ≡ 2 ^ (bit % 8) }
    ensures fits { result < 256 }
{
    1 << (bit % 8)
}

// The mask of the bits below bit `bit` in its byte.
fn low_mask(bit: u64) -> u8
    ensures { result ≡ 2 ^ (bit % 8) - 1 }
{
    (1 << (bit % 8)) - 1
}

/// Returns bit `bit mod 8N` of a chunk.
///
/// `N` is at least 1. Does not allocate; constant time.
pub fn get_bit<const N: usize>(chunk: &[u8; N], bit: u64) -> bool
    requires { 0 < N }
    ensures { result ≡ chunk_bit N chunk.now bit }
{
    (chunk[byte_index::<N>(bit)] & bit_mask(bit)) != 0
}

/// Sets bit `bit mod 8N` of a chunk to `value`. The other bits do not change.
///
/// `N` is at least 1, and `8N` fits `u64`. Does not allocate; constant time.
pub fn set_bit<const N: usize>(chunk: &mut [u8; N], bit: u64, value: bool)
    requires width { IsWidth N }
    ensures { IsBitWritten N chunk.old chunk.new bit value }
{
    let byte = byte_index::<N>(bit);
    let mask = bit_mask(bit);
    if value {
        chunk[byte] |= mask;
    } else {
        chunk[byte] &= !mask;
    }
}

/// Replaces the byte of a chunk that contains bit `bit mod 8N`. The other bytes do not change.
///
/// `N` is at least 1. Does not allocate; constant time.
pub fn set_byte<const N: usize>(chunk: &mut [u8; N], bit: u64, byte: u8)
    requires { 0 < N }
    ensures { IsByteWritten N chunk.old chunk.new bit byte }
{
    chunk[byte_index::<N>(bit)] = byte;
}

/// Inverts bit `bit mod 8N` of a chunk. The other bits do not change.
///
/// `N` is at least 1, and `8N` fits `u64`. Does not allocate; constant time.
pub fn flip_bit<const N: usize>(chunk: &mut [u8; N], bit: u64)
    requires width { IsWidth N }
    ensures { IsBitWritten N chunk.old chunk.new bit (not (chunk_bit N chunk.old bit)) }
{
    chunk[byte_index::<N>(bit)] ^= bit_mask(bit);
}

/// Clears the bits of a chunk at and above bit `from`.
///
/// `from` is below `8N`. `N` is at least 1, and `8N` fits `u64`.
///
/// # Memory
///
/// Does not allocate.
///
/// # Complexity
///
/// Linear in the bytes of the chunk from the one that contains bit `from` on.
pub fn clear_from<const N: usize>(chunk: &mut [u8; N], from: u64)
    requires width { IsWidth N }
    requires within { from < 8 * N }
    ensures below { (i : ℕ) → i % (8 * N) < from
        → chunk_bit N chunk.new i ≡ chunk_bit N chunk.old i }
    ensures above { (i : ℕ) → from ≤ i % (8 * N) → chunk_bit N chunk.new i ≡ false }
{
    let byte = (from / 8) as usize;
    chunk[byte] &= low_mask(from);
    for j in byte + 1..N {
        chunk[j] = 0;
    }
}

/// Returns whether a bit of a chunk at or above bit `from` is set.
///
/// `8N` fits `u64`. If `from` is `8N` or more, there is no such bit, and the result is false.
///
/// # Memory
///
/// Does not allocate.
///
/// # Complexity
///
/// At most linear in the bytes of the chunk from the one that contains bit `from` on.
pub fn is_set_from<const N: usize>(chunk: &[u8; N], from: u64) -> bool
    requires { 8 * N < 2 ^ 64 }
    ensures { result ≡ list_any (chunk_bit N chunk.now) (range_with_len from (8 * N - from)) }
{
    // Not `chunk_width`: the goal of the proof would name its result and not `8N`.
    !words::is_unset(chunk, from, 8 * (N as u64))
}

// The byte of at most eight booleans, the first one as its lowest bit, with zeros above them.
fn byte_of(bools: &[bool]) -> u8
    requires { length bools.now ≤ 8 }
    ensures { (t : ℕ) → (bit_at result t == 1) ≡ slice_index_or bools.now t false }
{
    let mut byte = 0u8;
    for (t, bit) in bools.iter().enumerate() {
        byte |= u8::from(*bit) << t;
    }
    byte
}

/// Returns the chunk whose bits are the first `8N` booleans, with zeros if there are fewer.
///
/// `N` is at least 1, and `8N` fits `u64`.
///
/// # Memory
///
/// Does not allocate.
///
/// # Complexity
///
/// Linear in the bits of a chunk.
pub fn from_bools<const N: usize>(bools: &[bool]) -> [u8; N]
    requires width { IsWidth N }
    ensures { (i : ℕ) → i < 8 * N → chunk_bit N result i ≡ slice_index_or bools.now i false }
{
    let mut chunk = [0; N];
    for j in 0..N {
        let from = (8 * j).min(bools.len());
        let to = (8 * j + 8).min(bools.len());
        chunk[j] = byte_of(&bools[from..to]);
    }
    chunk
}

/// Appends the first `count` bits of a chunk to a vector of booleans that has capacity for them.
///
/// `count` is at most `8N`. `N` is at least 1, and `8N` fits `u64`. The capacity of the vector does not change.
///
/// # Memory
///
/// Does not allocate.
///
/// # Complexity
///
/// Linear in `count`.
pub fn append_bools<const N: usize>(chunk: &[u8; N], count: u64, bools: &mut Vec<bool>)
    requires width { IsWidth N }
    requires within { count ≤ 8 * N }
    requires space { vec_len bools.old + count ≤ vec_capacity bools.old }
    ensures items { bools.new.items
        ≡ bools.old.items ++ map (chunk_bit N chunk.now) (range_with_len 0 count) }
    ensures len { vec_len bools.new ≡ vec_len bools.old + count }
    ensures capacity { vec_capacity bools.new ≡ vec_capacity bools.old }
{
    for i in 0..count {
        bools.push_reserved(chunk[(i / 8) as usize] & bit_mask(i) != 0);
    }
}
