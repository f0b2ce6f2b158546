//! Bitmaps with a pruned prefix: the pruned bits are dropped, and the others keep their positions.
//!
//! ```
//! use bitmap_core::bitmap::Prunable;
//! use std::alloc::{AllocError, Global};
//!
//! /// Returns a log whose first chunk is pruned. Its length is still 34, and its first retained position is 32.
//! pub fn recent(alloc: Global) -> Result<Prunable<4>, AllocError> {
//!     let mut log = Prunable::<4>::new(alloc);
//!     log.push_chunk(&[1, 2, 3, 4])?;
//!     log.push(true)?;
//!     log.push(true)?;
//!     log.prune_to_bit(33);
//!     log.set_bit(32, false);
//!     Ok(log)
//! }
//! ```

ghost use Rattle.std.specs.Prelude.{◌≡◌, ℕ, ◌+◌, ◌-◌, ◌*◌, ◌/◌, ◌%◌, ◌^◌, ◌<◌, ◌≤◌, ◌↔◌, ℕ, [], false, not, length, slice_index_or, IfOk, OnOk, OnErr, IsOk, ◌==◌};
ghost use Rattle.std.specs.Int.{div_ceil};
ghost use Rattle.std.specs.List.{count_by, list_all, range_with_len};
ghost use Rattle.bitmap_bytes.specs.Chunk.{byte_bits, chunk_bit, chunk_bits, IsWidth};
ghost use Rattle.bitmap_core.specs.Meaning.{pruned_meaning, ShowsChunk};
ghost use Rattle.bitmap_core.specs.PrunedBits.{appended, bit_at, bit_len, chunk, extended, IsRetainedChunk, IsRetained, last_bit, popped, pruned_bits, pruned_to, pushed, set_at, set_range, truncated, unpruned, with_chunk};

mod error;

use crate::bitmap::BitMap;
pub use crate::bitmap::prunable::error::Error;
use crate::chunk;
use crate::chunk::{chunk_count, chunk_index, chunk_width};
use std::alloc::{AllocError, Global};
use std::marker::Model;
use std::ops::Range;

/// A bitmap whose prefix may be pruned, in whole chunks of `N` bytes.
///
/// Positions and indices of chunks are absolute: they count from the first bit that the bitmap ever had, pruned bits included.
/// A position is retained if it is not pruned and below the length. A chunk is retained if one of its positions is.
///
/// The length counts the pruned bits, and is at most `u64::MAX`. Only retained chunks are stored.
/// The type also implements the trait `Readable`. Where both have a call of the same name, the call here is used.
/// It borrows a chunk, and the call of the trait copies it.
///
/// The head of the module has an example.
#[derive(Debug, Drop)]
pub struct Prunable<const N: usize> {
    bitmap: BitMap<N>,
    pruned_chunks: usize,
}

impl<const N: usize> Model for Prunable<N> {
    ghost use Rattle.bitmap_core.specs.PrunedBits.{PrunedBits, IsCounted};

    ghost Value = { PrunedBits };

    ghost view = { λ b. record { pruned = b.pruned_chunks; bits = b.bitmap } };

    ghost invariant = { λ b. IsCounted N (record { pruned = b.pruned_chunks; bits = b.bitmap }) };
}

impl<const N: usize> Prunable<N> {
    /// The width of a chunk in bits, `8N`. The value is meaningful only if `8N` fits `u64`, as it does for every bitmap.
    pub const CHUNK_SIZE_BITS: u64 = (N as u64).wrapping_mul(8);

    /// Returns an empty bitmap in which nothing is pruned.
    ///
    /// `N` is at least 1, and `8N` fits `u64`. Does not allocate; constant time.
    pub fn new(alloc: Global) -> Self
        requires width { IsWidth N }
        ensures { result ≡ record { pruned = 0; bits = [] } }
    {
        Prunable {
            bitmap: BitMap::new(alloc),
            pruned_chunks: 0,
        }
    }

    /// Returns an empty bitmap in which nothing is pruned, as `new` does.
    ///
    /// `N` is at least 1, and `8N` fits `u64`. Does not allocate; constant time.
    pub fn default(alloc: Global) -> Self
        requires width { IsWidth N }
        ensures { result ≡ record { pruned = 0; bits = [] } }
    {
        Prunable::new(alloc)
    }

    /// Returns a bitmap of `pruned_chunks` pruned chunks, without a retained bit. Its length is `8N` times `pruned_chunks`.
    ///
    /// `N` is at least 1, and `8N` fits `u64`. Does not allocate; constant time.
    ///
    /// # Errors
    ///
    /// Returns `PrunedChunksOverflow` if and only if the length does not fit `u64`.
    pub fn new_with_pruned_chunks(alloc: Global, pruned_chunks: usize) -> Result<Self, Error>
        requires width { IsWidth N }
        ensures ok { IfOk result (λ b. b ≡ record { pruned = pruned_chunks; bits = [] }) }
        ensures exact { IsOk result ↔ (8 * N * pruned_chunks < 2 ^ 64) }
    {
        let pruned_bits = chunk_width::<N>().checked_mul(pruned_chunks as u64);
        if pruned_bits.is_none() {
            return Err(Error::PrunedChunksOverflow);
        }
        Ok(Prunable {
            bitmap: BitMap::new(alloc),
            pruned_chunks,
        })
    }

    // The bitmap of a number of pruned chunks and the bits after them.
    pub(crate) fn from_parts(bitmap: BitMap<N>, pruned_chunks: usize) -> Self
        requires width { IsWidth N }
        requires total { 8 * N * pruned_chunks + length bitmap < 2 ^ 64 }
        ensures { result ≡ record { pruned = pruned_chunks; bits = bitmap.entry } }
    {
        Prunable {
            bitmap,
            pruned_chunks,
        }
    }

    // The bits after the pruned ones.
    pub(crate) fn retained(&self) -> &BitMap<N>
        ensures value { result.now ≡ self.now.bits }
        ensures width { IsWidth N }
        ensures bound { bit_len N self.now < 2 ^ 64 }
    {
        &self.bitmap
    }

    /// Returns the number of bits, pruned bits included.
    ///
    /// Does not allocate; constant time.
    pub fn len(&self) -> u64
        ensures value { result ≡ bit_len N self.now }
        ensures width { IsWidth N }
        ensures bound { bit_len N self.now < 2 ^ 64 }
    {
        self.pruned_bits() + self.bitmap.len()
    }

    /// Returns whether the length is 0. A bitmap with pruned bits is not empty.
    ///
    /// Does not allocate; constant time.
    pub fn is_empty(&self) -> bool
        ensures { result ≡ (bit_len N self.now == 0) }
    {
        self.len() == 0
    }

    /// Returns whether the length is a multiple of `8N`. A length of 0 is.
    ///
    /// Does not allocate; constant time.
    pub fn is_chunk_aligned(&self) -> bool
        ensures { result ≡ (bit_len N self.now % (8 * N) == 0) }
    {
        self.len() % chunk_width::<N>() == 0
    }

    /// Returns the number of pruned chunks.
    ///
    /// Does not allocate; constant time.
    pub fn pruned_chunks(&self) -> usize
        ensures { result ≡ self.now.pruned }
    {
        self.pruned_chunks
    }

    /// Returns the number of pruned bits, which is the first position that is not pruned.
    ///
    /// Does not allocate; constant time.
    pub fn pruned_bits(&self) -> u64
        ensures { result ≡ pruned_bits N self.now }
    {
        let pruned = self.pruned_chunks as u64;
        chunk_width::<N>() * pruned
    }

    /// Returns the number of chunks, including pruned chunks and a partly used last chunk.
    ///
    /// Does not allocate; constant time.
    pub fn chunks_len(&self) -> usize
        ensures value { result ≡ div_ceil (bit_len N self.now) (8 * N) }
        ensures holds { (i : ℕ) → (i < result) ↔ (8 * N * i < bit_len N self.now) }
    {
        chunk_count::<N>(self.len())
    }

    /// Returns the number of full chunks, including pruned chunks. A partly used last chunk does not count.
    ///
    /// Does not allocate; constant time.
    pub fn complete_chunks(&self) -> usize
        ensures { result ≡ bit_len N self.now / (8 * N) }
    {
        chunk_index::<N>(self.len())
    }

    /// Returns the bit at position `bit`, which is absolute and retained.
    ///
    /// Does not allocate; constant time.
    pub fn get_bit(&self, bit: u64) -> bool
        requires { IsRetained N self.now bit }
        ensures { result ≡ bit_at N self.now bit }
    {
        self.bitmap.read_bit(bit - self.pruned_bits())
    }

    /// Returns the number of retained bits that are true. Pruned bits do not count.
    ///
    /// # Memory
    ///
    /// Does not allocate.
    ///
    /// # Complexity
    ///
    /// Linear in the words (64 bits) of the retained chunks.
    pub fn count_ones(&self) -> u64
        ensures { result ≡ count_by (λ b. b) self.now.bits }
    {
        self.bitmap.count_ones()
    }

    /// Returns the number of retained bits that are false. Pruned bits do not count.
    ///
    /// # Memory
    ///
    /// Does not allocate.
    ///
    /// # Complexity
    ///
    /// Linear in the words (64 bits) of the retained chunks.
    pub fn count_zeros(&self) -> u64
        ensures { result ≡ count_by not self.now.bits }
    {
        self.bitmap.count_zeros()
    }

    /// Returns whether no bit at a position in `range` is set.
    ///
    /// Positions are absolute. The range starts at `pruned_bits` or later. Its end is excluded, and at most the length.
    /// If the range is empty or ends before it starts, the result is true.
    ///
    /// # Memory
    ///
    /// Does not allocate.
    ///
    /// # Complexity
    ///
    /// At most linear in the words (64 bits) of the range.
    pub fn is_unset(&self, range: Range<u64>) -> bool
        requires from { pruned_bits N self.now ≤ range.start }
        requires to { range.end ≤ bit_len N self.now }
        ensures { result ≡ list_all (λ k. not (bit_at N self.now k))
            (range_with_len range.start (range.end - range.start)) }
    {
        let pruned = self.pruned_bits();
        self.bitmap
            .is_unset(range.start - pruned..range.end.saturating_sub(pruned))
    }

    /// Returns the chunk that contains position `bit`, which is absolute and retained. Its bits past the length are zero.
    ///
    /// Does not allocate; constant time.
    pub fn get_chunk_containing(&self, bit: u64) -> &[u8; N]
        requires { IsRetained N self.now bit }
        ensures { result.now ≡ chunk N self.now (bit / (8 * N)) }
    {
        let _ = self.len();
        self.get_chunk(Self::to_chunk_index(bit))
    }

    /// Returns the chunk at an absolute index, which is at least `pruned_chunks` and below `chunks_len`. Its bits past the length are zero.
    ///
    /// Does not allocate; constant time.
    pub fn get_chunk(&self, index: usize) -> &[u8; N]
        requires { IsRetainedChunk N self.now index }
        ensures { result.now ≡ chunk N self.now index }
    {
        self.bitmap.chunk_at(index - self.pruned_chunks)
    }

    // The slice of chunks that holds the chunk at an absolute index, and the absolute index of its first chunk.
    pub(crate) fn slice_around(&self, index: usize) -> (&[[u8; N]], usize)
        requires { IsRetainedChunk N self.now index }
        ensures included { (result.1 ≤ index) × (index < result.1 + length result.0.now) }
        ensures retained { (i : ℕ) → i < length result.0.now
            → IsRetainedChunk N self.now (result.1 + i) }
        ensures shown { (i : ℕ) → i < length result.0.now
            → ShowsChunk N (pruned_meaning N self.now) (result.1 + i)
            (slice_index_or result.0.now i []) }
    {
        let (chunks, first) = self.bitmap.slice_around(index - self.pruned_chunks);
        (chunks, self.pruned_chunks + first)
    }

    /// Returns the last chunk, and the number of its bits that are in use: `8N` if it is full. Its bits past the length are zero.
    ///
    /// At least one bit is retained. Does not allocate; constant time.
    pub fn last_chunk(&self) -> (&[u8; N], u64)
        requires { 0 < length self.now.bits }
        ensures chunk { result.0.now ≡ chunk N self.now ((bit_len N self.now - 1) / (8 * N)) }
        ensures used { result.1 ≡ (bit_len N self.now - 1) % (8 * N) + 1 }
    {
        let last = self.len() - 1;
        let used = last % chunk_width::<N>() + 1;
        (self.get_chunk_containing(last), used)
    }

    /// Sets the bit at position `bit` to `value`. The position is absolute and retained.
    ///
    /// Does not allocate; constant time.
    pub fn set_bit(&mut self, bit: u64, value: bool)
        requires { IsRetained N self.old bit }
        ensures { self.new ≡ set_at N self.old bit value }
    {
        let pruned = self.pruned_bits();
        self.bitmap.write_bit(bit - pruned, value);
    }

    /// Sets the bit at each position in `range` to `value`.
    ///
    /// Positions are absolute. The range starts at `pruned_bits` or later. Its end is excluded, and at most the length.
    /// The other bits do not change. If the range is empty or ends before it starts, nothing changes.
    ///
    /// # Memory
    ///
    /// Does not allocate.
    ///
    /// # Complexity
    ///
    /// Linear in the bytes of the range. Whole chunks are written at once.
    pub fn set_range(&mut self, range: Range<u64>, value: bool)
        requires from { pruned_bits N self.old ≤ range.start }
        requires to { range.end ≤ bit_len N self.old }
        ensures { self.new ≡ set_range N self.old range.start range.end value }
    {
        let pruned = self.pruned_bits();
        self.bitmap.set_range(
            range.start - pruned..range.end.saturating_sub(pruned),
            value,
        );
    }

    /// Removes the last bit, and returns it. At least one bit is retained.
    ///
    /// Does not allocate; constant time.
    pub fn pop(&mut self) -> bool
        requires { 0 < length self.old.bits }
        ensures value { result ≡ last_bit self.old }
        ensures rest { self.new ≡ popped self.old }
    {
        self.bitmap.pop()
    }

    /// Shortens the bitmap to a length of `n` bits, pruned bits included. `n` is at least `pruned_bits` and at most the length.
    ///
    /// # Memory
    ///
    /// Does not allocate.
    ///
    /// # Complexity
    ///
    /// At most linear in the chunks that are removed.
    pub fn truncate(&mut self, n: u64)
        requires from { pruned_bits N self.old ≤ n }
        requires to { n ≤ bit_len N self.old }
        ensures { self.new ≡ truncated N self.old n }
    {
        let pruned = self.pruned_bits();
        self.bitmap.truncate(n - pruned);
    }

    /// Removes the last chunk, and returns it. The length is a multiple of `8N`, and at least one bit is retained.
    ///
    /// Does not allocate; constant time: one chunk is copied.
    pub fn pop_chunk(&mut self) -> [u8; N]
        requires aligned { bit_len N self.old % (8 * N) ≡ 0 }
        requires filled { 0 < length self.old.bits }
        ensures value { result ≡ chunk N self.old (bit_len N self.old / (8 * N) - 1) }
        ensures rest { self.new ≡ truncated N self.old (bit_len N self.old - 8 * N) }
    {
        self.bitmap.remove_last_chunk()
    }

    /// Prunes every chunk before the one that contains position `bit`, which is chunk `bit / 8N`. `bit` is at most the length.
    ///
    /// The length and the position of each bit do not change. If these chunks are pruned already, nothing changes.
    ///
    /// # Memory
    ///
    /// Does not allocate.
    ///
    /// # Complexity
    ///
    /// Linear in the chunks that are dropped. The retained chunks are not moved in memory.
    pub fn prune_to_bit(&mut self, bit: u64)
        requires { bit ≤ bit_len N self.old }
        ensures { self.new ≡ pruned_to N self.old (bit / (8 * N)) }
    {
        let pruned = self.pruned_chunks;
        let index = Self::to_chunk_index(bit);
        if pruned < index {
            self.bitmap.drop_front_chunks(index - pruned);
            self.pruned_chunks = index;
        }
    }

    /// Replaces the bits of the chunk at an absolute index, which is at least `pruned_chunks` and below `chunks_len`.
    ///
    /// The length does not change. The bits of `chunk` past the length are zero. Does not allocate; constant time: one chunk is copied.
    pub fn set_chunk_by_index(&mut self, index: usize, chunk: &[u8; N])
        requires retained { IsRetainedChunk N self.old index }
        requires zero { (k : ℕ) → bit_len N self.old ≤ k → k / (8 * N) ≡ index
            → chunk_bit N chunk.now k ≡ false }
        ensures { self.new ≡ with_chunk N self.old index chunk.now }
    {
        let pruned = self.pruned_chunks;
        self.bitmap.replace_chunk(index - pruned, chunk);
    }

    /// Appends a bit. The length is below `u64::MAX`.
    ///
    /// # Errors
    ///
    /// Returns `AllocError` if an allocation fails; the bitmap is unchanged. If the length is not a multiple of `8N`, it succeeds.
    ///
    /// # Memory
    ///
    /// Allocates only if the length is a multiple of `8N` and there is no capacity for another chunk.
    ///
    /// # Complexity
    ///
    /// Amortized constant.
    #[inline]
    pub fn push(&mut self, bit: bool) -> Result<(), AllocError>
        requires { bit_len N self.old + 1 < 2 ^ 64 }
        ensures ok { OnOk result (self.new ≡ pushed self.old bit) }
        ensures err { OnErr result (self.new ≡ self.old) }
        ensures partial { ¬ (bit_len N self.old % (8 * N) ≡ 0) → IsOk result }
    {
        self.bitmap.append_bit(bit)
    }

    /// Appends the eight bits of a byte, the lowest first. The length is a multiple of 8, and the new length fits `u64`.
    ///
    /// # Errors
    ///
    /// Returns `AllocError` if an allocation fails; the bitmap is unchanged. If the length is not a multiple of `8N`, it succeeds.
    ///
    /// # Memory
    ///
    /// Allocates only if the length is a multiple of `8N` and there is no capacity for another chunk.
    ///
    /// # Complexity
    ///
    /// Amortized constant.
    pub fn push_byte(&mut self, byte: u8) -> Result<(), AllocError>
        requires aligned { bit_len N self.old % 8 ≡ 0 }
        requires space { bit_len N self.old + 8 < 2 ^ 64 }
        ensures ok { OnOk result (self.new ≡ appended self.old (byte_bits byte)) }
        ensures err { OnErr result (self.new ≡ self.old) }
        ensures partial { ¬ (bit_len N self.old % (8 * N) ≡ 0) → IsOk result }
    {
        self.bitmap.append_byte(byte)
    }

    /// Appends the `8N` bits of a chunk. The length is a multiple of `8N`, and the new length fits `u64`.
    ///
    /// # Errors
    ///
    /// Returns `AllocError` if an allocation fails; the bitmap is unchanged.
    ///
    /// # Memory
    ///
    /// Allocates only if there is no capacity for another chunk.
    ///
    /// # Complexity
    ///
    /// Amortized constant: one chunk is copied.
    pub fn push_chunk(&mut self, chunk: &[u8; N]) -> Result<(), AllocError>
        requires aligned { bit_len N self.old % (8 * N) ≡ 0 }
        requires space { bit_len N self.old + 8 * N < 2 ^ 64 }
        ensures ok { OnOk result (self.new ≡ appended self.old (chunk_bits N chunk.now)) }
        ensures err { OnErr result (self.new ≡ self.old) }
    {
        self.bitmap.push_chunk(chunk)
    }

    /// Appends false bits up to a length of `n` bits, pruned bits included. If the bitmap has that length or more, it is unchanged.
    ///
    /// # Errors
    ///
    /// Returns `AllocError` if the allocation fails; the bitmap is unchanged. If no chunk is missing, it succeeds.
    ///
    /// # Memory
    ///
    /// Allocates at most once, and only if there is no capacity for the missing chunks.
    ///
    /// # Complexity
    ///
    /// Amortized linear in the chunks that are appended.
    pub fn extend_to(&mut self, n: u64) -> Result<(), AllocError>
        ensures ok { OnOk result (self.new ≡ extended N self.old n) }
        ensures err { OnErr result (self.new ≡ self.old) }
        ensures has_capacity { n ≤ 8 * N * div_ceil (bit_len N self.old) (8 * N) → IsOk result }
    {
        let pruned = self.pruned_bits();
        self.bitmap.extend_to(n.saturating_sub(pruned))
    }

    /// Appends the bits of a dense bitmap, in order. Its chunks may have another width. The sum of the lengths fits `u64`.
    ///
    /// # Errors
    ///
    /// Returns `AllocError` if the allocation fails; the bitmap is unchanged. If no chunk is missing, it succeeds.
    ///
    /// # Memory
    ///
    /// Allocates at most once, and only if there is no capacity for the missing chunks.
    ///
    /// # Complexity
    ///
    /// Amortized linear in the bytes of the appended chunks. Most of them are written in words of 64 bits if `N` is 8 or more.
    pub fn extend_from_bitmap<const M: usize>(
        &mut self,
        other: &BitMap<M>,
    ) -> Result<(), AllocError>
        requires space { bit_len N self.old + length other.now < 2 ^ 64 }
        ensures ok { OnOk result (self.new ≡ appended self.old other.now) }
        ensures err { OnErr result (self.new ≡ self.old) }
        ensures has_capacity { bit_len N self.old + length other.now
            ≤ 8 * N * div_ceil (bit_len N self.old) (8 * N) → IsOk result }
    {
        self.bitmap.extend_from_bitmap(other)
    }

    /// Restores pruned chunks: inserts `chunks`, in order, directly before the retained bits.
    ///
    /// There are at most as many chunks as are pruned. The length and the position of each bit do not change.
    ///
    /// # Errors
    ///
    /// Returns `AllocError` if the allocation fails; the bitmap is unchanged. If `chunks` is empty, it succeeds.
    ///
    /// # Memory
    ///
    /// Allocates at most once, and only if there is no capacity for `chunks`.
    ///
    /// # Complexity
    ///
    /// Linear in `chunks`. If it allocates, it may also move the retained chunks.
    pub fn unprune(&mut self, chunks: &[[u8; N]]) -> Result<(), AllocError>
        requires { length chunks.now ≤ self.old.pruned }
        ensures ok { OnOk result (self.new ≡ unpruned N self.old chunks.now) }
        ensures err { OnErr result (self.new ≡ self.old) }
        ensures none { length chunks.now ≡ 0 → IsOk result }
    {
        let pruned = self.pruned_chunks;
        self.bitmap.put_front_chunks(chunks)?;
        self.pruned_chunks = pruned - chunks.len();
        Ok(())
    }

    /// Returns the mask of the bit at position `bit` in its byte: 2 to the power `bit mod 8`.
    ///
    /// Does not allocate; constant time.
    pub fn chunk_byte_bitmask(bit: u64) -> u8
        ensures { result ≡ 2 ^ (bit % 8) }
    {
        chunk::bit_mask(bit)
    }

    /// Returns the index, in its chunk, of the byte that contains the bit at position `bit`: `(bit / 8) mod N`.
    ///
    /// `N` is at least 1. Does not allocate; constant time.
    pub fn chunk_byte_offset(bit: u64) -> usize
        requires { 0 < N }
        ensures { result ≡ bit / 8 % N }
    {
        chunk::byte_index::<N>(bit)
    }

    /// Returns the absolute index of the chunk that contains the bit at position `bit`: `bit / 8N`.
    ///
    /// `N` is at least 1, and `8N` fits `u64`. Does not allocate; constant time.
    pub fn to_chunk_index(bit: u64) -> usize
        requires width { IsWidth N }
        ensures { result ≡ bit / (8 * N) }
    {
        chunk_index::<N>(bit)
    }

    /// Returns bit `bit mod 8N` of a chunk. If the chunk is that of position `bit`, this is the bit at that position.
    ///
    /// `N` is at least 1. Does not allocate; constant time.
    pub fn get_bit_from_chunk(chunk: &[u8; N], bit: u64) -> bool
        requires { 0 < N }
        ensures { result ≡ chunk_bit N chunk.now bit }
    {
        chunk::get_bit(chunk, bit)
    }
}

impl<const N: usize> Clone for Prunable<N> {
    ghost is_clone = { λ a b. b ≡ a };

    /// Returns an equal bitmap.
    ///
    /// # Errors
    ///
    /// Returns `AllocError` if the allocation fails.
    ///
    /// # Memory
    ///
    /// Allocates space for the retained chunks, from the allocator of the bitmap.
    ///
    /// # Complexity
    ///
    /// Linear in the retained chunks.
    fn clone(&self) -> Result<Self, AllocError> {
        Ok(Prunable {
            bitmap: self.bitmap.clone()?,
            pruned_chunks: self.pruned_chunks,
        })
    }
}
