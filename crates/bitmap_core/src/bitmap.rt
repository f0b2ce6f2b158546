//! Dense bitmaps: every bit from position 0 to the length is stored.
//!
//! The submodule `prunable` has bitmaps with a pruned prefix, `readable` has the trait of all bitmaps, and `codec` has their byte encodings.
//!
//! ```
//! use bitmap_core::bitmap::{BitMap, DEFAULT_CHUNK_SIZE};
//! use std::alloc::{AllocError, Global};
//!
//! /// Returns the slots that are taken: 3, 64 and 100.
//! pub fn taken_slots(alloc: Global) -> Result<Vec<u64>, AllocError> {
//!     let mut taken = BitMap::<DEFAULT_CHUNK_SIZE>::zeroes(alloc, 100)?;
//!     taken.set(3, true);
//!     taken.set(64, true);
//!     taken.push(true)?;
//!     taken.ones_iter().collect(alloc)
//! }
//! ```

ghost use Rattle.std.specs.Prelude.{◌≡◌, ℕ, Bool, List, ◌+◌, ◌-◌, ◌*◌, ◌/◌, ◌%◌, ◌^◌, ◌<◌, ◌≤◌, [], ◌∷◌, ◌++◌, length, false, slice_index_or, slice_set, replicate, take, true, not, IfOk, OnOk, OnErr, IsOk, ◌==◌, map, ◌&&◌, ◌||◌};
ghost use Rattle.std.specs.Bool.{Decides};
ghost use Rattle.std.specs.List.{count_by, filter, list_all, range_with_len, slice_range, zip};
ghost use Rattle.std.proofs.Math.Bool.{xor};
ghost use Rattle.std.specs.Iterator.Runs.{YieldsInOrder};
ghost use Rattle.bitmap_core.specs.Meaning.{words_between, IsScanStep};
ghost use Rattle.bitmap_core.specs.Encoding.{encoding};
ghost use Rattle.bitmap_core.specs.Ranges.{set_between};
ghost use Rattle.std.specs.Int.{div_ceil};
ghost use Rattle.bitmap_bytes.specs.Chunk.{chunk_bit, chunk_bits, IsWidth};

pub mod codec;
mod debug;
mod deque;
mod iter;
mod ops;
pub mod prunable;
pub mod readable;
mod whole_chunks;

pub use crate::bitmap::iter::Iterator;
pub use crate::bitmap::prunable::Prunable;
pub use crate::bitmap::readable::{OnesIter, Readable};
use crate::chunk;
use crate::chunk::whole::{And, AndNot, Bitwise, Or, Xor};
use crate::chunk::{chunk_count, chunk_width};
use std::alloc::{AllocError, Global};
use std::collections::VecDeque;
use std::marker::Model;
use std::ops::Range;

/// A chunk size in bytes that suits most uses. It is not a default: the type of a bitmap always names its chunk size.
pub const DEFAULT_CHUNK_SIZE: usize = 8;

/// A list of bits that is packed into chunks of `N` bytes. Positions and lengths count bits.
///
/// The length is at most `u64::MAX`. The number of chunks is the length divided by `8N`, rounded up.
/// Bit `i` is bit `i mod 8` of byte `(i / 8) mod N` of chunk `i / 8N`, counted from the least significant bit.
/// The bits of the last chunk past the length are zero.
/// The trait `Readable` has the calls that read whole chunks and search for positions.
///
/// The head of the module has an example.
#[derive(Drop)]
pub struct BitMap<const N: usize> {
    chunks: VecDeque<[u8; N]>,
    len: u64,
}

impl<const N: usize> Model for BitMap<N> {
    ghost use Rattle.std.specs.Prelude.{List, Bool};
    ghost use Rattle.bitmap_bytes.specs.Bits.{bits, IsPacked};

    ghost Value = { List Bool };

    ghost view = { λ b. bits N b.chunks.items b.len };

    ghost invariant = { λ b. IsPacked N b.chunks.items b.len };
}

impl<const N: usize> BitMap<N> {
    /// The width of a chunk in bits, `8N`. The value is meaningful only if `8N` fits `u64`, as it does for every bitmap.
    pub const CHUNK_SIZE_BITS: u64 = (N as u64).wrapping_mul(8);

    /// A chunk whose bits are all false: `N` bytes of 0.
    pub const EMPTY_CHUNK: [u8; N] = [0; N];

    /// A chunk whose bits are all true: `N` bytes of 255.
    pub const FULL_CHUNK: [u8; N] = [u8::MAX; N];

    /// Returns an empty bitmap.
    ///
    /// `N` is at least 1, and `8N` fits `u64`. Does not allocate; constant time.
    pub fn new(alloc: Global) -> Self
        requires width { IsWidth N }
        ensures { result ≡ [] }
    {
        BitMap {
            chunks: VecDeque::new(alloc),
            len: 0,
        }
    }

    /// Returns an empty bitmap, as `new` does.
    ///
    /// `N` is at least 1, and `8N` fits `u64`. Does not allocate; constant time.
    pub fn default(alloc: Global) -> Self
        requires width { IsWidth N }
        ensures { result ≡ [] }
    {
        Self::new(alloc)
    }

    /// Returns an empty bitmap with capacity for the chunks of `size` bits.
    ///
    /// `N` is at least 1, and `8N` fits `u64`.
    /// Tests show that pushes up to `size` bits then do not allocate. No contract states it.
    ///
    /// # Errors
    ///
    /// Returns `AllocError` if the allocation fails. If `size` is 0, it succeeds.
    ///
    /// # Memory
    ///
    /// Allocates at most once, space for the chunks of `size` bits.
    ///
    /// # Complexity
    ///
    /// Constant.
    pub fn with_capacity(alloc: Global, size: u64) -> Result<Self, AllocError>
        requires width { IsWidth N }
        ensures ok { IfOk result (λ b. b ≡ []) }
        ensures none { size ≡ 0 → IsOk result }
    {
        let chunks = VecDeque::with_capacity(alloc, chunk_count::<N>(size))?;
        Ok(BitMap { chunks, len: 0 })
    }

    /// Returns a bitmap of `size` bits that are all false.
    ///
    /// `N` is at least 1, and `8N` fits `u64`.
    ///
    /// # Errors
    ///
    /// Returns `AllocError` if the allocation fails. If `size` is 0, it succeeds.
    ///
    /// # Memory
    ///
    /// Allocates at most once, space for the chunks of `size` bits.
    ///
    /// # Complexity
    ///
    /// Linear in the chunks of `size` bits.
    pub fn zeroes(alloc: Global, size: u64) -> Result<Self, AllocError>
        requires width { IsWidth N }
        ensures ok { IfOk result (λ b. b ≡ replicate size false) }
        ensures none { size ≡ 0 → IsOk result }
    {
        let mut map = BitMap::new(alloc);
        map.extend_to(size)?;
        Ok(map)
    }

    /// Returns a bitmap of `size` bits that are all true.
    ///
    /// `N` is at least 1, and `8N` fits `u64`.
    ///
    /// # Errors
    ///
    /// Returns `AllocError` if the allocation fails. If `size` is 0, it succeeds.
    ///
    /// # Memory
    ///
    /// Allocates at most once, space for the chunks of `size` bits.
    ///
    /// # Complexity
    ///
    /// Linear in the chunks of `size` bits.
    pub fn ones(alloc: Global, size: u64) -> Result<Self, AllocError>
        requires width { IsWidth N }
        ensures ok { IfOk result (λ b. b ≡ replicate size true) }
        ensures none { size ≡ 0 → IsOk result }
    {
        let mut chunks = VecDeque::new(alloc);
        deque::append_copies(&mut chunks, chunk_count::<N>(size), [u8::MAX; N])?;
        deque::clear_tail(&mut chunks, size);
        Ok(BitMap { chunks, len: size })
    }

    /// Returns a bitmap of the given bits, in order.
    ///
    /// `N` is at least 1, and `8N` fits `u64`.
    ///
    /// # Errors
    ///
    /// Returns `AllocError` if the allocation fails. If `bools` is empty, it succeeds.
    ///
    /// # Memory
    ///
    /// Allocates at most once, space for the chunks of the bits.
    ///
    /// # Complexity
    ///
    /// Linear in the bits.
    pub fn from_bools(alloc: Global, bools: &[bool]) -> Result<Self, AllocError>
        requires width { IsWidth N }
        ensures ok { IfOk result (λ b. b ≡ bools.now) }
        ensures none { length bools.now ≡ 0 → IsOk result }
    {
        Ok(BitMap {
            chunks: deque::from_bools(alloc, bools)?,
            len: bools.len() as u64,
        })
    }

    /// Returns the number of bits.
    ///
    /// Does not allocate; constant time.
    pub fn len(&self) -> u64
        ensures value { result ≡ length self.now }
        ensures width { IsWidth N }
        ensures bound { length self.now < 2 ^ 64 }
    {
        self.len
    }

    /// Returns whether the bitmap has no bit.
    ///
    /// Does not allocate; constant time.
    pub fn is_empty(&self) -> bool
        ensures { result ≡ (length self.now == 0) }
    {
        self.len() == 0
    }

    /// Returns whether the length is a multiple of `8N`. A length of 0 is.
    ///
    /// Does not allocate; constant time.
    pub fn is_chunk_aligned(&self) -> bool
        ensures { result ≡ (length self.now % (8 * N) == 0) }
    {
        self.len % chunk_width::<N>() == 0
    }

    /// Returns the size in bytes of the encoding of a bitmap of `bits` bits: eight bytes for the length, and its chunks.
    ///
    /// No bitmap of fewer bits has a longer encoding. `N` is at least 1, `8N` fits `u64`, and the result fits `usize`.
    /// Does not allocate; constant time.
    pub fn max_encode_size(bits: u64) -> usize
        requires width { IsWidth N }
        requires space { div_ceil bits (8 * N) * N + 8 < 2 ^ 64 }
        ensures value { result ≡ div_ceil bits (8 * N) * N + 8 }
        ensures reached { (v : List Bool) → length v ≡ bits → length (encoding N v) ≡ result }
        ensures most { (v : List Bool) → length v ≤ bits → length (encoding N v) ≤ result }
    {
        chunk_count::<N>(bits) * N + 8
    }

    /// Returns the bit at position `bit`, which is below the length.
    ///
    /// Does not allocate; constant time.
    pub fn get(&self, bit: u64) -> bool
        requires { bit < length self.now }
        ensures { result ≡ slice_index_or self.now bit false }
    {
        self.read_bit(bit)
    }

    // Returns the byte that contains a bit, as a chunk. Its bits past the length are zero.
    pub(crate) fn read_byte(&self, bit: u64) -> [u8; 1]
        requires { bit < length self.now }
        ensures { (k : ℕ) → k / 8 ≡ bit / 8
            → chunk_bit 1 result k ≡ slice_index_or self.now k false }
    {
        deque::get_byte(&self.chunks, bit)
    }

    // As `get`, which tests the position if it is called from Rust. A bitmap with a pruned prefix has tested it already.
    pub(crate) fn read_bit(&self, bit: u64) -> bool
        requires { bit < length self.now }
        ensures { result ≡ slice_index_or self.now bit false }
    {
        deque::get_bit(&self.chunks, bit)
    }

    /// Returns bit `bit mod 8N` of a chunk. If the chunk is that of position `bit`, this is the bit at that position.
    ///
    /// `N` is at least 1. Does not allocate; constant time.
    pub fn get_bit_from_chunk(chunk: &[u8; N], bit: u64) -> bool
        requires positive { 0 < N }
        ensures { result ≡ chunk_bit N chunk.now bit }
    {
        chunk::get_bit(chunk, bit)
    }

    /// Returns the bits in order, one boolean per bit.
    ///
    /// # Errors
    ///
    /// Returns `AllocError` if the allocation fails. If the bitmap is empty, it succeeds.
    ///
    /// # Memory
    ///
    /// Allocates at most once, space for one boolean per bit, from the allocator of the bitmap.
    ///
    /// # Complexity
    ///
    /// Linear in the length.
    pub fn to_bools(&self) -> Result<Vec<bool>, AllocError>
        ensures ok { IfOk result (λ v. v.items ≡ self.now) }
        ensures none { length self.now ≡ 0 → IsOk result }
    {
        let len = self.len;
        let mut bools = Vec::with_capacity(*self.chunks.allocator(), len as usize)?;
        deque::append_bools(&self.chunks, len, &mut bools);
        Ok(bools)
    }

    /// Returns the number of bits that are true.
    ///
    /// # Memory
    ///
    /// Does not allocate.
    ///
    /// # Complexity
    ///
    /// Linear in the words (64 bits) of the bitmap.
    pub fn count_ones(&self) -> u64
        ensures { result ≡ count_by (λ b. b) self.now }
    {
        let _ = self.len();
        deque::count_ones(&self.chunks)
    }

    /// Returns the number of bits that are false.
    ///
    /// # Memory
    ///
    /// Does not allocate.
    ///
    /// # Complexity
    ///
    /// Linear in the words (64 bits) of the bitmap.
    pub fn count_zeros(&self) -> u64
        ensures { result ≡ count_by not self.now }
    {
        self.len() - self.count_ones()
    }

    /// Returns whether no bit at a position in `range` is set. The end of the range is excluded, and at most the length.
    ///
    /// If the range is empty or ends before it starts, the result is true.
    ///
    /// # Memory
    ///
    /// Does not allocate.
    ///
    /// # Complexity
    ///
    /// At most linear in the words (64 bits) of the range.
    pub fn is_unset(&self, range: Range<u64>) -> bool
        requires { range.end ≤ length self.now }
        ensures { result ≡ list_all not (slice_range self.now range.start range.end) }
    {
        let _ = self.len();
        deque::is_unset(&self.chunks, range.start, range.end)
    }

    // Whether no bit gives true if it is combined with the bit of `other` at the same position.
    fn gives_none<B: Bitwise>(&self, other: &BitMap<N>) -> bool
        requires { length self.now ≡ length other.now }
        ensures { Decides result
            ((k : ℕ) → k < length self.now
            → B.gives (slice_index_or self.now k false) (slice_index_or other.now k false)
            ≡ false) }
    {
        deque::gives_none::<B, N>(&self.chunks, &other.chunks)
    }

    /// Returns whether each position that is set is also set in `other`. The lengths are equal.
    ///
    /// # Memory
    ///
    /// Does not allocate.
    ///
    /// # Complexity
    ///
    /// At most linear in the words (64 bits) of the bitmap. It stops at the first 64 bytes that decide.
    pub fn is_subset(&self, other: &BitMap<N>) -> bool
        requires { length self.now ≡ length other.now }
        ensures { result ≡ list_all (λ p. not p.0 || p.1) (zip self.now other.now) }
    {
        self.gives_none::<AndNot>(other)
    }

    /// Returns whether no position is set in both bitmaps. The lengths are equal.
    ///
    /// # Memory
    ///
    /// Does not allocate.
    ///
    /// # Complexity
    ///
    /// At most linear in the words (64 bits) of the bitmap. It stops at the first 64 bytes that decide.
    pub fn is_disjoint(&self, other: &BitMap<N>) -> bool
        requires { length self.now ≡ length other.now }
        ensures { result ≡ list_all (λ p. not (p.0 && p.1)) (zip self.now other.now) }
    {
        self.gives_none::<And>(other)
    }

    /// Returns an iterator over the positions whose bit is set, in ascending order from position 0 on.
    ///
    /// # Memory
    ///
    /// Does not allocate, and neither does the iterator.
    ///
    /// # Complexity
    ///
    /// Constant. The whole iteration is linear in the words of the bitmap plus the positions returned.
    /// A word is 64 bits of one chunk, or fewer at the end of a chunk.
    pub fn ones_iter(&self) -> OnesIter<'_, BitMap<N>, N>
        ensures positions { result.left
            ≡ filter (λ k. slice_index_or self.now k false) (range_with_len 0 (length self.now)) }
        ensures width { IsWidth N }
        ensures words { result.words ≡ words_between N 0 (length self.now) }
        ensures loads { result.loads ≤ result.words }
        ensures bound { length result.left < 2 ^ 64 }
        ensures runs { YieldsInOrder IsScanStep (λ s. s.left) }
    {
        self.ones_iter_range(0..self.len())
    }

    /// Appends a bit. The length is below `u64::MAX`.
    ///
    /// # Errors
    ///
    /// Returns `AllocError` if an allocation fails; the bitmap is unchanged. If the length is not a multiple of `8N`, it succeeds.
    ///
    /// # Memory
    ///
    /// Allocates only if the length is a multiple of `8N` and there is no capacity for another chunk.
    ///
    /// # Complexity
    ///
    /// Amortized constant.
    #[inline]
    pub fn push(&mut self, bit: bool) -> Result<(), AllocError>
        requires { length self.old + 1 < 2 ^ 64 }
        ensures ok { OnOk result (self.new ≡ self.old ++ bit ∷ []) }
        ensures err { OnErr result (self.new ≡ self.old) }
        ensures partial { ¬ (length self.old % (8 * N) ≡ 0) → IsOk result }
    {
        self.append_bit(bit)
    }

    // As `push`, which tests the length if it is called from Rust. A bitmap with a pruned prefix has tested it already.
    #[inline]
    pub(crate) fn append_bit(&mut self, bit: bool) -> Result<(), AllocError>
        requires { length self.old + 1 < 2 ^ 64 }
        ensures ok { OnOk result (self.new ≡ self.old ++ bit ∷ []) }
        ensures err { OnErr result (self.new ≡ self.old) }
        ensures partial { ¬ (length self.old % (8 * N) ≡ 0) → IsOk result }
    {
        let len = self.len;
        deque::make_space(&mut self.chunks, len)?;
        if bit {
            deque::set_bit(&mut self.chunks, len, true);
        }
        self.len = len + 1;
        Ok(())
    }

    /// Appends the `8N` bits of a chunk. The length is a multiple of `8N`, and the new length fits `u64`.
    ///
    /// # Errors
    ///
    /// Returns `AllocError` if an allocation fails; the bitmap is unchanged.
    ///
    /// # Memory
    ///
    /// Allocates only if there is no capacity for another chunk.
    ///
    /// # Complexity
    ///
    /// Amortized constant: one chunk is copied.
    pub fn push_chunk(&mut self, chunk: &[u8; N]) -> Result<(), AllocError>
        requires aligned { length self.old % (8 * N) ≡ 0 }
        requires space { length self.old + 8 * N < 2 ^ 64 }
        ensures ok { OnOk result (self.new ≡ self.old ++ chunk_bits N chunk.now) }
        ensures err { OnErr result (self.new ≡ self.old) }
    {
        let len = self.len;
        self.chunks.push_back(*chunk)?;
        self.len = len + chunk_width::<N>();
        Ok(())
    }

    /// Appends false bits up to a length of `n` bits. If the bitmap has `n` bits or more, it is unchanged.
    ///
    /// # Errors
    ///
    /// Returns `AllocError` if the allocation fails; the bitmap is unchanged. If no chunk is missing, it succeeds.
    ///
    /// # Memory
    ///
    /// Allocates at most once, and only if there is no capacity for the missing chunks.
    ///
    /// # Complexity
    ///
    /// Amortized linear in the chunks that are appended.
    pub fn extend_to(&mut self, n: u64) -> Result<(), AllocError>
        ensures ok { OnOk result (self.new ≡ self.old ++ replicate (n - length self.old) false) }
        ensures err { OnErr result (self.new ≡ self.old) }
        ensures has_capacity { n ≤ 8 * N * div_ceil (length self.old) (8 * N) → IsOk result }
    {
        let len = self.len;
        if len < n {
            deque::extend_zeros(&mut self.chunks, len, n)?;
            self.len = n;
        }
        Ok(())
    }

    /// Appends the bits of another bitmap, in order. Its chunks may have another width. The sum of the lengths fits `u64`.
    ///
    /// # Errors
    ///
    /// Returns `AllocError` if the allocation fails; the bitmap is unchanged. If no chunk is missing, it succeeds.
    ///
    /// # Memory
    ///
    /// Allocates at most once, and only if there is no capacity for the missing chunks.
    ///
    /// # Complexity
    ///
    /// Amortized linear in the bytes of the appended chunks. Most of them are written in words of 64 bits if `N` is 8 or more.
    pub fn extend_from_bitmap<const M: usize>(
        &mut self,
        other: &BitMap<M>,
    ) -> Result<(), AllocError>
        requires space { length self.old + length other.now < 2 ^ 64 }
        ensures ok { OnOk result (self.new ≡ self.old ++ other.now) }
        ensures err { OnErr result (self.new ≡ self.old) }
        ensures has_capacity { length self.old + length other.now
            ≤ 8 * N * div_ceil (length self.old) (8 * N) → IsOk result }
    {
        let len = self.len;
        let total = len + other.len();
        let (front, back) = deque::bytes(&other.chunks);
        deque::append_run(&mut self.chunks, len, total, front, back)?;
        self.len = total;
        Ok(())
    }

    /// Removes the last bit of a bitmap that is not empty, and returns it.
    ///
    /// Does not allocate; constant time.
    pub fn pop(&mut self) -> bool
        requires { 0 < length self.old }
        ensures { self.old ≡ self.new ++ result ∷ [] }
    {
        let last = self.len - 1;
        let bit = deque::get_bit(&self.chunks, last);
        deque::set_bit(&mut self.chunks, last, false);
        deque::drop_space(&mut self.chunks, last);
        self.len = last;
        bit
    }

    /// Shortens the bitmap to its first `n` bits. `n` is at most the length.
    ///
    /// # Memory
    ///
    /// Does not allocate.
    ///
    /// # Complexity
    ///
    /// At most linear in the chunks that are removed.
    pub fn truncate(&mut self, n: u64)
        requires { n ≤ length self.old }
        ensures { self.new ≡ take n self.old }
    {
        deque::shorten(&mut self.chunks, n);
        self.len = n;
    }

    /// Sets the bit at position `bit` to `value`. `bit` is below the length.
    ///
    /// Does not allocate; constant time.
    pub fn set(&mut self, bit: u64, value: bool)
        requires { bit < length self.old }
        ensures { self.new ≡ slice_set self.old bit value }
    {
        self.write_bit(bit, value);
    }

    // As `set`, for the same reason as `read_bit`.
    pub(crate) fn write_bit(&mut self, bit: u64, value: bool)
        requires { bit < length self.old }
        ensures { self.new ≡ slice_set self.old bit value }
    {
        deque::set_bit(&mut self.chunks, bit, value);
    }

    /// Sets the bit at each position in `range` to `value`. The end of the range is excluded, and at most the length.
    ///
    /// The other bits do not change. If the range is empty or ends before it starts, nothing changes.
    ///
    /// # Memory
    ///
    /// Does not allocate.
    ///
    /// # Complexity
    ///
    /// Linear in the bytes of the range. Whole chunks are written at once.
    pub fn set_range(&mut self, range: Range<u64>, value: bool)
        requires { range.end ≤ length self.old }
        ensures { self.new ≡ set_between self.old range.start range.end value }
    {
        let _ = self.len;
        deque::set_range(&mut self.chunks, range.start, range.end, value);
    }

    /// Inverts the bit at position `bit`, which is below the length.
    ///
    /// Does not allocate; constant time.
    pub fn flip(&mut self, bit: u64)
        requires { bit < length self.old }
        ensures { self.new ≡ slice_set self.old bit (not (slice_index_or self.old bit false)) }
    {
        deque::flip_bit(&mut self.chunks, bit);
    }

    /// Inverts every bit.
    ///
    /// # Memory
    ///
    /// Does not allocate.
    ///
    /// # Complexity
    ///
    /// Linear in the chunks.
    pub fn flip_all(&mut self)
        ensures { self.new ≡ map not self.old }
    {
        let len = self.len;
        deque::flip(&mut self.chunks);
        deque::clear_tail(&mut self.chunks, len);
    }

    /// Sets every bit to `value`.
    ///
    /// # Memory
    ///
    /// Does not allocate.
    ///
    /// # Complexity
    ///
    /// Linear in the chunks.
    pub fn set_all(&mut self, value: bool)
        ensures { self.new ≡ replicate (length self.old) value }
    {
        let len = self.len;
        deque::fill(&mut self.chunks, value);
        deque::clear_tail(&mut self.chunks, len);
    }

    // Combines each bit with the bit of `other` at the same position.
    fn combine<B: Bitwise>(&mut self, other: &BitMap<N>)
        requires { length self.old ≡ length other.now }
        ensures { self.new ≡ map (λ p. B.gives p.0 p.1) (zip self.old other.now) }
    {
        deque::combine::<B, N>(&mut self.chunks, &other.chunks);
    }

    /// Sets each bit to the conjunction of itself and the bit of `other` at the same position. The lengths are equal.
    ///
    /// # Memory
    ///
    /// Does not allocate.
    ///
    /// # Complexity
    ///
    /// Linear in the chunks.
    pub fn and(&mut self, other: &BitMap<N>)
        requires { length self.old ≡ length other.now }
        ensures { self.new ≡ map (λ p. p.0 && p.1) (zip self.old other.now) }
    {
        self.combine::<And>(other);
    }

    /// Clears each bit that is set in `other` at the same position. The lengths are equal.
    ///
    /// # Memory
    ///
    /// Does not allocate.
    ///
    /// # Complexity
    ///
    /// Linear in the chunks.
    pub fn and_not(&mut self, other: &BitMap<N>)
        requires { length self.old ≡ length other.now }
        ensures { self.new ≡ map (λ p. p.0 && not p.1) (zip self.old other.now) }
    {
        self.combine::<AndNot>(other);
    }

    /// Sets each bit to the disjunction of itself and the bit of `other` at the same position. The lengths are equal.
    ///
    /// # Memory
    ///
    /// Does not allocate.
    ///
    /// # Complexity
    ///
    /// Linear in the chunks.
    pub fn or(&mut self, other: &BitMap<N>)
        requires { length self.old ≡ length other.now }
        ensures { self.new ≡ map (λ p. p.0 || p.1) (zip self.old other.now) }
    {
        self.combine::<Or>(other);
    }

    /// Sets each bit to whether it differs from the bit of `other` at the same position. The lengths are equal.
    ///
    /// # Memory
    ///
    /// Does not allocate.
    ///
    /// # Complexity
    ///
    /// Linear in the chunks.
    pub fn xor(&mut self, other: &BitMap<N>)
        requires { length self.old ≡ length other.now }
        ensures { self.new ≡ map (λ p. xor p.0 p.1) (zip self.old other.now) }
    {
        self.combine::<Xor>(other);
    }
}

impl<const N: usize> Clone for BitMap<N> {
    ghost is_clone = { λ a b. b ≡ a };

    /// Returns an equal bitmap.
    ///
    /// # Errors
    ///
    /// Returns `AllocError` if the allocation fails.
    ///
    /// # Memory
    ///
    /// Allocates space for the chunks, from the allocator of the bitmap.
    ///
    /// # Complexity
    ///
    /// Linear in the chunks.
    fn clone(&self) -> Result<Self, AllocError> {
        Ok(BitMap {
            chunks: self.chunks.clone()?,
            len: self.len,
        })
    }
}
