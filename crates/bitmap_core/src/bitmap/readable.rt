//! The trait `Readable` of all bitmaps that can be read: chunks, bits, set positions, searches and counts.
//!
//! The trait must be in scope to call its functions.
//!
//! A function over any bitmap of any width:
//!
//! ```
//! ghost use Rattle.std.specs.Prelude.{◌≡◌};
//! ghost use Rattle.std.specs.Option.{option_or};
//! ghost use Rattle.bitmap_core.specs.Searches.{next_one};
//!
//! use bitmap_core::bitmap::Readable;
//!
//! /// Returns the first set position from `from` on, or the first of all if there is none.
//! pub fn next_around<B: Readable<N>, const N: usize>(bitmap: &B, from: u64) -> Option<u64>
//!     ensures { result ≡ option_or (next_one N (B.meaning bitmap.now) from) (next_one N (B.meaning bitmap.now) 0) }
//! {
//!     bitmap.next_one(from).or(bitmap.next_one(0))
//! }
//! ```

ghost use Rattle.std.specs.Prelude.{◌≡◌, ℕ, ◌+◌, ◌-◌, ◌*◌, ◌/◌, ◌^◌, ◌<◌, ◌≤◌, ◌==◌, [], length, slice_index_or};

mod blocks;
mod dense;
mod in_place;
mod loads;
mod ones;
mod prunable;
mod search;

pub use crate::bitmap::readable::ones::OnesIter;
use crate::bitmap::readable::search::{count_ones, first_from, last_below, nth_one};
use crate::chunk;
use std::ops::Range;

/// A bitmap that can be read: bits in chunks of `N` bytes, whose prefix may be pruned in whole chunks.
///
/// Positions count bits, and indices count chunks. Both are absolute: they count from the first bit that the bitmap ever had.
/// A position is retained if it is not pruned and below the length.
///
/// An implementor states which bitmap a value holds (`meaning`) and implements the five functions without a body.
/// It may also implement `chunks_around`, if it has chunks in memory. Searches, counts and iterators then read these in place.
/// The contracts require that `N` is at least 1, and that `8N` and the length fit `u64`. At most the length is pruned.
/// While the value is borrowed, the functions describe one and the same bitmap.
/// The bits of a chunk at or past the length may have any value: no other function reads them.
/// The final functions do not allocate themselves. For `BitMap` and `Prunable`, no function of the trait allocates,
/// and the functions that an implementor writes take constant time.
///
/// Complexities count words: 64 bits of one chunk each, or fewer at the end of a chunk.
///
/// A caller for any `N` calls `len()` before it iterates over set positions: the contract of `len` gives its proof the bound on `N`.
///
/// A bitmap of eight bits, in one chunk of one byte:
///
/// ```
/// ghost use Rattle.std.specs.Prelude.{[], ◌∷◌};
/// ghost use Rattle.bitmap_bytes.specs.Chunk.{chunk_bit};
///
/// use bitmap_core::bitmap::Readable;
///
/// /// Eight bits, the lowest first.
/// #[derive(Drop)]
/// pub struct Byte(u8);
///
/// impl Readable<1> for Byte {
///     ghost meaning = { λ b. record { pruned = 0; len = 8; bit = chunk_bit 1 (b.0 ∷ []) } };
///
///     fn complete_chunks(&self) -> usize {
///         1
///     }
///
///     fn get_chunk(&self, _chunk: usize) -> [u8; 1] {
///         [self.0]
///     }
///
///     fn last_chunk(&self) -> ([u8; 1], u64) {
///         ([self.0], 8)
///     }
///
///     fn pruned_chunks(&self) -> usize {
///         0
///     }
///
///     fn len(&self) -> u64 {
///         8
///     }
/// }
/// ```
pub trait Readable<const N: usize> {
    ghost use Rattle.bitmap_core.specs.Meaning.{Meaning, IsLawful, IsRetained, IsRetainedChunk, IsScanStep, ShowsChunk, ones, zeros, words};
    ghost use Rattle.std.specs.Iterator.Runs.{YieldsInOrder};
    ghost use Rattle.bitmap_core.specs.Searches.{next_one, next_zero, prev_one, prev_zero, ones_count, select_one};

    /// The bitmap that the value holds: its number of pruned chunks, its length, and the bit at each position.
    ghost meaning: { Self → Meaning };

    /// Returns the number of full chunks, including pruned chunks. A partly used last chunk does not count.
    fn complete_chunks(&self) -> usize
        ensures { result ≡ (meaning self.now).len / (8 * N) };

    /// Returns a copy of the chunk at an absolute index. The chunk has a retained bit. Its bits past the length may have any value.
    fn get_chunk(&self, chunk: usize) -> [u8; N]
        requires { IsRetainedChunk N (meaning self.now) chunk }
        ensures { ShowsChunk N (meaning self.now) chunk result };

    /// Returns a copy of the last chunk, and the number of its bits below the length: `8N` if it is full.
    ///
    /// At least one bit is retained. The bits of the chunk past the length may have any value.
    fn last_chunk(&self) -> ([u8; N], u64)
        requires { 8 * N * (meaning self.now).pruned < (meaning self.now).len }
        ensures chunk { ShowsChunk N (meaning self.now)
            (((meaning self.now).len - 1) / (8 * N)) result.0 }
        ensures used { 8 * N * (((meaning self.now).len - 1) / (8 * N)) + result.1
            ≡ (meaning self.now).len };

    /// Returns consecutive chunks in place, among them the chunk at an absolute index, and the absolute index of the first.
    ///
    /// The chunk has a retained bit, and so has each chunk of the slice. Bits past the length may have any value.
    /// If the bitmap does not hold the chunk in a slice, the slice is empty. The default is an empty slice.
    ///
    /// For `BitMap` and `Prunable`, does not allocate; constant time.
    fn chunks_around(&self, chunk: usize) -> (&[[u8; N]], usize)
        requires { IsRetainedChunk N (meaning self.now) chunk }
        ensures included { 0 < length result.0.now
            → (result.1 ≤ chunk) × (chunk < result.1 + length result.0.now) }
        ensures retained { (i : ℕ) → i < length result.0.now
            → IsRetainedChunk N (meaning self.now) (result.1 + i) }
        ensures shown { (i : ℕ) → i < length result.0.now
            → ShowsChunk N (meaning self.now) (result.1 + i) (slice_index_or result.0.now i []) }
    {
        (&[], chunk)
    }

    /// Returns the number of pruned chunks.
    fn pruned_chunks(&self) -> usize
        ensures value { result ≡ (meaning self.now).pruned }
        ensures lawful { IsLawful N (meaning self.now) };

    /// Returns the number of bits, pruned bits included.
    fn len(&self) -> u64
        ensures value { result ≡ (meaning self.now).len }
        ensures lawful { IsLawful N (meaning self.now) };

    /// Returns whether the length is 0. A bitmap with pruned bits is not empty.
    ///
    /// Does not allocate. Calls `len` once.
    final fn is_empty(&self) -> bool
        ensures { result ≡ ((meaning self.now).len == 0) }
    {
        self.len() == 0
    }

    /// Returns the number of pruned bits, which is the first position that is not pruned.
    ///
    /// Does not allocate. Calls `pruned_chunks` once.
    final fn pruned_bits(&self) -> u64
        ensures { result ≡ 8 * N * (meaning self.now).pruned }
    {
        self.pruned_chunks() as u64 * (8 * N as u64)
    }

    /// Returns the bit at position `bit`, which is absolute and retained.
    ///
    /// Does not allocate. Calls `len` and `get_chunk` once each.
    final fn get_bit(&self, bit: u64) -> bool
        requires { IsRetained N (meaning self.now) bit }
        ensures { result ≡ (meaning self.now).bit bit }
    {
        let _ = self.len();
        // Not `chunk_index`: the goal of the proof would name its result and not `bit / 8N`.
        let chunk = self.get_chunk((bit / (8 * N as u64)) as usize);
        chunk::get_bit(&chunk, bit)
    }

    /// Returns an iterator over the retained positions in `range` whose bit is set, in ascending order.
    ///
    /// If the range is empty or ends before it starts, there is none.
    ///
    /// # Memory
    ///
    /// Does not allocate, and neither does the iterator.
    ///
    /// # Complexity
    ///
    /// Calls `len` and `pruned_chunks` once, here. The whole iteration calls `get_chunk` at most once per chunk that the range meets.
    /// Calls `chunks_around` at most once per such chunk, and does not get the chunks that it reads in a slice.
    /// It is linear in the words of the range plus the positions returned.
    final fn ones_iter_range(&self, range: Range<u64>) -> OnesIter<'_, Self, N>
    where
        Self: Sized,
        ensures positions { result.left ≡ ones N (meaning self.now) range.start range.end }
        ensures lawful { IsLawful N (meaning self.now) }
        ensures words { result.words ≡ words N (meaning self.now) range.start range.end }
        ensures loads { result.loads ≤ result.words }
        ensures bound { length result.left < 2 ^ 64 }
        ensures runs { YieldsInOrder IsScanStep (λ s. s.left) }
    {
        OnesIter::over(self, self.len(), range, true)
    }

    /// Returns an iterator over the retained positions at or above `pos` whose bit is set, in ascending order.
    ///
    /// # Memory
    ///
    /// Does not allocate, and neither does the iterator.
    ///
    /// # Complexity
    ///
    /// That of `ones_iter_range` for the range from `pos` to the length.
    final fn ones_iter_from(&self, pos: u64) -> OnesIter<'_, Self, N>
    where
        Self: Sized,
        ensures positions { result.left ≡ ones N (meaning self.now) pos (meaning self.now).len }
        ensures lawful { IsLawful N (meaning self.now) }
        ensures words { result.words ≡ words N (meaning self.now) pos (meaning self.now).len }
        ensures loads { result.loads ≤ result.words }
        ensures bound { length result.left < 2 ^ 64 }
        ensures runs { YieldsInOrder IsScanStep (λ s. s.left) }
    {
        self.ones_iter_range(pos..u64::MAX)
    }

    /// Returns an iterator over the retained positions in `range` whose bit is not set, in ascending order.
    ///
    /// If the range is empty or ends before it starts, there is none.
    ///
    /// # Memory
    ///
    /// Does not allocate, and neither does the iterator.
    ///
    /// # Complexity
    ///
    /// That of `ones_iter_range`.
    final fn zeros_iter_range(&self, range: Range<u64>) -> OnesIter<'_, Self, N>
    where
        Self: Sized,
        ensures positions { result.left ≡ zeros N (meaning self.now) range.start range.end }
        ensures lawful { IsLawful N (meaning self.now) }
        ensures words { result.words ≡ words N (meaning self.now) range.start range.end }
        ensures loads { result.loads ≤ result.words }
        ensures bound { length result.left < 2 ^ 64 }
        ensures runs { YieldsInOrder IsScanStep (λ s. s.left) }
    {
        OnesIter::over(self, self.len(), range, false)
    }

    /// Returns an iterator over the retained positions at or above `pos` whose bit is not set, in ascending order.
    ///
    /// # Memory
    ///
    /// Does not allocate, and neither does the iterator.
    ///
    /// # Complexity
    ///
    /// That of `ones_iter_range` for the range from `pos` to the length.
    final fn zeros_iter_from(&self, pos: u64) -> OnesIter<'_, Self, N>
    where
        Self: Sized,
        ensures positions { result.left ≡ zeros N (meaning self.now) pos (meaning self.now).len }
        ensures lawful { IsLawful N (meaning self.now) }
        ensures words { result.words ≡ words N (meaning self.now) pos (meaning self.now).len }
        ensures loads { result.loads ≤ result.words }
        ensures bound { length result.left < 2 ^ 64 }
        ensures runs { YieldsInOrder IsScanStep (λ s. s.left) }
    {
        self.zeros_iter_range(pos..u64::MAX)
    }

    /// Returns the least retained position at or above `from` whose bit is set, or `None` if there is none.
    ///
    /// # Memory
    ///
    /// Does not allocate.
    ///
    /// # Complexity
    ///
    /// Calls `len` and `pruned_chunks` once, and `get_chunk` at most once per chunk from `from` to the position found.
    /// Calls `chunks_around` at most once per call of `get_chunk`, and does not get the chunks that it skips in a slice.
    /// Linear in the words from `from` to that position, or to the length if there is none.
    final fn next_one(&self, from: u64) -> Option<u64>
    where
        Self: Sized,
        ensures { result ≡ next_one N (meaning self.now) from }
    {
        first_from(self, self.len(), from, true)
    }

    /// Returns the least retained position at or above `from` whose bit is not set, or `None` if there is none.
    ///
    /// # Memory
    ///
    /// Does not allocate.
    ///
    /// # Complexity
    ///
    /// That of `next_one`.
    final fn next_zero(&self, from: u64) -> Option<u64>
    where
        Self: Sized,
        ensures { result ≡ next_zero N (meaning self.now) from }
    {
        first_from(self, self.len(), from, false)
    }

    /// Returns the greatest retained position below `end` whose bit is set, or `None` if there is none.
    ///
    /// # Memory
    ///
    /// Does not allocate.
    ///
    /// # Complexity
    ///
    /// Calls `len` and `pruned_chunks` once, and `get_chunk` at most once per chunk from the position found to `end`.
    /// Calls `chunks_around` as `next_one` does.
    /// Linear in the words from that position, or from the first retained one if there is none, to `end`.
    final fn prev_one(&self, end: u64) -> Option<u64>
    where
        Self: Sized,
        ensures { result ≡ prev_one N (meaning self.now) end }
    {
        let end = end.min(self.len());
        last_below(self, end, true)
    }

    /// Returns the greatest retained position below `end` whose bit is not set, or `None` if there is none.
    ///
    /// # Memory
    ///
    /// Does not allocate.
    ///
    /// # Complexity
    ///
    /// That of `prev_one`.
    final fn prev_zero(&self, end: u64) -> Option<u64>
    where
        Self: Sized,
        ensures { result ≡ prev_zero N (meaning self.now) end }
    {
        let end = end.min(self.len());
        last_below(self, end, false)
    }

    /// Returns the number of retained positions in `range` whose bit is set.
    ///
    /// If the range is empty or ends before it starts, the number is 0.
    ///
    /// # Memory
    ///
    /// Does not allocate.
    ///
    /// # Complexity
    ///
    /// Calls `len` and `pruned_chunks` once, and `get_chunk` at most once per chunk that the range meets.
    /// Calls `chunks_around` as `next_one` does.
    /// Linear in the words of the range.
    final fn count_ones_range(&self, range: Range<u64>) -> u64
    where
        Self: Sized,
        ensures { result ≡ ones_count N (meaning self.now) range.start range.end }
    {
        let end = range.end.min(self.len());
        let first = range.start.max(self.pruned_bits());
        count_ones(self, first, end)
    }

    /// Returns the retained position whose bit is set and that has `k` such positions below it, or `None` if there are at most `k`.
    ///
    /// # Memory
    ///
    /// Does not allocate.
    ///
    /// # Complexity
    ///
    /// Calls `len` and `pruned_chunks` once, and `get_chunk` at most once per retained chunk up to that of the position found.
    /// Calls `chunks_around` as `next_one` does.
    /// Linear in the words of these chunks.
    final fn select_one(&self, k: u64) -> Option<u64>
    where
        Self: Sized,
        ensures { result ≡ select_one N (meaning self.now) k }
    {
        let len = self.len();
        nth_one(self, self.pruned_bits(), len, k)
    }
}
