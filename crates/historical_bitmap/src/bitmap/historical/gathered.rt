//! Past states that are read in place, with the chunks that later commits changed gathered
//! beforehand.

ghost use Rattle.std.specs.Prelude.{◌≡◌, ℕ, ◌+◌, ◌-◌, ◌^◌, ◌<◌, ◌≤◌, false, length, [], IfOk, IsOk, None, Ok, nat_eq, option_copied, slice_index, slice_index_or};
ghost use Rattle.std.specs.List.Sorted.{IsStrictlySortedBy};
ghost use Rattle.std.specs.Map.{keys_of, lookup};
ghost use Rattle.std.specs.Ordering.{nat_cmp};
ghost use Rattle.std.specs.Set.{is_member};
ghost use Rattle.bitmap_bytes.specs.Chunk.{IsWidth};
ghost use Rattle.bitmap_core.specs.Meaning.{pruned_meaning, ShowsChunk};
ghost use Rattle.bitmap_core.specs.PrunedBits.{IsRetainedChunk};
ghost use Rattle.historical_bitmap.specs.History.{first_kept, kept_under, left_by, past_number};
ghost use Rattle.historical_bitmap.specs.View.{history_of};

use crate::bitmap::historical::rewind::gather;
use crate::bitmap::historical::{BitMap, Clean};
use bitmap_core::bitmap::Readable;
use bitmap_core::chunk::{chunk_count, chunk_index, chunk_width};
use chunk_map::map::ChunkMap;
use std::alloc::{AllocError, Global};
use std::marker::Model;

/// The bitmap at a kept commit, read in place: the chunks that later commits changed are in one
/// map, and all others in the current bitmap.
///
/// It is a `Readable`, and its methods do not allocate. `CleanBitMap::gathered` returns it.
///
/// # Memory
/// The old bytes of the chunks that later commits changed, cut off or pruned, with their indices,
/// and at most one node of 80 bytes per chunk.
///
/// # Complexity
/// `len` and `pruned_chunks`: constant.
/// A read of a chunk: a search among the gathered chunks, which visits at most 16 nodes.
/// The chunks between two gathered ones are read in place, after one binary search among the
/// indices, as fast as those of the current bitmap.
#[derive(Drop)]
pub struct Gathered<'a, const N: usize> {
    of: &'a BitMap<N, Clean>,
    number: u64,
    len: u64,
    pruned: usize,
    // The old bytes of the chunks that later records name.
    changed: ChunkMap<N>,
    // The indices of these chunks, ascending.
    indices: Vec<usize>,
}

impl<'a, const N: usize> Model for Gathered<'a, N> {
    ghost use Rattle.bitmap_core.specs.PrunedBits.{PrunedBits};
    ghost use Rattle.historical_bitmap.specs.History.{left_by};
    ghost use Rattle.historical_bitmap.specs.Rewind.{IsGathered};

    ghost Value = { PrunedBits };

    ghost view = { λ g. left_by N g.number g.of.now.commits g.of.now.current };

    ghost invariant = { λ g. IsGathered N g.number g.of.now.commits g.of.now.current
        g.len g.pruned g.changed.entries g.indices.items };
}

// Returns the indices of some chunks, ascending. Allocates once, or never if there is no chunk.
fn ascending_indices<const N: usize>(
    alloc: Global,
    chunks: &ChunkMap<N>,
) -> Result<Vec<usize>, AllocError>
    ensures ok { IfOk result (λ indices. indices.items ≡ keys_of chunks.now.entries) }
    ensures none { chunks.now.entries ≡ [] → IsOk result }
{
    if chunks.is_empty() {
        return Ok(Vec::new(alloc));
    }
    chunks.ascending_indices(alloc)
}

// Returns the bytes of a chunk, if there are any.
fn bytes_of<const N: usize>(chunks: &ChunkMap<N>, chunk: usize) -> Option<&[u8; N]>
    ensures { option_copied result ≡ lookup (nat_eq chunk) chunks.now.entries }
{
    let place = chunks.find(chunk)?;
    Some(chunks.chunk_at(place))
}

// Returns the least number from `first` on that is above the indices before position `next`.
fn above(indices: &[usize], next: usize, first: usize) -> usize
    requires within { next ≤ length indices.now }
    requires fits { 0 < next → slice_index indices.now (next - 1) + 1 < 2 ^ 64 }
    ensures first { first ≤ result }
    ensures above { 0 < next → slice_index indices.now (next - 1) < result }
    ensures least { (i : ℕ) → first ≤ i
        → (0 < next → slice_index indices.now (next - 1) < i) → result ≤ i }
{
    if next == 0 {
        return first;
    }
    first.max(indices[next - 1] + 1)
}

// Returns the index at position `next`, or `end` if there is none below `end`.
fn next_or(indices: &[usize], next: usize, end: usize) -> usize
    ensures end { result ≤ end }
    ensures index { next < length indices.now → result ≤ slice_index indices.now next }
    ensures greatest { (i : ℕ) → i ≤ end
        → (next < length indices.now → i ≤ slice_index indices.now next) → i ≤ result }
{
    if next >= indices.len() {
        return end;
    }
    end.min(indices[next])
}

// Returns the ends of the stretch around a chunk, from index `first` up to `end`, that has none of
// some ascending indices, by binary search.
// The stretch is empty, and ends at the chunk, if the chunk has one of the indices.
fn stretch_around(indices: &[usize], chunk: usize, first: usize, end: usize) -> (usize, usize)
    requires ascend { IsStrictlySortedBy nat_cmp indices.now }
    requires first { first ≤ chunk }
    requires end { chunk < end }
    ensures first { (first ≤ result.0) × (result.0 ≤ chunk) }
    ensures end { (chunk ≤ result.1) × (result.1 ≤ end) }
    ensures free { (i : ℕ) → result.0 ≤ i → i < result.1 → is_member nat_eq indices.now i ≡ false }
{
    match indices.binary_search(&chunk) {
        Ok(_) => (chunk, chunk),
        Err(next) => (above(indices, next, first), next_or(indices, next, end)),
    }
}

// Returns those of some consecutive chunks whose indices are from `low` up to `high`, and the index
// of the first of these.
// The first of all chunks has index `first`.
fn part_between<const N: usize>(
    chunks: &[[u8; N]],
    first: usize,
    low: usize,
    high: usize,
) -> (&[[u8; N]], usize)
    requires { first + length chunks.now < 2 ^ 64 }
    ensures within { first ≤ result.1 }
    ensures low { 0 < length result.0.now → low ≤ result.1 }
    ensures high { 0 < length result.0.now → result.1 + length result.0.now ≤ high }
    ensures end { result.1 + length result.0.now ≤ first + length chunks.now }
    ensures all { (i : ℕ) → low ≤ i → i < high → first ≤ i → i < first + length chunks.now
        → (result.1 ≤ i) × (i < result.1 + length result.0.now) }
    ensures same { (i : ℕ) → i < length result.0.now
        → slice_index_or result.0.now i [] ≡ slice_index_or chunks.now (result.1 - first + i) [] }
{
    let from = low.saturating_sub(first).min(chunks.len());
    let to = high.saturating_sub(first).min(chunks.len()).max(from);
    (&chunks[from..to], first + from)
}

impl<const N: usize> BitMap<N, Clean> {
    /// Returns the bitmap at commit `number`, to be read in place, with the chunks that later
    /// commits changed gathered beforehand.
    ///
    /// Returns `None` if that commit is not kept. `u64::MAX` is never kept. It is the same state
    /// that `at` and `get_at_commit` return.
    /// Of the three, this is the cheapest for a pass over many chunks of a bitmap without an index:
    /// `at` searches in each later record
    /// for each chunk that it reads, and `get_at_commit` copies the bitmap.
    ///
    /// # Errors
    /// `AllocError` if an allocation fails, or if there are more than 2^31 - 1 chunks to gather. A
    /// number that is not kept is no error.
    ///
    /// # Memory
    /// Allocates what `Gathered` has. Does not allocate if the number is not kept, or if no later
    /// commit is kept.
    ///
    /// # Complexity
    /// A search among the kept commits. Amortized, per entry of the later reverse records: at most
    /// two searches among the gathered chunks,
    /// each of which visits at most 16 nodes. The length of the bitmap does not matter.
    ///
    /// # Examples
    /// The number of set bits of a version, of which all chunks are read:
    ///
    /// ```
    /// ghost use Rattle.std.specs.Prelude.{◌≡◌, IfOk};
    /// ghost use Rattle.std.specs.Option.{option_map};
    /// ghost use Rattle.bitmap_core.specs.Meaning.{pruned_meaning};
    /// ghost use Rattle.bitmap_core.specs.Searches.{ones_count};
    /// ghost use Rattle.historical_bitmap.specs.History.{kept_under};
    /// ghost use Rattle.historical_bitmap.specs.View.{history_of};
    ///
    /// use historical_bitmap::bitmap::Readable;
    /// use historical_bitmap::bitmap::historical::CleanBitMap;
    /// use std::alloc::AllocError;
    ///
    /// /// Returns how many bits of a version are set, or `None` if that version is not kept.
    /// pub fn population_of_version<const N: usize>(
    ///     versions: &CleanBitMap<N>,
    ///     number: u64,
    /// ) -> Result<Option<u64>, AllocError>
    ///     ensures { IfOk result (λ count. count ≡ option_map (λ version. ones_count N (pruned_meaning N version) 0 (pruned_meaning N version).len) (kept_under (history_of N versions.now) number)) }
    /// {
    ///     let Some(version) = versions.gathered(number)? else {
    ///         return Ok(None);
    ///     };
    ///     Ok(Some(version.count_ones_range(0..version.len())))
    /// }
    /// ```
    pub fn gathered(&self, number: u64) -> Result<Option<Gathered<'_, N>>, AllocError>
        ensures value { IfOk result (λ found. found ≡ kept_under (history_of N self.now) number) }
        ensures absent { kept_under (history_of N self.now) number ≡ None → result ≡ Ok None }
        ensures none { past_number number self.now.commits ≡ [] → IsOk result }
        ensures reserved { kept_under (history_of N self.now) (2 ^ 64 - 1) ≡ None }
        ensures width { IsWidth N }
    {
        let _ = self.current.len();
        if !self.commit_exists(number) {
            return Ok(None);
        }
        let past = self.commits.past(number);
        let (len, pruned) = self.extent_before(past);
        let alloc = self.state.allocator();
        let changed = gather(alloc, &self.commits, past, pruned, chunk_count::<N>(len))?;
        let indices = ascending_indices(alloc, &changed)?;
        changed.order();
        Ok(Some(Gathered {
            of: self,
            number,
            len,
            pruned,
            changed,
            indices,
        }))
    }

    // Returns consecutive chunks of the current bitmap from index `low` up to `high`, one of which
    // is `chunk`, and the index of the first.
    // No record past the number keeps bytes of any of them, so they are the chunks that the last
    // commit up to the number left.
    fn unchanged_around(
        &self,
        number: u64,
        chunk: usize,
        low: usize,
        high: usize,
    ) -> (&[[u8; N]], usize)
        requires low { low ≤ chunk }
        requires high { chunk < high }
        requires retained { (i : ℕ) → low ≤ i → i < high
            → IsRetainedChunk N (left_by N number self.now.commits self.now.current) i }
        requires unchanged { (i : ℕ) → low ≤ i → i < high
            → first_kept (past_number number self.now.commits) i ≡ None }
        ensures included { 0 < length result.0.now
            → (result.1 ≤ chunk) × (chunk < result.1 + length result.0.now) }
        ensures retained { (i : ℕ) → i < length result.0.now
            → IsRetainedChunk N (left_by N number self.now.commits self.now.current)
            (result.1 + i) }
        ensures shown { (i : ℕ) → i < length result.0.now
            → ShowsChunk N (pruned_meaning N (left_by N number self.now.commits self.now.current))
            (result.1 + i) (slice_index_or result.0.now i []) }
    {
        let _ = self.current.len();
        let (chunks, first) = self.current.chunks_around(chunk);
        part_between(chunks, first, low, high)
    }
}

impl<'a, const N: usize> Gathered<'a, N> {
    // Returns a chunk. Its bits past the length may have any value.
    fn chunk_at(&self, chunk: usize) -> [u8; N]
        requires { IsRetainedChunk N self.now chunk }
        ensures { ShowsChunk N (pruned_meaning N self.now) chunk result }
    {
        let kept = bytes_of(&self.changed, chunk);
        self.of.kept_or_current(self.number, chunk, kept)
    }
}

impl<'a, const N: usize> Readable<N> for Gathered<'a, N> {
    ghost meaning = { pruned_meaning N };

    fn complete_chunks(&self) -> usize {
        chunk_index::<N>(self.len)
    }

    fn get_chunk(&self, chunk: usize) -> [u8; N] {
        self.chunk_at(chunk)
    }

    fn last_chunk(&self) -> ([u8; N], u64) {
        let last = self.len - 1;
        let chunk = self.chunk_at(chunk_index::<N>(last));
        (chunk, last % chunk_width::<N>() + 1)
    }

    // A changed chunk is in no slice. The slice of an unchanged one ends at the changed chunks
    // before and after it.
    fn chunks_around(&self, chunk: usize) -> (&[[u8; N]], usize) {
        let end = chunk_count::<N>(self.len);
        let (low, high) = stretch_around(&self.indices, chunk, self.pruned, end);
        if high == chunk {
            return (&[], chunk);
        }
        self.of.unchanged_around(self.number, chunk, low, high)
    }

    fn pruned_chunks(&self) -> usize {
        let _ = self.len();
        self.pruned
    }

    fn len(&self) -> u64 {
        self.len
    }
}
