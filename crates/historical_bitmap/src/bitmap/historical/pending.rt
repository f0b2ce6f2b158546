//! The pending edits of a batch.

ghost use Rattle.std.specs.Prelude.{◌≡◌, ℕ, ◌+◌, ◌-◌, ◌*◌, ◌/◌, ◌%◌, ◌^◌, ◌<◌, ◌≤◌, ◌++◌, ◌∷◌, List, length, map, replicate, true, false, if◌then◌else◌, nat_lt, IfOk, IfSome, MatchOption, None, Some, Ok, OnOk, OnErr, IsOk, IsSome, nat_eq, unwrap_or, slice_index, [], vec_len, vec_capacity};
ghost use Rattle.std.specs.List.{range_with_len};
ghost use Rattle.std.specs.List.Sorted.{IsStrictlySortedBy};
ghost use Rattle.std.specs.Map.{keys_of, lookup};
ghost use Rattle.std.specs.Option.{option_map};
ghost use Rattle.std.specs.Ordering.{nat_cmp};
ghost use Rattle.std.specs.Set.{distinct_count};
ghost use Rattle.bitmap_bytes.specs.Chunk.{bytes_bit, byte_bits, chunk_bit, chunk_bits, IsChunk, IsWidth};
ghost use Rattle.bitmap_core.specs.PrunedBits.{PrunedBits, bit_at, bit_len, chunk, IsRetained, pruned_bits, truncated};
ghost use Rattle.chunk_map.specs.Entries.{IsNextMember};
ghost use Rattle.historical_bitmap.specs.CachedWord.{IsCached, with_cached};
ghost use Rattle.historical_bitmap.specs.Edits.{from_to};
ghost use Rattle.historical_bitmap.specs.Pending.{AddsEntries, Appends, diff_of, edited_chunk, first_cut_of, IsClearFrom, marked_chunks, members_between, PendingFits, picked_between, old_chunk, pending_bits, pending_chunk, Pops, Prunes, IsRecordOf, run_bits, SetsRange, Truncates, unedited, Writes, SetsChunk};
ghost use Rattle.historical_bitmap.specs.Record.{LeadsBack};
ghost use Rattle.historical_bitmap.specs.Stored.{diff_value};
ghost use Rattle.historical_bitmap.specs.Undo.{CanUndo};

use crate::bitmap::historical::cached_word::{
    CachedWord, chunk_of, clear_bit, clear_cached, cross_byte, cut_to, get_bit, join_byte, load,
    no_word, push_bit, settle, write_bit,
};
use crate::bitmap::historical::cut_chunks::{cut, first_chunk};
use crate::bitmap::historical::edited::EditedChunks;
use crate::bitmap::historical::joined::append_bits;
use crate::bitmap::historical::opened::open_to;
use crate::bitmap::historical::ranges::set_range;
use crate::bitmap::historical::record::{ChunkDiff, CommitDiff};
use bitmap_core::bitmap::BitMap;
use bitmap_core::bitmap::prunable::Prunable;
use bitmap_core::chunk::facts::known;
use bitmap_core::chunk::join::{chunk_from, join};
use bitmap_core::chunk::{chunk_count, chunk_index, chunk_width, get_bit as bit_of};
use chunk_map::map::ChunkMap;
use std::alloc::{AllocError, Global};
use std::marker::Model;

/// The state of a bitmap with pending edits.
///
/// It has the pending length, the pending number of pruned chunks, the edited chunks, and the old bytes of the chunks that the batch prunes.
#[derive(Debug, Drop)]
pub struct Dirty<const N: usize> {
    len: u64,
    pruned: usize,
    edited: EditedChunks<N>,
    cache: CachedWord,
    captured: Vec<[u8; N]>,
    alloc: Global,
}

impl<const N: usize> Model for Dirty<N> {
    ghost use Rattle.historical_bitmap.specs.CachedWord.{IsCached, with_cached};
    ghost use Rattle.historical_bitmap.specs.Pending.{PendingEdits};

    ghost Value = { PendingEdits };

    ghost view = { λ d. record {
      len = d.len;
      pruned = d.pruned;
      edited = with_cached N d.edited d.cache;
      captured = d.captured.items;
    } };

    ghost invariant = { λ d. IsCached N d.edited d.cache };
}

// Returns the pending bytes of a chunk.
fn chunk_with<const N: usize>(
    edited: &EditedChunks<N>,
    cache: &CachedWord,
    current: &Prunable<N>,
    len: u64,
    index: usize,
) -> [u8; N]
    requires cached { IsCached N edited.now cache.now }
    requires from { current.now.pruned ≤ index }
    requires fits { 8 * N * index < 2 ^ 64 }
    ensures value { result ≡ unwrap_or (lookup (nat_eq index) (with_cached N edited.now cache.now))
        (chunk N (truncated N current.now len) index) }
    ensures known { IsChunk N result }
{
    match chunk_of(edited, cache, index) {
        Some(bytes) => bytes,
        None => first_chunk(current, len, index),
    }
}

// Returns the bytes that a prune captures of a chunk.
fn chunk_before<const N: usize>(
    edited: &EditedChunks<N>,
    cache: &CachedWord,
    current: &Prunable<N>,
    len: u64,
    index: usize,
) -> [u8; N]
    requires cached { IsCached N edited.now cache.now }
    requires from { current.now.pruned ≤ index }
    requires fits { 8 * N * index < 2 ^ 64 }
    ensures { result ≡ old_chunk N current.now
        (record {
          len = len;
          pruned = 0;
          edited = with_cached N edited.now cache.now;
          captured = [];
        }) index }
{
    let total = current.len();
    if chunk_width::<N>() * (index as u64) < total {
        *current.get_chunk(index)
    } else {
        chunk_with(edited, cache, current, len, index)
    }
}

// Captures the chunks from `from` up to `to`, for which there is capacity.
fn capture<const N: usize>(
    captured: &mut Vec<[u8; N]>,
    edited: &EditedChunks<N>,
    cache: &CachedWord,
    current: &Prunable<N>,
    len: u64,
    from: usize,
    to: usize,
)
    requires cached { IsCached N edited.now cache.now }
    requires low { current.now.pruned ≤ from }
    requires rises { from ≤ to }
    requires fits { 8 * N * to < 2 ^ 64 }
    requires space { vec_len captured.old + (to - from) ≤ vec_capacity captured.old }
    ensures { captured.new.items
        ≡ captured.old.items ++ map
        (old_chunk N current.now
        (record {
          len = len;
          pruned = 0;
          edited = with_cached N edited.now cache.now;
          captured = [];
        })) (from_to from to) }
{
    let _ = current.len();
    for index in from..to {
        captured.push_reserved(chunk_before(edited, cache, current, len, index));
    }
}

// Appends the entries of the chunks from index `from` up to `to`.
fn record_range<const N: usize>(
    record: &mut CommitDiff<N>,
    edits: &Dirty<N>,
    current: &Prunable<N>,
    from: usize,
    to: usize,
) -> Result<(), AllocError>
    requires order { from ≤ to }
    requires low { current.now.pruned ≤ from }
    requires count { length edits.now.captured ≡ edits.now.pruned - current.now.pruned }
    requires fits { (i : ℕ) → i < to → 8 * N * i < 2 ^ 64 }
    ensures { OnOk result (AddsEntries N current.now edits.now
        (from_to from to) record.old record.new) }
{
    let _ = current.len();
    for index in from..to {
        record.push(index, edits.diff(current, index))?;
    }
    Ok(())
}

// Appends the entry of a chunk, if its index is from `from` up to `to`.
#[inline]
fn record_between<const N: usize>(
    record: &mut CommitDiff<N>,
    edits: &Dirty<N>,
    current: &Prunable<N>,
    index: usize,
    from: usize,
    to: usize,
) -> Result<(), AllocError>
    requires low { current.now.pruned ≤ from }
    requires count { length edits.now.captured ≡ edits.now.pruned - current.now.pruned }
    requires fits { (i : ℕ) → i < to → 8 * N * i < 2 ^ 64 }
    ensures { OnOk result (AddsEntries N current.now edits.now
        (picked_between (index ∷ []) from to) record.old record.new) }
{
    let _ = current.len();
    if from <= index && index < to {
        let diff = edits.diff(current, index);
        record.push(index, diff)?;
    }
    Ok(())
}

// Returns whether the indices of a map's chunks ascend in the order of their places.
fn is_ascending<const N: usize>(chunks: &ChunkMap<N>) -> bool
    ensures { result ≡ true → IsStrictlySortedBy nat_cmp chunks.now.indices }
{
    for place in 1..chunks.len() {
        let before = chunks.index_at(place - 1);
        let index = chunks.index_at(place);
        if index <= before {
            return false;
        }
    }
    true
}

// Appends the entries of the chunks that a map has from index `from` up to `to`, in the order of their places.
fn record_places<const N: usize>(
    record: &mut CommitDiff<N>,
    edits: &Dirty<N>,
    current: &Prunable<N>,
    chunks: &ChunkMap<N>,
    from: usize,
    to: usize,
) -> Result<(), AllocError>
    requires low { current.now.pruned ≤ from }
    requires count { length edits.now.captured ≡ edits.now.pruned - current.now.pruned }
    requires fits { (i : ℕ) → i < to → 8 * N * i < 2 ^ 64 }
    ensures { OnOk result (AddsEntries N current.now edits.now
        (picked_between chunks.now.indices from to) record.old record.new) }
{
    let _ = current.len();
    for place in 0..chunks.len() {
        record_between(record, edits, current, chunks.index_at(place), from, to)?;
    }
    Ok(())
}

// As `record_map`, for chunks in any order of their places. Allocates once, for their indices.
fn record_sorted<const N: usize>(
    record: &mut CommitDiff<N>,
    edits: &Dirty<N>,
    current: &Prunable<N>,
    chunks: &ChunkMap<N>,
    from: usize,
    to: usize,
) -> Result<(), AllocError>
    requires low { current.now.pruned ≤ from }
    requires count { length edits.now.captured ≡ edits.now.pruned - current.now.pruned }
    requires fits { (i : ℕ) → i < to → 8 * N * i < 2 ^ 64 }
    ensures { OnOk result (AddsEntries N current.now edits.now
        (members_between (keys_of chunks.now.entries) from to) record.old record.new) }
{
    let _ = current.len();
    chunks.order();
    let indices = chunks.ascending_indices(edits.allocator())?;
    for index in indices.as_slice() {
        record_between(record, edits, current, *index, from, to)?;
    }
    Ok(())
}

// Appends the entries of the chunks that a map has from index `from` up to `to`.
// Does not allocate for their indices if these ascend in the order of the places.
fn record_map<const N: usize>(
    record: &mut CommitDiff<N>,
    edits: &Dirty<N>,
    current: &Prunable<N>,
    chunks: &ChunkMap<N>,
    from: usize,
    to: usize,
) -> Result<(), AllocError>
    requires order { from ≤ to }
    requires low { current.now.pruned ≤ from }
    requires count { length edits.now.captured ≡ edits.now.pruned - current.now.pruned }
    requires fits { (i : ℕ) → i < to → 8 * N * i < 2 ^ 64 }
    ensures { OnOk result (AddsEntries N current.now edits.now
        (members_between (keys_of chunks.now.entries) from to) record.old record.new) }
{
    if from == to {
        return Ok(());
    }
    chunks.order();
    if is_ascending(chunks) {
        return record_places(record, edits, current, chunks, from, to);
    }
    record_sorted(record, edits, current, chunks, from, to)
}

// Appends the entries of the edited chunks from index `from` up to `to`: those before the appended ones, these, and those past them.
fn record_edited<const N: usize>(
    record: &mut CommitDiff<N>,
    edits: &Dirty<N>,
    current: &Prunable<N>,
    from: usize,
    to: usize,
) -> Result<(), AllocError>
    requires order { from ≤ to }
    requires low { current.now.pruned ≤ from }
    requires count { length edits.now.captured ≡ edits.now.pruned - current.now.pruned }
    requires fits { (i : ℕ) → i < to → 8 * N * i < 2 ^ 64 }
    ensures { OnOk result (AddsEntries N current.now edits.now
        (members_between (keys_of edits.now.edited) from to) record.old record.new) }
{
    let (others, first, past) = edits.edited_between(from, to);
    record_map(record, edits, current, others, from, first)?;
    record_range(record, edits, current, first, past)?;
    record_map(record, edits, current, others, past, to)?;
    Ok(())
}

// Returns the chunk of the bits from bit `from` on of a byte, and zeros past them.
fn rest_of_byte<const N: usize>(byte: u8, from: u64) -> [u8; N]
    requires width { IsWidth N }
    requires within { from < 8 }
    ensures { (i : ℕ) → chunk_bit N result i ≡ bytes_bit (byte ∷ []) (from + i % (8 * N)) }
{
    let mut chunk = [0; N];
    chunk[0] = byte >> from;
    chunk
}

// Returns the chunk of the bits from bit `from` on of some bytes, and zeros past them. That of one byte is made without a loop.
fn rest_of<const N: usize>(bytes: &[u8], from: u64) -> [u8; N]
    requires width { IsWidth N }
    ensures { (i : ℕ) → chunk_bit N result i ≡ bytes_bit (bytes.now ++ []) (from + i % (8 * N)) }
{
    if bytes.len() == 1 && from < 8 {
        return rest_of_byte(bytes[0], from);
    }
    chunk_from(bytes, &[], from)
}

impl<const N: usize> Dirty<N> {
    // Returns a state without edits. Does not allocate.
    pub(crate) fn new(alloc: Global, current: &Prunable<N>) -> Self
        ensures { result ≡ unedited N current.now }
    {
        Dirty {
            len: current.len(),
            pruned: current.pruned_chunks(),
            edited: EditedChunks::new(alloc),
            cache: no_word(),
            captured: Vec::new(alloc),
            alloc,
        }
    }

    // Returns the pending length in bits.
    #[inline]
    pub(crate) fn len(&self) -> u64
        ensures value { result ≡ self.now.len }
        ensures width { IsWidth N }
        ensures bound { self.now.len < 2 ^ 64 }
    {
        self.len
    }

    // Returns the pending number of pruned chunks.
    pub(crate) fn pruned_chunks(&self) -> usize
        ensures value { result ≡ self.now.pruned }
    {
        self.pruned
    }

    // Returns the allocator.
    pub(crate) fn allocator(&self) -> Global {
        self.alloc
    }

    // Returns whether there are no edits.
    pub(crate) fn is_unedited(&self, current: &Prunable<N>) -> bool
        requires { PendingFits N current.now self.now }
        ensures unedited { result ≡ true → self.now ≡ unedited N current.now }
        ensures width { IsWidth N }
    {
        self.len() == current.len()
            && self.pruned == current.pruned_chunks()
            && self.edited.is_empty()
    }

    // Returns the pending bytes of a chunk.
    pub(crate) fn chunk(&self, current: &Prunable<N>, index: usize) -> [u8; N]
        requires from { current.now.pruned ≤ index }
        requires fits { 8 * N * index < 2 ^ 64 }
        ensures value { result ≡ pending_chunk N current.now self.now index }
        ensures known { IsChunk N result }
    {
        chunk_with(&self.edited, &self.cache, current, self.len, index)
    }

    // Returns the pending bit at a retained position.
    pub(crate) fn get_bit(&self, current: &Prunable<N>, bit: u64) -> bool
        requires edits_fit { PendingFits N current.now self.now }
        requires retained { IsRetained N (pending_bits N current.now self.now) bit }
        ensures { result ≡ bit_at N (pending_bits N current.now self.now) bit }
    {
        match get_bit(&self.edited, &self.cache, bit) {
            Some(value) => value,
            None => current.get_bit(bit),
        }
    }

    // Writes a bit. Does not allocate, and succeeds, if its chunk is edited.
    #[inline]
    pub(crate) fn write(
        &mut self,
        current: &Prunable<N>,
        bit: u64,
        value: bool,
    ) -> Result<(), AllocError>
        requires low { pruned_bits N current.now ≤ bit }
        ensures ok { OnOk result (Writes N current.now self.old bit value self.old.len self.new) }
        ensures err { OnErr result (self.new ≡ self.old) }
        ensures edited { IsSome (edited_chunk self.old (bit / (8 * N))) → IsOk result }
    {
        let len = self.len;
        let index = chunk_index::<N>(bit);
        write_bit(
            &mut self.edited,
            &mut self.cache,
            current,
            len,
            index,
            bit,
            value,
        )?;
        Ok(())
    }

    // Appends a bit. Does not allocate, and succeeds, if its chunk is edited.
    #[inline]
    pub(crate) fn push(&mut self, current: &Prunable<N>, value: bool) -> Result<(), AllocError>
        requires low { pruned_bits N current.now ≤ self.old.len }
        requires fits { self.old.len + 1 < 2 ^ 64 }
        requires zero { IfSome (edited_chunk self.old (self.old.len / (8 * N)))
            (IsClearFrom N (self.old.len / (8 * N)) self.old.len) }
        requires first { self.old.len % (8 * N) ≡ 0
            → edited_chunk self.old (self.old.len / (8 * N)) ≡ None }
        ensures ok { OnOk result
            (Writes N current.now self.old self.old.len value (self.old.len + 1) self.new) }
        ensures err { OnErr result (self.new ≡ self.old) }
        ensures edited { IsSome (edited_chunk self.old (self.old.len / (8 * N))) → IsOk result }
    {
        let len = self.len;
        push_bit(&mut self.edited, &mut self.cache, current, len, value)?;
        self.len = len + 1;
        Ok(())
    }

    // Removes the last bit and returns it, if it is in the cached word and is not the first of its chunk.
    #[inline]
    pub(crate) fn pop_cached(&mut self) -> Option<bool>
        requires some { 0 < self.old.len }
        ensures pops { IfSome result (λ bit. Pops N self.old self.new) }
        ensures bit { IfSome result
            (λ bit. Some bit ≡ option_map (λ bytes. chunk_bit N bytes (self.old.len - 1))
            (edited_chunk self.old ((self.old.len - 1) / (8 * N)))) }
        ensures none { result ≡ None → self.new ≡ self.old }
    {
        let last = self.len - 1;
        if last % chunk_width::<N>() == 0 {
            return None;
        }
        let bit = clear_cached(&mut self.edited, &mut self.cache, last)?;
        self.len = last;
        Some(bit)
    }

    // Removes the last bit, if no chunk is edited. Returns whether none is.
    #[inline]
    pub(crate) fn pop_unedited(&mut self) -> bool
        requires some { 0 < self.old.len }
        ensures pops { result ≡ true → Pops N self.old self.new }
        ensures unedited { result ≡ true
            → edited_chunk self.old ((self.old.len - 1) / (8 * N)) ≡ None }
        ensures other { result ≡ false → self.new ≡ self.old }
    {
        if !self.edited.is_empty() {
            return false;
        }
        self.len -= 1;
        true
    }

    // Removes the last bit, and returns it if its chunk is edited. Does not allocate.
    pub(crate) fn pop(&mut self) -> Option<bool>
        requires some { 0 < self.old.len }
        requires last { (q : ℕ) → self.old.len ≤ 8 * N * q → edited_chunk self.old q ≡ None }
        ensures pops { Pops N self.old self.new }
        ensures bit { result ≡ option_map (λ bytes. chunk_bit N bytes (self.old.len - 1))
            (edited_chunk self.old ((self.old.len - 1) / (8 * N))) }
    {
        let last = self.len - 1;
        let index = chunk_index::<N>(last);
        self.len = last;
        if last % chunk_width::<N>() == 0 {
            settle(&mut self.edited, &mut self.cache);
            let bytes = self.edited.remove(index)?;
            // The next pop, if any, is of this word.
            let before = last.saturating_sub(1);
            self.cache = load(&self.edited, chunk_index::<N>(before), before);
            return Some(bit_of(&bytes, last));
        }
        clear_bit(&mut self.edited, &mut self.cache, last)
    }

    // Shortens the pending bitmap to `total` bits. Does not allocate.
    pub(crate) fn truncate(&mut self, total: u64)
        ensures { Truncates N self.old total self.new }
    {
        cut_to(&mut self.edited, &mut self.cache, total);
        self.len = total;
    }

    // Sets the bits at the positions from `from` up to `to`. After an error nothing is changed.
    // Does not allocate, and succeeds, if each chunk of these positions is edited.
    pub(crate) fn set_range(
        &mut self,
        current: &Prunable<N>,
        from: u64,
        to: u64,
        value: bool,
    ) -> Result<(), AllocError>
        requires low { pruned_bits N current.now ≤ from }
        ensures ok { OnOk result (SetsRange N current.now self.old from to value self.new) }
        ensures err { OnErr result (self.new ≡ self.old) }
        ensures edited { ((k : ℕ) → from ≤ k → k < to
            → IsSome (edited_chunk self.old (k / (8 * N)))) → IsOk result }
    {
        let len = self.len;
        if from >= to {
            return Ok(());
        }
        settle(&mut self.edited, &mut self.cache);
        set_range(&mut self.edited, current, len, from, to, value, self.alloc)?;
        Ok(())
    }

    // Replaces the bits of the chunk at an index, which starts before the length. Bits past the length become zero.
    // After an error nothing is changed. Does not allocate, and succeeds, if the chunk is edited.
    pub(crate) fn set_chunk(&mut self, index: usize, chunk: &[u8; N]) -> Result<(), AllocError>
        requires starts { 8 * N * index < self.old.len }
        ensures ok { OnOk result (SetsChunk N self.old index chunk.now self.new) }
        ensures err { OnErr result (self.new ≡ self.old) }
        ensures edited { IsSome (edited_chunk self.old index) → IsOk result }
    {
        let len = self.len();
        let start = chunk_width::<N>() * index as u64;
        let mut bytes = *chunk;
        cut(&mut bytes, len - start);
        settle(&mut self.edited, &mut self.cache);
        self.edited.replace(index, bytes)?;
        Ok(())
    }

    // Appends zeros up to a length of `total` bits, which is greater than the length. After an error nothing is changed.
    // Does not allocate, and succeeds, if each chunk of the new positions is edited.
    pub(crate) fn extend_to(&mut self, current: &Prunable<N>, total: u64) -> Result<(), AllocError>
        requires edits_fit { PendingFits N current.now self.old }
        requires more { self.old.len < total }
        ensures ok { OnOk result (Appends N current.now self.old
            (replicate (total - self.old.len) false) self.new) }
        ensures err { OnErr result (self.new ≡ self.old) }
        ensures edited { ((k : ℕ) → self.old.len ≤ k → k < total
            → IsSome (edited_chunk self.old (k / (8 * N)))) → IsOk result }
    {
        let len = self.len();
        let first = chunk_index::<N>(len);
        let past = chunk_count::<N>(total);
        settle(&mut self.edited, &mut self.cache);
        open_to(&mut self.edited, current, len, first, past)?;
        self.len = total;
        Ok(())
    }

    // Appends the bits of a bitmap that is not empty. After an error nothing is changed.
    // Does not allocate, and succeeds, if each chunk of the new positions is edited.
    pub(crate) fn extend_from_bitmap(
        &mut self,
        current: &Prunable<N>,
        other: &BitMap<N>,
    ) -> Result<(), AllocError>
        requires edits_fit { PendingFits N current.now self.old }
        requires some { 0 < length other.now }
        requires fits { self.old.len + length other.now < 2 ^ 64 }
        ensures ok { OnOk result (Appends N current.now self.old other.now self.new) }
        ensures err { OnErr result (self.new ≡ self.old) }
        ensures edited { ((k : ℕ) → self.old.len ≤ k → k < self.old.len + length other.now
            → IsSome (edited_chunk self.old (k / (8 * N)))) → IsOk result }
    {
        let len = self.len();
        let total = len + other.len();
        settle(&mut self.edited, &mut self.cache);
        append_bits(&mut self.edited, current, len, other)?;
        self.len = total;
        Ok(())
    }

    // Prunes the chunks before chunk `end`, and captures their old bytes. After an error nothing is changed.
    pub(crate) fn prune(&mut self, current: &Prunable<N>, end: usize) -> Result<(), AllocError>
        requires from { current.now.pruned ≤ self.old.pruned }
        requires fits { 8 * N * end < 2 ^ 64 }
        ensures ok { OnOk result (Prunes N current.now self.old end self.new) }
        ensures err { OnErr result (self.new ≡ self.old) }
        ensures nothing { end ≤ self.old.pruned → IsOk result }
    {
        let first = self.pruned;
        if end <= first {
            return Ok(());
        }
        self.captured.reserve(end - first)?;
        capture(
            &mut self.captured,
            &self.edited,
            &self.cache,
            current,
            self.len,
            first,
            end,
        );
        self.pruned = end;
        Ok(())
    }

    // Appends the bits of at most N bytes, at any length. After an error nothing is changed.
    // Does not allocate, and succeeds, if all bits fall in one edited chunk.
    fn append(&mut self, current: &Prunable<N>, bytes: &[u8]) -> Result<(), AllocError>
        requires edits_fit { PendingFits N current.now self.old }
        requires some { 0 < length bytes.now }
        requires short { length bytes.now ≤ N }
        requires fits { self.old.len + 8 * length bytes.now < 2 ^ 64 }
        ensures ok { OnOk result (Appends N current.now self.old (run_bits bytes.now) self.new) }
        ensures err { OnErr result (self.new ≡ self.old) }
        ensures edited { IsSome (edited_chunk self.old (self.old.len / (8 * N)))
            → self.old.len % (8 * N) + 8 * length bytes.now ≤ 8 * N → IsOk result }
    {
        let len = self.len();
        let count = 8 * bytes.len() as u64;
        let first = chunk_index::<N>(len);
        let space = chunk_width::<N>() - len % chunk_width::<N>();
        let mut begun = self.chunk(current, first);
        join(&mut begun, len, bytes, &[]);
        known(&begun);
        settle(&mut self.edited, &mut self.cache);
        if count <= space {
            self.edited.write(first, begun)?;
            self.len = len + count;
            return Ok(());
        }
        let rest = rest_of(bytes, space);
        known(&rest);
        self.edited.write_two(first, begun, rest)?;
        self.len = len + count;
        Ok(())
    }

    // Appends a byte if the last chunk is edited and has space for it. Returns whether it did. Does not allocate.
    fn put_byte(&mut self, byte: u8) -> bool
        requires fits { self.old.len + 8 < 2 ^ 64 }
        ensures done { result ≡ true → (b : PrunedBits) → PendingFits N b self.old
            → Appends N b self.old (byte_bits byte) self.new }
        ensures other { result ≡ false → self.new ≡ self.old }
    {
        let len = self.len;
        if chunk_width::<N>() - len % chunk_width::<N>() < 8 {
            return false;
        }
        let index = chunk_index::<N>(len);
        if !join_byte(&mut self.edited, &mut self.cache, index, len, byte) {
            return false;
        }
        self.len = len + 8;
        true
    }

    // Appends a byte that ends in the next chunk, if its first bits are in the cached word. Returns whether it did.
    // After an error nothing is changed. Does not allocate, and succeeds, if the byte ends in the last chunk.
    fn cross_byte(&mut self, current: &Prunable<N>, byte: u8) -> Result<bool, AllocError>
        requires edits_fit { PendingFits N current.now self.old }
        requires fits { self.old.len + 8 < 2 ^ 64 }
        ensures done { result ≡ Ok true → Appends N current.now self.old (byte_bits byte) self.new }
        ensures other { result ≡ Ok false → self.new ≡ self.old }
        ensures err { OnErr result (self.new ≡ self.old) }
        ensures space { self.old.len % (8 * N) + 8 ≤ 8 * N → IsOk result }
    {
        let len = self.len();
        let space = chunk_width::<N>() - len % chunk_width::<N>();
        if space >= 8 {
            return Ok(false);
        }
        let rest = rest_of_byte(byte, space);
        known(&rest);
        let index = chunk_index::<N>(len);
        let crossed = cross_byte(&mut self.edited, &mut self.cache, index, len, byte, rest)?;
        if crossed {
            self.len = len + 8;
        }
        Ok(crossed)
    }

    // Appends the eight bits of a byte, lowest first, at any length. Does not allocate, and succeeds, if all fall in one edited chunk.
    pub(crate) fn push_byte(&mut self, current: &Prunable<N>, byte: u8) -> Result<(), AllocError>
        requires edits_fit { PendingFits N current.now self.old }
        requires fits { self.old.len + 8 < 2 ^ 64 }
        ensures ok { OnOk result (Appends N current.now self.old (byte_bits byte) self.new) }
        ensures err { OnErr result (self.new ≡ self.old) }
        ensures edited { IsSome (edited_chunk self.old (self.old.len / (8 * N)))
            → self.old.len % (8 * N) + 8 ≤ 8 * N → IsOk result }
    {
        let _ = self.len();
        if self.put_byte(byte) {
            return Ok(());
        }
        let crossed = self.cross_byte(current, byte)?;
        if crossed {
            return Ok(());
        }
        self.append(current, &[byte])
    }

    // Appends the bits of a chunk, at any length.
    pub(crate) fn push_chunk(
        &mut self,
        current: &Prunable<N>,
        chunk: &[u8; N],
    ) -> Result<(), AllocError>
        requires edits_fit { PendingFits N current.now self.old }
        requires fits { self.old.len + 8 * N < 2 ^ 64 }
        ensures ok { OnOk result
            (Appends N current.now self.old (chunk_bits N chunk.now) self.new) }
        ensures err { OnErr result (self.new ≡ self.old) }
    {
        let _ = self.len();
        self.append(current, chunk)
    }

    // Returns the first edited chunk from chunk `from` on.
    pub(crate) fn next_edited(&self, from: usize) -> Option<usize>
        ensures { IsNextMember (keys_of self.now.edited) from result }
    {
        self.edited.next_from(from)
    }

    // Returns the first marked chunk from chunk `from` on.
    pub(crate) fn next_marked(&self, current: &Prunable<N>, from: usize) -> Option<usize>
        requires edits_fit { PendingFits N current.now self.now }
        requires low { current.now.pruned ≤ from }
        ensures { IsNextMember (marked_chunks N current.now self.now) from result }
    {
        if from < self.pruned_chunks() {
            return Some(from);
        }
        let total = current.len();
        let edited = self.next_edited(from);
        if self.len() < total {
            let at = from.max(chunk_index::<N>(self.len()));
            if at <= chunk_index::<N>(total - 1) {
                return match edited {
                    Some(index) if index < at => Some(index),
                    _ => Some(at),
                };
            }
        }
        edited
    }

    // Returns what a commit does to a marked chunk, with its old bytes.
    pub(crate) fn diff(&self, current: &Prunable<N>, index: usize) -> ChunkDiff<N>
        requires low { current.now.pruned ≤ index }
        requires count { length self.now.captured ≡ self.now.pruned - current.now.pruned }
        requires fits { 8 * N * index < 2 ^ 64 }
        ensures { diff_value result ≡ diff_of N current.now self.now index }
    {
        if index < self.pruned {
            return ChunkDiff::Pruned(self.captured[index - current.pruned_chunks()]);
        }
        let start = chunk_width::<N>() * index as u64;
        if start >= current.len() {
            return ChunkDiff::Added;
        }
        let old = *current.get_chunk(index);
        if start < self.len {
            ChunkDiff::Modified(old)
        } else {
            ChunkDiff::Removed(old)
        }
    }

    // Returns the index of the first chunk that loses bits at the end of the current bitmap, which has `total` bits.
    // If there is none, returns the pending number of chunks.
    fn first_cut(&self, total: u64) -> usize
        ensures { result ≡ first_cut_of N self.now total }
    {
        let len = self.len();
        if len < total {
            chunk_index::<N>(len)
        } else {
            chunk_count::<N>(len)
        }
    }

    // Returns the map of the edited chunks that are not appended, and the part of the appended ones from index `from` up to `to`.
    fn edited_between(&self, from: usize, to: usize) -> (&ChunkMap<N>, usize, usize)
        requires order { from ≤ to }
        ensures from { from ≤ result.1 }
        ensures rises { result.1 ≤ result.2 }
        ensures to { result.2 ≤ to }
        ensures indices { members_between (keys_of self.now.edited) from to
            ≡ members_between (keys_of result.0.now.entries) from result.1
            ++ (from_to result.1 result.2
            ++ members_between (keys_of result.0.now.entries) result.2 to) }
    {
        self.edited.parts_between(from, to)
    }

    // Returns the number of marked chunks from `first` up to `cut`, or more. Edited chunks of the map that are pruned, and the one at `cut`,
    // may count twice. But no more chunks count as edited than are between the pruned ones and `cut`.
    fn most_marked(&self, first: usize, cut: usize) -> usize
        requires order { self.now.pruned ≤ cut }
    {
        let pruned = self.pruned;
        let (others, start, past) = self.edited_between(pruned, cut);
        let edited = others.len().saturating_add(past - start).min(cut - pruned);
        pruned.saturating_sub(first).saturating_add(edited)
    }

    // Returns the reverse record of the edits: one entry per marked chunk, ascending. Allocates once, or never if no chunk is marked.
    pub(crate) fn record(
        &self,
        current: &Prunable<N>,
        alloc: Global,
    ) -> Result<CommitDiff<N>, AllocError>
        requires edits_fit { PendingFits N current.now self.now }
        ensures reverses { IfOk result (λ r. IsRecordOf N current.now self.now r) }
        ensures leads_back { IfOk result
            (λ r. LeadsBack N r current.now (pending_bits N current.now self.now)) }
        ensures can_undo { IfOk result (λ r. CanUndo N r (pending_bits N current.now self.now)) }
        ensures bound { IfOk result
            (λ r. length r.entries ≤ distinct_count nat_eq (marked_chunks N current.now self.now)) }
    {
        let _ = self.len();
        let total = current.len();
        let first = current.pruned_chunks();
        let cut = self.first_cut(total);
        let end = chunk_count::<N>(total).max(cut);
        let count = self.most_marked(first, cut).saturating_add(end - cut);
        let mut record = CommitDiff::with_capacity(alloc, total, first, count)?;
        record_range(&mut record, self, current, first, self.pruned)?;
        record_edited(&mut record, self, current, self.pruned, cut)?;
        record_range(&mut record, self, current, cut, end)?;
        Ok(record)
    }

    // Returns the edited chunks by index. Does not allocate.
    pub(crate) fn into_edited(mut self) -> EditedChunks<N>
        ensures { result ≡ self.entry.edited }
    {
        settle(&mut self.edited, &mut self.cache);
        self.edited
    }

    // Returns a copy. Allocates for its chunks.
    pub(crate) fn duplicate(&self) -> Result<Self, AllocError>
        ensures { IfOk result (λ copy. copy ≡ self.now) }
    {
        let captured = self.captured.clone()?;
        Ok(Dirty {
            len: self.len,
            pruned: self.pruned,
            edited: self.edited.duplicate()?,
            cache: self.cache,
            captured,
            alloc: self.alloc,
        })
    }
}
