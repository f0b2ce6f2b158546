//! The edited chunks of a batch by index.

ghost use Rattle.std.specs.Prelude.{◌≡◌, ℕ, ◌+◌, ◌*◌, ◌/◌, ◌%◌, ◌^◌, ◌<◌, ◌≤◌, ◌≢◌, ◌==◌, ◌⊎◌, ◌++◌, ◌&&◌, [], List, length, take, Option, Some, None, IfSome, MatchOption, OnOk, OnErr, IfOk, IsOk, IsSome, nat_eq, nat_le, nat_lt, true, false};
ghost use Rattle.std.specs.Borrow.{Array, LendsIf, sem, u8 as byte_row};
ghost use Rattle.std.specs.Int.{bit_at};
ghost use Rattle.std.specs.List.Sorted.{IsStrictlySortedBy};
ghost use Rattle.std.specs.Map.{keys_of, lookup};
ghost use Rattle.std.specs.Option.{option_copied, option_map};
ghost use Rattle.std.specs.Ordering.{nat_cmp};
ghost use Rattle.std.specs.Set.{is_member};
ghost use Rattle.bitmap_bytes.specs.Chunk.{chunk_bit, IsWidth};
ghost use Rattle.bitmap_core.specs.PrunedBits.{chunk, truncated};
ghost use Rattle.chunk_map.specs.Entries.{IsNextMember, Puts, with_chunk};
ghost use Rattle.chunk_map.specs.Trie.{IsAt};
ghost use Rattle.historical_bitmap.specs.Appended.{IsBeside, IsSlot, with_appended};
ghost use Rattle.historical_bitmap.specs.Edits.{from_to};
ghost use Rattle.historical_bitmap.specs.Pending.{DropsFrom, IsByteSetIn, IsCut, IsPartSetIn, IsSetIn, IsWritten, PutsEach, PutsTwo, SetsIn, members_between};
ghost use Rattle.historical_bitmap.specs.CachedWord.{IsCachedWord, with_word};

use crate::bitmap::historical::cut_chunks::first_chunk;
use crate::bitmap::historical::word::put_word;
use bitmap_core::bitmap::prunable::Prunable;
use bitmap_core::chunk::facts::known;
use bitmap_core::chunk::join::join_byte;
use bitmap_core::chunk::range::set_in;
use bitmap_core::chunk::{bit_mask, byte_index, chunk_width, get_bit};
use chunk_map::map::ChunkMap;
use std::alloc::{AllocError, Global};
use std::marker::Model;

// Chunks by index. The appended ones, whose indices are consecutive, are found without a search: they are in one block, and `first` is the
// index of the first. The others are stored in a map, where a chunk is first looked for at the place `recent`: that of the chunk that was
// written last. So consecutive writes to one chunk search once.
#[derive(Debug, Drop)]
pub(crate) struct EditedChunks<const N: usize> {
    stored: ChunkMap<N>,
    recent: usize,
    first: usize,
    appended: Vec<[u8; N]>,
}

impl<const N: usize> Model for EditedChunks<N> {
    ghost use Rattle.std.specs.Prelude.{ℕ, List};
    ghost use Rattle.historical_bitmap.specs.Appended.{IsAppended, with_appended};

    ghost Value = { List (ℕ × List ℕ) };

    ghost view = { λ c. with_appended c.first c.appended.items c.stored.entries };

    ghost invariant = { λ c. IsAppended N c.stored.entries c.first c.appended.items };
}

// Where the bytes of a chunk are: at a place of the appended chunks, or at a place of the map.
#[derive(Clone, Copy)]
enum Slot {
    Appended(usize),
    Stored(usize),
}

// Returns whether an index is one of `count` indices from `first` on.
#[inline]
fn is_in(first: usize, count: usize, index: usize) -> bool
    ensures { result ≡ (nat_le first index && nat_lt index (first + count)) }
{
    first <= index && index - first < count
}

// Returns whether an index is next after `count` indices from `first` on, or there are none.
fn is_next(first: usize, count: usize, index: usize) -> bool
    ensures next { result ≡ true → 0 < count → index ≡ first + count }
    ensures begins { count ≡ 0 → result ≡ true }
    ensures extends { index ≡ first + count → result ≡ true }
{
    count == 0 || first <= index && index - first == count
}

// Returns the place of the chunk at an index, if there is one. Does not search if that is the place `recent`.
#[inline]
fn place_of<const N: usize>(chunks: &ChunkMap<N>, recent: usize, index: usize) -> Option<usize>
    ensures place { MatchOption result (lookup (nat_eq index) chunks.now.entries ≡ None)
        (IsAt chunks.now.indices index) }
{
    if recent < chunks.len() {
        if chunks.index_at(recent) == index {
            return Some(recent);
        }
    }
    chunks.find(index)
}

// Returns where the bytes of the chunk at an index are, if there is one. Does not search for an appended chunk.
#[inline]
fn slot_of<const N: usize>(
    stored: &ChunkMap<N>,
    recent: usize,
    first: usize,
    count: usize,
    index: usize,
) -> Option<Slot>
    ensures { MatchOption result
        (IsBeside first count index × (lookup (nat_eq index) stored.now.entries ≡ None))
        (IsSlot stored.now.indices first count index) }
{
    if is_in(first, count, index) {
        return Some(Slot::Appended(index - first));
    }
    match place_of(stored, recent, index) {
        Some(place) => Some(Slot::Stored(place)),
        None => None,
    }
}

// Returns a byte with bit `bit mod 8` set to `value`. Its other bits do not change.
#[inline]
fn with_bit(byte: u8, bit: u64, value: bool) -> u8
    ensures here { (bit_at result (bit % 8) == 1) ≡ value }
    ensures others { (k : ℕ) → k < 8 → k ≢ bit % 8 → bit_at result k ≡ bit_at byte k }
{
    let mask = bit_mask(bit);
    if value { byte | mask } else { byte & !mask }
}

// Writes a bit of a chunk and returns the old one.
#[inline]
fn replace_bit<const N: usize>(chunk: &mut [u8; N], bit: u64, value: bool) -> bool
    requires width { IsWidth N }
    ensures old { result ≡ chunk_bit N chunk.old bit }
    ensures new { IsWritten N chunk.old bit value chunk.new }
{
    let at = byte_index::<N>(bit);
    let old = get_bit(chunk, bit);
    let byte = with_bit(chunk[at], bit, value);
    chunk[at] = byte;
    known(chunk);
    old
}

// Returns the current bitmap's chunk at an index, cut to `len` bits, with a bit written.
#[inline(never)]
fn first_with<const N: usize>(
    current: &Prunable<N>,
    len: u64,
    index: usize,
    bit: u64,
    value: bool,
) -> [u8; N]
    requires width { IsWidth N }
    requires from { current.now.pruned ≤ index }
    requires fits { 8 * N * index < 2 ^ 64 }
    ensures { IsWritten N (chunk N (truncated N current.now len) index) bit value result }
{
    let mut bytes = first_chunk(current, len, index);
    let _ = replace_bit(&mut bytes, bit, value);
    bytes
}

// Removes the chunks of a map from index `from` on. Does not allocate.
fn remove_from<const N: usize>(chunks: &mut ChunkMap<N>, from: usize)
    requires width { IsWidth N }
    ensures { DropsFrom chunks.old.entries chunks.new.entries from }
{
    while let Some(index) = chunks.next_from(from) {
        let _ = chunks.remove(index);
    }
}

// Removes the chunks at the first `count` of some indices from a map. Does not allocate.
fn remove_each<const N: usize>(stored: &mut ChunkMap<N>, indices: &[usize], count: usize)
    requires width { IsWidth N }
    requires within { count ≤ length indices.now }
    ensures removed { PutsEach stored.old.entries stored.new.entries (take count indices.now)
        (λ q. None) }
    ensures sorted { IsStrictlySortedBy nat_cmp (keys_of stored.new.entries) }
{
    for at in 0..count {
        let _ = stored.remove(indices[at]);
    }
    stored.order();
}

// Inserts the current bitmap's chunk, cut to `len` bits, at each of some indices that have no chunk in a map.
// After an error the map has the old chunks. Does not allocate, and succeeds, if there are no indices.
fn insert_each<const N: usize>(
    stored: &mut ChunkMap<N>,
    current: &Prunable<N>,
    len: u64,
    indices: &[usize],
) -> Result<(), AllocError>
    requires from { (q : ℕ) → is_member nat_eq indices.now q ≡ true → current.now.pruned ≤ q }
    requires fits { (q : ℕ) → is_member nat_eq indices.now q ≡ true → 8 * N * q < 2 ^ 64 }
    requires absent { (q : ℕ) → is_member nat_eq indices.now q ≡ true
        → lookup (nat_eq q) stored.old.entries ≡ None }
    ensures ok { OnOk result
        (PutsEach stored.old.entries stored.new.entries indices.now
        (λ q. Some (chunk N (truncated N current.now len) q))) }
    ensures err { OnErr result (stored.new.entries ≡ stored.old.entries) }
    ensures none { length indices.now ≡ 0 → IsOk result }
{
    let _ = current.len();
    stored.order();
    for at in 0..indices.len() {
        let index = indices[at];
        if stored
            .insert(index, first_chunk(current, len, index))
            .is_err()
        {
            remove_each(stored, indices, at);
            return Err(AllocError);
        }
    }
    Ok(())
}

impl<const N: usize> EditedChunks<N> {
    ghost use Rattle.historical_bitmap.specs.contracts.bitmap.historical.edited.EditedChunks.{the_row};

    // Returns a collection without chunks. Does not allocate.
    pub(crate) fn new(alloc: Global) -> Self
        requires width { IsWidth N }
        ensures { result ≡ [] }
    {
        EditedChunks {
            stored: ChunkMap::new(alloc),
            recent: 0,
            first: 0,
            appended: Vec::new(alloc),
        }
    }

    // States that the indices ascend.
    fn order(&self)
        ensures { IsStrictlySortedBy nat_cmp (keys_of self.now) }
    {
        self.stored.order();
    }

    // Returns the chunk at an index, if there is one.
    #[inline]
    pub(crate) fn get(&self, index: usize) -> Option<&[u8; N]>
        ensures value { option_copied result ≡ lookup (nat_eq index) self.now }
        ensures sorted { IsStrictlySortedBy nat_cmp (keys_of self.now) }
    {
        self.order();
        let count = self.appended.len();
        match slot_of(&self.stored, self.recent, self.first, count, index) {
            Some(Slot::Appended(place)) => Some(&self.appended[place]),
            Some(Slot::Stored(place)) => Some(self.stored.chunk_at(place)),
            None => None,
        }
    }

    // Returns the chunk at an index, if there is one, to be changed in its place.
    // It is always inlined: as a call it makes `set_bit` near the last position take a fifth more instructions.
    #[inline(always)]
    pub(crate) fn get_mut(&mut self, index: usize) -> Option<&mut [u8; N]>
        ensures* writes_back { sem 𝓛
            (LendsIf (the_row N.row) (Array byte_row N) self.entry result
            (with_chunk self.old index) self.old) }
        ensures value { option_map (λ chunk. chunk.now) result ≡ lookup (nat_eq index) self.old }
        ensures sorted { IsStrictlySortedBy nat_cmp (keys_of self.old) }
    {
        self.order();
        self.stored.order();
        let count = self.appended.len();
        match slot_of(&self.stored, self.recent, self.first, count, index) {
            Some(Slot::Appended(place)) => Some(&mut self.appended[place]),
            Some(Slot::Stored(place)) => {
                self.recent = place;
                Some(self.stored.chunk_mut(place))
            }
            None => None,
        }
    }

    // Inserts a chunk at an index that has none. It is appended if it is next there.
    #[inline]
    pub(crate) fn open(&mut self, index: usize, chunk: [u8; N]) -> Result<(), AllocError>
        requires absent { lookup (nat_eq index) self.old ≡ None }
        ensures ok { OnOk result (Puts self.old self.new index (Some chunk.entry)) }
        ensures err { OnErr result (self.new ≡ self.old) }
        ensures sorted { IsStrictlySortedBy nat_cmp (keys_of self.new) }
    {
        self.stored.order();
        let count = self.appended.len();
        if !is_next(self.first, count, index) {
            return self.stored.add(index, chunk);
        }
        self.appended.push(chunk)?;
        if count == 0 {
            self.first = index;
        }
        Ok(())
    }

    // Inserts a chunk at an index that has none. It is never appended.
    fn insert(&mut self, index: usize, chunk: [u8; N]) -> Result<(), AllocError>
        requires absent { lookup (nat_eq index) self.old ≡ None }
        ensures ok { OnOk result (Puts self.old self.new index (Some chunk.entry)) }
        ensures err { OnErr result (self.new ≡ self.old) }
    {
        self.recent = self.stored.len();
        self.stored.add(index, chunk)
    }

    // Inserts or replaces the chunk at an index. A new one is appended if it is next there.
    // Does not allocate, and succeeds, if there is a chunk.
    pub(crate) fn write(&mut self, index: usize, chunk: [u8; N]) -> Result<(), AllocError>
        ensures ok { OnOk result (Puts self.old self.new index (Some chunk.entry)) }
        ensures err { OnErr result (self.new ≡ self.old) }
        ensures edited { IsSome (lookup (nat_eq index) self.old) → IsOk result }
        ensures was_sorted { IsStrictlySortedBy nat_cmp (keys_of self.old) }
        ensures sorted { IsStrictlySortedBy nat_cmp (keys_of self.new) }
    {
        match self.get_mut(index) {
            Some(old) => {
                *old = chunk;
                Ok(())
            }
            None => self.open(index, chunk),
        }
    }

    // As `write`, for a chunk that need not be appended: a new one never is.
    pub(crate) fn replace(&mut self, index: usize, chunk: [u8; N]) -> Result<(), AllocError>
        ensures ok { OnOk result (Puts self.old self.new index (Some chunk.entry)) }
        ensures err { OnErr result (self.new ≡ self.old) }
        ensures edited { IsSome (lookup (nat_eq index) self.old) → IsOk result }
    {
        match self.get_mut(index) {
            Some(bytes) => {
                *bytes = chunk;
                Ok(())
            }
            None => self.insert(index, chunk),
        }
    }

    // Inserts or replaces the chunk at an index, and inserts one at the next. There is no chunk past the index.
    // After an error nothing is changed.
    pub(crate) fn write_two(
        &mut self,
        index: usize,
        first: [u8; N],
        second: [u8; N],
    ) -> Result<(), AllocError>
        requires next { index + 1 < 2 ^ 64 }
        requires last { (q : ℕ) → index < q → lookup (nat_eq q) self.old ≡ None }
        ensures ok { OnOk result (PutsTwo self.old self.new index first.entry second.entry) }
        ensures err { OnErr result (self.new ≡ self.old) }
    {
        self.write(index + 1, second)?;
        if self.write(index, first).is_err() {
            let _ = self.remove(index + 1);
            return Err(AllocError);
        }
        Ok(())
    }

    // Writes a bit of the chunk at an index. Starts from the current bitmap's chunk, cut to `len` bits, if none is edited there.
    // Does not allocate, and succeeds, if that chunk is edited.
    #[inline]
    pub(crate) fn write_bit(
        &mut self,
        current: &Prunable<N>,
        len: u64,
        index: usize,
        bit: u64,
        value: bool,
    ) -> Result<(), AllocError>
        requires width { IsWidth N }
        requires from { current.now.pruned ≤ index }
        requires fits { 8 * N * index < 2 ^ 64 }
        ensures ok { OnOk result
            ((bytes : List ℕ) × SetsIn N
            (chunk N (truncated N current.now len) index) self.old self.new index bit value
            bytes) }
        ensures err { OnErr result (self.new ≡ self.old) }
        ensures edited { IsSome (lookup (nat_eq index) self.old) → IsOk result }
    {
        match self.get_mut(index) {
            Some(chunk) => {
                let _ = replace_bit(chunk, bit, value);
                Ok(())
            }
            None => self.write_first(current, len, index, bit, value),
        }
    }

    // As `write_bit`, for a chunk that is not edited. It is kept out of the way of writes to edited chunks.
    #[cold]
    #[inline(never)]
    fn write_first(
        &mut self,
        current: &Prunable<N>,
        len: u64,
        index: usize,
        bit: u64,
        value: bool,
    ) -> Result<(), AllocError>
        requires width { IsWidth N }
        requires from { current.now.pruned ≤ index }
        requires fits { 8 * N * index < 2 ^ 64 }
        requires absent { lookup (nat_eq index) self.old ≡ None }
        ensures ok { OnOk result
            ((bytes : List ℕ) × SetsIn N (chunk N (truncated N current.now len) index) self.old
            self.new index bit value bytes) }
        ensures err { OnErr result (self.new ≡ self.old) }
    {
        self.insert(index, first_with(current, len, index, bit, value))
    }

    // As `write_bit`, for a bit that is appended at a position, which is the length. A new chunk is appended if it is next there.
    #[inline]
    pub(crate) fn push_bit(
        &mut self,
        current: &Prunable<N>,
        index: usize,
        bit: u64,
        value: bool,
    ) -> Result<(), AllocError>
        requires width { IsWidth N }
        requires index { index ≡ bit / (8 * N) }
        requires from { current.now.pruned ≤ index }
        ensures ok { OnOk result
            ((bytes : List ℕ) × SetsIn N
            (chunk N (truncated N current.now bit) index) self.old self.new index bit value
            bytes) }
        ensures err { OnErr result (self.new ≡ self.old) }
        ensures edited { IsSome (lookup (nat_eq index) self.old) → IsOk result }
    {
        match self.get_mut(index) {
            Some(last) => {
                let _ = replace_bit(last, bit, value);
                Ok(())
            }
            None => self.open(index, first_with(current, bit, index, bit, value)),
        }
    }

    // Replaces a bit of the chunk at an index and returns the old one, if there is such a chunk. Does not allocate.
    #[inline]
    pub(crate) fn replace_bit(&mut self, index: usize, bit: u64, value: bool) -> Option<bool>
        requires width { IsWidth N }
        ensures bit { result ≡ option_map (λ chunk. chunk_bit N chunk bit)
            (lookup (nat_eq index) self.old) }
        ensures none { lookup (nat_eq index) self.old ≡ None → self.new ≡ self.old }
        ensures some { IfSome (lookup (nat_eq index) self.old)
            (λ chunk. IsSetIn N self.old self.new index chunk bit value) }
        ensures sorted { IsStrictlySortedBy nat_cmp (keys_of self.new) }
    {
        match self.get_mut(index) {
            Some(chunk) => Some(replace_bit(chunk, bit, value)),
            None => None,
        }
    }

    // Writes the eight bits of a byte from position `bit` on, if there is a chunk at the index. Returns whether there is. Does not allocate.
    #[inline]
    pub(crate) fn join_byte(&mut self, index: usize, bit: u64, byte: u8) -> bool
        requires width { IsWidth N }
        requires space { bit % (8 * N) + 8 ≤ 8 * N }
        ensures written { result ≡ true → IsByteSetIn N self.old self.new index bit byte }
        ensures other { result ≡ false → self.new ≡ self.old }
        ensures none { result ≡ false → lookup (nat_eq index) self.old ≡ None }
    {
        match self.get_mut(index) {
            Some(chunk) => {
                join_byte(chunk, bit, byte);
                known(chunk);
                true
            }
            None => false,
        }
    }

    // Sets the bits of an edited chunk at or above bit `from` and below bit `to`, counted from its start. Does not allocate.
    pub(crate) fn set_in(&mut self, index: usize, from: u64, to: u64, value: bool)
        requires width { IsWidth N }
        requires within { to ≤ 8 * N }
        requires edited { IsSome (lookup (nat_eq index) self.old) }
        ensures { IsPartSetIn N self.old self.new index from to value }
    {
        if let Some(chunk) = self.get_mut(index) {
            set_in(chunk, from, to, value);
            known(chunk);
        }
    }

    // Writes a word to the chunk at an index. Does not allocate.
    #[inline]
    pub(crate) fn put_word(&mut self, index: usize, base: u64, count: u64, word: u64)
        requires tail { IsCachedWord N self.old (Some index) base count }
        ensures { self.new ≡ with_word N self.old (Some index) base count word }
    {
        if let Some(bytes) = self.get_mut(index) {
            put_word(bytes, base, count, word);
        }
    }

    // Clears the bits of the chunk at an index from bit `from` on, counted from its start, if there is a chunk. Does not allocate.
    pub(crate) fn cut(&mut self, index: usize, from: u64)
        requires width { IsWidth N }
        ensures here { IsCut N from (lookup (nat_eq index) self.old)
            (lookup (nat_eq index) self.new) }
        ensures others { (q : ℕ) → q ≢ index
            → lookup (nat_eq q) self.new ≡ lookup (nat_eq q) self.old }
    {
        if self.get(index).is_some() {
            self.set_in(index, from, chunk_width::<N>(), false);
        }
    }

    // Allocates space for `count` chunks from an index on, if they would be appended. Nothing is changed, also after an error.
    pub(crate) fn reserve(&mut self, index: usize, count: usize) -> Result<(), AllocError>
        ensures { self.new ≡ self.old }
    {
        if is_next(self.first, self.appended.len(), index) {
            self.appended.reserve(count)?;
        }
        Ok(())
    }

    // Inserts the current bitmap's chunk, cut to `len` bits, at each of some indices that have no chunk. None is appended.
    // After an error nothing is changed. Does not allocate, and succeeds, if there are no indices.
    pub(crate) fn insert_each(
        &mut self,
        current: &Prunable<N>,
        len: u64,
        indices: &[usize],
    ) -> Result<(), AllocError>
        requires from { (q : ℕ) → is_member nat_eq indices.now q ≡ true → current.now.pruned ≤ q }
        requires fits { (q : ℕ) → is_member nat_eq indices.now q ≡ true → 8 * N * q < 2 ^ 64 }
        requires absent { (q : ℕ) → is_member nat_eq indices.now q ≡ true
            → lookup (nat_eq q) self.old ≡ None }
        ensures ok { OnOk result
            (PutsEach self.old self.new indices.now
            (λ q. Some (chunk N (truncated N current.now len) q))) }
        ensures err { OnErr result (self.new ≡ self.old) }
        ensures none { length indices.now ≡ 0 → IsOk result }
    {
        insert_each(&mut self.stored, current, len, indices)
    }

    // Removes the chunk at an index, past which there is none, and returns it. Does not allocate.
    pub(crate) fn remove(&mut self, index: usize) -> Option<[u8; N]>
        requires last { (q : ℕ) → index < q → lookup (nat_eq q) self.old ≡ None }
        ensures value { result ≡ lookup (nat_eq index) self.old }
        ensures removed { Puts self.old self.new index None }
        ensures sorted { IsStrictlySortedBy nat_cmp (keys_of self.new) }
    {
        self.stored.order();
        if is_in(self.first, self.appended.len(), index) {
            return self.appended.pop();
        }
        self.stored.remove(index)
    }

    // Removes the chunks from index `from` on. Does not allocate.
    pub(crate) fn drop_from(&mut self, from: usize)
        ensures dropped { DropsFrom self.old self.new from }
        ensures sorted { IsStrictlySortedBy nat_cmp (keys_of self.new) }
    {
        remove_from(&mut self.stored, from);
        self.stored.order();
        self.appended.truncate(from.saturating_sub(self.first));
    }

    // Returns the map, and the part of the appended chunks from index `from` up to `to`: its first index, and the one past its last.
    pub(crate) fn parts_between(&self, from: usize, to: usize) -> (&ChunkMap<N>, usize, usize)
        requires order { from ≤ to }
        ensures from { from ≤ result.1 }
        ensures rises { result.1 ≤ result.2 }
        ensures to { result.2 ≤ to }
        ensures indices { members_between (keys_of self.now) from to
            ≡ members_between (keys_of result.0.now.entries) from result.1
            ++ (from_to result.1 result.2
            ++ members_between (keys_of result.0.now.entries) result.2 to) }
    {
        let first = self.first.clamp(from, to);
        let past = self
            .first
            .saturating_add(self.appended.len())
            .clamp(from, to);
        (&self.stored, first, past)
    }

    // Returns whether there is no chunk.
    pub(crate) fn is_empty(&self) -> bool
        ensures none { result ≡ true → self.now ≡ [] }
        ensures some { result ≡ false → 0 < length self.now }
    {
        self.appended.len() == 0 && self.stored.is_empty()
    }

    // Returns the first index from `from` on that has a chunk.
    pub(crate) fn next_from(&self, from: usize) -> Option<usize>
        ensures { IsNextMember (keys_of self.now) from result }
    {
        let other = self.stored.next_from(from);
        let first = from.max(self.first);
        if first - self.first >= self.appended.len() {
            return other;
        }
        match other {
            Some(index) if index < first => Some(index),
            _ => Some(first),
        }
    }

    // Returns a copy. Allocates for its chunks.
    pub(crate) fn duplicate(&self) -> Result<Self, AllocError>
        ensures { IfOk result (λ copy. copy ≡ self.now) }
    {
        Ok(EditedChunks {
            stored: self.stored.duplicate()?,
            recent: self.recent,
            first: self.first,
            appended: self.appended.clone()?,
        })
    }

    // Returns the map, the index of the first appended chunk, and the appended chunks. Does not allocate.
    pub(crate) fn into_parts(self) -> (ChunkMap<N>, usize, Vec<[u8; N]>)
        ensures entries { with_appended result.1 result.2.items result.0.entries ≡ self.entry }
        ensures apart { (q : ℕ) → result.1 ≤ q → q < result.1 + length result.2.items
            → lookup (nat_eq q) result.0.entries ≡ None }
        ensures sorted { IsStrictlySortedBy nat_cmp (keys_of self.entry) }
    {
        self.stored.order();
        (self.stored, self.first, self.appended)
    }
}
