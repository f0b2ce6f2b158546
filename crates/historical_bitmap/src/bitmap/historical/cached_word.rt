//! The cached word of a batch: a word of an edited chunk, to which single pushes and pops write.

ghost use Rattle.std.specs.Prelude.{◌≡◌, ℕ, ◌+◌, ◌-◌, ◌*◌, ◌/◌, ◌%◌, ◌^◌, ◌<◌, ◌≤◌, ◌&&◌, ◌++◌, ◌⊎◌, [], List, length, replicate, Option, Some, None, Ok, IfOk, IfSome, OnOk, OnErr, IsOk, IsSome, if◌then◌else◌, nat_eq, nat_le, nat_lt, true, false};
ghost use Rattle.std.specs.Int.{bit_at, div_ceil};
ghost use Rattle.std.specs.Map.{lookup};
ghost use Rattle.std.specs.Option.{option_map};
ghost use Rattle.bitmap_bytes.specs.Chunk.{chunk_bit, IsChunk, IsWidth};
ghost use Rattle.bitmap_bytes.specs.Words.{next_word};
ghost use Rattle.bitmap_core.specs.PrunedBits.{chunk, truncated};
ghost use Rattle.historical_bitmap.specs.Pending.{CrossesByte, CutsChunks, IsByteSetIn, IsClearFrom, IsSetIn, PutsTwo, SetsChunks, SetsIn, members_between};
ghost use Rattle.historical_bitmap.specs.CachedWord.{IsCached, is_cached_at, with_cached};

use crate::bitmap::historical::edited::EditedChunks;
use crate::bitmap::historical::word::put_word;
use bitmap_core::bitmap::prunable::Prunable;
use bitmap_core::chunk::facts::known;
use bitmap_core::chunk::load::{following_word, word_base, word_below};
use bitmap_core::chunk::{chunk_index, chunk_width, get_bit as bit_of};
use std::alloc::AllocError;

// The greatest width, in bytes, of chunks of which a word is cached.
const WIDEST: usize = 64;

// A word of an edited chunk: the `count` bits from position `base` on of the chunk at index `chunk`. There is none if `count` is 0.
// It is written back to its chunk before another call reads or writes that chunk, which keeps outdated bits in place of those of the word.
#[derive(Debug, Clone, Copy)]
pub(crate) struct CachedWord {
    chunk: Option<usize>,
    base: u64,
    count: u64,
    word: u64,
}

// Returns whether a position is among `count` positions from `base` on. Takes one comparison: a difference that wraps is at least `count`.
#[inline]
fn is_within(base: u64, count: u64, bit: u64) -> bool
    requires { base + count ≤ 2 ^ 64 }
    ensures { result ≡ (nat_le base bit && nat_lt bit (base + count)) }
{
    bit.wrapping_sub(base) < count
}

// Returns the word whose only bit that may be set is bit `at`, which is `value`.
#[inline]
fn mask_if(at: u64, value: bool) -> u64
    requires { at < 64 }
    ensures { result ≡ (if value then 2 ^ at else 0) }
{
    (value as u64) << at
}

// Returns whether the eight bits from a position on are among `count` positions from `base` on.
#[inline]
fn has_byte(base: u64, count: u64, bit: u64) -> bool
    requires { base + count ≤ 2 ^ 64 }
    ensures { result ≡ true → (base ≤ bit) × (bit + 8 ≤ base + count) }
{
    is_within(base, count, bit) && count - (bit - base) >= 8
}

// Returns a word with the eight bits of a byte from bit `at` on, or those of them that the word has. Its other bits do not change.
#[inline]
fn with_byte(word: u64, at: u64, byte: u8) -> u64
    requires { at < 64 }
    ensures here { (t : ℕ) → t < 8 → at + t < 64 → bit_at result (at + t) ≡ bit_at byte t }
    ensures others { (t : ℕ) → t < 64 → (t < at) ⊎ (at + 8 ≤ t) → bit_at result t ≡ bit_at word t }
{
    word & !(255 << at) | (byte as u64) << at
}

// Returns whether an index is that of the chunk with the cached word.
fn is_cached(cached: Option<usize>, index: usize) -> bool
    ensures { result ≡ is_cached_at cached index }
{
    match cached {
        Some(cached) => cached == index,
        None => false,
    }
}

// Returns the cache without a word.
pub(crate) fn no_word() -> CachedWord
    ensures chunk { result.chunk ≡ None }
    ensures count { result.count ≡ 0 }
{
    CachedWord {
        chunk: None,
        base: 0,
        count: 0,
        word: 0,
    }
}

// Writes the word, if there is one, to its chunk. Does not allocate.
#[inline]
pub(crate) fn settle<const N: usize>(chunks: &mut EditedChunks<N>, cache: &mut CachedWord)
    requires { IsCached N chunks.old cache.old }
    ensures value { chunks.new ≡ with_cached N chunks.old cache.old }
    ensures chunk { cache.new.chunk ≡ None }
    ensures count { cache.new.count ≡ 0 }
{
    if let Some(index) = cache.chunk {
        chunks.put_word(index, cache.base, cache.count, cache.word);
        *cache = no_word();
    }
}

// Returns the word of a position of the chunk at an index. There is none if chunks are too wide to be copied when the word is written back.
pub(crate) fn load<const N: usize>(chunks: &EditedChunks<N>, index: usize, bit: u64) -> CachedWord
    requires width { IsWidth N }
    requires index { index ≡ bit / (8 * N) }
    ensures cached { IsCached N chunks.now result }
    ensures same { with_cached N chunks.now result ≡ chunks.now }
{
    if N > WIDEST {
        return no_word();
    }
    let base = word_base::<N>(bit);
    let Some(bytes) = chunks.get(index) else {
        return no_word();
    };
    known(bytes);
    let Some(end) = following_word::<N>(base) else {
        return no_word();
    };
    CachedWord {
        chunk: Some(index),
        base,
        count: end - base,
        word: word_below(bytes, base, end),
    }
}

// Returns whether a word begins at a position, and can be cached.
#[inline]
fn can_begin<const N: usize>(bit: u64) -> bool
    requires width { IsWidth N }
    ensures starts { result ≡ true → bit % (8 * N) % 64 ≡ 0 }
    ensures fits { result ≡ true → next_word N bit ≤ 2 ^ 64 }
{
    N <= WIDEST && bit % chunk_width::<N>() % 64 == 0 && following_word::<N>(bit).is_some()
}

// Returns the word that begins at a position of the chunk at an index, of zeros except its first bit.
#[inline]
fn begin_word<const N: usize>(index: usize, bit: u64, value: bool) -> CachedWord
    requires width { IsWidth N }
    ensures chunk { result.chunk ≡ Some index }
    ensures base { result.base ≡ bit }
    ensures count { result.count ≡ next_word N bit - bit }
    ensures word { result.word ≡ (if value then 1 else 0) }
{
    let width = chunk_width::<N>();
    CachedWord {
        chunk: Some(index),
        base: bit,
        count: (width - bit % width).min(64),
        word: mask_if(0, value),
    }
}

// Returns a bit, if its chunk is edited.
#[inline]
pub(crate) fn get_bit<const N: usize>(
    chunks: &EditedChunks<N>,
    cache: &CachedWord,
    bit: u64,
) -> Option<bool>
    requires cached { IsCached N chunks.now cache.now }
    ensures { result ≡ option_map (λ chunk. chunk_bit N chunk bit)
        (lookup (nat_eq (bit / (8 * N))) (with_cached N chunks.now cache.now)) }
{
    if is_within(cache.base, cache.count, bit) {
        return Some(cache.word & mask_if(bit - cache.base, true) != 0);
    }
    let bytes = chunks.get(chunk_index::<N>(bit))?;
    Some(bit_of(bytes, bit))
}

// Returns a copy of the chunk at an index, if there is one.
pub(crate) fn chunk_of<const N: usize>(
    chunks: &EditedChunks<N>,
    cache: &CachedWord,
    index: usize,
) -> Option<[u8; N]>
    requires cached { IsCached N chunks.now cache.now }
    ensures value { result ≡ lookup (nat_eq index) (with_cached N chunks.now cache.now) }
    ensures known { IfSome result (IsChunk N) }
{
    let mut bytes = *chunks.get(index)?;
    known(&bytes);
    if let Some(cached) = cache.chunk {
        if cached == index {
            put_word(&mut bytes, cache.base, cache.count, cache.word);
        }
    }
    Some(bytes)
}

// Writes a bit of the chunk at an index. Starts from the current bitmap's chunk, cut to `len` bits, if none is edited there.
// Does not allocate, and succeeds, if that chunk is edited.
#[inline]
pub(crate) fn write_bit<const N: usize>(
    chunks: &mut EditedChunks<N>,
    cache: &mut CachedWord,
    current: &Prunable<N>,
    len: u64,
    index: usize,
    bit: u64,
    value: bool,
) -> Result<(), AllocError>
    requires cached { IsCached N chunks.old cache.old }
    requires width { IsWidth N }
    requires from { current.now.pruned ≤ index }
    requires fits { 8 * N * index < 2 ^ 64 }
    ensures ok { OnOk result
        ((bytes : List ℕ) × SetsIn N (chunk N (truncated N current.now len) index)
        (with_cached N chunks.old cache.old)
        (with_cached N chunks.new cache.new) index bit value bytes) }
    ensures err { OnErr result
        (with_cached N chunks.new cache.new ≡ with_cached N chunks.old cache.old) }
    ensures edited { IsSome (lookup (nat_eq index) (with_cached N chunks.old cache.old))
        → IsOk result }
    ensures cached { IsCached N chunks.new cache.new }
{
    if cache.chunk.is_some() {
        return write_settled(chunks, cache, current, len, index, bit, value);
    }
    // No word is cached here. The call only shows this to the prover.
    settle(chunks, cache);
    chunks.write_bit(current, len, index, bit, value)
}

// As `write_bit`, mostly for a collection with a cached word. As a cold call it is kept out of the way of the others.
#[cold]
#[inline(never)]
fn write_settled<const N: usize>(
    chunks: &mut EditedChunks<N>,
    cache: &mut CachedWord,
    current: &Prunable<N>,
    len: u64,
    index: usize,
    bit: u64,
    value: bool,
) -> Result<(), AllocError>
    requires cached { IsCached N chunks.old cache.old }
    requires width { IsWidth N }
    requires from { current.now.pruned ≤ index }
    requires fits { 8 * N * index < 2 ^ 64 }
    ensures ok { OnOk result
        ((bytes : List ℕ) × SetsIn N (chunk N (truncated N current.now len) index)
        (with_cached N chunks.old cache.old)
        (with_cached N chunks.new cache.new) index bit value bytes) }
    ensures err { OnErr result
        (with_cached N chunks.new cache.new ≡ with_cached N chunks.old cache.old) }
    ensures edited { IsSome (lookup (nat_eq index) (with_cached N chunks.old cache.old))
        → IsOk result }
    ensures cached { IsCached N chunks.new cache.new }
{
    settle(chunks, cache);
    chunks.write_bit(current, len, index, bit, value)
}

// Appends a bit at a position, which is the length. If its chunk is edited, the bits from there on are zero, and the bit is not its first.
// Starts from the current bitmap's chunk, cut to the length, if none is edited there. Does not allocate, and succeeds, if that chunk is edited.
#[inline]
pub(crate) fn push_bit<const N: usize>(
    chunks: &mut EditedChunks<N>,
    cache: &mut CachedWord,
    current: &Prunable<N>,
    bit: u64,
    value: bool,
) -> Result<(), AllocError>
    requires cached { IsCached N chunks.old cache.old }
    requires width { IsWidth N }
    requires from { current.now.pruned ≤ bit / (8 * N) }
    requires zero { IfSome (lookup (nat_eq (bit / (8 * N))) (with_cached N chunks.old cache.old))
        (IsClearFrom N (bit / (8 * N)) bit) }
    requires first { bit % (8 * N) ≡ 0
        → lookup (nat_eq (bit / (8 * N))) (with_cached N chunks.old cache.old) ≡ None }
    ensures ok { OnOk result
        ((bytes : List ℕ) × SetsIn N (chunk N (truncated N current.now bit) (bit / (8 * N)))
        (with_cached N chunks.old cache.old) (with_cached N chunks.new cache.new)
        (bit / (8 * N)) bit value bytes) }
    ensures err { OnErr result
        (with_cached N chunks.new cache.new ≡ with_cached N chunks.old cache.old) }
    ensures edited { IsSome (lookup (nat_eq (bit / (8 * N))) (with_cached N chunks.old cache.old))
        → IsOk result }
    ensures cached { IsCached N chunks.new cache.new }
{
    if is_within(cache.base, cache.count, bit) {
        cache.word |= mask_if(bit - cache.base, value);
        return Ok(());
    }
    push_other(chunks, cache, current, bit, value)
}

// As `push_bit`, for a bit that is not in the cached word. Caches its word. As a cold call it is kept out of the way of the others.
#[cold]
#[inline(never)]
fn push_other<const N: usize>(
    chunks: &mut EditedChunks<N>,
    cache: &mut CachedWord,
    current: &Prunable<N>,
    bit: u64,
    value: bool,
) -> Result<(), AllocError>
    requires cached { IsCached N chunks.old cache.old }
    requires width { IsWidth N }
    requires from { current.now.pruned ≤ bit / (8 * N) }
    requires zero { IfSome (lookup (nat_eq (bit / (8 * N))) (with_cached N chunks.old cache.old))
        (IsClearFrom N (bit / (8 * N)) bit) }
    requires first { bit % (8 * N) ≡ 0
        → lookup (nat_eq (bit / (8 * N))) (with_cached N chunks.old cache.old) ≡ None }
    ensures ok { OnOk result
        ((bytes : List ℕ) × SetsIn N (chunk N (truncated N current.now bit) (bit / (8 * N)))
        (with_cached N chunks.old cache.old) (with_cached N chunks.new cache.new)
        (bit / (8 * N)) bit value bytes) }
    ensures err { OnErr result
        (with_cached N chunks.new cache.new ≡ with_cached N chunks.old cache.old) }
    ensures edited { IsSome (lookup (nat_eq (bit / (8 * N))) (with_cached N chunks.old cache.old))
        → IsOk result }
    ensures cached { IsCached N chunks.new cache.new }
{
    let index = chunk_index::<N>(bit);
    if can_begin::<N>(bit) {
        if bit % chunk_width::<N>() == 0 {
            return push_first(chunks, cache, index, bit, value);
        }
        if push_next(chunks, cache, index, bit, value) {
            return Ok(());
        }
    }
    push_inside(chunks, cache, current, index, bit, value)
}

// Appends the first bit of the chunk at an index, which has none. Caches its word.
#[inline]
fn push_first<const N: usize>(
    chunks: &mut EditedChunks<N>,
    cache: &mut CachedWord,
    index: usize,
    bit: u64,
    value: bool,
) -> Result<(), AllocError>
    requires cached { IsCached N chunks.old cache.old }
    requires width { IsWidth N }
    requires index { index ≡ bit / (8 * N) }
    requires start { bit % (8 * N) ≡ 0 }
    requires fits { next_word N bit ≤ 2 ^ 64 }
    requires absent { lookup (nat_eq index) (with_cached N chunks.old cache.old) ≡ None }
    ensures ok { OnOk result
        ((bytes : List ℕ) × SetsIn N (replicate N 0) (with_cached N chunks.old cache.old)
        (with_cached N chunks.new cache.new) index bit value bytes) }
    ensures err { OnErr result
        (with_cached N chunks.new cache.new ≡ with_cached N chunks.old cache.old) }
    ensures cached { IsCached N chunks.new cache.new }
{
    settle(chunks, cache);
    chunks.open(index, [0; N])?;
    *cache = begin_word::<N>(index, bit, value);
    Ok(())
}

// Appends the first bit of a word of the chunk at an index, if the cached word is in that chunk. Returns whether it is.
// Caches the new word. Does not allocate.
#[inline]
fn push_next<const N: usize>(
    chunks: &mut EditedChunks<N>,
    cache: &mut CachedWord,
    index: usize,
    bit: u64,
    value: bool,
) -> bool
    requires cached { IsCached N chunks.old cache.old }
    requires width { IsWidth N }
    requires index { index ≡ bit / (8 * N) }
    requires starts { bit % (8 * N) % 64 ≡ 0 }
    requires fits { next_word N bit ≤ 2 ^ 64 }
    requires zero { IfSome (lookup (nat_eq index) (with_cached N chunks.old cache.old))
        (IsClearFrom N index bit) }
    ensures written { result ≡ true → (first : List ℕ)
        → (bytes : List ℕ) × SetsIn N first (with_cached N chunks.old cache.old)
        (with_cached N chunks.new cache.new) index bit value bytes }
    ensures other { result ≡ false
        → with_cached N chunks.new cache.new ≡ with_cached N chunks.old cache.old }
    ensures cached { IsCached N chunks.new cache.new }
{
    if !is_cached(cache.chunk, index) {
        return false;
    }
    settle(chunks, cache);
    *cache = begin_word::<N>(index, bit, value);
    true
}

// As `push_other`, for any bit of the chunk at an index.
#[inline(never)]
fn push_inside<const N: usize>(
    chunks: &mut EditedChunks<N>,
    cache: &mut CachedWord,
    current: &Prunable<N>,
    index: usize,
    bit: u64,
    value: bool,
) -> Result<(), AllocError>
    requires cached { IsCached N chunks.old cache.old }
    requires width { IsWidth N }
    requires index { index ≡ bit / (8 * N) }
    requires from { current.now.pruned ≤ index }
    ensures ok { OnOk result
        ((bytes : List ℕ) × SetsIn N (chunk N (truncated N current.now bit) index)
        (with_cached N chunks.old cache.old)
        (with_cached N chunks.new cache.new) index bit value bytes) }
    ensures err { OnErr result
        (with_cached N chunks.new cache.new ≡ with_cached N chunks.old cache.old) }
    ensures edited { IsSome (lookup (nat_eq index) (with_cached N chunks.old cache.old))
        → IsOk result }
    ensures cached { IsCached N chunks.new cache.new }
{
    settle(chunks, cache);
    chunks.push_bit(current, index, bit, value)?;
    *cache = load(chunks, index, bit);
    Ok(())
}

// Clears a bit and returns its old value, if it is in the cached word.
#[inline]
pub(crate) fn clear_cached<const N: usize>(
    chunks: &mut EditedChunks<N>,
    cache: &mut CachedWord,
    bit: u64,
) -> Option<bool>
    requires cached { IsCached N chunks.old cache.old }
    requires width { IsWidth N }
    ensures bit { IfSome result
        (λ old. Some old ≡ option_map (λ chunk. chunk_bit N chunk bit)
        (lookup (nat_eq (bit / (8 * N))) (with_cached N chunks.old cache.old))) }
    ensures none { result ≡ None
        → with_cached N chunks.new cache.new ≡ with_cached N chunks.old cache.old }
    ensures some { IfSome result
        (λ old. IfSome (lookup (nat_eq (bit / (8 * N))) (with_cached N chunks.old cache.old))
        (λ chunk. IsSetIn N (with_cached N chunks.old cache.old)
        (with_cached N chunks.new cache.new) (bit / (8 * N)) chunk bit false)) }
    ensures cached { IsCached N chunks.new cache.new }
{
    if is_within(cache.base, cache.count, bit) {
        let mask = mask_if(bit - cache.base, true);
        let old = cache.word & mask != 0;
        cache.word &= !mask;
        return Some(old);
    }
    None
}

// Clears a bit and returns its old value, if its chunk is edited. Caches its word then. Does not allocate.
pub(crate) fn clear_bit<const N: usize>(
    chunks: &mut EditedChunks<N>,
    cache: &mut CachedWord,
    bit: u64,
) -> Option<bool>
    requires cached { IsCached N chunks.old cache.old }
    requires width { IsWidth N }
    ensures bit { result ≡ option_map (λ chunk. chunk_bit N chunk bit)
        (lookup (nat_eq (bit / (8 * N))) (with_cached N chunks.old cache.old)) }
    ensures none { lookup (nat_eq (bit / (8 * N))) (with_cached N chunks.old cache.old) ≡ None
        → with_cached N chunks.new cache.new ≡ with_cached N chunks.old cache.old }
    ensures some { IfSome (lookup (nat_eq (bit / (8 * N))) (with_cached N chunks.old cache.old))
        (λ chunk. IsSetIn N (with_cached N chunks.old cache.old)
        (with_cached N chunks.new cache.new) (bit / (8 * N)) chunk bit false) }
    ensures cached { IsCached N chunks.new cache.new }
{
    settle(chunks, cache);
    let index = chunk_index::<N>(bit);
    let old = chunks.replace_bit(index, bit, false);
    if old.is_some() {
        *cache = load(chunks, index, bit);
    }
    old
}

// Writes the eight bits of a byte from position `bit` on, if there is a chunk at the index. Returns whether there is. Does not allocate.
#[inline]
pub(crate) fn join_byte<const N: usize>(
    chunks: &mut EditedChunks<N>,
    cache: &mut CachedWord,
    index: usize,
    bit: u64,
    byte: u8,
) -> bool
    requires cached { IsCached N chunks.old cache.old }
    requires width { IsWidth N }
    requires index { index ≡ bit / (8 * N) }
    requires space { bit % (8 * N) + 8 ≤ 8 * N }
    requires fits { bit + 8 < 2 ^ 64 }
    ensures written { result ≡ true
        → IsByteSetIn N (with_cached N chunks.old cache.old)
        (with_cached N chunks.new cache.new) index bit byte }
    ensures other { result ≡ false
        → with_cached N chunks.new cache.new ≡ with_cached N chunks.old cache.old }
    ensures none { result ≡ false
        → lookup (nat_eq index) (with_cached N chunks.old cache.old) ≡ None }
    ensures cached { IsCached N chunks.new cache.new }
{
    if has_byte(cache.base, cache.count, bit) {
        cache.word = with_byte(cache.word, bit - cache.base, byte);
        return true;
    }
    join_other(chunks, cache, index, bit, byte)
}

// As `join_byte`, for a byte that is not in the cached word. Caches its word, or that of its last bit if it is in two.
// It is kept out of the way of the others.
#[inline(never)]
fn join_other<const N: usize>(
    chunks: &mut EditedChunks<N>,
    cache: &mut CachedWord,
    index: usize,
    bit: u64,
    byte: u8,
) -> bool
    requires cached { IsCached N chunks.old cache.old }
    requires width { IsWidth N }
    requires index { index ≡ bit / (8 * N) }
    requires space { bit % (8 * N) + 8 ≤ 8 * N }
    requires fits { bit + 8 < 2 ^ 64 }
    ensures written { result ≡ true
        → IsByteSetIn N (with_cached N chunks.old cache.old)
        (with_cached N chunks.new cache.new) index bit byte }
    ensures other { result ≡ false
        → with_cached N chunks.new cache.new ≡ with_cached N chunks.old cache.old }
    ensures none { result ≡ false
        → lookup (nat_eq index) (with_cached N chunks.old cache.old) ≡ None }
    ensures cached { IsCached N chunks.new cache.new }
{
    settle(chunks, cache);
    let loaded = load(chunks, index, bit);
    if has_byte(loaded.base, loaded.count, bit) {
        *cache = loaded;
        cache.word = with_byte(loaded.word, bit - loaded.base, byte);
        return true;
    }
    if !chunks.join_byte(index, bit, byte) {
        return false;
    }
    *cache = load(chunks, index, bit + 7);
    true
}

// Writes the bits of a byte from position `bit` on up to the end of the chunk at the index, if its last word is cached, and inserts
// a chunk at the next index, which has none. Returns whether the word is cached. Caches the first word of the next chunk then.
#[inline(never)]
pub(crate) fn cross_byte<const N: usize>(
    chunks: &mut EditedChunks<N>,
    cache: &mut CachedWord,
    index: usize,
    bit: u64,
    byte: u8,
    next: [u8; N],
) -> Result<bool, AllocError>
    requires cached { IsCached N chunks.old cache.old }
    requires width { IsWidth N }
    requires index { index ≡ bit / (8 * N) }
    requires crosses { 8 * N < bit % (8 * N) + 8 }
    requires fits { bit + 8 < 2 ^ 64 }
    requires last { lookup (nat_eq (index + 1)) (with_cached N chunks.old cache.old) ≡ None }
    ensures written { result ≡ Ok true
        → CrossesByte N (with_cached N chunks.old cache.old)
        (with_cached N chunks.new cache.new) index bit byte next.entry }
    ensures other { result ≡ Ok false
        → with_cached N chunks.new cache.new ≡ with_cached N chunks.old cache.old }
    ensures err { OnErr result
        (with_cached N chunks.new cache.new ≡ with_cached N chunks.old cache.old) }
    ensures cached { IsCached N chunks.new cache.new }
{
    if !is_within(cache.base, cache.count, bit) {
        return Ok(false);
    }
    chunks.open(index + 1, next)?;
    cache.word = with_byte(cache.word, bit - cache.base, byte);
    settle(chunks, cache);
    *cache = load(chunks, index + 1, bit + 7);
    Ok(true)
}

// Removes the chunks that start at position `total` or later, and clears the bits from there on of the chunk that starts before.
// Does not allocate.
pub(crate) fn cut_to<const N: usize>(
    chunks: &mut EditedChunks<N>,
    cache: &mut CachedWord,
    total: u64,
)
    requires cached { IsCached N chunks.old cache.old }
    requires width { IsWidth N }
    ensures cuts { CutsChunks N (with_cached N chunks.old cache.old)
        (with_cached N chunks.new cache.new) total }
    ensures cached { IsCached N chunks.new cache.new }
{
    settle(chunks, cache);
    let index = chunk_index::<N>(total);
    let kept = total % chunk_width::<N>();
    if kept == 0 {
        chunks.drop_from(index);
    } else {
        chunks.drop_from(index + 1);
        chunks.cut(index, kept);
    }
}
