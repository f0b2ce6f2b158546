//! Counts and searches over any bitmap, one chunk or one slice of whole chunks per step.

ghost use Rattle.std.specs.Prelude.{◌≡◌, ℕ, ◌+◌, ◌-◌, ◌*◌, ◌%◌, ◌<◌, ◌≤◌, length};
ghost use Rattle.std.specs.List.{slice_get};
ghost use Rattle.bitmap_bytes.specs.Bits.{chunks_bit};
ghost use Rattle.bitmap_bytes.specs.Chunk.{IsWidth};
ghost use Rattle.bitmap_core.specs.Meaning.{ones, ones_between, seen_as, IsLawful, IsRetainedChunk, ShowsChunk};
ghost use Rattle.bitmap_core.specs.Searches.{first, last};

use crate::bitmap::readable::Readable;
use crate::bitmap::readable::blocks::{leading, trailing, wanted_in};
use crate::chunk::chunk_index;
use crate::chunk::range::{last_in, nth_in, ones_in};
use crate::chunk::whole::flip;

// The width is written as `8 * N`: for a call of `chunk_width`, the goals of the proofs name its result and not this value.

// The whole chunks from position `at` on that end at or before `end` and are in one slice. None if no chunk begins at `at`.
//
// None either if `read`, the number of bits that were read of the chunk before, is not that of a whole chunk.
// A search that begins within a chunk so reads the next chunk first, which often has the position.
pub(crate) fn slice_from<B: Readable<N>, const N: usize>(
    readable: &B,
    read: u64,
    at: u64,
    end: u64,
) -> &[[u8; N]]
    requires lawful { IsLawful N (B.meaning readable.now) }
    requires retained { 8 * N * (B.meaning readable.now).pruned ≤ at }
    requires order { at ≤ end }
    requires within { end ≤ (B.meaning readable.now).len }
    ensures aligned { 0 < length result.now → at % (8 * N) ≡ 0 }
    ensures within { at + 8 * N * length result.now ≤ end }
    ensures bits { (i : ℕ) → i < 8 * N * length result.now
        → chunks_bit N result.now i ≡ (B.meaning readable.now).bit (at + i) }
{
    let width = 8 * N as u64;
    if read < width || at % width != 0 || end - at < width {
        return &[];
    }
    let index = chunk_index::<N>(at);
    let (chunks, first) = readable.chunks_around(index);
    if chunks.is_empty() {
        return chunks;
    }
    let start = index - first;
    let count = ((end - at) / width).min((chunks.len() - start) as u64) as usize;
    &chunks[start..start + count]
}

// The retained chunks below position `top`, where a chunk ends, that are in one slice. `low` is the first position that is not pruned.
//
// None if `read`, the number of bits that were read of the chunk from `top` on, is not that of a whole chunk.
fn slice_below<B: Readable<N>, const N: usize>(
    readable: &B,
    read: u64,
    low: u64,
    top: u64,
) -> &[[u8; N]]
    requires lawful { IsLawful N (B.meaning readable.now) }
    requires low { low ≡ 8 * N * (B.meaning readable.now).pruned }
    requires order { low ≤ top }
    requires aligned { top % (8 * N) ≡ 0 }
    requires within { top ≤ (B.meaning readable.now).len }
    ensures within { low + 8 * N * length result.now ≤ top }
    ensures bits { (i : ℕ) → i < 8 * N * length result.now
        → chunks_bit N result.now i
        ≡ (B.meaning readable.now).bit (top - 8 * N * length result.now + i) }
{
    if read < 8 * N as u64 || low == top {
        return &[];
    }
    let index = chunk_index::<N>(top - 1);
    let (chunks, first) = readable.chunks_around(index);
    if chunks.is_empty() {
        return chunks;
    }
    &chunks[..index - first + 1]
}

// A copy of the chunk at an index, with each bit inverted if `wanted` is false.
fn chunk_seen_as<B: Readable<N>, const N: usize>(
    readable: &B,
    index: usize,
    wanted: bool,
) -> [u8; N]
    requires width { IsWidth N }
    requires retained { IsRetainedChunk N (B.meaning readable.now) index }
    ensures { ShowsChunk N (seen_as wanted (B.meaning readable.now)) index result }
{
    let mut chunk = readable.get_chunk(index);
    if !wanted {
        flip(&mut chunk);
    }
    chunk
}

// The first retained position at or above `from` that is set or, if `wanted` is false, that is not set. `len` is the length.
//
// Gets a chunk at most once, up to that of the position.
pub(crate) fn first_from<B: Readable<N>, const N: usize>(
    readable: &B,
    len: u64,
    from: u64,
    wanted: bool,
) -> Option<u64>
    requires lawful { IsLawful N (B.meaning readable.now) }
    requires len { len ≡ (B.meaning readable.now).len }
    ensures { result ≡ first
        (ones N (seen_as wanted (B.meaning readable.now)) from (B.meaning readable.now).len) }
{
    let width = 8 * N as u64;
    let first = from.max(readable.pruned_bits());
    let mut at = first;
    while at < len {
        let place = at % width;
        let step = (width - place).min(len - at);
        let chunk = chunk_seen_as(readable, chunk_index::<N>(at), wanted);
        if let Some(bit) = nth_in(&chunk, place, place + step, 0) {
            return Some(at - place + bit);
        }
        at += step;
        let (skipped, _) = leading(slice_from(readable, step, at, len), wanted, 0);
        at += width * skipped as u64;
    }
    None
}

// The number of set positions at or above `first` and below `end`. Gets a chunk that the range meets at most once.
pub(crate) fn count_ones<B: Readable<N>, const N: usize>(readable: &B, first: u64, end: u64) -> u64
    requires lawful { IsLawful N (B.meaning readable.now) }
    requires retained { 8 * N * (B.meaning readable.now).pruned ≤ first }
    requires within { end ≤ (B.meaning readable.now).len }
    ensures { result ≡ length (ones_between (B.meaning readable.now).bit first end) }
{
    let width = 8 * N as u64;
    let mut total = 0;
    let mut at = first;
    while at < end {
        let place = at % width;
        let step = (width - place).min(end - at);
        let chunk = readable.get_chunk(chunk_index::<N>(at));
        total += ones_in(&chunk, place, place + step);
        at += step;
        let chunks = slice_from(readable, width, at, end);
        total += wanted_in(chunks, true);
        at += width * chunks.len() as u64;
    }
    total
}

// The set position at or above `first` and below `end` that has `k` set positions between `first` and itself.
//
// Gets a chunk at most once, up to that of the position.
pub(crate) fn nth_one<B: Readable<N>, const N: usize>(
    readable: &B,
    first: u64,
    end: u64,
    k: u64,
) -> Option<u64>
    requires lawful { IsLawful N (B.meaning readable.now) }
    requires retained { 8 * N * (B.meaning readable.now).pruned ≤ first }
    requires within { end ≤ (B.meaning readable.now).len }
    ensures { result ≡ slice_get (ones_between (B.meaning readable.now).bit first end) k }
{
    let width = 8 * N as u64;
    let mut left = k;
    let mut at = first;
    while at < end {
        let place = at % width;
        let step = (width - place).min(end - at);
        let chunk = readable.get_chunk(chunk_index::<N>(at));
        let count = ones_in(&chunk, place, place + step);
        if left < count {
            let bit = nth_in(&chunk, place, place + step, left)?;
            return Some(at - place + bit);
        }
        left -= count;
        at += step;
        let (skipped, ones) = leading(slice_from(readable, step, at, end), true, left);
        left -= ones;
        at += width * skipped as u64;
    }
    None
}

// The last retained position below `end` that is set or, if `wanted` is false, that is not set.
//
// Gets a chunk at most once, from that of `end` down to that of the position.
pub(crate) fn last_below<B: Readable<N>, const N: usize>(
    readable: &B,
    end: u64,
    wanted: bool,
) -> Option<u64>
    requires lawful { IsLawful N (B.meaning readable.now) }
    requires within { end ≤ (B.meaning readable.now).len }
    ensures { result ≡ last (ones_between (seen_as wanted (B.meaning readable.now)).bit
        (8 * N * (B.meaning readable.now).pruned) end) }
{
    let width = 8 * N as u64;
    let first = readable.pruned_bits();
    let mut top = end;
    while top > first {
        let place = (top - 1) % width;
        let base = top - 1 - place;
        let chunk = readable.get_chunk(chunk_index::<N>(top - 1));
        if let Some(bit) = last_in(&chunk, place + 1, wanted) {
            return Some(base + bit);
        }
        top = base - width * trailing(slice_below(readable, place + 1, first, base), wanted) as u64;
    }
    None
}
