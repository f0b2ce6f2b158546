//! Ranges of the bits of a deque of chunks.

ghost use Rattle.std.specs.Prelude.{◌≡◌, ℕ, ◌*◌, ◌/◌, ◌%◌, ◌<◌, ◌≤◌, ◌⊎◌, [], length, slice_index_or};
ghost use Rattle.bitmap_bytes.specs.Bits.{chunks_bit};
ghost use Rattle.bitmap_bytes.specs.Chunk.{IsWidth, chunk_bit};
ghost use Rattle.bitmap_core.specs.Ranges.{IsRangePut};

use crate::chunk::{chunk_index, chunk_width, range, whole};
use std::collections::VecDeque;

// Sets the bits at or above `from` and below `to` to `value`: a part of the first chunk, a part of the last, and the chunks between.
pub fn set_range<const N: usize>(chunks: &mut VecDeque<[u8; N]>, from: u64, to: u64, value: bool)
    requires width { IsWidth N }
    requires within { to ≤ 8 * N * length chunks.old.items }
    ensures { IsRangePut N chunks.old.items chunks.new.items from to value }
{
    if from >= to {
        return;
    }
    let width = chunk_width::<N>();
    let first = chunk_index::<N>(from);
    let last = chunk_index::<N>(to - 1);
    let past = (to - 1) % width + 1;
    if first == last {
        set_in_chunk(chunks, first, from % width, past, value);
        return;
    }
    set_in_chunk(chunks, first, from % width, width, value);
    set_in_chunk(chunks, last, 0, past, value);
    fill_chunks(chunks, first + 1, last, value);
}

// Sets the bits of one chunk at or above `from` and below `to`, counted from the start of the chunk.
fn set_in_chunk<const N: usize>(
    chunks: &mut VecDeque<[u8; N]>,
    index: usize,
    from: u64,
    to: u64,
    value: bool,
)
    requires width { IsWidth N }
    requires here { index < length chunks.old.items }
    requires within { to ≤ 8 * N }
    ensures inside { (i : ℕ) → i / (8 * N) ≡ index → from ≤ i % (8 * N) → i % (8 * N) < to
        → chunks_bit N chunks.new.items i ≡ value }
    ensures outside { (i : ℕ) → i / (8 * N) ≡ index → (i % (8 * N) < from) ⊎ (to ≤ i % (8 * N))
        → chunks_bit N chunks.new.items i ≡ chunks_bit N chunks.old.items i }
    ensures others { (i : ℕ) → (i / (8 * N) ≡ index → ⊥)
        → chunks_bit N chunks.new.items i ≡ chunks_bit N chunks.old.items i }
    ensures count { length chunks.new.items ≡ length chunks.old.items }
{
    range::set_in(&mut chunks[index], from, to, value);
}

// Sets every bit of the chunks at the indices from `from` up to `to`. The chunks outside the range are not touched.
fn fill_chunks<const N: usize>(chunks: &mut VecDeque<[u8; N]>, from: usize, to: usize, value: bool)
    requires positive { 0 < N }
    requires order { from ≤ to }
    requires within { to ≤ length chunks.old.items }
    ensures inside { (i : ℕ) → from ≤ i / (8 * N) → i / (8 * N) < to
        → chunks_bit N chunks.new.items i ≡ value }
    ensures outside { (i : ℕ) → (i / (8 * N) < from) ⊎ (to ≤ i / (8 * N))
        → chunks_bit N chunks.new.items i ≡ chunks_bit N chunks.old.items i }
    ensures count { length chunks.new.items ≡ length chunks.old.items }
{
    let is_contiguous = chunks.as_slices().1.is_empty();
    if is_contiguous {
        fill_slice(chunks.make_contiguous(), from, to, value);
    } else {
        fill_each(chunks, from, to, value);
    }
}

// As `fill_chunks`, for a deque that wraps around: to make it contiguous would move the chunks outside the range.
fn fill_each<const N: usize>(chunks: &mut VecDeque<[u8; N]>, from: usize, to: usize, value: bool)
    requires positive { 0 < N }
    requires order { from ≤ to }
    requires within { to ≤ length chunks.old.items }
    ensures inside { (i : ℕ) → from ≤ i / (8 * N) → i / (8 * N) < to
        → chunks_bit N chunks.new.items i ≡ value }
    ensures outside { (i : ℕ) → (i / (8 * N) < from) ⊎ (to ≤ i / (8 * N))
        → chunks_bit N chunks.new.items i ≡ chunks_bit N chunks.old.items i }
    ensures count { length chunks.new.items ≡ length chunks.old.items }
{
    for i in from..to {
        whole::fill(&mut chunks[i], value);
    }
}

// Sets every bit of the chunks of a slice at the indices from `from` up to `to`.
fn fill_slice<const N: usize>(chunks: &mut [[u8; N]], from: usize, to: usize, value: bool)
    requires positive { 0 < N }
    requires order { from ≤ to }
    requires within { to ≤ length chunks.old }
    ensures count { length chunks.new ≡ length chunks.old }
    ensures inside { (k : ℕ) → from ≤ k → k < to → (t : ℕ)
        → chunk_bit N (slice_index_or chunks.new k []) t ≡ value }
    ensures below { (k : ℕ) → k < from
        → slice_index_or chunks.new k [] ≡ slice_index_or chunks.old k [] }
    ensures above { (k : ℕ) → to ≤ k
        → slice_index_or chunks.new k [] ≡ slice_index_or chunks.old k [] }
{
    for i in from..to {
        whole::fill(&mut chunks[i], value);
    }
}
