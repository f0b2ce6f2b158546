//! Operations of a dense bitmap that bitmaps with a pruned prefix use: on whole chunks, and appending a byte.

ghost use Rattle.std.specs.Prelude.{◌≡◌, ◌≤◌, ◌<◌, ◌+◌, ◌-◌, ◌*◌, ◌/◌, ◌%◌, ◌^◌, ◌++◌, ℕ, cond, ◌==◌, drop, false, [], length, slice_index_or, take, IsOk, OnOk, OnErr};
ghost use Rattle.std.specs.List.{flat_map};
ghost use Rattle.bitmap_bytes.specs.Chunk.{byte_bits, chunk_bit, chunk_bits};
ghost use Rattle.bitmap_core.specs.Meaning.{plain_meaning, ShowsChunk};
ghost use Rattle.bitmap_core.specs.PrunedBits.{chunk, plain_bits};

use crate::bitmap::{BitMap, deque};
use crate::chunk::{chunk_index, chunk_width};
use std::alloc::AllocError;

impl<const N: usize> BitMap<N> {
    // The chunk at an index.
    pub(crate) fn chunk_at(&self, index: usize) -> &[u8; N]
        requires { 8 * N * index < length self.now }
        ensures { result.now ≡ chunk N (plain_bits self.now) index }
    {
        deque::chunk_at(&self.chunks, index)
    }

    // The slice of chunks that holds the chunk at an index, and the index of its first chunk.
    pub(crate) fn slice_around(&self, index: usize) -> (&[[u8; N]], usize)
        requires { 8 * N * index < length self.now }
        ensures included { (result.1 ≤ index) × (index < result.1 + length result.0.now) }
        ensures stored { (i : ℕ) → i < length result.0.now
            → 8 * N * (result.1 + i) < length self.now }
        ensures shown { (i : ℕ) → i < length result.0.now
            → ShowsChunk N (plain_meaning self.now) (result.1 + i)
            (slice_index_or result.0.now i []) }
    {
        deque::slice_around(&self.chunks, index)
    }

    // Replaces the chunk at an index by one whose bits past the length are zero.
    pub(crate) fn replace_chunk(&mut self, index: usize, chunk: &[u8; N])
        requires within { 8 * N * index < length self.old }
        requires zero { (k : ℕ) → length self.old ≤ k → k / (8 * N) ≡ index
            → chunk_bit N chunk.now k ≡ false }
        ensures len { length self.new ≡ length self.old }
        ensures bits { (k : ℕ) → k < length self.old
            → slice_index_or self.new k false
            ≡ cond (k / (8 * N) == index) (chunk_bit N chunk.now k)
            (slice_index_or self.old k false) }
    {
        deque::set_chunk(&mut self.chunks, index, chunk);
    }

    // Removes the last chunk, which is full, and returns it.
    pub(crate) fn remove_last_chunk(&mut self) -> [u8; N]
        requires aligned { length self.old % (8 * N) ≡ 0 }
        requires filled { 0 < length self.old }
        ensures value { result ≡ chunk N (plain_bits self.old) (length self.old / (8 * N) - 1) }
        ensures rest { self.new ≡ take (length self.old - 8 * N) self.old }
    {
        let len = self.len;
        let chunk = *self.chunk_at(chunk_index::<N>(len) - 1);
        let _ = self.chunks.pop_back();
        self.len = len - chunk_width::<N>();
        chunk
    }

    // Removes the first `count` chunks.
    pub(crate) fn drop_front_chunks(&mut self, count: usize)
        requires { 8 * N * count ≤ length self.old }
        ensures { self.new ≡ drop (8 * N * count) self.old }
    {
        let len = self.len;
        deque::drop_front(&mut self.chunks, count);
        self.len = len - chunk_width::<N>() * count as u64;
    }

    // Inserts chunks before the first bit, in order.
    pub(crate) fn put_front_chunks(&mut self, front: &[[u8; N]]) -> Result<(), AllocError>
        requires { 8 * N * length front.now + length self.old < 2 ^ 64 }
        ensures ok { OnOk result (self.new ≡ flat_map (chunk_bits N) front.now ++ self.old) }
        ensures err { OnErr result (self.new ≡ self.old) }
        ensures none { length front.now ≡ 0 → IsOk result }
    {
        let len = self.len;
        deque::put_front(&mut self.chunks, front)?;
        self.len = chunk_width::<N>() * front.len() as u64 + len;
        Ok(())
    }

    // Appends the eight bits of a byte, the lowest first.
    pub(crate) fn append_byte(&mut self, byte: u8) -> Result<(), AllocError>
        requires aligned { length self.old % 8 ≡ 0 }
        requires space { length self.old + 8 < 2 ^ 64 }
        ensures ok { OnOk result (self.new ≡ self.old ++ byte_bits byte) }
        ensures err { OnErr result (self.new ≡ self.old) }
        ensures partial { ¬ (length self.old % (8 * N) ≡ 0) → IsOk result }
    {
        let len = self.len;
        deque::make_space(&mut self.chunks, len)?;
        deque::set_byte(&mut self.chunks, len, byte);
        self.len = len + 8;
        Ok(())
    }
}
