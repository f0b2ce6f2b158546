//! A deque of chunks as two slices, because it may wrap around.

ghost use Rattle.std.specs.Prelude.{◌≡◌, ℕ, ◌+◌, ◌<◌, ◌≤◌, ◌++◌, [], length, slice_index_or};
ghost use Rattle.std.specs.List.{flat_map};
ghost use Rattle.bitmap_bytes.specs.Bits.{AreChunks};

use crate::chunk::facts::all_known;
use std::collections::VecDeque;

// The chunks of a deque, in two slices.
pub fn slices<const N: usize>(chunks: &VecDeque<[u8; N]>) -> (&[[u8; N]], &[[u8; N]])
    ensures items { result.0.now ++ result.1.now ≡ chunks.now.items }
    ensures known { AreChunks N chunks.now.items }
{
    let (front, back) = chunks.as_slices();
    all_known(front);
    all_known(back);
    (front, back)
}

// The bytes of the chunks of a deque, in two slices.
pub fn bytes<const N: usize>(chunks: &VecDeque<[u8; N]>) -> (&[u8], &[u8])
    ensures items { result.0.now ++ result.1.now ≡ flat_map (λ c. c) chunks.now.items }
    ensures known { AreChunks N chunks.now.items }
{
    let (front, back) = slices(chunks);
    (front.as_flattened(), back.as_flattened())
}

// The slice of a deque that holds the chunk at an index, and the index of the first chunk of that slice.
pub fn slice_around<const N: usize>(chunks: &VecDeque<[u8; N]>, index: usize) -> (&[[u8; N]], usize)
    requires { index < length chunks.now.items }
    ensures included { (result.1 ≤ index) × (index < result.1 + length result.0.now) }
    ensures within { result.1 + length result.0.now ≤ length chunks.now.items }
    ensures items { (i : ℕ) → i < length result.0.now
        → slice_index_or result.0.now i [] ≡ slice_index_or chunks.now.items (result.1 + i) [] }
{
    let (front, back) = slices(chunks);
    if index < front.len() {
        (front, 0)
    } else {
        (back, front.len())
    }
}
