//! Whole chunks of a deque: one chunk, and the first ones.

ghost use Rattle.std.specs.Prelude.{◌≡◌, ℕ, ◌+◌, ◌*◌, ◌<◌, ◌≤◌, [], ◌++◌, drop, length, map, slice_index_or, slice_set, IsOk, OnOk, OnErr};
ghost use Rattle.std.specs.List.{range_with_len};
ghost use Rattle.bitmap_bytes.specs.Chunk.{byte_of, chunk_bit};

use crate::chunk::facts::from_own_bits;
use std::alloc::AllocError;
use std::collections::VecDeque;

// At most this many chunks are removed one by one, which is faster for a few.
const FEW: usize = 8;

// The chunk at an index.
pub fn chunk_at<const N: usize>(chunks: &VecDeque<[u8; N]>, index: usize) -> &[u8; N]
    requires { index < length chunks.now.items }
    ensures same { result.now ≡ slice_index_or chunks.now.items index [] }
    ensures bytes { result.now
        ≡ map (λ j. byte_of (λ t. chunk_bit N result.now (8 * j + t))) (range_with_len 0 N) }
{
    from_own_bits(&chunks[index])
}

// Replaces the chunk at an index.
pub fn set_chunk<const N: usize>(chunks: &mut VecDeque<[u8; N]>, index: usize, chunk: &[u8; N])
    requires { index < length chunks.old.items }
    ensures { chunks.new.items ≡ slice_set chunks.old.items index chunk.now }
{
    chunks[index] = *chunk;
}

// Removes the first `count` chunks. The others are not moved in memory.
pub fn drop_front<const N: usize>(chunks: &mut VecDeque<[u8; N]>, count: usize)
    requires { count ≤ length chunks.old.items }
    ensures { chunks.new.items ≡ drop count chunks.old.items }
{
    if count > FEW {
        drop(chunks.drain(..count));
        return;
    }
    for _ in 0..count {
        let _ = chunks.pop_front();
    }
}

// Inserts chunks before the first one, in order.
pub fn put_front<const N: usize>(
    chunks: &mut VecDeque<[u8; N]>,
    front: &[[u8; N]],
) -> Result<(), AllocError>
    ensures ok { OnOk result (chunks.new.items ≡ front.now ++ chunks.old.items) }
    ensures err { OnErr result (chunks.new.items ≡ chunks.old.items) }
    ensures none { length front.now ≡ 0 → IsOk result }
{
    chunks.reserve(front.len())?;
    let mut left = front.len();
    while left > 0 {
        left -= 1;
        chunks.push_front_reserved(front[left]);
    }
    Ok(())
}
