//! Conversions between booleans and a deque of chunks.

ghost use Rattle.std.specs.Prelude.{◌≡◌, ℕ, ◌+◌, ◌*◌, ◌^◌, ◌<◌, ◌≤◌, ◌++◌, length, false, slice_index_or, vec_len, vec_capacity, IfOk, IsOk};
ghost use Rattle.bitmap_bytes.specs.Chunk.{IsWidth};
ghost use Rattle.bitmap_bytes.specs.Bits.{chunks_bit, bits, IsChunkCount};

use crate::chunk;
use crate::chunk::{chunk_count, chunk_width};
use std::alloc::{AllocError, Global};
use std::collections::VecDeque;

// The chunks of some booleans, with zeros after them.
pub fn from_bools<const N: usize>(
    alloc: Global,
    bools: &[bool],
) -> Result<VecDeque<[u8; N]>, AllocError>
    requires width { IsWidth N }
    ensures count { IfOk result (λ q. IsChunkCount N (length q.items) (length bools.now)) }
    ensures bits { IfOk result
        (λ q. (i : ℕ) → chunks_bit N q.items i ≡ slice_index_or bools.now i false) }
    ensures none { length bools.now ≡ 0 → IsOk result }
{
    let width = chunk_width::<N>() as usize;
    let count = chunk_count::<N>(bools.len() as u64);
    let mut chunks = VecDeque::with_capacity(alloc, count)?;
    for i in 0..count {
        let from = width * i;
        let size = width.min(bools.len() - from);
        chunks.push_back_reserved(chunk::from_bools(&bools[from..from + size]));
    }
    Ok(chunks)
}

// Appends the first `len` bits of the chunks to a vector of booleans that has capacity for them.
pub fn append_bools<const N: usize>(chunks: &VecDeque<[u8; N]>, len: u64, bools: &mut Vec<bool>)
    requires width { IsWidth N }
    requires count { IsChunkCount N (length chunks.now.items) len }
    requires space { vec_len bools.old + len ≤ vec_capacity bools.old }
    ensures { bools.new.items ≡ bools.old.items ++ bits N chunks.now.items len }
{
    let width = chunk_width::<N>();
    let mut left = len;
    for i in 0..chunks.len() {
        let count = left.min(width);
        chunk::append_bools(&chunks[i], count, bools);
        left -= count;
    }
}
