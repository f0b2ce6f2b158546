//! Appending a run of bytes to a deque of chunks, from any bit on. A run is `front` followed by `back`.

ghost use Rattle.std.specs.Prelude.{◌≡◌, ℕ, ◌+◌, ◌-◌, ◌*◌, ◌/◌, ◌%◌, ◌^◌, ◌<◌, ◌≤◌, ◌++◌, length, IsOk, OnOk, OnErr};
ghost use Rattle.std.specs.Int.{div_ceil};
ghost use Rattle.std.specs.VecDeque.{deque_capacity};
ghost use Rattle.bitmap_bytes.specs.Chunk.{bytes_bit, IsWidth};
ghost use Rattle.bitmap_bytes.specs.Bits.{chunks_bit, IsChunkCount};

use crate::chunk::join::{chunk_from, join};
use crate::chunk::{chunk_count, chunk_index, chunk_width};
use std::alloc::AllocError;
use std::collections::VecDeque;

// Writes the run from bit `len` on, up to the end of the chunk that contains that bit.
fn fill_open<const N: usize>(chunks: &mut VecDeque<[u8; N]>, len: u64, front: &[u8], back: &[u8])
    requires width { IsWidth N }
    requires count { IsChunkCount N (length chunks.old.items) len }
    ensures count { length chunks.new.items ≡ length chunks.old.items }
    ensures capacity { deque_capacity chunks.new ≡ deque_capacity chunks.old }
    ensures kept { (i : ℕ) → i < len
        → chunks_bit N chunks.new.items i ≡ chunks_bit N chunks.old.items i }
    ensures joined { (i : ℕ) → len ≤ i → i / (8 * N) < length chunks.old.items
        → chunks_bit N chunks.new.items i ≡ bytes_bit (front.now ++ back.now) (i - len) }
{
    if len % chunk_width::<N>() != 0 {
        join(&mut chunks[chunk_index::<N>(len)], len, front, back);
    }
}

// Appends the chunks of a run that begins at bit `len`, up to the number of chunks that `total` bits fill.
fn push_whole<const N: usize>(
    chunks: &mut VecDeque<[u8; N]>,
    len: u64,
    total: u64,
    front: &[u8],
    back: &[u8],
)
    requires width { IsWidth N }
    requires full { len ≤ 8 * N * length chunks.old.items }
    requires fewer { length chunks.old.items ≤ div_ceil total (8 * N) }
    requires capacity { div_ceil total (8 * N) ≤ deque_capacity chunks.old }
    ensures count { length chunks.new.items ≡ div_ceil total (8 * N) }
    ensures kept { (i : ℕ) → i / (8 * N) < length chunks.old.items
        → chunks_bit N chunks.new.items i ≡ chunks_bit N chunks.old.items i }
    ensures joined { (i : ℕ) → length chunks.old.items ≤ i / (8 * N)
        → i / (8 * N) < length chunks.new.items
        → chunks_bit N chunks.new.items i ≡ bytes_bit (front.now ++ back.now) (i - len) }
{
    let count = chunk_count::<N>(total);
    while chunks.len() < count {
        let bit = chunk_width::<N>() * (chunks.len() as u64) - len;
        chunks.push_back_reserved(chunk_from(front, back, bit));
    }
}

// Appends the first `total - len` bits of a run. On an error the chunks are unchanged.
pub fn append_run<const N: usize>(
    chunks: &mut VecDeque<[u8; N]>,
    len: u64,
    total: u64,
    front: &[u8],
    back: &[u8],
) -> Result<(), AllocError>
    requires width { IsWidth N }
    requires order { len ≤ total }
    requires count { IsChunkCount N (length chunks.old.items) len }
    ensures count { OnOk result (IsChunkCount N (length chunks.new.items) total) }
    ensures kept { OnOk result
        ((i : ℕ) → i < len → chunks_bit N chunks.new.items i ≡ chunks_bit N chunks.old.items i) }
    ensures joined { OnOk result
        ((i : ℕ) → len ≤ i → i / (8 * N) < length chunks.new.items
        → chunks_bit N chunks.new.items i ≡ bytes_bit (front.now ++ back.now) (i - len)) }
    ensures err { OnErr result (chunks.new.items ≡ chunks.old.items) }
    ensures has_capacity { total ≤ 8 * N * length chunks.old.items → IsOk result }
{
    let count = chunk_count::<N>(total);
    chunks.reserve(count - chunks.len())?;
    fill_open(chunks, len, front, back);
    push_whole(chunks, len, total, front, back);
    Ok(())
}
