//! Growing and shrinking a deque of chunks.

ghost use Rattle.std.specs.Prelude.{◌≡◌, ℕ, ◌+◌, ◌*◌, ◌%◌, ◌^◌, ◌<◌, ◌≤◌, [], ◌∷◌, ◌++◌, length, replicate, OnOk, OnErr, IsOk};
ghost use Rattle.bitmap_bytes.specs.Chunk.{IsWidth};
ghost use Rattle.bitmap_bytes.specs.Bits.{chunks_bit, IsChunkCount, IsZeroFrom};

use crate::bitmap::deque::bits::clear_tail;
use crate::chunk::{chunk_count, chunk_width};
use std::alloc::AllocError;
use std::collections::VecDeque;

// Appends a chunk of zeros. It is a function of its own so that its callers stay small enough to be inlined.
#[inline(never)]
fn add_chunk<const N: usize>(chunks: &mut VecDeque<[u8; N]>) -> Result<(), AllocError>
    ensures ok { OnOk result (chunks.new.items ≡ chunks.old.items ++ replicate N 0 ∷ []) }
    ensures err { OnErr result (chunks.new.items ≡ chunks.old.items) }
{
    chunks.push_back([0; N])?;
    Ok(())
}

// Appends a chunk of zeros if the chunks are full.
#[inline]
pub fn make_space<const N: usize>(
    chunks: &mut VecDeque<[u8; N]>,
    len: u64,
) -> Result<(), AllocError>
    requires width { IsWidth N }
    requires count { IsChunkCount N (length chunks.old.items) len }
    ensures partial { ¬ (len % (8 * N) ≡ 0) → IsOk result }
    ensures space { OnOk result (IsChunkCount N (length chunks.new.items) (len + 1)) }
    ensures same { (i : ℕ) → chunks_bit N chunks.new.items i ≡ chunks_bit N chunks.old.items i }
    ensures err { OnErr result (chunks.new.items ≡ chunks.old.items) }
{
    if len % chunk_width::<N>() == 0 {
        add_chunk(chunks)?;
    }
    Ok(())
}

// Removes the last chunk if it has no bit below the length.
pub fn drop_space<const N: usize>(chunks: &mut VecDeque<[u8; N]>, len: u64)
    requires width { IsWidth N }
    requires count { IsChunkCount N (length chunks.old.items) (len + 1) }
    requires zero { IsZeroFrom N chunks.old.items len }
    ensures count { IsChunkCount N (length chunks.new.items) len }
    ensures same { (i : ℕ) → chunks_bit N chunks.new.items i ≡ chunks_bit N chunks.old.items i }
{
    if len % chunk_width::<N>() == 0 {
        let _ = chunks.pop_back();
    }
}

// Appends copies of a chunk. On an error the chunks are unchanged.
pub fn append_copies<const N: usize>(
    chunks: &mut VecDeque<[u8; N]>,
    count: usize,
    chunk: [u8; N],
) -> Result<(), AllocError>
    ensures ok { OnOk result (chunks.new.items ≡ chunks.old.items ++ replicate count chunk.entry) }
    ensures err { OnErr result (chunks.new.items ≡ chunks.old.items) }
    ensures none { count ≡ 0 → IsOk result }
{
    chunks.reserve(count)?;
    for _ in 0..count {
        chunks.push_back_reserved(chunk);
    }
    Ok(())
}

// Appends the chunks of zeros that a greater length needs.
pub fn extend_zeros<const N: usize>(
    chunks: &mut VecDeque<[u8; N]>,
    len: u64,
    longer: u64,
) -> Result<(), AllocError>
    requires width { IsWidth N }
    requires count { IsChunkCount N (length chunks.old.items) len }
    requires order { len ≤ longer }
    ensures space { OnOk result (IsChunkCount N (length chunks.new.items) longer) }
    ensures same { (i : ℕ) → chunks_bit N chunks.new.items i ≡ chunks_bit N chunks.old.items i }
    ensures err { OnErr result (chunks.new.items ≡ chunks.old.items) }
    ensures has_capacity { longer ≤ 8 * N * length chunks.old.items → IsOk result }
{
    let missing = chunk_count::<N>(longer) - chunks.len();
    append_copies(chunks, missing, [0; N])
}

// Removes the chunks that have no bit below a smaller length, and clears the bits from that length on.
pub fn shorten<const N: usize>(chunks: &mut VecDeque<[u8; N]>, shorter: u64)
    requires width { IsWidth N }
    requires order { shorter ≤ 8 * N * length chunks.old.items }
    ensures count { IsChunkCount N (length chunks.new.items) shorter }
    ensures below { (i : ℕ) → i < shorter
        → chunks_bit N chunks.new.items i ≡ chunks_bit N chunks.old.items i }
    ensures zero { IsZeroFrom N chunks.new.items shorter }
{
    chunks.truncate(chunk_count::<N>(shorter));
    clear_tail(chunks, shorter);
}
