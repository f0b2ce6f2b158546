//! Chunks that are cut at a length: their bits from there on are cleared.

ghost use Rattle.std.specs.Prelude.{◌≡◌, ℕ, ◌*◌, ◌%◌, ◌^◌, ◌<◌, ◌≤◌, if◌then◌else◌, false, nat_lt};
ghost use Rattle.bitmap_bytes.specs.Chunk.{chunk_bit, IsChunk, IsWidth};
ghost use Rattle.bitmap_core.specs.PrunedBits.{chunk, truncated};

use bitmap_core::bitmap::prunable::Prunable;
use bitmap_core::chunk::facts::known;
use bitmap_core::chunk::{chunk_width, clear_from};

// Clears the bits of a chunk from bit `from` on.
pub(crate) fn cut<const N: usize>(bytes: &mut [u8; N], from: u64)
    requires width { IsWidth N }
    ensures known { IsChunk N bytes.new }
    ensures bits { (k : ℕ) → chunk_bit N bytes.new k
        ≡ (if nat_lt (k % (8 * N)) from then chunk_bit N bytes.old k else false) }
{
    if from < chunk_width::<N>() {
        clear_from(bytes, from);
    }
    known(bytes);
}

// Returns the chunk of the current bitmap at an index, with the bits from position `len` on cleared.
pub(crate) fn first_chunk<const N: usize>(current: &Prunable<N>, len: u64, index: usize) -> [u8; N]
    requires from { current.now.pruned ≤ index }
    requires fits { 8 * N * index < 2 ^ 64 }
    ensures value { result ≡ chunk N (truncated N current.now len) index }
    ensures known { IsChunk N result }
{
    let total = current.len();
    let start = chunk_width::<N>() * index as u64;
    let mut bytes = [0; N];
    if start < total {
        bytes = *current.get_chunk(index);
    }
    cut(&mut bytes, len.saturating_sub(start));
    bytes
}
