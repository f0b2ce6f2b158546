//! The bits of a dense bitmap, appended to the edited chunks of a batch.

ghost use Rattle.std.specs.Prelude.{◌≡◌, ℕ, ◌+◌, ◌*◌, ◌/◌, ◌%◌, ◌^◌, ◌<◌, ◌≤◌, [], List, Some, None, length, slice_index_or, false, OnOk, OnErr, IsOk, IsSome, nat_eq, unwrap_or};
ghost use Rattle.std.specs.Int.{div_ceil};
ghost use Rattle.std.specs.Map.{lookup};
ghost use Rattle.bitmap_bytes.specs.Chunk.{chunk_bit, IsChunk, IsWidth};
ghost use Rattle.bitmap_core.specs.PrunedBits.{chunk, truncated};
ghost use Rattle.chunk_map.specs.Entries.{Puts};
ghost use Rattle.historical_bitmap.specs.Lengths.{IsJoined, JoinsChunks};

use crate::bitmap::historical::cut_chunks::cut;
use crate::bitmap::historical::edited::EditedChunks;
use crate::bitmap::historical::opened::open_to;
use bitmap_core::bitmap::prunable::Prunable;
use bitmap_core::bitmap::{BitMap, Readable};
use bitmap_core::chunk::facts::known;
use bitmap_core::chunk::join::{chunk_from, join};
use bitmap_core::chunk::{chunk_count, chunk_index, chunk_width};
use std::alloc::AllocError;

// Returns a copy of the chunk of a bitmap at an index, with zeros past the end of the bitmap.
fn chunk_or_zeros<const N: usize>(bits: &BitMap<N>, index: usize) -> [u8; N]
    requires width { IsWidth N }
    ensures known { IsChunk N result }
    ensures bits { (k : ℕ) → chunk_bit N result k
        ≡ slice_index_or bits.now (8 * N * index + k % (8 * N)) false }
{
    let len = bits.len();
    if index >= chunk_count::<N>(len) {
        return [0; N];
    }
    let mut bytes = bits.get_chunk(index);
    cut(&mut bytes, len - chunk_width::<N>() * index as u64);
    bytes
}

// Returns the chunk of the bits of a bitmap from position `bit` on, with zeros past the end of the bitmap.
fn chunk_at_bit<const N: usize>(bits: &BitMap<N>, bit: u64) -> [u8; N]
    requires width { IsWidth N }
    ensures known { IsChunk N result }
    ensures bits { (k : ℕ) → chunk_bit N result k
        ≡ slice_index_or bits.now (bit + k % (8 * N)) false }
{
    let index = chunk_index::<N>(bit);
    let skip = bit % chunk_width::<N>();
    let low = chunk_or_zeros(bits, index);
    if skip == 0 {
        return low;
    }
    let both = [low, chunk_or_zeros(bits, index + 1)];
    let bytes = chunk_from(both.as_flattened(), &[], skip);
    known(&bytes);
    bytes
}

// Returns the chunk at an index with the bits of a bitmap from position `len` on. The chunk ends past that position.
fn joined<const N: usize>(old: &[u8; N], index: usize, len: u64, bits: &BitMap<N>) -> [u8; N]
    requires width { IsWidth N }
    requires from { len / (8 * N) ≤ index }
    requires fits { 8 * N * index < 2 ^ 64 }
    ensures { IsJoined N old.now len bits.now index result }
{
    let start = chunk_width::<N>() * index as u64;
    if len <= start {
        return chunk_at_bit(bits, start - len);
    }
    let mut bytes = *old;
    join(&mut bytes, len, &chunk_at_bit(bits, 0), &[]);
    known(&bytes);
    bytes
}

// Writes the bits of a bitmap from position `len` on to the edited chunk at an index. Does not allocate.
fn join_chunk<const N: usize>(
    chunks: &mut EditedChunks<N>,
    index: usize,
    len: u64,
    bits: &BitMap<N>,
)
    requires width { IsWidth N }
    requires from { len / (8 * N) ≤ index }
    requires fits { 8 * N * index < 2 ^ 64 }
    requires edited { IsSome (lookup (nat_eq index) chunks.old) }
    ensures { (bytes : List ℕ)
        × IsJoined N (unwrap_or (lookup (nat_eq index) chunks.old) []) len bits.now index bytes
        × Puts chunks.old chunks.new index (Some bytes) }
{
    if let Some(old) = chunks.get(index) {
        let bytes = joined(old, index, len, bits);
        let _ = chunks.write(index, bytes);
    }
}

// Writes the bits of a bitmap from position `len` on to the edited chunks from index `first` up to `past`. Does not allocate.
fn join_each<const N: usize>(
    chunks: &mut EditedChunks<N>,
    first: usize,
    past: usize,
    len: u64,
    bits: &BitMap<N>,
)
    requires width { IsWidth N }
    requires from { len / (8 * N) ≤ first }
    requires order { first ≤ past }
    requires fits { (q : ℕ) → q < past → 8 * N * q < 2 ^ 64 }
    requires edited { (q : ℕ) → first ≤ q → q < past → IsSome (lookup (nat_eq q) chunks.old) }
    ensures { JoinsChunks N (λ q. []) chunks.old chunks.new first past len bits.now }
{
    for index in first..past {
        join_chunk(chunks, index, len, bits);
    }
}

// Appends the bits of a bitmap from position `len` on, past whose chunk there is none. The bitmap is not empty.
// Starts from the current bitmap's chunk, cut to `len` bits, if none is edited there. After an error nothing is changed.
// Does not allocate, and succeeds, if each chunk of the new bits is edited.
pub(crate) fn append_bits<const N: usize>(
    chunks: &mut EditedChunks<N>,
    current: &Prunable<N>,
    len: u64,
    bits: &BitMap<N>,
) -> Result<(), AllocError>
    requires some { 0 < length bits.now }
    requires fits { len + length bits.now < 2 ^ 64 }
    requires low { current.now.pruned ≤ len / (8 * N) }
    requires last { (q : ℕ) → len / (8 * N) < q → lookup (nat_eq q) chunks.old ≡ None }
    ensures ok { OnOk result (JoinsChunks N (chunk N (truncated N current.now len))
        chunks.old chunks.new (len / (8 * N)) (div_ceil (len + length bits.now) (8 * N)) len bits.now) }
    ensures err { OnErr result (chunks.new ≡ chunks.old) }
    ensures edited { ((q : ℕ) → len / (8 * N) ≤ q → q < div_ceil (len + length bits.now) (8 * N)
        → IsSome (lookup (nat_eq q) chunks.old)) → IsOk result }
{
    let total = len + bits.len();
    let first = chunk_index::<N>(len);
    let past = chunk_count::<N>(total);
    open_to(chunks, current, len, first, past)?;
    join_each(chunks, first, past, len, bits);
    Ok(())
}
