//! Facts that proofs take from the types of bytes and chunks: a byte is below 256, and a chunk is a list of `N` bytes.
//!
//! This module is for the proofs of the layers above. No function here changes a value that its caller has.

ghost use Rattle.std.specs.Prelude.{◌≡◌, ℕ, ◌+◌, ◌*◌, ◌<◌, map, slice_index};
ghost use Rattle.std.specs.List.{range_with_len};
ghost use Rattle.bitmap_bytes.specs.Bits.{AreChunks};
ghost use Rattle.bitmap_bytes.specs.Chunk.{byte_of, chunk_bit, IsChunk};

// States that each byte is below 256.
pub(crate) fn fit(bytes: &[u8])
    ensures { (k : ℕ) → slice_index bytes.now k < 256 }
{}

/// States, for proofs, that a chunk is a list of `N` bytes, each below 256. Does nothing else.
///
/// Does not allocate; constant time.
pub fn known<const N: usize>(chunk: &[u8; N])
    ensures { IsChunk N chunk.now }
{
    fit(chunk);
}

/// States that each of `chunks` is a list of `N` bytes.
///
/// Does not allocate. The body is a loop over the chunks that has no effect.
pub fn all_known<const N: usize>(chunks: &[[u8; N]])
    ensures { AreChunks N chunks.now }
{
    for i in 0..chunks.len() {
        known(&chunks[i]);
    }
}

/// Returns the chunk itself, and states that its bytes are those that its bits make.
///
/// Does not allocate; constant time.
pub fn from_own_bits<const N: usize>(chunk: &[u8; N]) -> &[u8; N]
    ensures same { result.now ≡ chunk.now }
    ensures bytes { chunk.now
        ≡ map (λ j. byte_of (λ t. chunk_bit N chunk.now (8 * j + t))) (range_with_len 0 N) }
{
    fit(chunk);
    chunk
}
