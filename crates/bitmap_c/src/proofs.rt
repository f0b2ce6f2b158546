//! Checks of proofs against a root, with SHA-256. They need no bitmap.

ghost use Rattle.std.specs.Prelude.{◌≡◌, ◌<◌};
ghost use Rattle.bitmap_bytes.specs.Chunk.{IsWidth};
ghost use Rattle.authenticated_bitmap.specs.Root.{chunk_bit};
ghost use Rattle.bitmap_c.specs.Proofs.{ChecksBit, ChecksBitOf, ChecksChunk, ChecksChunkOf, ChecksRange, ChecksRangeOf, EndsBefore, HasPruned, RetainsBit, Shows, ShowsChunk, ShowsRange, WritesSize, chunk_outputs, range_outputs};

use crate::status::{
    DONE, INVALID, NO_SUCH_WIDTH, NOT_VERIFIED, OUT_OF_BOUNDS, PRUNED, WRONG_SIZE,
};
use authenticated_bitmap::encoding::Proof;
use authenticated_bitmap::range_encoding::RangeProof;
use sha256_digest::Sha256;

// Evaluates an expression with a width as a constant, or returns that there is no such width.
macro_rules! of_width {
    ($width:expr, $call:ident($($argument:expr),*)) => {
        match $width {
            1 => $call::<1>($($argument),*),
            8 => $call::<8>($($argument),*),
            32 => $call::<32>($($argument),*),
            64 => $call::<64>($($argument),*),
            _ => NO_SUCH_WIDTH,
        }
    };
}

// Checks bytes as a proof of a chunk of N bytes, and writes what it shows.
fn check_chunk<const N: usize>(
    root: &[u8; 32],
    bytes: &[u8],
    chunk: &mut [u8],
    length: &mut u64,
    pruned_chunks: &mut u64,
    index: &mut u64,
) -> u32
    requires width { IsWidth N }
    ensures checked { ChecksChunkOf N root.now bytes.now result
        (chunk_outputs chunk.old length.old pruned_chunks.old index.old)
        (chunk_outputs chunk.new length.new pruned_chunks.new index.new) }
    ensures binds { result ≡ DONE → ShowsChunk N root.now bytes.now }
{
    let Ok(proof) = Proof::<N>::read(bytes) else {
        return INVALID;
    };
    if chunk.len() != N {
        return WRONG_SIZE;
    }
    if !proof.verify(&Sha256, root) {
        return NOT_VERIFIED;
    }
    let shown = proof.chunk;
    chunk.copy_from_slice(shown);
    *length = proof.len;
    *pruned_chunks = proof.pruned;
    *index = proof.index;
    DONE
}

// The bit of a chunk that has a position of the bitmap.
fn bit_in<const N: usize>(chunk: &[u8; N], position: u64) -> bool
    requires { 0 < N }
    ensures { result ≡ chunk_bit N chunk.now position }
{
    (chunk[((position / 8) % N as u64) as usize] >> (position % 8)) % 2 == 1
}

// Checks bytes as a proof of a chunk of N bytes, and writes the bit that it shows at a position.
fn check_bit<const N: usize>(root: &[u8; 32], bytes: &[u8], position: u64, bit: &mut u8) -> u32
    requires width { IsWidth N }
    ensures checked { ChecksBitOf N root.now bytes.now position result bit.old bit.new }
    ensures binds { result ≡ DONE → Shows N root.now bytes.now (RetainsBit position bit.new) }
    ensures ends { result ≡ OUT_OF_BOUNDS → Shows N root.now bytes.now (EndsBefore position) }
    ensures pruned { result ≡ PRUNED → Shows N root.now bytes.now (HasPruned position) }
{
    let Ok(claim) = Proof::<N>::read(bytes) else {
        return INVALID;
    };
    if !claim.verify(&Sha256, root) {
        return NOT_VERIFIED;
    }
    if position >= claim.len {
        return OUT_OF_BOUNDS;
    }
    let index = position / (8 * N as u64);
    if index < claim.pruned {
        return PRUNED;
    }
    if index != claim.index {
        return NOT_VERIFIED;
    }
    let chunk = claim.chunk;
    *bit = bit_in(chunk, position) as u8;
    DONE
}

// Checks bytes as a proof of a range of chunks of N bytes, and writes what it shows.
fn check_range<const N: usize>(
    root: &[u8; 32],
    bytes: &[u8],
    chunks: &mut [u8],
    size: &mut usize,
    length: &mut u64,
    pruned_chunks: &mut u64,
    first: &mut u64,
) -> u32
    requires width { IsWidth N }
    ensures checked { ChecksRangeOf N root.now bytes.now result
        (range_outputs chunks.old length.old pruned_chunks.old first.old)
        (range_outputs chunks.new length.new pruned_chunks.new first.new) }
    ensures size { WritesSize N bytes.now result size.old size.new }
    ensures binds { result ≡ DONE → ShowsRange N root.now bytes.now }
{
    let Ok(range) = RangeProof::<N>::read(bytes) else {
        return INVALID;
    };
    let shown = range.chunks;
    let flat = shown.as_flattened();
    if chunks.len() != flat.len() {
        *size = flat.len();
        return WRONG_SIZE;
    }
    if !range.verify(&Sha256, root) {
        return NOT_VERIFIED;
    }
    chunks.copy_from_slice(flat);
    *size = chunks.len();
    *length = range.len;
    *pruned_chunks = range.pruned;
    *first = range.first;
    DONE
}

/// Checks a proof of a chunk against a root, and writes what it shows: the chunk, its index, and
/// the length and the number of pruned chunks of the bitmap.
///
/// The bytes are those of one proof. No bitmap is needed. `root` has 32 bytes, and is from someone
/// who computed it of a bitmap with chunks of `width` bytes, with SHA-256. `chunk` has `width`
/// bytes. With `DONE`, each bitmap with that root has this length, this number of pruned chunks,
/// and this chunk at this index, unless two different inputs of SHA-256 have one digest. `length`
/// counts pruned bits too, and is in bits. The bits of the last chunk from the length on are not
/// part of the bitmap. Of a pruned chunk the bitmap has the digest alone, and the chunk has that
/// digest.
///
/// # Errors
///
/// Returns the first status that applies. Nothing is written then.
///
/// | Status | If |
/// |---|---|
/// | `NO_SUCH_WIDTH` | the width is not 1, 8, 32 or 64 |
/// | `INVALID` | the bytes are not the encoding of a proof of a chunk of this width |
/// | `WRONG_SIZE` | the length of `chunk` is not the width |
/// | `NOT_VERIFIED` | the proof does not verify against the root |
///
/// # Memory
///
/// Does not allocate.
///
/// # Complexity
///
/// One hash for the chunk, one per digest of the proof, of which there are at most 64, and one for
/// the root.
#[unsafe(no_mangle)]
pub extern "C" fn mortarpink_verify_chunk(
    width: u32,
    root: &[u8; 32],
    proof: &[u8],
    chunk: &mut [u8],
    length: &mut u64,
    pruned_chunks: &mut u64,
    index: &mut u64,
) -> u32
    ensures checked { ChecksChunk width root.now proof.now result
        (chunk_outputs chunk.old length.old pruned_chunks.old index.old)
        (chunk_outputs chunk.new length.new pruned_chunks.new index.new) }
    // Each bitmap with the root has what is written, unless two inputs that were hashed collide.
    ensures binds { result ≡ DONE → ShowsChunk width root.now proof.now }
{
    of_width!(
        width,
        check_chunk(root, proof, chunk, length, pruned_chunks, index)
    )
}

/// Checks a proof of the chunk of a position against a root, and writes the bit at the position.
///
/// The bytes are those of one proof. No bitmap is needed. `root` has 32 bytes, as for
/// `mortarpink_verify_chunk`. With `DONE`, each bitmap with that root retains the position, and has
/// this bit there, unless two different inputs of SHA-256 have one digest. With `OUT_OF_BOUNDS` and
/// `PRUNED` the proof verifies too, so each bitmap with that root has no such position, or has
/// pruned it, with the same exception.
///
/// # Errors
///
/// Returns the first status that applies. Nothing is written then.
///
/// | Status | If |
/// |---|---|
/// | `NO_SUCH_WIDTH` | the width is not 1, 8, 32 or 64 |
/// | `INVALID` | the bytes are not the encoding of a proof of a chunk of this width |
/// | `NOT_VERIFIED` | the proof does not verify against the root |
/// | `OUT_OF_BOUNDS` | the position is at or past the length that the proof shows |
/// | `PRUNED` | the position is in a chunk that the proof shows as pruned |
/// | `NOT_VERIFIED` | the proof is of another chunk than that of the position |
///
/// # Memory
///
/// Does not allocate.
///
/// # Complexity
///
/// As `mortarpink_verify_chunk`.
#[unsafe(no_mangle)]
pub extern "C" fn mortarpink_verify_bit(
    width: u32,
    root: &[u8; 32],
    proof: &[u8],
    position: u64,
    bit: &mut u8,
) -> u32
    ensures checked { ChecksBit width root.now proof.now position result bit.old bit.new }
    // Each bitmap with the root has the bit, unless two inputs that were hashed collide.
    ensures binds { result ≡ DONE → Shows width root.now proof.now (RetainsBit position bit.new) }
    ensures ends { result ≡ OUT_OF_BOUNDS → Shows width root.now proof.now (EndsBefore position) }
    ensures pruned { result ≡ PRUNED → Shows width root.now proof.now (HasPruned position) }
{
    of_width!(width, check_bit(root, proof, position, bit))
}

/// Checks a proof of a range of chunks against a root, and writes what it shows: the chunks, one
/// after another, the index of the first one, and the length and the number of pruned chunks of the
/// bitmap.
///
/// The bytes are those of one proof. No bitmap is needed. `root` has 32 bytes, as for
/// `mortarpink_verify_chunk`. `size` becomes the size of the chunks in bytes, which is `width` per
/// chunk and at most that of the proof. A caller that does not know it calls with an empty `chunks`
/// first, whose pointer is not NULL either. With `DONE`, each bitmap with that root has what is
/// written, with the exception and in the sense of `mortarpink_verify_chunk`.
///
/// # Errors
///
/// Returns the first status that applies. Nothing is written then, but for `size` with
/// `WRONG_SIZE`.
///
/// | Status | If |
/// |---|---|
/// | `NO_SUCH_WIDTH` | the width is not 1, 8, 32 or 64 |
/// | `INVALID` | the bytes are not the encoding of a proof of a range of chunks of this width |
/// | `WRONG_SIZE` | the length of `chunks` is not the size of the chunks |
/// | `NOT_VERIFIED` | the proof does not verify against the root, or has no chunk |
///
/// # Memory
///
/// Does not allocate.
///
/// # Complexity
///
/// One hash per chunk, one per node of the tree above them, and one for the root. There are fewer
/// nodes than chunks and digests together.
#[unsafe(no_mangle)]
pub extern "C" fn mortarpink_verify_range(
    width: u32,
    root: &[u8; 32],
    proof: &[u8],
    chunks: &mut [u8],
    size: &mut usize,
    length: &mut u64,
    pruned_chunks: &mut u64,
    first: &mut u64,
) -> u32
    ensures checked { ChecksRange width root.now proof.now result
        (range_outputs chunks.old length.old pruned_chunks.old first.old)
        (range_outputs chunks.new length.new pruned_chunks.new first.new) }
    ensures size { WritesSize width proof.now result size.old size.new }
    // Each bitmap with the root has what is written, unless two inputs that were hashed collide.
    ensures binds { result ≡ DONE → ShowsRange width root.now proof.now }
{
    of_width!(
        width,
        check_range(root, proof, chunks, size, length, pruned_chunks, first)
    )
}
