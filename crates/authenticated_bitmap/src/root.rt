//! The root of a bitmap, and the check of a chunk or of a bit against it.
//!
//! The leaves of the tree are the chunks by their absolute index. A pruned chunk stays in the tree
//! by its digest, so that pruning moves no leaf, and changes the root only by the number of pruned
//! chunks in its header: an audit path from before stays good.

ghost use Rattle.std.specs.Prelude.{◌≡◌, ◌<◌, ◌*◌, ◌/◌, ◌^◌, ◌↔◌, ℕ, List, IsTrue};
ghost use Rattle.authenticated_bitmap.specs.Tree.{IsHash};
ghost use Rattle.authenticated_bitmap.specs.Root.{BindsBit, BindsBitmaps, BindsChunk, KeepsProofs, LeadsTo, Shape as ShapeOf, ShowsChunks, chunk_bit, header, root_over};

use crate::hash::Digest;
use crate::tree::{leaf_digest, recompute};

/// Each retained chunk and its audit path lead to the root of the bitmap.
pub fn paths_show_their_chunks()
    ensures { (H : List ℕ → List ℕ) → ShowsChunks H }
{}

/// A root binds its bitmap. If a chunk leads to the root of a bitmap, then the bitmap has that
/// shape and that chunk at that index, or two different inputs with one digest are given: one that
/// is hashed for the chunk and its path, and one that is hashed for the bitmap. Of a pruned chunk
/// the bitmap has the digest alone, and the chunk has that digest.
pub fn roots_bind_their_bitmaps()
    ensures { (H : List ℕ → List ℕ) → IsHash H → BindsBitmaps H }
{}

/// Pruning changes the digest of no chunk, so that an audit path from before leads to the new root.
pub fn pruning_keeps_proofs()
    ensures { (H : List ℕ → List ℕ) → IsHash H → KeepsProofs H }
{}

// The numbers of a root, each in eight bytes, most significant byte first.
pub(crate) fn header_bytes(width: u64, len: u64, pruned: u64) -> [u8; 24]
    ensures { result ≡ header (record { width = width; len = len; pruned = pruned }) }
{
    let w = width.to_be_bytes();
    let l = len.to_be_bytes();
    let p = pruned.to_be_bytes();
    [
        w[0], w[1], w[2], w[3], w[4], w[5], w[6], w[7], l[0], l[1], l[2], l[3], l[4], l[5], l[6],
        l[7], p[0], p[1], p[2], p[3], p[4], p[5], p[6], p[7],
    ]
}

/// Returns the root of a bitmap: the hash of the byte 2, `N`, the length, the number of pruned
/// chunks, and the digest of the tree of all its chunks.
///
/// Chunks have `N` bytes, `len` counts bits with the pruned ones, and each number is hashed as
/// eight bytes, most significant byte first.
///
/// # Memory
/// Does not allocate.
///
/// # Complexity
/// One hash.
pub fn root_digest<D: Digest, const N: usize>(
    hash: &D,
    len: u64,
    pruned: u64,
    tree: &[u8; 32],
) -> [u8; 32]
    ensures { result ≡ root_over (D.digest_of hash.now)
        (record { width = N; len = len; pruned = pruned }) tree.now }
{
    hash.digest(2, &header_bytes(N as u64, len, pruned), tree)
}

/// Returns whether a chunk and its audit path lead to a root, as chunk `i` of a bitmap of `len`
/// bits of which `pruned` chunks are pruned.
///
/// `i` is the absolute index of the chunk, and `len` counts the pruned bits too. If it returns
/// `true`, then each bitmap with that root has that length, that number of pruned chunks and that
/// chunk, or two different inputs have one digest: one that is hashed here, and one that is hashed
/// for the bitmap. Of a pruned chunk a bitmap has the digest alone, and the chunk has that digest.
///
/// `N` is at least 1, and `8N` fits `u64`.
///
/// # Memory
/// Does not allocate.
///
/// # Complexity
/// One hash for the chunk, one per digest of the path, and one for the root.
pub fn verify_chunk<D: Digest, const N: usize>(
    hash: &D,
    root: &[u8; 32],
    len: u64,
    pruned: u64,
    i: u64,
    chunk: &[u8; N],
    path: &[[u8; 32]],
) -> bool
    requires some { 0 < N }
    requires fits { 8 * N < 2 ^ 64 }
    ensures value { IsTrue result ↔ LeadsTo (D.digest_of hash.now) root.now
        (record { width = N; len = len; pruned = pruned }) i chunk.now path.now }
    ensures binds { IsTrue result → BindsChunk (D.digest_of hash.now) root.now
        (record { width = N; len = len; pruned = pruned }) i chunk.now path.now }
{
    let n = len.div_ceil(8 * N as u64);
    if i >= n {
        return false;
    }
    match recompute(hash, i, n, &leaf_digest(hash, chunk), path) {
        None => false,
        Some(tree) => root_digest::<D, N>(hash, len, pruned, &tree) == *root,
    }
}

// The bit of a chunk that has a position of the bitmap.
fn bit_in<const N: usize>(chunk: &[u8; N], position: u64) -> bool
    requires { 0 < N }
    ensures { result ≡ chunk_bit N chunk.now position }
{
    (chunk[((position / 8) % N as u64) as usize] >> (position % 8)) % 2 == 1
}

/// Returns whether a chunk and its audit path show that a bitmap has `bit` at a position.
///
/// They do if the position is below `len`, the chunk has that bit, and [`verify_chunk`] returns
/// `true` for the chunk of the position. `position` is absolute: it counts the pruned bits too. If
/// it returns `true`, then each bitmap with that root in which the chunk is retained has that bit,
/// or two different inputs have one digest: one that is hashed here, and one that is hashed for the
/// bitmap.
///
/// `N` is at least 1, and `8N` fits `u64`.
///
/// # Memory
/// Does not allocate.
///
/// # Complexity
/// As [`verify_chunk`].
pub fn verify_bit<D: Digest, const N: usize>(
    hash: &D,
    root: &[u8; 32],
    len: u64,
    pruned: u64,
    position: u64,
    bit: bool,
    chunk: &[u8; N],
    path: &[[u8; 32]],
) -> bool
    requires some { 0 < N }
    requires fits { 8 * N < 2 ^ 64 }
    ensures value { IsTrue result ↔ ((position < len) × (chunk_bit N chunk.now position ≡ bit)
        × LeadsTo (D.digest_of hash.now) root.now (record { width = N; len = len; pruned = pruned })
        (position / (8 * N)) chunk.now path.now) }
    ensures binds { IsTrue result → BindsBit (D.digest_of hash.now) root.now
        (record { width = N; len = len; pruned = pruned }) position bit chunk.now path.now }
{
    if position >= len || bit_in(chunk, position) != bit {
        return false;
    }
    verify_chunk(
        hash,
        root,
        len,
        pruned,
        position / (8 * N as u64),
        chunk,
        path,
    )
}
