//! Roots and audit paths of one state, read from its stored digests.

ghost use Rattle.std.specs.Prelude.{◌≡◌, ◌*◌, ◌<◌, ◌≤◌, ℕ, List, IfOk};
ghost use Rattle.std.specs.Int.{div_ceil};
ghost use Rattle.bitmap_bytes.specs.Chunk.{IsWidth};
ghost use Rattle.bitmap_core.specs.Meaning.{pruned_meaning};
ghost use Rattle.bitmap_core.specs.PrunedBits.{PrunedBits, bit_len, chunk as chunk_of};
ghost use Rattle.authenticated_bitmap.specs.LeafDigests.{Authenticates, bitmap_of};
ghost use Rattle.authenticated_bitmap.specs.Root.{LeadsTo, chunk_digests, root_of};
ghost use Rattle.authenticated_bitmap.specs.Stored.{nodes};
ghost use Rattle.authenticated_bitmap.specs.Tree.{audit_path};

use authenticated_bitmap::hash::Digest;
use authenticated_bitmap::root::root_digest;
use authenticated_bitmap::store::{prove_from_bitmap, tree_from_bitmap};
use bitmap_core::bitmap::Readable;
use bitmap_core::chunk::chunk_count;
use std::alloc::{AllocError, Global};

// Returns the root of a state of `len` bits, from the bitmap that stores its digests.
pub(crate) fn root_from<D: Digest, const N: usize, T: Readable<32>>(
    hash: &D,
    len: u64,
    pruned: usize,
    stored: &T,
) -> [u8; 32]
    requires width { IsWidth N }
    requires pruned { (T.meaning stored.now).pruned ≡ 0 }
    requires size { (T.meaning stored.now).len ≡ 256 * nodes (div_ceil len (8 * N)) }
    ensures { (s t : PrunedBits) → bit_len N s ≡ len → s.pruned ≡ pruned
        → T.meaning stored.now ≡ pruned_meaning 32 t
        → Authenticates (D.digest_of hash.now) N s t
        → result ≡ root_of (D.digest_of hash.now) (bitmap_of N s t) }
{
    // The prover learns from this call that the number of leaves fits.
    let _ = stored.len();
    let tree = tree_from_bitmap(hash, stored, chunk_count::<N>(len) as u64);
    root_digest::<D, N>(hash, len, pruned as u64, &tree)
}

// Returns the audit path of a chunk of a state of `len` bits, from the bitmap that stores its digests.
pub(crate) fn path_from<D: Digest, const N: usize, T: Readable<32>>(
    alloc: Global,
    hash: &D,
    len: u64,
    stored: &T,
    index: usize,
) -> Result<Vec<[u8; 32]>, AllocError>
    requires width { IsWidth N }
    requires pruned { (T.meaning stored.now).pruned ≡ 0 }
    requires size { (T.meaning stored.now).len ≡ 256 * nodes (div_ceil len (8 * N)) }
    requires some { index < div_ceil len (8 * N) }
    ensures { (s t : PrunedBits) → bit_len N s ≡ len
        → T.meaning stored.now ≡ pruned_meaning 32 t
        → Authenticates (D.digest_of hash.now) N s t
        → IfOk result (λ path. path.items
        ≡ audit_path (D.digest_of hash.now) index
        (chunk_digests (D.digest_of hash.now) (bitmap_of N s t))) }
{
    // The prover learns from this call that the number of leaves fits.
    let _ = stored.len();
    prove_from_bitmap(
        alloc,
        hash,
        stored,
        chunk_count::<N>(len) as u64,
        index as u64,
    )
}
