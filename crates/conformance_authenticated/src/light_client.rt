//! A client that has the root of a bitmap, and no bitmap: a server that it does not trust shows bits to it.

ghost use Rattle.std.specs.Prelude.{◌<◌, length, IfOk, IsTrue};
ghost use Rattle.sha2.specs.Sha256.{sha256};
ghost use Rattle.authenticated_bitmap.specs.Encoding.{proof_in};
ghost use Rattle.authenticated_bitmap.specs.Root.{BindsBit};

use crate::sha::Sha;
use authenticated_bitmap::encoding::{DecodeError, Proof};
use authenticated_bitmap::root::{root_digest, verify_bit};
use authenticated_bitmap::tree::{leaf_digests, prove, tree_digest};
use std::alloc::{AllocError, Global};

/// Returns the root of a bitmap of `len` bits in these chunks, of which none is pruned.
fn published_root(alloc: Global, chunks: &[[u8; 8]], len: u64) -> Result<[u8; 32], AllocError> {
    let digests = leaf_digests(alloc, &Sha, chunks)?;
    Ok(root_digest::<Sha, 8>(&Sha, len, 0, &tree_digest(&Sha, &digests)))
}

/// Returns the bytes by which the server shows the chunk at an index.
fn shown_chunk(
    alloc: Global,
    chunks: &[[u8; 8]],
    len: u64,
    index: usize,
) -> Result<Vec<u8>, AllocError>
    requires { index < length chunks.now }
{
    let digests = leaf_digests(alloc, &Sha, chunks)?;
    let path = prove(alloc, &Sha, &digests, index)?;
    let proof = Proof {
        len,
        pruned: 0,
        index: index as u64,
        chunk: &chunks[index],
        path: &path,
    };
    proof.write(alloc)
}

/// Returns whether the bytes of a server show that the bitmap with a root has `bit` at a position.
fn is_shown(root: &[u8; 32], bytes: &[u8], position: u64, bit: bool) -> Result<bool, DecodeError>
    ensures shown { IfOk result (λ shown. IsTrue shown → IfOk (proof_in 8 bytes.now)
        (λ p. BindsBit sha256 root.now p.shape position bit p.chunk p.path)) }
{
    let proof = Proof::<8>::read(bytes)?;
    Ok(verify_bit(
        &Sha,
        root,
        proof.len,
        proof.pruned,
        position,
        bit,
        proof.chunk,
        proof.path,
    ))
}

#[cfg(test)]
mod tests {
    use super::*;
    use crate::checks::{equal, ok};

    // Five chunks of eight bytes, with 300 bits. Bits 0 and 299 are set, and no other.
    const CHUNKS: [[u8; 8]; 5] = [
        [1, 0, 0, 0, 0, 0, 0, 0],
        [0; 8],
        [0; 8],
        [0; 8],
        [0, 0, 0, 0, 0, 8, 0, 0],
    ];

    #[test]
    fn bits_are_shown(rt: HostRuntime) {
        let root = ok(&rt, published_root(rt.alloc(), &CHUNKS, 300));
        let bytes = ok(&rt, shown_chunk(rt.alloc(), &CHUNKS, 300, 4));
        equal(&rt, is_shown(&root, &bytes, 299, true), Ok(true));
        equal(&rt, is_shown(&root, &bytes, 298, false), Ok(true));
    }

    // The other value of the bit, a bit of another chunk, one past the length, another root, and changed or cut bytes.
    #[test]
    fn nothing_else_is_shown(rt: HostRuntime) {
        let root = ok(&rt, published_root(rt.alloc(), &CHUNKS, 300));
        let mut bytes = ok(&rt, shown_chunk(rt.alloc(), &CHUNKS, 300, 4));
        equal(&rt, is_shown(&root, &bytes, 299, false), Ok(false));
        equal(&rt, is_shown(&root, &bytes, 0, true), Ok(false));
        equal(&rt, is_shown(&root, &bytes, 300, false), Ok(false));
        let other = ok(&rt, published_root(rt.alloc(), &CHUNKS, 301));
        equal(&rt, is_shown(&other, &bytes, 299, true), Ok(false));
        // Five numbers, the chunk and one digest.
        assert!(rt; bytes.len() == 40 + 8 + 32);
        equal(
            &rt,
            is_shown(&root, &bytes[1..], 299, true),
            Err(DecodeError::Width(2048)),
        );
        bytes[45] = 0;
        equal(&rt, is_shown(&root, &bytes, 299, false), Ok(false));
    }
}
