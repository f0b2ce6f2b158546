//! Roots of bitmaps, and chunks and bits that are checked against them.

use crate::checks::{equal, equal_digests, ok};
use crate::known::{
    FIVE_CHUNKS, PATH_CHUNK_2_0, PATH_CHUNK_2_1, PATH_CHUNK_2_2, ROOT_PRUNED_0, ROOT_PRUNED_2,
    ROOT_PRUNED_4, WORKED_0, WORKED_2, WORKED_ROOT,
};
use crate::sha::Sha;
use authenticated_bitmap::root::{root_digest, verify_bit, verify_chunk};
use authenticated_bitmap::tree::{leaf_digests, prove, tree_digest};

const CHUNKS: [[u8; 4]; 5] = [
    [0, 0, 0, 0],
    [1, 1, 1, 1],
    [2, 2, 2, 2],
    [3, 3, 3, 3],
    [4, 4, 4, 4],
];

const PATH: [[u8; 32]; 3] = [PATH_CHUNK_2_0, PATH_CHUNK_2_1, PATH_CHUNK_2_2];

#[test]
fn roots_of_a_bitmap_and_of_what_is_left_of_it(rt: HostRuntime) {
    let digests = ok(&rt, leaf_digests(rt.alloc(), &Sha, &CHUNKS));
    let tree = tree_digest(&Sha, &digests);
    equal(&rt, tree, FIVE_CHUNKS);
    equal(
        &rt,
        root_digest::<Sha, 4>(&Sha, 150, 0, &tree),
        ROOT_PRUNED_0,
    );
    equal(
        &rt,
        root_digest::<Sha, 4>(&Sha, 150, 2, &tree),
        ROOT_PRUNED_2,
    );
    equal(
        &rt,
        root_digest::<Sha, 4>(&Sha, 150, 4, &tree),
        ROOT_PRUNED_4,
    );
    let path = ok(&rt, prove(rt.alloc(), &Sha, &digests, 2));
    equal_digests(&rt, &path, &PATH);
}

#[test]
fn a_proof_stays_good_when_chunks_are_pruned(rt: HostRuntime) {
    let chunk = [2, 2, 2, 2];
    equal(
        &rt,
        verify_chunk(&Sha, &ROOT_PRUNED_0, 150, 0, 2, &chunk, &PATH),
        true,
    );
    equal(
        &rt,
        verify_chunk(&Sha, &ROOT_PRUNED_2, 150, 2, 2, &chunk, &PATH),
        true,
    );
    // A chunk that is pruned itself is still the one that was there.
    equal(
        &rt,
        verify_chunk(&Sha, &ROOT_PRUNED_4, 150, 4, 2, &chunk, &PATH),
        true,
    );
}

#[test]
fn a_false_proof_of_a_chunk_does_not_verify(rt: HostRuntime) {
    let chunk = [2, 2, 2, 2];
    // The root of another number of pruned chunks, another length, another place, and another
    // chunk.
    equal(
        &rt,
        verify_chunk(&Sha, &ROOT_PRUNED_0, 150, 2, 2, &chunk, &PATH),
        false,
    );
    equal(
        &rt,
        verify_chunk(&Sha, &ROOT_PRUNED_0, 151, 0, 2, &chunk, &PATH),
        false,
    );
    equal(
        &rt,
        verify_chunk(&Sha, &ROOT_PRUNED_0, 150, 0, 3, &chunk, &PATH),
        false,
    );
    equal(
        &rt,
        verify_chunk(&Sha, &ROOT_PRUNED_0, 150, 0, 5, &chunk, &PATH),
        false,
    );
    equal(
        &rt,
        verify_chunk(&Sha, &ROOT_PRUNED_0, 150, 0, 2, &[2, 2, 2, 3], &PATH),
        false,
    );
    equal(
        &rt,
        verify_chunk(&Sha, &ROOT_PRUNED_0, 150, 0, 2, &chunk, &PATH[..2]),
        false,
    );
    // Chunks of another width, with the same number of chunks.
    equal(
        &rt,
        verify_chunk(&Sha, &ROOT_PRUNED_0, 150, 0, 2, &[2, 2, 2, 2, 2], &PATH),
        false,
    );
    // The digest of the tree is not the root.
    equal(
        &rt,
        verify_chunk(&Sha, &FIVE_CHUNKS, 150, 0, 2, &chunk, &PATH),
        false,
    );
}

#[test]
fn bits(rt: HostRuntime) {
    let chunk = [2, 2, 2, 2];
    // Chunk 2 has the bits 64 to 95, of which 65, 73, 81 and 89 are set.
    equal(
        &rt,
        verify_bit(&Sha, &ROOT_PRUNED_2, 150, 2, 65, true, &chunk, &PATH),
        true,
    );
    equal(
        &rt,
        verify_bit(&Sha, &ROOT_PRUNED_2, 150, 2, 65, false, &chunk, &PATH),
        false,
    );
    equal(
        &rt,
        verify_bit(&Sha, &ROOT_PRUNED_2, 150, 2, 64, false, &chunk, &PATH),
        true,
    );
    equal(
        &rt,
        verify_bit(&Sha, &ROOT_PRUNED_2, 150, 2, 64, true, &chunk, &PATH),
        false,
    );
    equal(
        &rt,
        verify_bit(&Sha, &ROOT_PRUNED_2, 150, 2, 89, true, &chunk, &PATH),
        true,
    );
    // A bit of another chunk, and one past the last.
    equal(
        &rt,
        verify_bit(&Sha, &ROOT_PRUNED_2, 150, 2, 97, true, &chunk, &PATH),
        false,
    );
    equal(
        &rt,
        verify_bit(&Sha, &ROOT_PRUNED_2, 150, 2, 150, false, &chunk, &PATH),
        false,
    );
}

#[test]
fn the_worked_root(rt: HostRuntime) {
    let path = [WORKED_0, WORKED_2];
    equal(
        &rt,
        verify_chunk(&Sha, &WORKED_ROOT, 20, 1, 1, &[0x80], &path),
        true,
    );
    // Bit 15 is the highest of chunk 1.
    equal(
        &rt,
        verify_bit(&Sha, &WORKED_ROOT, 20, 1, 15, true, &[0x80], &path),
        true,
    );
    equal(
        &rt,
        verify_bit(&Sha, &WORKED_ROOT, 20, 1, 14, true, &[0x80], &path),
        false,
    );
}
