//! Ranges of chunks, and proofs of ranges that are false.

use crate::checks::{equal, equal_digests, ok};
use crate::known::{
    PATH_CHUNK_2_1, PATH_CHUNK_2_2, RANGE_2_TO_7_OF_8_0, RANGE_2_TO_7_OF_8_1, ROOT_PRUNED_0,
    ROOT_PRUNED_2, ROOT_PRUNED_4, WORKED_0, WORKED_2, WORKED_ROOT, eight_digests,
};
use crate::sha::Sha;
use authenticated_bitmap::range::{prove_range, verify_range};
use authenticated_bitmap::root::{root_digest, verify_chunk};
use authenticated_bitmap::tree::{leaf_digest, prove, tree_digest};

const CHUNKS: [[u8; 4]; 5] = [
    [0, 0, 0, 0],
    [1, 1, 1, 1],
    [2, 2, 2, 2],
    [3, 3, 3, 3],
    [4, 4, 4, 4],
];

// The siblings of the chunks 2 and 3 of these.
const BESIDE: [[u8; 32]; 2] = [PATH_CHUNK_2_1, PATH_CHUNK_2_2];

#[test]
fn ranges_of_the_worked_root(rt: HostRuntime) {
    let none: [[u8; 32]; 0] = [];
    let all = [[0x01], [0x80], [0x0f]];
    equal(
        &rt,
        verify_range(&Sha, &WORKED_ROOT, 20, 1, 0, &all, &none),
        true,
    );
    equal(
        &rt,
        verify_range(&Sha, &WORKED_ROOT, 20, 1, 0, &all[..2], &[WORKED_2]),
        true,
    );
    equal(
        &rt,
        verify_range(&Sha, &WORKED_ROOT, 20, 1, 1, &all[1..], &[WORKED_0]),
        true,
    );
    equal(
        &rt,
        verify_range(
            &Sha,
            &WORKED_ROOT,
            20,
            1,
            1,
            &all[1..2],
            &[WORKED_0, WORKED_2],
        ),
        true,
    );
}

#[test]
fn siblings_from_left_to_right(rt: HostRuntime) {
    // The leaves 0 and 1 are one part of the tree, and leaf 7 is another.
    let siblings = ok(&rt, prove_range(rt.alloc(), &Sha, &eight_digests(), 2, 5));
    equal_digests(&rt, &siblings, &[RANGE_2_TO_7_OF_8_0, RANGE_2_TO_7_OF_8_1]);
    let siblings = ok(&rt, prove_range(rt.alloc(), &Sha, &eight_digests(), 0, 8));
    equal_digests(&rt, &siblings, &[]);
}

#[test]
fn a_range_stays_good_when_chunks_are_pruned(rt: HostRuntime) {
    let range = &CHUNKS[2..4];
    equal(
        &rt,
        verify_range(&Sha, &ROOT_PRUNED_0, 150, 0, 2, range, &BESIDE),
        true,
    );
    equal(
        &rt,
        verify_range(&Sha, &ROOT_PRUNED_2, 150, 2, 2, range, &BESIDE),
        true,
    );
    // Chunks that are pruned themselves are still those that were there.
    equal(
        &rt,
        verify_range(&Sha, &ROOT_PRUNED_4, 150, 4, 2, range, &BESIDE),
        true,
    );
}

#[test]
fn a_false_range_does_not_verify(rt: HostRuntime) {
    let range = &CHUNKS[2..4];
    // Another number of pruned chunks, another length, another place, and a place past the end.
    equal(
        &rt,
        verify_range(&Sha, &ROOT_PRUNED_0, 150, 2, 2, range, &BESIDE),
        false,
    );
    equal(
        &rt,
        verify_range(&Sha, &ROOT_PRUNED_0, 151, 0, 2, range, &BESIDE),
        false,
    );
    equal(
        &rt,
        verify_range(&Sha, &ROOT_PRUNED_0, 150, 0, 1, range, &BESIDE),
        false,
    );
    equal(
        &rt,
        verify_range(&Sha, &ROOT_PRUNED_0, 150, 0, 3, range, &BESIDE),
        false,
    );
    equal(
        &rt,
        verify_range(&Sha, &ROOT_PRUNED_0, 150, 0, 4, range, &BESIDE),
        false,
    );
    equal(
        &rt,
        verify_range(&Sha, &ROOT_PRUNED_0, 150, 0, u64::MAX, range, &BESIDE),
        false,
    );
    // Too few chunks, too many, none, and others.
    equal(
        &rt,
        verify_range(&Sha, &ROOT_PRUNED_0, 150, 0, 2, &CHUNKS[2..3], &BESIDE),
        false,
    );
    equal(
        &rt,
        verify_range(&Sha, &ROOT_PRUNED_0, 150, 0, 2, &CHUNKS[2..], &BESIDE),
        false,
    );
    equal(
        &rt,
        verify_range(&Sha, &ROOT_PRUNED_0, 150, 0, 2, &CHUNKS[2..2], &BESIDE),
        false,
    );
    equal(
        &rt,
        verify_range(&Sha, &ROOT_PRUNED_0, 150, 0, 2, &CHUNKS[1..3], &BESIDE),
        false,
    );
    // Too few siblings, too many, and two that are exchanged.
    equal(
        &rt,
        verify_range(&Sha, &ROOT_PRUNED_0, 150, 0, 2, range, &BESIDE[..1]),
        false,
    );
    let long = [PATH_CHUNK_2_1, PATH_CHUNK_2_2, PATH_CHUNK_2_2];
    equal(
        &rt,
        verify_range(&Sha, &ROOT_PRUNED_0, 150, 0, 2, range, &long),
        false,
    );
    let exchanged = [PATH_CHUNK_2_2, PATH_CHUNK_2_1];
    equal(
        &rt,
        verify_range(&Sha, &ROOT_PRUNED_0, 150, 0, 2, range, &exchanged),
        false,
    );
    // Another root.
    equal(
        &rt,
        verify_range(&Sha, &WORKED_ROOT, 150, 0, 2, range, &BESIDE),
        false,
    );
    // The root alone, as the only sibling of no chunk.
    equal(
        &rt,
        verify_range(
            &Sha,
            &ROOT_PRUNED_0,
            150,
            0,
            0,
            &CHUNKS[..0],
            &[ROOT_PRUNED_0],
        ),
        false,
    );
}

#[test]
fn each_range_of_up_to_seven_chunks(rt: HostRuntime) {
    let chunks = [[10], [11], [12], [13], [14], [15], [16]];
    let digests = [
        leaf_digest(&Sha, &[10]),
        leaf_digest(&Sha, &[11]),
        leaf_digest(&Sha, &[12]),
        leaf_digest(&Sha, &[13]),
        leaf_digest(&Sha, &[14]),
        leaf_digest(&Sha, &[15]),
        leaf_digest(&Sha, &[16]),
    ];
    for n in 1..8 {
        let len = 8 * n as u64;
        let digests = &digests[..n];
        let root = root_digest::<Sha, 1>(&Sha, len, 0, &tree_digest(&Sha, digests));
        for first in 0..n {
            // The proof of one chunk.
            let chunk = &chunks[first];
            let path = ok(&rt, prove(rt.alloc(), &Sha, digests, first));
            let index = first as u64;
            let single = verify_chunk(&Sha, &root, len, 0, index, chunk, &path);
            equal(&rt, single, true);
            let siblings = ok(&rt, prove_range(rt.alloc(), &Sha, digests, first, 1));
            equal(&rt, siblings.len(), path.len());
            for sibling in &siblings {
                equal(&rt, path.contains(sibling), true);
            }
            for count in 1..n - first + 1 {
                let siblings = ok(&rt, prove_range(rt.alloc(), &Sha, digests, first, count));
                let range = &chunks[first..first + count];
                let verified = verify_range(&Sha, &root, len, 0, index, range, &siblings);
                equal(&rt, verified, true);
                // The same chunks one further on, and all of them but the first.
                let moved = verify_range(&Sha, &root, len, 0, index + 1, range, &siblings);
                equal(&rt, moved, false);
                let fewer = verify_range(&Sha, &root, len, 0, index, &range[1..], &siblings);
                equal(&rt, fewer, false);
            }
        }
    }
}
