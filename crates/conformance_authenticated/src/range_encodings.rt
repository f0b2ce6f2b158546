//! The encoding of a proof of a range, and bytes that are no encoding.

ghost use Rattle.std.specs.Prelude.{◌≤◌};

use crate::checks::{equal, ok};
use crate::known::{WORKED_0, WORKED_ROOT};
use crate::sha::Sha;
use authenticated_bitmap::encoding::DecodeError;
use authenticated_bitmap::range_encoding::RangeProof;

/// Returns the proof of the chunks 1 and 2 of the worked root: width 1, 20 bits, 1 pruned chunk, first index 1, 2 chunks, 1 sibling.
pub fn worked_range() -> [u8; 82] {
    let mut bytes = [0; 82];
    bytes[7] = 1;
    bytes[15] = 20;
    bytes[23] = 1;
    bytes[31] = 1;
    bytes[39] = 2;
    bytes[47] = 1;
    bytes[48] = 0x80;
    bytes[49] = 0x0f;
    bytes[50..].copy_from_slice(&WORKED_0);
    bytes
}

// Why bytes are no proof of a range of a bitmap with chunks of one byte.
fn error_of(bytes: &[u8]) -> Option<DecodeError> {
    match RangeProof::<1>::read(bytes) {
        Ok(_) => None,
        Err(error) => Some(error),
    }
}

// The same of the first `count` bytes of the worked proof.
fn error_of_first(count: usize) -> Option<DecodeError>
    requires { count ≤ 82 }
{
    error_of(&worked_range()[..count])
}

#[test]
fn a_range_is_read_and_written(rt: HostRuntime) {
    let bytes = worked_range();
    equal(&rt, error_of(&bytes), None);
    if let Ok(proof) = RangeProof::<1>::read(&bytes) {
        equal(&rt, proof.len, 20);
        equal(&rt, proof.pruned, 1);
        equal(&rt, proof.first, 1);
        equal(&rt, proof.chunks == [[0x80], [0x0f]].as_slice(), true);
        equal(&rt, proof.siblings == [WORKED_0].as_slice(), true);
        equal(&rt, proof.verify(&Sha, &WORKED_ROOT), true);
        equal(&rt, proof.verify(&Sha, &WORKED_0), false);
        let written = ok(&rt, proof.write(rt.alloc()));
        equal(&rt, written.as_slice() == bytes.as_slice(), true);
    }
}

#[test]
fn the_first_error_of_a_range_is_reported(rt: HostRuntime) {
    equal(&rt, error_of(&[]), Some(DecodeError::Short));
    equal(&rt, error_of_first(47), Some(DecodeError::Short));
    equal(&rt, error_of_first(48), Some(DecodeError::Length));
    equal(&rt, error_of_first(81), Some(DecodeError::Length));
    let mut longer = [0; 83];
    longer[..82].copy_from_slice(&worked_range());
    equal(&rt, error_of(&longer), Some(DecodeError::Length));
    // A number of chunks whose bytes do not fit 64 bits.
    let mut other = worked_range();
    other[32] = 0xff;
    equal(&rt, error_of(&other), Some(DecodeError::Length));
    other[47] = 129;
    equal(
        &rt,
        error_of(&other),
        Some(DecodeError::TooManyDigests(129)),
    );
    other[7] = 2;
    equal(&rt, error_of(&other), Some(DecodeError::Width(2)));
}

#[test]
fn a_range_of_wide_chunks_is_cut_by_the_width(rt: HostRuntime) {
    let mut bytes = [0; 57];
    bytes[7] = 3;
    bytes[39] = 3;
    bytes[48..].copy_from_slice(&[1, 2, 3, 4, 5, 6, 7, 8, 9]);
    if let Ok(proof) = RangeProof::<3>::read(&bytes) {
        let chunks = [[1, 2, 3], [4, 5, 6], [7, 8, 9]];
        equal(&rt, proof.chunks == chunks.as_slice(), true);
    }
    equal(&rt, RangeProof::<3>::read(&bytes).is_ok(), true);
    equal(&rt, RangeProof::<3>::read(&bytes[..56]).is_ok(), false);
    bytes[39] = 2;
    equal(&rt, RangeProof::<3>::read(&bytes).is_ok(), false);
}
