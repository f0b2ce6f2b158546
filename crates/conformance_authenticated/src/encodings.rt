//! The encoding of a proof, and bytes that are no encoding.

ghost use Rattle.std.specs.Prelude.{◌≤◌};

use crate::checks::{equal, ok};
use crate::known::{WORKED_0, WORKED_2, WORKED_ROOT};
use crate::sha::Sha;
use authenticated_bitmap::encoding::{DecodeError, Proof};

/// Returns the proof of chunk 1 of the worked root: width 1, 20 bits, 1 pruned chunk, index 1, 2 digests.
pub fn worked() -> [u8; 105] {
    let mut bytes = [0; 105];
    bytes[7] = 1;
    bytes[15] = 20;
    bytes[23] = 1;
    bytes[31] = 1;
    bytes[39] = 2;
    bytes[40] = 0x80;
    bytes[41..73].copy_from_slice(&WORKED_0);
    bytes[73..].copy_from_slice(&WORKED_2);
    bytes
}

// Why bytes are no proof of a bitmap with chunks of one byte.
fn error_of(bytes: &[u8]) -> Option<DecodeError> {
    match Proof::<1>::read(bytes) {
        Ok(_) => None,
        Err(error) => Some(error),
    }
}

// The same of the first `count` bytes of the worked proof.
fn error_of_first(count: usize) -> Option<DecodeError>
    requires { count ≤ 105 }
{
    error_of(&worked()[..count])
}

#[test]
fn a_proof_is_read_and_written(rt: HostRuntime) {
    let bytes = worked();
    equal(&rt, error_of(&bytes), None);
    if let Ok(proof) = Proof::<1>::read(&bytes) {
        equal(&rt, proof.len, 20);
        equal(&rt, proof.pruned, 1);
        equal(&rt, proof.index, 1);
        equal(&rt, proof.verify(&Sha, &WORKED_ROOT), true);
        equal(&rt, proof.verify(&Sha, &WORKED_0), false);
        let written = ok(&rt, proof.write(rt.alloc()));
        equal(&rt, written.as_slice() == bytes.as_slice(), true);
    }
}

#[test]
fn the_first_error_is_reported(rt: HostRuntime) {
    equal(&rt, error_of(&[]), Some(DecodeError::Short));
    equal(&rt, error_of_first(39), Some(DecodeError::Short));
    equal(&rt, error_of_first(40), Some(DecodeError::Length));
    equal(&rt, error_of_first(104), Some(DecodeError::Length));
    let mut longer = [0; 106];
    longer[..105].copy_from_slice(&worked());
    equal(&rt, error_of(&longer), Some(DecodeError::Length));
    let mut other = worked();
    other[39] = 65;
    equal(&rt, error_of(&other), Some(DecodeError::TooManyDigests(65)));
    other[7] = 2;
    equal(&rt, error_of(&other), Some(DecodeError::Width(2)));
}
