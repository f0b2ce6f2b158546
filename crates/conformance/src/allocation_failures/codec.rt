//! Encoding and decoding.

use crate::checked_calls::try_push_digits;
use crate::checks::{equal, expect};
use bitmap_core::bitmap::BitMap;
use bitmap_core::bitmap::codec::{CodecError, RangeCfg, Read, Write};
use bitmap_core::bitmap::prunable::Prunable;
use std::alloc::Global;
use std::process::Abort;
use test_support::compare::has_bits;

// Three bits, and a byte that belongs to what follows.
const THREE_BITS: [u8; 13] = [0, 0, 0, 0, 0, 0, 0, 3, 5, 0, 0, 0, 0xaa];

// The same bits after one pruned chunk.
const AFTER_ONE: [u8; 21] = [
    0, 0, 0, 0, 0, 0, 0, 1, 0, 0, 0, 0, 0, 0, 0, 3, 5, 0, 0, 0, 0xaa,
];

// The contents of a vector before an encoding is appended.
const BEFORE: &[u8] = b"ab";

// Decodes the three bits, and returns whether it failed.
fn decode_fails(rt: &impl Abort, alloc: Global, from: &mut &[u8]) -> bool {
    match BitMap::<4>::read_cfg(alloc, from, &RangeCfg::exact(3)) {
        Ok(map) => {
            expect(rt, map.iter().eq([true, false, true].iter().copied()));
            false
        }
        Err(error) => {
            expect(rt, matches!(error, CodecError::OutOfMemory));
            true
        }
    }
}

// Decodes the three bits after the pruned chunk, and returns whether it failed.
fn decode_pruned_fails(rt: &impl Abort, alloc: Global, from: &mut &[u8]) -> bool {
    match Prunable::<4>::read_cfg(alloc, from, &RangeCfg::exact(3)) {
        Ok(map) => {
            expect(rt, has_bits(&map, 1, b"101"));
            false
        }
        Err(error) => {
            expect(rt, matches!(error, CodecError::OutOfMemory));
            true
        }
    }
}

// Three bits after one pruned chunk, or `None` if an allocation fails.
fn set_up_pruned(rt: &impl Abort, alloc: Global) -> Option<Prunable<4>> {
    let mut map = Prunable::<4>::new_with_pruned_chunks(alloc, 1).ok()?;
    try_push_digits(rt, &mut map, b"101").ok()?;
    Some(map)
}

#[test]
fn dense_decoded(rt: HostRuntime) {
    let mut from = THREE_BITS.as_slice();
    let failed = decode_fails(&rt, rt.alloc(), &mut from)
        && {
            equal(&rt, from, THREE_BITS.as_slice());
            decode_fails(&rt, rt.alloc(), &mut from)
        };
    let after: &[u8] = if failed { &THREE_BITS } else { &[0xaa] };
    equal(&rt, from, after);
}

#[test]
fn pruned_decoded(rt: HostRuntime) {
    let mut from = AFTER_ONE.as_slice();
    let failed = decode_pruned_fails(&rt, rt.alloc(), &mut from)
        && {
            equal(&rt, from, AFTER_ONE.as_slice());
            decode_pruned_fails(&rt, rt.alloc(), &mut from)
        };
    let after: &[u8] = if failed { &AFTER_ONE } else { &[0xaa] };
    equal(&rt, from, after);
}

#[test]
fn dense_encoded(rt: HostRuntime) {
    let Ok(map) = BitMap::<4>::from_bools(rt.alloc(), &[true, false, true]) else {
        return;
    };
    let Ok(mut out) = Vec::from_slice(rt.alloc(), BEFORE) else {
        return;
    };
    let failed = map.write(&mut out).is_err()
        && {
            equal(&rt, out.as_slice(), BEFORE);
            map.write(&mut out).is_err()
        };
    let added: &[u8] = if failed { &[] } else { &THREE_BITS[..12] };
    expect(&rt, out.iter().eq(BEFORE.iter().chain(added)));
    expect(&rt, map.iter().eq([true, false, true].iter().copied()));
}

#[test]
fn pruned_encoded(rt: HostRuntime) {
    let Some(map) = set_up_pruned(&rt, rt.alloc()) else {
        return;
    };
    let Ok(mut out) = Vec::from_slice(rt.alloc(), BEFORE) else {
        return;
    };
    let failed = map.write(&mut out).is_err()
        && {
            equal(&rt, out.as_slice(), BEFORE);
            map.write(&mut out).is_err()
        };
    let added: &[u8] = if failed { &[] } else { &AFTER_ONE[..20] };
    expect(&rt, out.iter().eq(BEFORE.iter().chain(added)));
    expect(&rt, has_bits(&map, 1, b"101"));
}
