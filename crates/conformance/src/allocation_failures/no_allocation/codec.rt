//! Encodings without an allocation: their sizes, decode errors, and encoding into existing capacity.

ghost use Rattle.std.specs.Prelude.{◌*◌, ◌^◌, ◌<◌};

use crate::allocation_failures::no_allocation;
use crate::allocation_failures::no_allocation::pruned;
use crate::checks::expect;
use crate::codec::decode_error;
use bitmap_core::bitmap::BitMap;
use bitmap_core::bitmap::codec::{CodecError, EncodeSize, RangeCfg, Write};
use bitmap_core::bitmap::prunable::Prunable;
use std::alloc::Global;
use std::process::Abort;

// Two numbers of eight bytes each, followed by 64 zero bytes.
fn input(first: u64, second: u64) -> [u8; 80] {
    let mut input = [0; 80];
    for (i, byte) in first.to_be_bytes().iter().enumerate() {
        input[i] = *byte;
    }
    for (i, byte) in second.to_be_bytes().iter().enumerate() {
        input[i + 8] = *byte;
    }
    input
}

// Each decode error of a dense bitmap.
fn check_dense_errors<const N: usize>(rt: &impl Abort, alloc: Global)
    requires positive { 0 < N }
    requires fits { 8 * N < 2 ^ 64 }
{
    expect(rt, N <= 64);
    let any = RangeCfg::any();
    let mut one = input(1, 0);
    one[8] = 2;
    let few = decode_error::<BitMap<N>>(alloc, &one[..7], &any);
    expect(rt, matches!(few, Some(CodecError::EndOfBuffer)));
    let length = decode_error::<BitMap<N>>(alloc, &one[..8 + N], &RangeCfg::at_least(2));
    expect(rt, matches!(length, Some(CodecError::InvalidLength(1))));
    let chunk = decode_error::<BitMap<N>>(alloc, &one[..7 + N], &any);
    expect(rt, matches!(chunk, Some(CodecError::EndOfBuffer)));
    let longest = decode_error::<BitMap<N>>(alloc, &input(u64::MAX, 0), &any);
    expect(rt, matches!(longest, Some(CodecError::EndOfBuffer)));
    let trailing = decode_error::<BitMap<N>>(alloc, &one[..8 + N], &any);
    expect(
        rt,
        matches!(trailing, Some(CodecError::Invalid("BitMap", _))),
    );
}

// Each decode error of a bitmap with a pruned prefix.
fn check_pruned_errors<const N: usize>(rt: &impl Abort, alloc: Global)
    requires positive { 0 < N }
    requires fits { 8 * N < 2 ^ 64 }
{
    expect(rt, N <= 64);
    let any = RangeCfg::any();
    let width = 8 * N as u64;
    let (most, space) = (u64::MAX / width, u64::MAX % width);
    let few = decode_error::<Prunable<N>>(alloc, &input(1, 1)[..7], &any);
    expect(rt, matches!(few, Some(CodecError::EndOfBuffer)));
    let many = decode_error::<Prunable<N>>(alloc, &input(u64::MAX, 0), &any);
    expect(rt, matches!(many, Some(CodecError::Invalid("Prunable", _))));
    let long = input(most, space + 1);
    let total = decode_error::<Prunable<N>>(alloc, &long[..16 + N], &any);
    expect(
        rt,
        matches!(total, Some(CodecError::Invalid("Prunable", _))),
    );
    let mut one = input(1, 1);
    one[16] = 2;
    let short = decode_error::<Prunable<N>>(alloc, &one[..15], &any);
    expect(rt, matches!(short, Some(CodecError::EndOfBuffer)));
    let length = decode_error::<Prunable<N>>(alloc, &one[..16 + N], &RangeCfg::exact(2));
    expect(rt, matches!(length, Some(CodecError::InvalidLength(1))));
    let chunk = decode_error::<Prunable<N>>(alloc, &one[..15 + N], &any);
    expect(rt, matches!(chunk, Some(CodecError::EndOfBuffer)));
    let trailing = decode_error::<Prunable<N>>(alloc, &one[..16 + N], &any);
    expect(
        rt,
        matches!(trailing, Some(CodecError::Invalid("BitMap", _))),
    );
}

// Encodes both bitmaps into a vector with enough capacity.
fn check_encoded<const N: usize>(rt: &impl Abort, alloc: Global)
    requires positive { 0 < N }
    requires fits { 8 * N < 2 ^ 64 }
{
    expect(rt, N <= 64);
    let Some(dense) = no_allocation::thirds::<N>(rt, alloc, 16 * N as u64 + 1) else {
        return;
    };
    let Some(mut pruned) = pruned::thirds::<N>(rt, alloc) else {
        return;
    };
    let size = 3 * N + 8;
    let Ok(mut out) = Vec::with_capacity(alloc, 2 * size + 8) else {
        return;
    };
    for _ in 0..pruned::SLIDES {
        out.clear();
        expect(
            rt,
            dense.write(&mut out).is_ok() && dense.encode_size() == size,
        );
        expect(
            rt,
            pruned.write(&mut out).is_ok() && pruned.encode_size() == size + 8,
        );
        expect(rt, out.len() == 2 * size + 8);
        pruned::slide(rt, &mut pruned);
    }
}

#[test]
fn dense_decode_errors(rt: HostRuntime) {
    let four = [0, 0, 0, 0, 0, 0, 0, 3, 0x0d, 0, 0, 0];
    let trailing = decode_error::<BitMap<4>>(rt.alloc(), &four, &RangeCfg::any());
    expect(
        &rt,
        matches!(trailing, Some(CodecError::Invalid("BitMap", why)) if why == "Invalid trailing bits in encoded data"),
    );
    check_dense_errors::<1>(&rt, rt.alloc());
    check_dense_errors::<3>(&rt, rt.alloc());
    check_dense_errors::<8>(&rt, rt.alloc());
    check_dense_errors::<9>(&rt, rt.alloc());
    check_dense_errors::<32>(&rt, rt.alloc());
}

#[test]
fn pruned_decode_errors(rt: HostRuntime) {
    check_pruned_errors::<1>(&rt, rt.alloc());
    check_pruned_errors::<3>(&rt, rt.alloc());
    check_pruned_errors::<8>(&rt, rt.alloc());
    check_pruned_errors::<9>(&rt, rt.alloc());
    check_pruned_errors::<32>(&rt, rt.alloc());
}

#[test]
fn encoded_within_capacity(rt: HostRuntime) {
    check_encoded::<1>(&rt, rt.alloc());
    check_encoded::<3>(&rt, rt.alloc());
    check_encoded::<8>(&rt, rt.alloc());
    check_encoded::<9>(&rt, rt.alloc());
    check_encoded::<32>(&rt, rt.alloc());
}

#[test]
fn length_ranges(rt: HostRuntime) {
    for range in [
        RangeCfg::exact(3),
        RangeCfg::at_least(3),
        RangeCfg::at_most(3),
        RangeCfg::between(3, 3),
        RangeCfg::any(),
    ] {
        expect(&rt, range.contains(3));
    }
    expect(&rt, !RangeCfg::between(5, 3).contains(4));
}
