//! Encodings: their bytes, and each decode error, in the order in which decoding checks for them.

ghost use Rattle.std.specs.Prelude.{◌*◌, ◌^◌, ◌<◌};

use crate::checked_calls::{of_chunks, prune_to_bit, push, push_digits, truncate};
use crate::checks::{equal, equal_at, expect, expect_at, ok};
use crate::dense_helpers::bitmap;
use bitmap_core::bitmap::BitMap;
use bitmap_core::bitmap::codec::{CodecError, EncodeSize, RangeCfg, Read, Write};
use bitmap_core::bitmap::prunable::Prunable;
use std::alloc::Global;
use std::process::Abort;
use test_support::compare::has_bits;

// Three bits, of which the first and the last are set.
const THREE_BITS: [u8; 12] = [0, 0, 0, 0, 0, 0, 0, 3, 5, 0, 0, 0];

// The same bits after one pruned chunk.
const AFTER_ONE: [u8; 20] = [0, 0, 0, 0, 0, 0, 0, 1, 0, 0, 0, 0, 0, 0, 0, 3, 5, 0, 0, 0];

// A full chunk and four bits after two pruned chunks.
const AFTER_TWO: [u8; 24] = [
    0, 0, 0, 0, 0, 0, 0, 2, 0, 0, 0, 0, 0, 0, 0, 36, 3, 4, 5, 6, 6, 0, 0, 0,
];

// The greatest number of pruned chunks of four bytes, and the length but for its last byte.
const MOST_PRUNED: [u8; 15] = [7, 255, 255, 255, 255, 255, 255, 255, 0, 0, 0, 0, 0, 0, 0];

// That number of chunks. It leaves space for 31 bits.
const MOST_PRUNED_CHUNKS: usize = 576460752303423487;

const TOO_MANY_PRUNED: &str = "pruned_chunks would overflow when computing pruned_bits";

const TRAILING: &str = "Invalid trailing bits in encoded data";

/// Returns the error of decoding `input` as a `V`, if there is one and no input is consumed.
pub fn decode_error<V: Read + Drop>(
    alloc: Global,
    input: &[u8],
    range: &RangeCfg,
) -> Option<CodecError>
    requires { V.can_read }
{
    let mut from = input;
    let error = V::read_cfg(alloc, &mut from, range).err()?;
    if from.len() == input.len() {
        Some(error)
    } else {
        None
    }
}

// Whether `input` decodes to a dense bitmap and is consumed to its end.
fn is_accepted<const N: usize>(alloc: Global, input: &[u8], range: &RangeCfg) -> bool
    requires positive { 0 < N }
    requires fits { 8 * N < 2 ^ 64 }
{
    let mut from = input;
    BitMap::<N>::read_cfg(alloc, &mut from, range).is_ok() && from.is_empty()
}

// Returns how many bytes are left after decoding a bitmap with these pruned chunks and digits, or `None` if it does not decode to that.
fn bytes_left_after_pruned<const N: usize>(
    alloc: Global,
    input: &[u8],
    pruned_chunks: usize,
    digits: &[u8],
) -> Option<usize>
    requires positive { 0 < N }
    requires fits { 8 * N < 2 ^ 64 }
{
    let mut from = input;
    let range = RangeCfg::exact(digits.len() as u64);
    let map = Prunable::<N>::read_cfg(alloc, &mut from, &range).ok()?;
    if has_bits(&map, pruned_chunks, digits) {
        Some(from.len())
    } else {
        None
    }
}

// Whether `input` decodes to a bitmap with these pruned chunks and digits, and is consumed to its end.
fn decodes_to_pruned<const N: usize>(
    alloc: Global,
    input: &[u8],
    pruned_chunks: usize,
    digits: &[u8],
) -> bool
    requires positive { 0 < N }
    requires fits { 8 * N < 2 ^ 64 }
{
    bytes_left_after_pruned::<N>(alloc, input, pruned_chunks, digits) == Some(0)
}

// Whether the start of `from` decodes to `map`.
fn decodes_to<const N: usize>(alloc: Global, from: &mut &[u8], map: &BitMap<N>) -> bool
    requires positive { 0 < N }
    requires fits { 8 * N < 2 ^ 64 }
{
    match BitMap::<N>::read_cfg(alloc, from, &RangeCfg::exact(map.len())) {
        Ok(read) => read == *map,
        Err(_) => false,
    }
}

/// Returns the encoding of a value.
pub fn encoded<V: Write>(rt: &impl Abort, alloc: Global, value: &V) -> Vec<u8> {
    let mut out = Vec::new(alloc);
    ok(rt, value.write(&mut out));
    out
}

/// Returns the encoding of a full chunk and one bit more, all set.
pub fn one_chunk_and_a_bit<const N: usize>(rt: &impl Abort, alloc: Global) -> Vec<u8>
    requires positive { 0 < N }
    requires small { N < 65 }
{
    let mut input = ok(
        rt,
        Vec::from_slice(alloc, &(8 * N as u64 + 1).to_be_bytes()),
    );
    let mut last = [0; N];
    last[0] = 1;
    ok(rt, input.extend_from_slice(&[0xff; N]));
    ok(rt, input.extend_from_slice(&last));
    input
}

/// Returns a copy of `input` in which the bits of `mask` are flipped in the byte at `at`.
pub fn damaged(rt: &impl Abort, alloc: Global, input: &[u8], at: usize, mask: u8) -> Vec<u8> {
    expect(rt, at < input.len());
    let mut input = ok(rt, Vec::from_slice(alloc, input));
    input[at] ^= mask;
    input
}

// Each proper prefix of `input`, an encoding of a `V`, is too short.
fn check_cut_short<V: Read + Drop>(rt: &impl Abort, alloc: Global, input: &[u8])
    requires { V.can_read }
{
    for len in 0..input.len() {
        let error = decode_error::<V>(alloc, &input[..len], &RangeCfg::any());
        expect_at(rt, len, is_short(error));
    }
}

// The encoding of a full chunk and one bit more.
fn check_dense_encoding<const N: usize>(rt: &impl Abort, alloc: Global)
    requires positive { 0 < N }
    requires fits { 8 * N < 2 ^ 64 }
{
    expect(rt, N <= 64);
    let any = RangeCfg::any();
    let input = one_chunk_and_a_bit::<N>(rt, alloc);
    let map = ok(rt, BitMap::<N>::ones(alloc, 8 * N as u64 + 1));
    equal(rt, map.encode_size(), 2 * N + 8);
    expect(rt, encoded(rt, alloc, &map) == input);
    expect(rt, is_accepted::<N>(alloc, &input, &any));
    check_cut_short::<BitMap<N>>(rt, alloc, &input);
    let trailing = damaged(rt, alloc, &input, 2 * N + 7, 128);
    expect(
        rt,
        is_invalid(
            decode_error::<BitMap<N>>(alloc, &trailing, &any),
            "BitMap",
            TRAILING,
        ),
    );
}

// The same after a pruned chunk.
fn check_pruned_encoding<const N: usize>(rt: &impl Abort, alloc: Global)
    requires positive { 0 < N }
    requires fits { 8 * N < 2 ^ 64 }
{
    expect(rt, N <= 64);
    let mut input = ok(rt, Vec::from_slice(alloc, &[0, 0, 0, 0, 0, 0, 0, 1]));
    let bits = one_chunk_and_a_bit::<N>(rt, alloc);
    ok(rt, input.extend_from_slice(&bits));
    let mut map = of_chunks(rt, alloc, &[[0xff; N], [0xff; N]]);
    push(rt, &mut map, true);
    prune_to_bit(rt, &mut map, 8 * N as u64);
    equal(rt, map.encode_size(), 2 * N + 16);
    expect(rt, encoded(rt, alloc, &map) == input);
    expect(
        rt,
        decodes_to_pruned::<N>(alloc, &input, 1, &[b'1'; 513][..8 * N + 1]),
    );
    check_cut_short::<Prunable<N>>(rt, alloc, &input);
    let trailing = damaged(rt, alloc, &input, 2 * N + 15, 128);
    let error = decode_error::<Prunable<N>>(alloc, &trailing, &RangeCfg::any());
    expect(rt, is_invalid(error, "BitMap", TRAILING));
}

// The encodings of both bitmaps.
fn check_encodings<const N: usize>(rt: &impl Abort, alloc: Global)
    requires positive { 0 < N }
    requires fits { 8 * N < 2 ^ 64 }
{
    check_dense_encoding::<N>(rt, alloc);
    check_pruned_encoding::<N>(rt, alloc)
}

// The bits of `digits` encode to `input`. Two encodings one after the other decode to the bitmap twice.
fn check_dense_bytes<const N: usize>(rt: &impl Abort, alloc: Global, digits: &[u8], input: &[u8])
    requires positive { 0 < N }
    requires fits { 8 * N < 2 ^ 64 }
{
    let map = bitmap::<N>(rt, alloc, digits);
    equal(rt, map.encode_size(), input.len());
    let mut out = encoded(rt, alloc, &map);
    expect(rt, out.as_slice() == input);
    ok(rt, map.write(&mut out));
    let mut from = out.as_slice();
    expect(rt, decodes_to(alloc, &mut from, &map) && from == input);
    expect(rt, decodes_to(alloc, &mut from, &map) && from.is_empty());
}

// These pruned chunks and digits encode to `input`, which decodes to the same with one more byte after it.
fn check_pruned_bytes<const N: usize>(
    rt: &impl Abort,
    alloc: Global,
    pruned_chunks: usize,
    digits: &[u8],
    input: &[u8],
)
    requires positive { 0 < N }
    requires fits { 8 * N < 2 ^ 64 }
{
    let mut map = ok(
        rt,
        Prunable::<N>::new_with_pruned_chunks(alloc, pruned_chunks),
    );
    push_digits(rt, &mut map, digits);
    equal(rt, map.encode_size(), input.len());
    let mut out = encoded(rt, alloc, &map);
    expect(rt, out.as_slice() == input);
    ok(rt, out.push(0xaa));
    expect(
        rt,
        bytes_left_after_pruned::<N>(alloc, &out, pruned_chunks, digits) == Some(1),
    );
}

fn is_short(error: Option<CodecError>) -> bool {
    matches!(error, Some(CodecError::EndOfBuffer))
}

fn is_length(error: Option<CodecError>, want: u64) -> bool {
    matches!(error, Some(CodecError::InvalidLength(len)) if len == want)
}

fn is_invalid(error: Option<CodecError>, what: &str, why: &str) -> bool {
    matches!(error, Some(CodecError::Invalid(a, b)) if a == what && b == why)
}

// The length in eight bytes, big-endian, followed by the chunks.
#[test]
fn dense_encodings(rt: HostRuntime) {
    let alloc = rt.alloc();
    check_dense_bytes::<4>(&rt, alloc, b"", &[0; 8]);
    check_dense_bytes::<4>(&rt, alloc, b"101", &THREE_BITS);
    check_dense_bytes::<1>(&rt, alloc, &[b'1'; 10], &[0, 0, 0, 0, 0, 0, 0, 10, 255, 3]);
    check_dense_bytes::<3>(
        &rt,
        alloc,
        &[b'1'; 24],
        &[0, 0, 0, 0, 0, 0, 0, 24, 255, 255, 255],
    );
    check_dense_bytes::<3>(
        &rt,
        alloc,
        &[b'1'; 26],
        &[0, 0, 0, 0, 0, 0, 0, 26, 255, 255, 255, 3, 0, 0],
    );
    check_dense_bytes::<9>(
        &rt,
        alloc,
        &[b'1'; 10],
        &[0, 0, 0, 0, 0, 0, 0, 10, 255, 3, 0, 0, 0, 0, 0, 0, 0],
    );
}

// Of several errors in one input, the first in the order of the checks is returned.
#[test]
fn dense_decode_errors(rt: HostRuntime) {
    let alloc = rt.alloc();
    let mut bad = THREE_BITS;
    bad[8] = 13;
    let any = RangeCfg::any();
    let few = RangeCfg::at_most(2);
    expect(
        &rt,
        is_short(decode_error::<BitMap<4>>(alloc, &bad[..7], &few)),
    );
    expect(
        &rt,
        is_length(decode_error::<BitMap<4>>(alloc, &bad[..8], &few), 3),
    );
    expect(
        &rt,
        is_length(decode_error::<BitMap<4>>(alloc, &bad[..12], &few), 3),
    );
    expect(
        &rt,
        is_short(decode_error::<BitMap<4>>(alloc, &bad[..8], &any)),
    );
    expect(
        &rt,
        is_short(decode_error::<BitMap<4>>(alloc, &bad[..11], &any)),
    );
    expect(
        &rt,
        is_invalid(
            decode_error::<BitMap<4>>(alloc, &bad[..12], &any),
            "BitMap",
            TRAILING,
        ),
    );
    expect(
        &rt,
        is_short(decode_error::<BitMap<4>>(alloc, &[255; 8], &any)),
    );
}

// Each proper prefix of an encoding is too short.
#[test]
fn dense_input_cut_short(rt: HostRuntime) {
    let alloc = rt.alloc();
    check_cut_short::<BitMap<4>>(&rt, alloc, &THREE_BITS);
    // A length out of range is reported even if chunks are missing.
    for len in 8..12 {
        let error = decode_error::<BitMap<4>>(alloc, &THREE_BITS[..len], &RangeCfg::at_most(2));
        expect_at(&rt, len, is_length(error, 3));
    }
}

// A damaged byte gives an error or another bitmap.
#[test]
fn dense_input_with_a_damaged_byte(rt: HostRuntime) {
    let alloc = rt.alloc();
    let any = RangeCfg::any();
    // A damaged length is too long for the chunks that follow it.
    for at in 0..8 {
        let input = damaged(&rt, alloc, &THREE_BITS, at, 255);
        expect_at(
            &rt,
            at,
            is_short(decode_error::<BitMap<4>>(alloc, &input, &any)),
        );
    }
    for at in 8..12 {
        let input = damaged(&rt, alloc, &THREE_BITS, at, 255);
        expect_at(
            &rt,
            at,
            is_invalid(
                decode_error::<BitMap<4>>(alloc, &input, &any),
                "BitMap",
                TRAILING,
            ),
        );
    }
    // With a length of two the third bit is past it.
    let shorter = damaged(&rt, alloc, &THREE_BITS, 7, 1);
    expect(
        &rt,
        is_invalid(
            decode_error::<BitMap<4>>(alloc, &shorter, &any),
            "BitMap",
            TRAILING,
        ),
    );
    let other_bit = damaged(&rt, alloc, &THREE_BITS, 8, 1);
    let map = ok(&rt, BitMap::<4>::from_bools(alloc, &[false, false, true]));
    expect(&rt, decodes_to(alloc, &mut other_bit.as_slice(), &map));
}

// Of all values of the last byte, those with a bit past the length are errors.
#[test]
fn each_last_byte(rt: HostRuntime) {
    let alloc = rt.alloc();
    let any = RangeCfg::any();
    for last in 0..=255 {
        let input = [0, 0, 0, 0, 0, 0, 0, 10, 255, last];
        let error = decode_error::<BitMap<1>>(alloc, &input, &any);
        equal_at(&rt, last, is_accepted::<1>(alloc, &input, &any), last < 4);
        equal_at(&rt, last, is_invalid(error, "BitMap", TRAILING), last >= 4);
    }
}

// The greatest numbers that eight bytes can encode are errors.
#[test]
fn greatest_length_and_chunk_count(rt: HostRuntime) {
    let alloc = rt.alloc();
    let any = RangeCfg::any();
    expect(
        &rt,
        is_short(decode_error::<BitMap<1>>(alloc, &[255; 8], &any)),
    );
    expect(
        &rt,
        is_invalid(
            decode_error::<Prunable<1>>(alloc, &[255; 8], &any),
            "Prunable",
            TOO_MANY_PRUNED,
        ),
    );
}

// A length is accepted if the range contains it, and else returned in the error.
#[test]
fn length_ranges(rt: HostRuntime) {
    let alloc = rt.alloc();
    for range in [
        RangeCfg::exact(3),
        RangeCfg::at_least(3),
        RangeCfg::at_most(3),
        RangeCfg::between(3, 3),
    ] {
        expect(&rt, range.contains(3));
        expect(&rt, is_accepted::<4>(alloc, &THREE_BITS, &range));
    }
    for range in [
        RangeCfg::exact(2),
        RangeCfg::at_least(4),
        RangeCfg::at_most(2),
        RangeCfg::between(5, 3),
    ] {
        expect(&rt, !range.contains(3));
        expect(
            &rt,
            is_length(decode_error::<BitMap<4>>(alloc, &THREE_BITS, &range), 3),
        );
    }
    expect(&rt, RangeCfg::any().contains(u64::MAX));
}

// The number of pruned chunks, followed by the encoding of the retained bits.
#[test]
fn pruned_encodings(rt: HostRuntime) {
    let alloc = rt.alloc();
    check_pruned_bytes::<4>(&rt, alloc, 1, b"101", &AFTER_ONE);
    check_pruned_bytes::<4>(
        &rt,
        alloc,
        3,
        b"",
        &[0, 0, 0, 0, 0, 0, 0, 3, 0, 0, 0, 0, 0, 0, 0, 0],
    );
    check_pruned_bytes::<4>(
        &rt,
        alloc,
        2,
        b"110000000010000010100000011000000110",
        &AFTER_TWO,
    );
    check_pruned_bytes::<3>(
        &rt,
        alloc,
        1,
        b"0010000010100000011000001",
        &[
            0, 0, 0, 0, 0, 0, 0, 1, 0, 0, 0, 0, 0, 0, 0, 25, 4, 5, 6, 1, 0, 0,
        ],
    );
    check_pruned_bytes::<9>(
        &rt,
        alloc,
        258,
        b"101100101",
        &[
            0, 0, 0, 0, 0, 0, 1, 2, 0, 0, 0, 0, 0, 0, 0, 9, 0x4d, 1, 0, 0, 0, 0, 0, 0, 0,
        ],
    );
}

// The errors in the order of the checks.
#[test]
fn pruned_decode_errors(rt: HostRuntime) {
    let alloc = rt.alloc();
    let any = RangeCfg::any();
    expect(
        &rt,
        is_short(decode_error::<Prunable<4>>(alloc, &AFTER_ONE[..7], &any)),
    );
    expect(
        &rt,
        is_short(decode_error::<Prunable<4>>(alloc, &AFTER_ONE[..15], &any)),
    );
    expect(
        &rt,
        is_length(
            decode_error::<Prunable<4>>(alloc, &AFTER_ONE, &RangeCfg::at_least(4)),
            3,
        ),
    );
    // The pruned bits do not count for the range.
    expect(
        &rt,
        is_length(
            decode_error::<Prunable<4>>(alloc, &AFTER_TWO, &RangeCfg::exact(100)),
            36,
        ),
    );
    expect(
        &rt,
        is_short(decode_error::<Prunable<4>>(alloc, &AFTER_ONE[..19], &any)),
    );
    expect(
        &rt,
        is_invalid(
            decode_error::<Prunable<4>>(alloc, &[8, 0, 0, 0, 0, 0, 0, 0], &any),
            "Prunable",
            TOO_MANY_PRUNED,
        ),
    );
}

// Each proper prefix of an encoding is too short.
#[test]
fn pruned_input_cut_short(rt: HostRuntime) {
    check_cut_short::<Prunable<4>>(&rt, rt.alloc(), &AFTER_ONE);
}

// A damaged byte gives an error or another bitmap.
#[test]
fn pruned_input_with_a_damaged_byte(rt: HostRuntime) {
    let alloc = rt.alloc();
    let any = RangeCfg::any();
    let input = damaged(&rt, alloc, &AFTER_ONE, 0, 255);
    expect(
        &rt,
        is_invalid(
            decode_error::<Prunable<4>>(alloc, &input, &any),
            "Prunable",
            TOO_MANY_PRUNED,
        ),
    );
    // In the other bytes of the count, damage gives the encoding of another number of pruned chunks.
    for (at, count) in [(1, 0xff000000000001), (6, 0xff01), (7, 254)] {
        let input = damaged(&rt, alloc, &AFTER_ONE, at, 255);
        expect_at(
            &rt,
            at,
            decodes_to_pruned::<4>(alloc, &input, count, b"101"),
        );
    }
    for at in 8..16 {
        let input = damaged(&rt, alloc, &AFTER_ONE, at, 255);
        expect_at(
            &rt,
            at,
            is_short(decode_error::<Prunable<4>>(alloc, &input, &any)),
        );
    }
    for at in 16..20 {
        let input = damaged(&rt, alloc, &AFTER_ONE, at, 255);
        expect_at(
            &rt,
            at,
            is_invalid(
                decode_error::<Prunable<4>>(alloc, &input, &any),
                "BitMap",
                TRAILING,
            ),
        );
    }
    let other_bit = damaged(&rt, alloc, &AFTER_ONE, 16, 1);
    expect(&rt, decodes_to_pruned::<4>(alloc, &other_bit, 1, b"001"));
}

// A bit past the length is an error, also if no chunk is pruned.
#[test]
fn trailing_bit_with_nothing_pruned(rt: HostRuntime) {
    let input = [0, 0, 0, 0, 0, 0, 0, 0, 0, 0, 0, 0, 0, 0, 0, 1, 2, 0, 0, 0];
    let error = decode_error::<Prunable<4>>(rt.alloc(), &input, &RangeCfg::any());
    expect(&rt, is_invalid(error, "BitMap", TRAILING));
}

// The pruned and the retained bits together may not exceed `u64::MAX`.
#[test]
fn total_length_of_a_pruned_encoding(rt: HostRuntime) {
    let alloc = rt.alloc();
    let any = RangeCfg::any();
    let mut input = ok(&rt, Vec::from_slice(alloc, &MOST_PRUNED));
    ok(&rt, input.extend_from_slice(&[31, 0, 0, 0, 0]));
    expect(
        &rt,
        decodes_to_pruned::<4>(alloc, &input, MOST_PRUNED_CHUNKS, &[b'0'; 31]),
    );
    input.truncate(15);
    ok(&rt, input.extend_from_slice(&[32, 0, 0, 0, 0]));
    let long = "total bitmap length (pruned + unpruned) would overflow u64";
    expect(
        &rt,
        is_invalid(
            decode_error::<Prunable<4>>(alloc, &input, &any),
            "Prunable",
            long,
        ),
    );
    // An error in the retained bits is reported first.
    expect(
        &rt,
        is_length(
            decode_error::<Prunable<4>>(alloc, &input, &RangeCfg::at_most(31)),
            32,
        ),
    );
    expect(
        &rt,
        is_short(decode_error::<Prunable<4>>(alloc, &input[..19], &any)),
    );
    input.truncate(15);
    ok(&rt, input.extend_from_slice(&[33, 0, 0, 0, 0, 2, 0, 0, 0]));
    expect(
        &rt,
        is_invalid(
            decode_error::<Prunable<4>>(alloc, &input, &any),
            "BitMap",
            TRAILING,
        ),
    );
}

// Two bitmaps that differ only in pruned bits have the same encoding.
#[test]
fn pruned_bits_are_not_encoded(rt: HostRuntime) {
    let alloc = rt.alloc();
    let mut popped = of_chunks::<4>(&rt, alloc, &[[0xff; 4]; 3]);
    truncate(&rt, &mut popped, 64);
    prune_to_bit(&rt, &mut popped, 64);
    let mut pushed = Prunable::<4>::new(alloc);
    push_digits(&rt, &mut pushed, b"101");
    ok(&rt, pushed.extend_to(64));
    prune_to_bit(&rt, &mut pushed, 64);
    let want = [0, 0, 0, 0, 0, 0, 0, 2, 0, 0, 0, 0, 0, 0, 0, 0];
    equal(
        &rt,
        encoded(&rt, alloc, &popped).as_slice(),
        want.as_slice(),
    );
    equal(
        &rt,
        encoded(&rt, alloc, &pushed).as_slice(),
        want.as_slice(),
    );
}

// 36 bits after two pruned chunks that were written once: the range of lengths is that of the retained bits.
#[test]
fn pruned_then_encoded(rt: HostRuntime) {
    let alloc = rt.alloc();
    let mut map = Prunable::<4>::new(alloc);
    push_digits(&rt, &mut map, &[b'1'; 100]);
    prune_to_bit(&rt, &mut map, 64);
    let input = encoded(&rt, alloc, &map);
    expect(&rt, decodes_to_pruned::<4>(alloc, &input, 2, &[b'1'; 36]));
    let error = decode_error::<Prunable<4>>(alloc, &input, &RangeCfg::exact(100));
    expect(&rt, is_length(error, 36));
}

// Three chunks that were written once and are all pruned.
#[test]
fn all_pruned_then_encoded(rt: HostRuntime) {
    let alloc = rt.alloc();
    let mut map = Prunable::<4>::new(alloc);
    push_digits(&rt, &mut map, &[b'1'; 96]);
    prune_to_bit(&rt, &mut map, 96);
    let input = encoded(&rt, alloc, &map);
    expect(&rt, decodes_to_pruned::<4>(alloc, &input, 3, b""));
}

// Encodings of a full chunk and one bit, at six widths.
#[test]
fn encodings_at_each_width(rt: HostRuntime) {
    check_encodings::<1>(&rt, rt.alloc());
    check_encodings::<3>(&rt, rt.alloc());
    check_encodings::<7>(&rt, rt.alloc());
    check_encodings::<9>(&rt, rt.alloc());
    check_encodings::<32>(&rt, rt.alloc());
    check_encodings::<64>(&rt, rt.alloc());
}
