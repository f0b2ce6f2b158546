//! Decodes every damaged form of one encoding, and checks the error.
//!
//! The encoding is that of a full chunk and one bit more, all set. Each of its bits is flipped, and its last bytes take every value.

ghost use Rattle.std.specs.Prelude.{◌*◌, ◌^◌, ◌<◌};

use crate::checks::{equal_at, expect, ok};
use crate::codec::{damaged, one_chunk_and_a_bit};
use bitmap_core::bitmap::codec::{CodecError, RangeCfg, Read};
use bitmap_core::bitmap::{BitMap, Prunable};
use std::alloc::Global;
use std::process::Abort;

#[derive(Debug, PartialEq, Eq, Drop)]
enum Verdict {
    Accepted,
    Short,
    Trailing,
    TooManyPruned,
    Other,
}

// Returns what decoding `input` as a `V` gives.
fn verdict_of<V: Read + Drop>(alloc: Global, input: &[u8]) -> Verdict
    requires { V.can_read }
{
    let mut from = input;
    match V::read_cfg(alloc, &mut from, &RangeCfg::any()) {
        Ok(_) => Verdict::Accepted,
        Err(CodecError::EndOfBuffer) => Verdict::Short,
        Err(CodecError::Invalid("BitMap", _)) => Verdict::Trailing,
        Err(CodecError::Invalid("Prunable", _)) => Verdict::TooManyPruned,
        Err(_) => Verdict::Other,
    }
}

// The expected outcome for two chunks with `width + 1` set bits, if the encoding gives the length `len`, which is not 0.
fn with_length(width: u64, len: u64) -> Verdict {
    if len.div_ceil(2) > width {
        Verdict::Short
    } else if len < width {
        Verdict::Trailing
    } else {
        Verdict::Accepted
    }
}

// Flips each bit of the length, which is encoded in the eight bytes from `at` on, big-endian.
fn check_lengths<V: Read + Drop>(
    rt: &impl Abort,
    alloc: Global,
    input: &[u8],
    at: usize,
    width: u64,
)
    requires { V.can_read }
{
    expect(rt, at <= 8 && width <= 512);
    for place in 0..64 {
        let flipped = damaged(rt, alloc, input, at + 7 - place / 8, 1 << (place % 8));
        let len = (width + 1) ^ (1 << place);
        equal_at(
            rt,
            (place, width),
            verdict_of::<V>(alloc, &flipped),
            with_length(width, len),
        );
    }
}

// Flips each bit of the two chunks, which are encoded from `at` on.
fn check_chunks<V: Read + Drop>(
    rt: &impl Abort,
    alloc: Global,
    input: &[u8],
    at: usize,
    width: usize,
)
    requires { V.can_read }
{
    expect(rt, at <= 16 && width <= 512);
    for place in 0..2 * width {
        let flipped = damaged(rt, alloc, input, at + place / 8, 1 << (place % 8));
        let expected = if place <= width {
            Verdict::Accepted
        } else {
            Verdict::Trailing
        };
        equal_at(
            rt,
            (place, width),
            verdict_of::<V>(alloc, &flipped),
            expected,
        );
    }
}

// Replaces the byte at `at` by each value. The values below `accepted` decode.
fn check_byte<V: Read + Drop>(rt: &impl Abort, alloc: Global, input: &[u8], at: usize, accepted: u8)
    requires { V.can_read }
{
    expect(rt, at < input.len());
    let old = input[at];
    for byte in 0..=255 {
        let other = damaged(rt, alloc, input, at, old ^ byte);
        let expected = if byte < accepted {
            Verdict::Accepted
        } else {
            Verdict::Trailing
        };
        equal_at(rt, (byte, at), verdict_of::<V>(alloc, &other), expected);
    }
}

// All of these checks. The length is encoded from `at` on, and the chunks follow it.
fn check_input<V: Read + Drop>(
    rt: &impl Abort,
    alloc: Global,
    input: &[u8],
    at: usize,
    bytes: usize,
)
    requires { V.can_read }
{
    expect(rt, at <= 8 && 0 < bytes && bytes <= 64);
    check_lengths::<V>(rt, alloc, input, at, 8 * bytes as u64);
    check_chunks::<V>(rt, alloc, input, at + 8, 8 * bytes);
    check_byte::<V>(rt, alloc, input, at + 8 + bytes, 2);
    if bytes > 1 {
        check_byte::<V>(rt, alloc, input, at + 7 + 2 * bytes, 1);
    }
}

// Flips each bit of the number of pruned chunks, which was 1.
fn check_counts<const N: usize>(rt: &impl Abort, alloc: Global, input: &[u8])
    requires positive { 0 < N }
    requires fits { 8 * N < 2 ^ 64 }
{
    expect(rt, N <= 64);
    let width = 8 * N as u64;
    for place in 0..64 {
        let flipped = damaged(rt, alloc, input, 7 - place / 8, 1 << (place % 8));
        let expected = match width.checked_mul(1 ^ (1 << place)) {
            Some(pruned) if pruned < u64::MAX - width => Verdict::Accepted,
            _ => Verdict::TooManyPruned,
        };
        equal_at(
            rt,
            (place, N),
            verdict_of::<Prunable<N>>(alloc, &flipped),
            expected,
        );
    }
}

// Checks the encodings of the dense and of the pruned bitmap.
fn check<const N: usize>(rt: &impl Abort, alloc: Global)
    requires positive { 0 < N }
    requires fits { 8 * N < 2 ^ 64 }
{
    expect(rt, N <= 64);
    let bits = one_chunk_and_a_bit::<N>(rt, alloc);
    check_input::<BitMap<N>>(rt, alloc, &bits, 0, N);
    let mut input = ok(rt, Vec::from_slice(alloc, &[0, 0, 0, 0, 0, 0, 0, 1]));
    ok(rt, input.extend_from_slice(&bits));
    check_input::<Prunable<N>>(rt, alloc, &input, 8, N);
    check_counts::<N>(rt, alloc, &input)
}

// All damaged encodings at six widths.
#[test]
fn each_bit_and_each_last_byte(rt: HostRuntime) {
    check::<1>(&rt, rt.alloc());
    check::<3>(&rt, rt.alloc());
    check::<7>(&rt, rt.alloc());
    check::<9>(&rt, rt.alloc());
    check::<32>(&rt, rt.alloc());
    check::<64>(&rt, rt.alloc());
}
