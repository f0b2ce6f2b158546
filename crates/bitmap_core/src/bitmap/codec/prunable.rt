//! The encoding of a bitmap with a pruned prefix.
//!
//! It is the number of pruned chunks in eight bytes, most significant first, and then the encoding of the retained bits.

ghost use Rattle.std.specs.Prelude.{◌≡◌, ℕ, ◌+◌, ◌*◌, ◌^◌, ◌<◌, ◌≤◌, Bool, None, drop, length, slice_index, take, IfErr, IfOk, OnOk};
ghost use Rattle.std.specs.Simd.{first_chunks};
ghost use Rattle.bitmap_core.specs.PrunedBits.{bit_len};
ghost use Rattle.bitmap_bytes.specs.Bits.{chunk_count};
ghost use Rattle.bitmap_core.specs.Encoding.{pruned_encoding};
ghost use Rattle.bitmap_core.specs.Decoding.{admits, bits_error, chunk_bytes, decode_error, number, pruned_error, pruned_in};
ghost use Rattle.bitmap_bytes.specs.Chunk.{IsWidth};

use crate::bitmap::BitMap;
use crate::bitmap::codec::dense::parts;
use crate::bitmap::codec::{CodecError, EncodeSize, RangeCfg, Read, Write};
use crate::bitmap::prunable::Prunable;
use crate::chunk::chunk_width;
use std::alloc::{AllocError, Global};

// The number of pruned chunks in an input, the number of pruned bits, and the bytes after the first eight.
#[tactic(auto, unfolding(crate::specs::Decoding::pruned_error))]
fn count_part<const N: usize>(text: &[u8]) -> Result<(usize, u64, &[u8]), CodecError>
    requires { 8 * N < 2 ^ 64 }
    ensures long { OnOk result (8 ≤ length text.now) }
    ensures count { IfOk result (λ p. p.0 ≡ number text.now) }
    ensures pruned { IfOk result (λ p. p.1 ≡ 8 * N * number text.now) }
    ensures fits { OnOk result (8 * N * number text.now < 2 ^ 64) }
    ensures body { IfOk result (λ p. p.2.now ≡ drop 8 text.now) }
    ensures refused { IfErr result
        (λ e. (range : ℕ → Bool) → pruned_error N range text.now ≡ decode_error e) }
    ensures bytes { (k : ℕ) → slice_index text.now k < 256 }
{
    let (front, body) = text
        .split_first_chunk::<8>()
        .ok_or(CodecError::EndOfBuffer)?;
    let count = u64::from_be_bytes(*front);
    let pruned_bits = chunk_width::<N>()
        .checked_mul(count)
        .ok_or(CodecError::Invalid(
            "Prunable",
            "pruned_chunks would overflow when computing pruned_bits",
        ))?;
    Ok((count as usize, pruned_bits, body))
}

// The number of pruned chunks in an input, the number of its retained bits, their chunks, and the bytes after them.
fn pruned_parts<'a, const N: usize>(
    text: &'a [u8],
    range: &RangeCfg,
) -> Result<(usize, u64, &'a [[u8; N]], &'a [u8]), CodecError>
    requires width { IsWidth N }
    ensures accepted { OnOk result (pruned_error N (admits range.now) text.now ≡ None) }
    ensures bits_accepted { OnOk result (bits_error N (admits range.now) (drop 8 text.now) ≡ None) }
    ensures long { OnOk result (8 ≤ length text.now) }
    ensures pruned { IfOk result (λ p. p.0 ≡ number text.now) }
    ensures len { IfOk result (λ p. p.1 ≡ number (drop 8 text.now)) }
    ensures chunks { IfOk result
        (λ p. p.2.now ≡ first_chunks N (chunk_count N (number (drop 8 text.now)))
        (take (chunk_bytes N (drop 8 text.now)) (drop 8 (drop 8 text.now)))) }
    ensures rest { IfOk result
        (λ p. p.3.now ≡ drop (8 + chunk_bytes N (drop 8 text.now)) (drop 8 text.now)) }
    ensures total { IfOk result (λ p. 8 * N * p.0 + p.1 < 2 ^ 64) }
    ensures refused { IfErr result
        (λ e. pruned_error N (admits range.now) text.now ≡ decode_error e) }
    ensures bytes { (k : ℕ) → slice_index text.now k < 256 }
{
    let (pruned_chunks, pruned_bits, body) = count_part::<N>(text)?;
    let (len, chunks, rest) = parts::<N>(body, range)?;
    if pruned_bits.checked_add(len).is_none() {
        return Err(CodecError::Invalid(
            "Prunable",
            "total bitmap length (pruned + unpruned) would overflow u64",
        ));
    }
    Ok((pruned_chunks, len, chunks, rest))
}

impl<const N: usize> EncodeSize for Prunable<N> {
    ghost encoded = { pruned_encoding N };

    ghost IsSized = { λ b. (bit_len N b < 2 ^ 64) × (b.pruned < 2 ^ 64) };

    fn encode_size(&self) -> usize
        ensures { result ≡ length (pruned_encoding N self.now) }
    {
        8 + self.retained().encode_size()
    }
}

impl<const N: usize> Write for Prunable<N> {
    fn write(&self, out: &mut Vec<u8>) -> Result<(), AllocError> {
        out.reserve(self.encode_size())?;
        let count = self.pruned_chunks() as u64;
        out.extend_from_slice(&count.to_be_bytes()).unwrap();
        self.retained().append_encoding(out);
        Ok(())
    }
}

impl<const N: usize> Read for Prunable<N> {
    ghost can_read = { IsWidth N };

    ghost value_in = { pruned_in };

    ghost error_of = { pruned_error N };

    fn read_cfg(alloc: Global, from: &mut &[u8], range: &RangeCfg) -> Result<Self, CodecError> {
        let (pruned_chunks, len, chunks, rest) = pruned_parts::<N>(*from, range)?;
        let bits = BitMap::from_chunks(alloc, chunks, len).map_err(|_| CodecError::OutOfMemory)?;
        *from = rest;
        Ok(Prunable::from_parts(bits, pruned_chunks))
    }
}
