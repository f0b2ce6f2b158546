//! The encoding of a dense bitmap: its length in eight bytes, most significant first, and then its chunks.

ghost use Rattle.std.specs.Prelude.{◌≡◌, ℕ, ◌+◌, ◌-◌, ◌*◌, ◌^◌, ◌<◌, ◌≤◌, ◌++◌, None, drop, length, slice_index, take, vec_capacity, vec_len, IfErr, IfOk, IsSome, OnOk};
ghost use Rattle.std.specs.List.{list_any, range_with_len};
ghost use Rattle.std.specs.Simd.{first_chunks};
ghost use Rattle.bitmap_bytes.specs.Bits.{chunks_bit, bits, IsChunkCount, IsZeroFrom, chunk_count};
ghost use Rattle.bitmap_core.specs.Encoding.{encoding};
ghost use Rattle.bitmap_core.specs.Decoding.{admits, bits_error, bits_in, chunk_bytes, decode_error, number};
ghost use Rattle.bitmap_bytes.specs.Chunk.{IsWidth};

use crate::bitmap::codec::{CodecError, EncodeSize, RangeCfg, Read, Write};
use crate::bitmap::{BitMap, deque};
use crate::chunk;
use crate::chunk::{chunk_count, chunk_index, chunk_width};
use std::alloc::{AllocError, Global};
use std::collections::VecDeque;

// The chunks in some bytes.
fn chunks_of<const N: usize>(bytes: &[u8], count: usize) -> &[[u8; N]]
    requires positive { 0 < N }
    requires size { length bytes.now ≡ N * count }
    ensures { result.now ≡ first_chunks N count bytes.now }
{
    bytes.as_chunks::<N>().0
}

// Whether a bit of the chunks at or past a length is set.
fn is_set_past<const N: usize>(chunks: &[[u8; N]], len: u64) -> bool
    requires width { IsWidth N }
    requires count { IsChunkCount N (length chunks.now) len }
    ensures { result ≡ list_any (chunks_bit N chunks.now)
        (range_with_len len (8 * N * length chunks.now - len)) }
{
    let from = len % chunk_width::<N>();
    if from == 0 {
        return false;
    }
    chunk::is_set_from(&chunks[chunk_index::<N>(len)], from)
}

// The length in an input, its chunks, and the bytes after them.
#[tactic(auto, unfolding(crate::specs::Decoding::bits_error))]
pub fn parts<'a, const N: usize>(
    text: &'a [u8],
    range: &RangeCfg,
) -> Result<(u64, &'a [[u8; N]], &'a [u8]), CodecError>
    requires width { IsWidth N }
    ensures accepted { OnOk result (bits_error N (admits range.now) text.now ≡ None) }
    ensures len { IfOk result (λ p. p.0 ≡ number text.now) }
    ensures chunks { IfOk result
        (λ p. p.1.now ≡ first_chunks N (chunk_count N (number text.now))
        (take (chunk_bytes N text.now) (drop 8 text.now))) }
    ensures rest { IfOk result (λ p. p.2.now ≡ drop (8 + chunk_bytes N text.now) text.now) }
    ensures refused { IfErr result
        (λ e. bits_error N (admits range.now) text.now ≡ decode_error e) }
    ensures named { IfErr result (λ e. IsSome (decode_error e)) }
    ensures bytes { (k : ℕ) → slice_index text.now k < 256 }
{
    let (front, body) = text
        .split_first_chunk::<8>()
        .ok_or(CodecError::EndOfBuffer)?;
    let len = u64::from_be_bytes(*front);
    if !range.contains(len) {
        return Err(CodecError::InvalidLength(len));
    }
    let count = chunk_count::<N>(len);
    let (bytes, rest) = body
        .split_at_checked(N * count)
        .ok_or(CodecError::EndOfBuffer)?;
    let chunks = chunks_of::<N>(bytes, count);
    if is_set_past(chunks, len) {
        return Err(CodecError::Invalid("BitMap", "Invalid trailing bits in encoded data"));
    }
    Ok((len, chunks, rest))
}

impl<const N: usize> BitMap<N> {
    // The bitmap of the first `len` bits of some chunks, which have no other set bit.
    pub(crate) fn from_chunks(
        alloc: Global,
        chunks: &[[u8; N]],
        len: u64,
    ) -> Result<Self, AllocError>
        requires width { IsWidth N }
        requires count { IsChunkCount N (length chunks.now) len }
        requires zero { IsZeroFrom N chunks.now len }
        ensures { IfOk result (λ b. b ≡ bits N chunks.now len) }
    {
        let chunks = VecDeque::from(Vec::from_slice(alloc, chunks)?);
        Ok(BitMap { chunks, len })
    }

    // Appends the encoding of the bits, for which `out` has capacity.
    pub(crate) fn append_encoding(&self, out: &mut Vec<u8>)
        requires { vec_len out.old + length (encoding N self.now) ≤ vec_capacity out.old }
        ensures { out.new.items ≡ out.old.items ++ encoding N self.now }
    {
        let len = self.len;
        let (front, back) = deque::slices(&self.chunks);
        out.extend_from_slice(&len.to_be_bytes()).unwrap();
        out.extend_from_slice(front.as_flattened()).unwrap();
        out.extend_from_slice(back.as_flattened()).unwrap();
    }
}

impl<const N: usize> EncodeSize for BitMap<N> {
    ghost encoded = { encoding N };

    ghost IsSized = { λ v. length v < 2 ^ 64 };

    fn encode_size(&self) -> usize
        ensures { result ≡ length (encoding N self.now) }
    {
        BitMap::<N>::max_encode_size(self.len())
    }
}

impl<const N: usize> Write for BitMap<N> {
    fn write(&self, out: &mut Vec<u8>) -> Result<(), AllocError> {
        out.reserve(self.encode_size())?;
        self.append_encoding(out);
        Ok(())
    }
}

impl<const N: usize> Read for BitMap<N> {
    ghost can_read = { IsWidth N };

    ghost value_in = { bits_in };

    ghost error_of = { bits_error N };

    fn read_cfg(alloc: Global, from: &mut &[u8], range: &RangeCfg) -> Result<Self, CodecError> {
        let (len, chunks, rest) = parts::<N>(*from, range)?;
        let map = BitMap::from_chunks(alloc, chunks, len).map_err(|_| CodecError::OutOfMemory)?;
        *from = rest;
        Ok(map)
    }
}
