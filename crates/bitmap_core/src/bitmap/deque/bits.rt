//! Single bits and bytes of a deque of chunks.

ghost use Rattle.std.specs.Prelude.{◌≡◌, ℕ, ◌+◌, ◌*◌, ◌/◌, ◌%◌, ◌^◌, ◌<◌, length, not};
ghost use Rattle.bitmap_bytes.specs.Chunk.{chunk_bit, IsWidth};
ghost use Rattle.bitmap_bytes.specs.Bits.{chunks_bit, IsBitPut, IsBytePut, IsChunkCount, IsZeroFrom};

use crate::chunk;
use crate::chunk::{byte_index, chunk_index, chunk_width};
use std::collections::VecDeque;

// Returns bit `bit` of the chunks.
pub fn get_bit<const N: usize>(chunks: &VecDeque<[u8; N]>, bit: u64) -> bool
    requires width { IsWidth N }
    requires within { bit / (8 * N) < length chunks.now.items }
    ensures { result ≡ chunks_bit N chunks.now.items bit }
{
    chunk::get_bit(&chunks[chunk_index::<N>(bit)], bit)
}

// Returns the byte that contains bit `bit`, as a chunk.
pub fn get_byte<const N: usize>(chunks: &VecDeque<[u8; N]>, bit: u64) -> [u8; 1]
    requires width { IsWidth N }
    requires within { bit / (8 * N) < length chunks.now.items }
    ensures { (k : ℕ) → k / 8 ≡ bit / 8 → chunk_bit 1 result k ≡ chunks_bit N chunks.now.items k }
{
    [chunks[chunk_index::<N>(bit)][byte_index::<N>(bit)]]
}

// Sets bit `bit` of the chunks to `value`.
pub fn set_bit<const N: usize>(chunks: &mut VecDeque<[u8; N]>, bit: u64, value: bool)
    requires width { IsWidth N }
    requires within { bit / (8 * N) < length chunks.old.items }
    ensures { IsBitPut N chunks.old.items chunks.new.items bit value }
{
    chunk::set_bit(&mut chunks[chunk_index::<N>(bit)], bit, value);
}

// Inverts bit `bit` of the chunks.
pub fn flip_bit<const N: usize>(chunks: &mut VecDeque<[u8; N]>, bit: u64)
    requires width { IsWidth N }
    requires within { bit / (8 * N) < length chunks.old.items }
    ensures { IsBitPut N chunks.old.items chunks.new.items bit
        (not (chunks_bit N chunks.old.items bit)) }
{
    chunk::flip_bit(&mut chunks[chunk_index::<N>(bit)], bit);
}

// Replaces the byte that contains bit `bit`.
pub fn set_byte<const N: usize>(chunks: &mut VecDeque<[u8; N]>, bit: u64, byte: u8)
    requires width { IsWidth N }
    requires within { bit / (8 * N) < length chunks.old.items }
    ensures { IsBytePut N chunks.old.items chunks.new.items bit byte }
{
    chunk::set_byte(&mut chunks[chunk_index::<N>(bit)], bit, byte);
}

// Clears the bits at and past a length.
pub fn clear_tail<const N: usize>(chunks: &mut VecDeque<[u8; N]>, len: u64)
    requires width { IsWidth N }
    requires count { IsChunkCount N (length chunks.old.items) len }
    ensures count { length chunks.new.items ≡ length chunks.old.items }
    ensures below { (i : ℕ) → i < len
        → chunks_bit N chunks.new.items i ≡ chunks_bit N chunks.old.items i }
    ensures zero { IsZeroFrom N chunks.new.items len }
{
    let from = len % chunk_width::<N>();
    if from != 0 {
        chunk::clear_from(&mut chunks[chunk_index::<N>(len)], from);
    }
}
