//! The number of set bits of a deque of chunks, and whether a bit of a range is set.

ghost use Rattle.std.specs.Prelude.{◌≡◌, ◌+◌, ◌-◌, ◌*◌, ◌^◌, ◌<◌, ◌≤◌, length, not};
ghost use Rattle.std.specs.List.{count_by, list_all, range_with_len};
ghost use Rattle.bitmap_bytes.specs.Bits.{chunks_bit, bits};

use crate::bitmap::deque::runs::bytes;
use crate::chunk::words;
use std::collections::VecDeque;

// The number of set bits of some chunks.
pub fn count_ones<const N: usize>(chunks: &VecDeque<[u8; N]>) -> u64
    requires positive { 0 < N }
    requires fits { count_by (λ b. b) (bits N chunks.now.items (8 * N * length chunks.now.items))
        < 2 ^ 64 }
    ensures { result ≡ count_by (λ b. b)
        (bits N chunks.now.items (8 * N * length chunks.now.items)) }
{
    let (front, back) = bytes(chunks);
    words::count_ones(front) + words::count_ones(back)
}

// Whether no bit of some chunks at or above `from` and below `to` is set.
pub fn is_unset<const N: usize>(chunks: &VecDeque<[u8; N]>, from: u64, to: u64) -> bool
    requires positive { 0 < N }
    requires within { to ≤ 8 * N * length chunks.now.items }
    ensures { result ≡ list_all (λ i. not (chunks_bit N chunks.now.items i))
        (range_with_len from (to - from)) }
{
    let (front, back) = bytes(chunks);
    let split = (front.len() as u64).saturating_mul(8);
    words::is_unset(front, from.min(split), to.min(split))
        && words::is_unset(back, from.max(split) - split, to.max(split) - split)
}
