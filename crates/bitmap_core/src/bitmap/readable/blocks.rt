//! Counts of the wanted bits of a slice of chunks, many chunks per step.

ghost use Rattle.std.specs.Prelude.{◌≡◌, ℕ, ◌+◌, ◌-◌, ◌*◌, ◌^◌, ◌<◌, ◌≤◌, false, length};
ghost use Rattle.std.specs.List.{count_by, range_with_len};
ghost use Rattle.bitmap_bytes.specs.Bits.{chunks_bit};
ghost use Rattle.bitmap_bytes.specs.Chunk.{is_wanted, IsWidth};

use crate::chunk::facts::all_known;
use crate::chunk::words;

// The most chunks per step.
const BLOCK: usize = 256;

// The number of bits of some chunks that are set or, if `wanted` is false, that are not set.
pub fn wanted_in<const N: usize>(chunks: &[[u8; N]], wanted: bool) -> u64
    requires width { IsWidth N }
    requires fits { 8 * N * length chunks.now < 2 ^ 64 }
    ensures { result ≡ count_by (λ i. is_wanted wanted (chunks_bit N chunks.now i))
        (range_with_len 0 (8 * N * length chunks.now)) }
{
    all_known(chunks);
    let ones = words::count_ones(chunks.as_flattened());
    if wanted {
        ones
    } else {
        8 * N as u64 * chunks.len() as u64 - ones
    }
}

// The number of the first chunks that have at most `k` wanted bits together, and the number of these bits.
//
// Takes more chunks per step after each step that succeeds, and fewer after one that fails. So few chunks are counted twice.
pub fn leading<const N: usize>(chunks: &[[u8; N]], wanted: bool, k: u64) -> (usize, u64)
    requires width { IsWidth N }
    requires fits { 8 * N * length chunks.now < 2 ^ 64 }
    ensures within { result.0 ≤ length chunks.now }
    ensures counted { result.1
        ≡ count_by (λ i. is_wanted wanted (chunks_bit N chunks.now i))
        (range_with_len 0 (8 * N * result.0)) }
    ensures few { result.1 ≤ k }
{
    let mut count = 0;
    let mut total = 0;
    let mut size = chunks.len().min(1);
    while size > 0 {
        let more = wanted_in(&chunks[count..count + size], wanted);
        if more > k - total {
            size /= 2;
            continue;
        }
        total += more;
        count += size;
        size = (2 * size).min(BLOCK).min(chunks.len() - count);
    }
    (count, total)
}

// The number of the last chunks that have no wanted bit. The steps are those of `leading`.
pub fn trailing<const N: usize>(chunks: &[[u8; N]], wanted: bool) -> usize
    requires width { IsWidth N }
    requires fits { 8 * N * length chunks.now < 2 ^ 64 }
    ensures within { result ≤ length chunks.now }
    ensures none { (i : ℕ) → 8 * N * (length chunks.now - result) ≤ i
        → i < 8 * N * length chunks.now → is_wanted wanted (chunks_bit N chunks.now i) ≡ false }
{
    let mut left = chunks.len();
    let mut size = left.min(1);
    while size > 0 {
        if wanted_in(&chunks[left - size..left], wanted) > 0 {
            size /= 2;
            continue;
        }
        left -= size;
        size = (2 * size).min(BLOCK).min(left);
    }
    chunks.len() - left
}
