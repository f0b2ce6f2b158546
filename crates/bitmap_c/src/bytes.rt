//! The bits of a range as bytes: bit `k` of the range is bit `k mod 8` of byte `k / 8`.
//!
//! The bytes of the chunks of a bitmap follow one another from position 0 on. The bytes of a range are copied from them. Then the bits
//! of the copy are moved down to the first bit of the range, and the bits past the range are cleared.

ghost use Rattle.std.specs.Prelude.{◌≡◌, ℕ, ◌+◌, ◌-◌, ◌*◌, ◌/◌, ◌^◌, ◌<◌, ◌≤◌, ◌++◌, [], ◌∷◌, false, min, length, slice_index, slice_index_or};
ghost use Rattle.bitmap_bytes.specs.Bits.{chunks_bit};
ghost use Rattle.bitmap_bytes.specs.Chunk.{bytes_bit, IsWidth};
ghost use Rattle.bitmap_core.specs.Meaning.{IsLawful};
ghost use Rattle.bitmap_c.specs.Packed.{byte_count, packed};
ghost use Rattle.bitmap_c.specs.Reads.{Returns, bytes_read};

use crate::status::{DONE, OUT_OF_BOUNDS, PRUNED, WRONG_SIZE};
use bitmap_core::bitmap::Readable;
use bitmap_core::chunk::facts::all_known;
use bitmap_core::chunk::join::chunk_from;

// The number of bytes that the bits of a range fill.
fn byte_count(from: u64, to: u64) -> u64
    ensures { result ≡ byte_count from to }
{
    to.saturating_sub(from).div_ceil(8)
}

// States that each byte is below 256.
fn fit(bytes: &[u8])
    ensures { (k : ℕ) → slice_index bytes.now k < 256 }
{}

// The bytes of some chunks, one chunk after another.
fn flat<const N: usize>(chunks: &[[u8; N]]) -> &[u8]
    requires width { IsWidth N }
    ensures size { length result.now ≡ N * length chunks.now }
    ensures bits { (i : ℕ) → bytes_bit result.now i ≡ chunks_bit N chunks.now i }
{
    all_known(chunks);
    chunks.as_flattened()
}

// Copies bytes from byte `from` on to `out` from byte `at` on, as many as both have. Returns how many.
fn copy_to(bytes: &[u8], from: usize, out: &mut [u8], at: usize) -> usize
    requires from { from ≤ length bytes.now }
    requires at { at ≤ length out.old }
    ensures count { result ≡ min (length bytes.now - from) (length out.old - at) }
    ensures size { length out.new ≡ length out.old }
    ensures copied { (k : ℕ) → k < result
        → slice_index_or out.new (at + k) 0 ≡ slice_index_or bytes.now (from + k) 0 }
    ensures before { (k : ℕ) → k < at
        → slice_index_or out.new k 0 ≡ slice_index_or out.old k 0 }
    ensures after { (k : ℕ) → at + result ≤ k
        → slice_index_or out.new k 0 ≡ slice_index_or out.old k 0 }
{
    let count = (bytes.len() - from).min(out.len() - at);
    out[at..at + count].copy_from_slice(&bytes[from..from + count]);
    count
}

// Copies bytes of a bitmap from byte `first` on to `out` from byte `at` on, and returns how many: those of chunks in place, or of one
// chunk. Bits at or past the length may have any value.
fn copy_part<B: Readable<N>, const N: usize>(
    bitmap: &B,
    first: u64,
    out: &mut [u8],
    at: usize,
) -> usize
    requires lawful { IsLawful N (B.meaning bitmap.now) }
    requires retained { N * (B.meaning bitmap.now).pruned ≤ first }
    requires within { 8 * first < (B.meaning bitmap.now).len }
    requires space { at < length out.old }
    ensures some { 0 < result }
    ensures within { at + result ≤ length out.old }
    ensures size { length out.new ≡ length out.old }
    ensures copied { (i : ℕ) → i < 8 * result → 8 * first + i < (B.meaning bitmap.now).len
        → bytes_bit out.new (8 * at + i) ≡ (B.meaning bitmap.now).bit (8 * first + i) }
    ensures before { (k : ℕ) → k < at
        → slice_index_or out.new k 0 ≡ slice_index_or out.old k 0 }
{
    let width = N as u64;
    let index = (first / width) as usize;
    let (chunks, start) = bitmap.chunks_around(index);
    if chunks.is_empty() {
        let chunk = bitmap.get_chunk(index);
        return copy_to(&chunk, (first % width) as usize, out, at);
    }
    copy_to(
        flat(chunks),
        (first - width * start as u64) as usize,
        out,
        at,
    )
}

// Fills `out` with the bytes of a bitmap from byte `first` on. Bits at or past the length may have any value.
fn copy_bytes<B: Readable<N>, const N: usize>(bitmap: &B, first: u64, out: &mut [u8])
    requires lawful { IsLawful N (B.meaning bitmap.now) }
    requires retained { N * (B.meaning bitmap.now).pruned ≤ first }
    requires within { (k : ℕ) → k < length out.old → 8 * (first + k) < (B.meaning bitmap.now).len }
    ensures size { length out.new ≡ length out.old }
    ensures copied { (i : ℕ) → i < 8 * length out.old → 8 * first + i < (B.meaning bitmap.now).len
        → bytes_bit out.new i ≡ (B.meaning bitmap.now).bit (8 * first + i) }
{
    let mut at = 0;
    while at < out.len() {
        at += copy_part(bitmap, first + at as u64, out, at);
    }
}

// Byte `at` of a bitmap. Its bits at or past the length may have any value.
fn byte_at<B: Readable<N>, const N: usize>(bitmap: &B, at: u64) -> u8
    requires lawful { IsLawful N (B.meaning bitmap.now) }
    requires retained { N * (B.meaning bitmap.now).pruned ≤ at }
    requires within { 8 * at < (B.meaning bitmap.now).len }
    ensures { (i : ℕ) → i < 8 → 8 * at + i < (B.meaning bitmap.now).len
        → bytes_bit (result ∷ []) i ≡ (B.meaning bitmap.now).bit (8 * at + i) }
{
    let width = N as u64;
    let chunk = bitmap.get_chunk((at / width) as usize);
    chunk[(at % width) as usize]
}

// Removes the first `skip` bits of some bytes: the bits after them move down, and those of the byte `next` follow.
fn shift_down(bytes: &mut [u8], skip: u64, next: u8)
    requires { skip < 8 }
    ensures size { length bytes.new ≡ length bytes.old }
    ensures shifted { (i : ℕ) → i < 8 * length bytes.old
        → bytes_bit bytes.new i ≡ bytes_bit (bytes.old ++ next ∷ []) (skip + i) }
{
    if skip == 0 {
        return;
    }
    let mut at = 0;
    while at < bytes.len() {
        let block: [u8; 64] = chunk_from(&bytes[at..], &[next], skip);
        at += copy_to(&block, 0, bytes, at);
    }
}

// The byte whose lowest `count` bits are ones, and the others zeros.
fn low_mask(count: u64) -> u8
    requires { count < 8 }
    ensures { result ≡ 2 ^ count - 1 }
{
    (1 << count) - 1
}

// Clears the bits of some bytes from bit `count` on. They have as many bytes as `count` bits fill.
fn clear_from(bytes: &mut [u8], count: u64)
    requires { length bytes.old ≡ (count + 7) / 8 }
    ensures size { length bytes.new ≡ length bytes.old }
    ensures kept { (i : ℕ) → i < count → bytes_bit bytes.new i ≡ bytes_bit bytes.old i }
    ensures cleared { (i : ℕ) → count ≤ i → bytes_bit bytes.new i ≡ false }
{
    let used = count % 8;
    if used != 0 {
        bytes[(count / 8) as usize] &= low_mask(used);
    }
}

// Fills `out` with the bits of a range whose positions are retained.
fn write_bits<B: Readable<N>, const N: usize>(bitmap: &B, from: u64, to: u64, out: &mut [u8])
    requires lawful { IsLawful N (B.meaning bitmap.now) }
    requires size { length out.old ≡ byte_count from to }
    requires order { from ≤ to }
    requires retained { 8 * N * (B.meaning bitmap.now).pruned ≤ from }
    requires within { to ≤ (B.meaning bitmap.now).len }
    ensures { out.new ≡ packed (B.meaning bitmap.now).bit from to }
{
    let first = from / 8;
    let past = first + out.len() as u64;
    copy_bytes(bitmap, first, out);
    let next = if past < byte_count(0, to) {
        byte_at(bitmap, past)
    } else {
        0
    };
    shift_down(out, from % 8, next);
    clear_from(out, to - from);
    fit(out);
}

/// Fills `out` with the bits of a range, and returns `DONE`, or the status that says why there are none. `out` is then unchanged.
///
/// # Memory
///
/// Does not allocate.
///
/// # Complexity
///
/// Linear in the words of the range. Calls `get_chunk` at most once per chunk of the range that `chunks_around` does not return in
/// place, and once more for the last chunk.
pub fn read_bytes<B: Readable<N>, const N: usize>(
    bitmap: &B,
    from: u64,
    to: u64,
    out: &mut [u8],
) -> u32
    ensures { Returns result out.old out.new
        (bytes_read N (B.meaning bitmap.now) from to (length out.old)) }
{
    if out.len() as u64 != byte_count(from, to) {
        return WRONG_SIZE;
    }
    if from > to || to > bitmap.len() {
        return OUT_OF_BOUNDS;
    }
    if from < bitmap.pruned_bits() {
        return PRUNED;
    }
    write_bits(bitmap, from, to, out);
    DONE
}
