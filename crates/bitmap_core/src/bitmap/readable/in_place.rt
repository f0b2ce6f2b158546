//! Words of 64 bits of chunks in place. They follow one another from the first chunk on, whatever the width of a chunk.

ghost use Rattle.std.specs.Prelude.{◌≡◌, ℕ, ◌+◌, ◌*◌, ◌%◌, ◌^◌, ◌<◌, ◌≤◌, ◌==◌, ◌⊎◌, false, length, min};
ghost use Rattle.std.specs.Int.{bit_at};
ghost use Rattle.bitmap_bytes.specs.Bits.{chunks_bit};
ghost use Rattle.bitmap_bytes.specs.Chunk.{is_wanted, IsWidth};
ghost use Rattle.bitmap_core.specs.Meaning.{IsLawful};

use crate::bitmap::readable::Readable;
use crate::bitmap::readable::loads::load_word;
use crate::bitmap::readable::search::slice_from;
use crate::chunk::facts::all_known;

// The number of the first chunks, of `count` chunks, that are whole words together: all, or at most seven fewer.
fn whole_count<const N: usize>(count: usize) -> usize
    ensures within { result ≤ count }
    ensures most { count ≤ result + 7 }
    ensures whole { (N % 8 ≡ 0) ⊎ (result % 8 ≡ 0) }
    ensures all { N % 8 ≡ 0 → result ≡ count }
{
    if N % 8 == 0 { count } else { count - count % 8 }
}

// The words of the first of some chunks: of all, or of at most seven fewer, so that the words end with a chunk.
fn words_of<const N: usize>(chunks: &[[u8; N]]) -> &[[u8; 8]]
    requires width { IsWidth N }
    ensures within { 64 * length result.now ≤ 8 * N * length chunks.now }
    ensures most { 8 * N * length chunks.now ≤ 64 * length result.now + 56 * N }
    ensures all { N % 8 ≡ 0 → 64 * length result.now ≡ 8 * N * length chunks.now }
    ensures whole { 64 * length result.now % (8 * N) ≡ 0 }
    ensures bits { (i : ℕ) → i < 64 * length result.now
        → chunks_bit 8 result.now i ≡ chunks_bit N chunks.now i }
{
    let part = &chunks[..whole_count::<N>(chunks.len())];
    all_known(part);
    let (words, _) = part.as_flattened().as_chunks::<8>();
    words
}

// The words of whole chunks from position `at` on that end at or before `end` and are in one slice. None if no chunk begins at `at`.
pub(crate) fn run_from<B: Readable<N>, const N: usize>(
    readable: &B,
    at: u64,
    end: u64,
) -> &[[u8; 8]]
    requires lawful { IsLawful N (B.meaning readable.now) }
    requires retained { 8 * N * (B.meaning readable.now).pruned ≤ at }
    requires order { at ≤ end }
    requires within { end ≤ (B.meaning readable.now).len }
    ensures within { at + 64 * length result.now ≤ end }
    ensures whole { 0 < length result.now → (at + 64 * length result.now) % (8 * N) ≡ 0 }
    ensures bits { (i : ℕ) → i < 64 * length result.now
        → chunks_bit 8 result.now i ≡ (B.meaning readable.now).bit (at + i) }
{
    words_of(slice_from(readable, 8 * N as u64, at, end))
}

// The index of the first word with a wanted bit, and the wanted bits of this word. If there is none, the number of words, and 0.
//
// Adds the number of words loaded to `loads`: each word up to that one, once.
pub(crate) fn first_wanted(words: &[[u8; 8]], wanted: bool, loads: &mut u64) -> (usize, u64)
    requires space { loads.old + length words.now < 2 ^ 64 }
    ensures within { result.0 ≤ length words.now }
    ensures none { (i : ℕ) → i < 64 * result.0
        → is_wanted wanted (chunks_bit 8 words.now i) ≡ false }
    ensures bits { result.0 < length words.now → (t : ℕ) → t < 64
        → (bit_at result.1 t == 1) ≡ is_wanted wanted (chunks_bit 8 words.now (64 * result.0 + t)) }
    ensures some { result.0 < length words.now → 0 < result.1 }
    ensures counted { loads.new ≡ loads.old + min (result.0 + 1) (length words.now) }
{
    // Counts in a local, so that the compiled loop writes nothing to memory.
    let mut loaded = 0;
    let mut index = 0;
    while index < words.len() {
        let word = load_word(&words[index], 0, 64, wanted, &mut loaded);
        if word != 0 {
            *loads += loaded;
            return (index, word);
        }
        index += 1;
    }
    *loads += loaded;
    (index, 0)
}
