//! A word of a chunk, written to the chunk.

ghost use Rattle.std.specs.Prelude.{◌≡◌, ◌+◌, ◌*◌, ◌%◌, ◌≤◌};
ghost use Rattle.bitmap_bytes.specs.Chunk.{IsChunk, IsWidth};
ghost use Rattle.historical_bitmap.specs.CachedWord.{IsWordPut};

use bitmap_core::chunk::facts::known;
use bitmap_core::chunk::{byte_index, chunk_width};

// Writes the low `count` bits of a word to a chunk from bit `base` on. Both are whole bytes.
#[inline]
fn put_bytes<const N: usize>(chunk: &mut [u8; N], base: u64, count: u64, word: u64)
    requires width { IsWidth N }
    requires starts { base % (8 * N) % 8 ≡ 0 }
    requires whole { count % 8 ≡ 0 }
    requires short { count ≤ 64 }
    requires within { base % (8 * N) + count ≤ 8 * N }
    ensures known { IsChunk N chunk.new }
    ensures put { IsWordPut N chunk.old chunk.new base count word }
{
    let at = byte_index::<N>(base);
    let bytes = word.to_le_bytes();
    for j in 0..(count / 8) as usize {
        chunk[at + j] = bytes[j];
    }
    known(chunk);
}

// As `put_bytes`. The compiler makes one store of a loop whose length it knows: that of a whole word, or of a word that is a whole chunk.
#[inline]
pub(crate) fn put_word<const N: usize>(chunk: &mut [u8; N], base: u64, count: u64, word: u64)
    requires width { IsWidth N }
    requires starts { base % (8 * N) % 8 ≡ 0 }
    requires whole { count % 8 ≡ 0 }
    requires short { count ≤ 64 }
    requires within { base % (8 * N) + count ≤ 8 * N }
    ensures known { IsChunk N chunk.new }
    ensures put { IsWordPut N chunk.old chunk.new base count word }
{
    let width = chunk_width::<N>();
    if count == 64 {
        put_bytes(chunk, base, 64, word);
    } else if count == width {
        put_bytes(chunk, base, width, word);
    } else {
        put_bytes(chunk, base, count, word);
    }
}
