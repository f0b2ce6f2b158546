//! The loads of words by an iterator over set positions. Each is counted.

ghost use Rattle.std.specs.Prelude.{◌≡◌, ℕ, ◌+◌, ◌*◌, ◌%◌, ◌^◌, ◌<◌, ◌≤◌, ◌==◌, true, false};
ghost use Rattle.std.specs.Int.{bit_at};
ghost use Rattle.bitmap_bytes.specs.Chunk.{chunk_bit, is_wanted, IsWidth};
ghost use Rattle.bitmap_bytes.specs.Words.{starts_word, IsCut};

use crate::chunk::load::wanted_below;

// The wanted bits of the word at `base` of its chunk, with zeros past the end of the chunk and from `end` on. Counts one load.
pub(crate) fn load_word<const N: usize>(
    chunk: &[u8; N],
    base: u64,
    end: u64,
    wanted: bool,
    loads: &mut u64,
) -> u64
    requires width { IsWidth N }
    requires start { starts_word N base ≡ true }
    requires below { base < end }
    requires space { loads.old + 1 < 2 ^ 64 }
    ensures inside { (i : ℕ) → i < 64 → base + i < end → base % (8 * N) + i < 8 * N
        → (bit_at result i == 1) ≡ is_wanted wanted (chunk_bit N chunk.now (base % (8 * N) + i)) }
    ensures past_chunk { (i : ℕ) → i < 64 → 8 * N ≤ base % (8 * N) + i
        → (bit_at result i == 1) ≡ false }
    ensures past_end { IsCut base result end }
    ensures counted { loads.new ≡ loads.old + 1 }
{
    *loads += 1;
    wanted_below(chunk, base, end, wanted)
}
