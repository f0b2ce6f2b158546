//! A `Readable` type of your own: eight bits in one chunk of one byte.

ghost use Rattle.std.specs.Prelude.{[], ◌∷◌};
ghost use Rattle.bitmap_bytes.specs.Chunk.{chunk_bit};

use bitmap_core::bitmap::Readable;

/// Eight bits, the lowest first.
#[derive(Drop)]
pub struct Byte(u8);

impl Readable<1> for Byte {
    ghost meaning = { λ b. record { pruned = 0; len = 8; bit = chunk_bit 1 (b.0 ∷ []) } };

    fn complete_chunks(&self) -> usize {
        1
    }

    fn get_chunk(&self, _chunk: usize) -> [u8; 1] {
        [self.0]
    }

    fn last_chunk(&self) -> ([u8; 1], u64) {
        ([self.0], 8)
    }

    fn pruned_chunks(&self) -> usize {
        0
    }

    fn len(&self) -> u64 {
        8
    }
}

#[cfg(test)]
mod tests {
    use super::*;

    #[test]
    fn shows_its_bits(rt: HostRuntime) {
        let byte = Byte(0b1010_0001);
        assert!(rt; byte.ones_iter_from(0).eq([0, 5, 7].iter().copied()));
    }
}
