//! `Readable` for bitmaps with a pruned prefix.

use crate::bitmap::prunable::Prunable;
use crate::bitmap::readable::Readable;

impl<const N: usize> Readable<N> for Prunable<N> {
    ghost use Rattle.bitmap_core.specs.Meaning.{pruned_meaning};

    ghost meaning = { pruned_meaning N };

    fn complete_chunks(&self) -> usize {
        Prunable::complete_chunks(self)
    }

    fn get_chunk(&self, chunk: usize) -> [u8; N] {
        let _ = Prunable::len(self);
        *Prunable::get_chunk(self, chunk)
    }

    fn last_chunk(&self) -> ([u8; N], u64) {
        let _ = Prunable::len(self);
        let (chunk, used) = Prunable::last_chunk(self);
        (*chunk, used)
    }

    fn chunks_around(&self, chunk: usize) -> (&[[u8; N]], usize) {
        let _ = Prunable::len(self);
        self.slice_around(chunk)
    }

    fn pruned_chunks(&self) -> usize {
        let _ = Prunable::len(self);
        Prunable::pruned_chunks(self)
    }

    fn len(&self) -> u64 {
        Prunable::len(self)
    }
}
