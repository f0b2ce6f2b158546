//! `Readable` for batches: a batch is read as its pending bitmap.

ghost use Rattle.bitmap_core.specs.Meaning.{pruned_meaning, ShowsChunk};
ghost use Rattle.bitmap_core.specs.PrunedBits.{IsRetainedChunk};
ghost use Rattle.historical_bitmap.specs.View.{pending_of};

use crate::bitmap::historical::{BitMap, Dirty, DirtyBitMap};
use bitmap_core::bitmap::Readable;
use bitmap_core::chunk::{chunk_index, chunk_width};

impl<const N: usize> BitMap<N, Dirty<N>> {
    // Returns a copy of a retained chunk of the pending bitmap, by its index.
    fn pending_chunk(&self, index: usize) -> [u8; N]
        requires { IsRetainedChunk N (pending_of N self.now) index }
        ensures { ShowsChunk N (pruned_meaning N (pending_of N self.now)) index result }
    {
        let _ = DirtyBitMap::<N>::len(self);
        self.state.chunk(&self.current, index)
    }
}

impl<const N: usize> Readable<N> for BitMap<N, Dirty<N>> {
    ghost meaning = { λ b. pruned_meaning N (pending_of N b) };

    fn complete_chunks(&self) -> usize {
        chunk_index::<N>(DirtyBitMap::<N>::len(self))
    }

    fn get_chunk(&self, chunk: usize) -> [u8; N] {
        self.pending_chunk(chunk)
    }

    fn last_chunk(&self) -> ([u8; N], u64) {
        let last = DirtyBitMap::<N>::len(self) - 1;
        let chunk = self.pending_chunk(chunk_index::<N>(last));
        (chunk, last % chunk_width::<N>() + 1)
    }

    fn pruned_chunks(&self) -> usize {
        let _ = DirtyBitMap::<N>::len(self);
        DirtyBitMap::<N>::pruned_chunks(self)
    }

    fn len(&self) -> u64 {
        DirtyBitMap::<N>::len(self)
    }
}
