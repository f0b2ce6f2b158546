//! `Readable` for dense bitmaps.

ghost use Rattle.std.specs.Prelude.{◌≤◌};
ghost use Rattle.std.specs.List.{filter, range_with_len};
ghost use Rattle.bitmap_core.specs.Meaning.{words_between};

use crate::bitmap::BitMap;
use crate::bitmap::readable::{OnesIter, Readable};
use crate::chunk::{chunk_index, chunk_width};

impl<const N: usize> Readable<N> for BitMap<N> {
    ghost use Rattle.bitmap_core.specs.Meaning.{plain_meaning};

    ghost meaning = { plain_meaning };

    fn complete_chunks(&self) -> usize {
        chunk_index::<N>(self.len())
    }

    fn get_chunk(&self, chunk: usize) -> [u8; N] {
        self.chunks[chunk]
    }

    fn last_chunk(&self) -> ([u8; N], u64) {
        let last = self.len() - 1;
        let used = last % chunk_width::<N>() + 1;
        (self.chunks[chunk_index::<N>(last)], used)
    }

    fn chunks_around(&self, chunk: usize) -> (&[[u8; N]], usize) {
        let _ = self.len();
        self.slice_around(chunk)
    }

    fn pruned_chunks(&self) -> usize {
        let _ = self.len();
        0
    }

    fn len(&self) -> u64 {
        BitMap::len(self)
    }
}
