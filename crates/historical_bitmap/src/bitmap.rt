//! Bitmaps: those of `bitmap_core`, re-exported, and bitmaps with a history of commits, in `historical`.

pub mod historical;

pub use bitmap_core::bitmap::{
    BitMap, DEFAULT_CHUNK_SIZE, Iterator, OnesIter, Prunable, Readable, codec, prunable, readable,
};
