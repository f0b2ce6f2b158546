//! Bitmaps that are encoded and decoded.

use bitmap_core::bitmap::BitMap;
use bitmap_core::bitmap::codec::{CodecError, RangeCfg, Read, Write};
use std::alloc::{AllocError, Global};

/// Returns the encoding of a bitmap.
pub fn sent(alloc: Global, map: &BitMap<4>) -> Result<Vec<u8>, AllocError> {
    let mut bytes = Vec::new(alloc);
    map.write(&mut bytes)?;
    Ok(bytes)
}

/// Reads a bitmap of at most 1000 bits, and returns it with the number of bytes after it.
pub fn received(alloc: Global, bytes: &[u8]) -> Result<(BitMap<4>, usize), CodecError> {
    let mut from = bytes;
    let map = BitMap::<4>::read_cfg(alloc, &mut from, &RangeCfg::at_most(1000))?;
    Ok((map, from.len()))
}

#[cfg(test)]
mod tests {
    use super::*;
    use crate::checks::equal;

    #[test]
    fn receives_what_was_sent(rt: HostRuntime) -> Result<(), CodecError> {
        let map = BitMap::<4>::ones(rt.alloc(), 33).map_err(|_| CodecError::OutOfMemory)?;
        let bytes = sent(rt.alloc(), &map).map_err(|_| CodecError::OutOfMemory)?;
        equal(&rt, bytes.len(), 16);
        let (same, left) = received(rt.alloc(), bytes.as_slice())?;
        assert!(rt; same == map && left == 0);
        Ok(())
    }
}
