//! Bitmaps that are sent as bytes, and bytes from a stranger that are decoded.

ghost use Rattle.std.specs.Prelude.{◌≡◌, IfOk};
ghost use Rattle.bitmap_core.specs.Encoding.{pruned_encoding};

use bitmap_core::bitmap::Prunable;
use bitmap_core::bitmap::codec::{CodecError, RangeCfg, Read, Write};
use std::alloc::{AllocError, Global};

/// Returns the encoding of a bitmap.
pub fn to_bytes(alloc: Global, bitmap: &Prunable<8>) -> Result<Vec<u8>, AllocError>
    ensures { IfOk result (λ bytes. bytes.items ≡ pruned_encoding 8 bitmap.now) }
{
    let mut bytes = Vec::new(alloc);
    bitmap.write(&mut bytes)?;
    Ok(bytes)
}

/// Decodes a bitmap of at most 4096 retained bits. The input has to be its encoding, with nothing after it.
pub fn from_bytes(alloc: Global, input: &[u8]) -> Result<Prunable<8>, CodecError>
    ensures { IfOk result (λ bitmap. input.now ≡ pruned_encoding 8 bitmap) }
{
    let mut rest = input;
    let bitmap = Prunable::read_cfg(alloc, &mut rest, &RangeCfg::at_most(4096))?;
    if !rest.is_empty() {
        return Err(CodecError::Invalid("Prunable", "bytes after the bitmap"));
    }
    Ok(bitmap)
}

#[cfg(test)]
mod tests {
    use super::*;
    use crate::checks::equal;
    use bitmap_core::bitmap::Readable;

    #[test]
    fn decodes_what_was_sent(rt: HostRuntime) -> Result<(), CodecError> {
        let mut bitmap = Prunable::<8>::new(rt.alloc());
        bitmap.push_byte(5).map_err(|_| CodecError::OutOfMemory)?;
        let mut bytes = to_bytes(rt.alloc(), &bitmap).map_err(|_| CodecError::OutOfMemory)?;
        equal(&rt, bytes.len(), 24);
        let same = from_bytes(rt.alloc(), bytes.as_slice())?;
        equal(&rt, (same.len(), same.prev_one(8)), (8, Some(2)));
        bytes.push(0).map_err(|_| CodecError::OutOfMemory)?;
        assert!(rt;
            matches!(
                from_bytes(rt.alloc(), bytes.as_slice()),
                Err(CodecError::Invalid(_, _))
            )
        );
        assert!(rt;
            matches!(
                from_bytes(rt.alloc(), &[0; 15]),
                Err(CodecError::EndOfBuffer)
            )
        );
        Ok(())
    }
}
