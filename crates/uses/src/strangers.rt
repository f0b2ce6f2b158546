//! Input from a stranger, and what is wrong with it.

ghost use Rattle.std.specs.Prelude.{◌≡◌, ◌++◌, IfOk, OnErr};
ghost use Rattle.bitmap_core.specs.Encoding.{encoding};

use bitmap_core::bitmap::BitMap;
use bitmap_core::bitmap::codec::{CodecError, RangeCfg, Read};
use std::alloc::Global;

/// Why no bitmap was accepted.
#[derive(Debug, PartialEq, Eq, Drop)]
pub enum Refusal {
    /// The bytes end too early: more have to come.
    Incomplete,
    /// The bitmap has this many bits, which is too many.
    TooLong(u64),
    /// The bytes are no encoding of a bitmap. The text says why.
    Broken(&'static str),
    /// An allocation failed. The bytes can be tried again.
    NoMemory,
}

/// Takes a bitmap of at most 4096 bits from the start of the bytes, and leaves those after it. On an error it leaves all bytes.
pub fn accept(alloc: Global, bytes: &mut &[u8]) -> Result<BitMap<8>, Refusal>
    ensures taken { IfOk result (λ map. bytes.old.now ≡ encoding 8 map ++ bytes.new.now) }
    ensures refused { OnErr result (bytes.new ≡ bytes.old) }
{
    match BitMap::read_cfg(alloc, bytes, &RangeCfg::at_most(4096)) {
        Ok(map) => Ok(map),
        Err(CodecError::EndOfBuffer) => Err(Refusal::Incomplete),
        Err(CodecError::InvalidLength(bits)) => Err(Refusal::TooLong(bits)),
        Err(CodecError::Invalid(_, why)) => Err(Refusal::Broken(why)),
        Err(CodecError::OutOfMemory) => Err(Refusal::NoMemory),
    }
}

#[cfg(test)]
mod tests {
    use super::*;
    use crate::checks::equal;

    #[test]
    fn returns_each_error(rt: HostRuntime) {
        let mut from = [0, 0, 0, 0, 0, 0, 0, 1, 1, 0, 0, 0, 0, 0, 0, 0, 9].as_slice();
        assert!(rt; accept(rt.alloc(), &mut from).is_ok());
        equal(&rt, from, [9].as_slice());
        equal(
            &rt,
            accept(rt.alloc(), &mut from).err(),
            Some(Refusal::Incomplete),
        );
        let mut from = [0, 0, 0, 0, 0, 0, 16, 1].as_slice();
        equal(
            &rt,
            accept(rt.alloc(), &mut from).err(),
            Some(Refusal::TooLong(4097)),
        );
        let mut from = [0, 0, 0, 0, 0, 0, 0, 1, 2, 0, 0, 0, 0, 0, 0, 0].as_slice();
        equal(
            &rt,
            accept(rt.alloc(), &mut from).err(),
            Some(Refusal::Broken("Invalid trailing bits in encoded data")),
        );
    }
}
