//! A caller that uses a law.

ghost use Rattle.std.specs.Prelude.{◌≡◌, ◌+◌, ◌^◌, ◌<◌, length};

use bitmap_core::bitmap::BitMap;
use bitmap_core::laws::whole::push_then_pop;
use std::alloc::AllocError;

/// Leaves the bitmap as it was, by the law `push_then_pop`.
pub fn tried<const N: usize>(bitmap: &mut BitMap<N>) -> Result<bool, AllocError>
    requires { length bitmap.old + 1 < 2 ^ 64 }
    ensures { bitmap.new ≡ bitmap.old }
{
    push_then_pop(bitmap, true)
}

#[cfg(test)]
mod tests {
    use super::*;
    use crate::checks::equal;

    #[test]
    fn returns_its_bit(rt: HostRuntime) -> Result<(), AllocError> {
        let mut bitmap = BitMap::<3>::zeroes(rt.alloc(), 24)?;
        assert!(rt; tried(&mut bitmap)?);
        equal(&rt, bitmap.len(), 24);
        Ok(())
    }
}
