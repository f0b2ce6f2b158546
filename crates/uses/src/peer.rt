//! What a peer lacks, from bitmaps of what each side has.

ghost use Rattle.std.specs.Prelude.{◌≡◌, ◌&&◌, ◌||◌, not, true, length, map, IfNone, IfOk, IfSome};
ghost use Rattle.std.specs.List.{list_all, zip};

use bitmap_core::bitmap::BitMap;
use std::alloc::AllocError;

/// Returns a bitmap of what we have and the peer lacks, or `None` if it lacks nothing.
pub fn missing_at_peer(
    ours: &BitMap<8>,
    theirs: &BitMap<8>,
) -> Result<Option<BitMap<8>>, AllocError>
    requires { length ours.now ≡ length theirs.now }
    ensures some { IfOk result
        (λ found. IfSome found (λ missing.
        missing ≡ map (λ p. p.0 && not p.1) (zip ours.now theirs.now))) }
    ensures none { IfOk result
        (λ found. IfNone found (list_all (λ p. not p.0 || p.1) (zip ours.now theirs.now) ≡ true)) }
{
    if ours.is_subset(theirs) {
        return Ok(None);
    }
    let missing = (ours - theirs)?;
    Ok(Some(missing))
}

#[cfg(test)]
mod tests {
    use super::*;
    use crate::checks::equal;

    #[test]
    fn finds_what_is_missing(rt: HostRuntime) -> Result<(), AllocError> {
        let ours = BitMap::<8>::from_bools(rt.alloc(), &[true, true, false, true])?;
        let theirs = BitMap::<8>::from_bools(rt.alloc(), &[true, false, true, true])?;
        assert!(rt; ours.len() == theirs.len());
        let Some(missing) = missing_at_peer(&ours, &theirs)? else {
            panic!(rt; "the peer lacks position 1");
        };
        equal(
            &rt,
            missing.to_bools()?.as_slice(),
            &[false, true, false, false],
        );
        equal(&rt, missing_at_peer(&theirs, &theirs)?.is_none(), true);
        Ok(())
    }
}
