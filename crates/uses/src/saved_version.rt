//! A version that is saved as bytes, and kept again after a restart.

ghost use Rattle.std.specs.Prelude.{◌≡◌, ◌∷◌, [], IfOk};
ghost use Rattle.std.specs.Option.{option_map};
ghost use Rattle.bitmap_core.specs.Encoding.{pruned_encoding};
ghost use Rattle.historical_bitmap.specs.History.{kept_under};
ghost use Rattle.historical_bitmap.specs.View.{history_of};

use bitmap_core::bitmap::Prunable;
use bitmap_core::bitmap::codec::Write;
use historical_bitmap::bitmap::historical::{CleanBitMap, DirtyBitMap, Error};
use std::alloc::{AllocError, Global};

/// Returns the encoding of a version, or `None` if that version is not kept.
pub fn version_bytes(
    alloc: Global,
    versions: &CleanBitMap<8>,
    number: u64,
) -> Result<Option<Vec<u8>>, AllocError>
    ensures { IfOk result (λ found.
        option_map (λ bytes. bytes.items) found
        ≡ option_map (pruned_encoding 8) (kept_under (history_of 8 versions.now) number)) }
{
    let Some(version) = versions.get_at_commit(number)? else {
        return Ok(None);
    };
    let mut bytes = Vec::new(alloc);
    version.write(&mut bytes)?;
    Ok(Some(bytes))
}

/// Makes a historical bitmap of a version that was decoded, and keeps it under its number.
pub fn reopened(
    alloc: Global,
    version: Prunable<8>,
    number: u64,
) -> Result<CleanBitMap<8>, (DirtyBitMap<8>, Error)>
    ensures { IfOk result (λ versions. history_of 8 versions ≡ (number, version) ∷ []) }
{
    CleanBitMap::from_bitmap(alloc, version)
        .into_dirty()
        .commit(number)
}

#[cfg(test)]
mod tests {
    use super::*;
    use crate::checks::{equal, ok};
    use crate::exchange::from_bytes;

    #[test]
    fn keeps_each_saved_version_again(rt: HostRuntime) {
        let mut batch = CleanBitMap::<8>::new(rt.alloc()).into_dirty();
        ok(&rt, batch.try_push(true));
        let mut batch = ok(&rt, batch.commit(3)).into_dirty();
        assert!(rt; batch.len() < 1000);
        ok(&rt, batch.try_push(false));
        let versions = ok(&rt, batch.commit(5));
        let Some(bytes) = ok(&rt, version_bytes(rt.alloc(), &versions, 3)) else {
            panic!(rt; "version 3 is not kept");
        };
        let version = ok(&rt, from_bytes(rt.alloc(), bytes.as_slice()));
        let same = ok(&rt, reopened(rt.alloc(), version, 3));
        equal(&rt, (same.len(), same.latest_commit()), (1, Some(3)));
        assert!(rt; ok(&rt, version_bytes(rt.alloc(), &versions, 4)).is_none());
    }
}
