//! A bitmap with all its versions as one value: saved as bytes, and loaded again.

ghost use Rattle.std.specs.Prelude.{◌≡◌, IfOk, IfSome, IsSomeAnd, MatchResult, OnOk, alloc_error};
ghost use Rattle.commit_log.specs.History.{HasLog, IsHistory, history_bytes};
ghost use Rattle.commit_log.specs.Kept.{Kept, kept_of};
ghost use Rattle.commit_log.specs.declared.reading.HistoryError.TheVariants.{Memory};

use bitmap_core::bitmap::codec::RangeCfg;
use commit_log::{HistoryError, read_history, write_history};
use historical_bitmap::bitmap::historical::CleanBitMap;
use std::alloc::{AllocError, Global};

/// Returns the history of a bitmap: its current bits, its versions and its last number.
pub fn save(alloc: Global, versions: &CleanBitMap<8>) -> Result<Vec<u8>, AllocError>
    ensures bytes { IfOk result (λ bytes. bytes.items ≡ history_bytes 8 (kept_of 8 versions.now)) }
    ensures log { OnOk result (HasLog 8 (kept_of 8 versions.now)) }
    ensures ends { IsHistory (kept_of 8 versions.now) }
{
    let mut bytes = Vec::new(alloc);
    write_history(versions, &mut bytes)?;
    Ok(bytes)
}

/// Makes the bitmap of which the bytes are the history. Returns `None` if other bytes follow the history.
pub fn load(alloc: Global, bytes: &[u8]) -> Result<Option<CleanBitMap<8>>, HistoryError>
    ensures whole { IfOk result (λ found. IfSome found
        (λ versions. bytes.now ≡ history_bytes 8 (kept_of 8 versions))) }
    ensures same { (saved : Kept) → HasLog 8 saved → IsHistory saved
        → bytes.now ≡ history_bytes 8 saved → MatchResult result
        (λ found. IsSomeAnd found (λ versions. kept_of 8 versions ≡ saved))
        (λ error. error ≡ Memory alloc_error) }
{
    let mut rest = bytes;
    let any = RangeCfg::any();
    let versions = read_history(alloc, &mut rest, &any, &any)?;
    if !rest.is_empty() {
        return Ok(None);
    }
    Ok(Some(versions))
}

#[cfg(test)]
mod tests {
    use super::*;
    use crate::checks::{equal, ok, with_bit};
    use crate::old_version::count_in_version;
    use std::process::Abort;

    // Returns the bitmap that is loaded.
    fn loaded(rt: &impl Abort, alloc: Global, bytes: &[u8]) -> CleanBitMap<8> {
        match ok(rt, load(alloc, bytes)) {
            Some(versions) => versions,
            None => panic!(rt; "bytes follow the history"),
        }
    }

    // The header has 32 bytes, and the first version 66. The second one changes no byte of a chunk, and has 49. The third one has 65.
    #[test]
    fn brings_each_version_back(rt: HostRuntime) {
        let versions = with_bit(&rt, CleanBitMap::new(rt.alloc()), true, 3);
        let versions = with_bit(&rt, versions, false, 4);
        let versions = with_bit(&rt, versions, true, 7);
        let bytes = ok(&rt, save(rt.alloc(), &versions));
        equal(&rt, bytes.len(), 212);
        let same = loaded(&rt, rt.alloc(), &bytes);
        equal(&rt, (same.len(), same.latest_commit()), (3, Some(7)));
        equal(&rt, count_in_version(&same, 3, 0..9), Some(1));
        equal(&rt, count_in_version(&same, 4, 0..9), Some(1));
        equal(&rt, count_in_version(&same, 7, 0..9), Some(2));
        equal(&rt, same.commits().count(), 3);
    }

    #[test]
    fn brings_the_last_number_back(rt: HostRuntime) {
        let mut versions = with_bit(&rt, CleanBitMap::new(rt.alloc()), true, 3);
        versions.clear_history();
        let bytes = ok(&rt, save(rt.alloc(), &versions));
        let same = loaded(&rt, rt.alloc(), &bytes);
        equal(&rt, (same.len(), same.last_number()), (1, Some(3)));
        equal(&rt, same.latest_commit(), None);
    }

    #[test]
    fn is_the_whole_of_the_bytes(rt: HostRuntime) {
        let versions = with_bit(&rt, CleanBitMap::new(rt.alloc()), true, 3);
        let mut bytes = ok(&rt, save(rt.alloc(), &versions));
        ok(&rt, bytes.push(0));
        assert!(rt; ok(&rt, load(rt.alloc(), &bytes)).is_none());
        bytes.truncate(97);
        assert!(rt; matches!(load(rt.alloc(), &bytes), Err(HistoryError::Short)));
    }
}
