//! A past version of a bitmap, read in place.

ghost use Rattle.std.specs.Prelude.{◌≡◌, length};
ghost use Rattle.std.specs.Option.{option_map};
ghost use Rattle.bitmap_core.specs.Meaning.{ones, pruned_meaning};
ghost use Rattle.historical_bitmap.specs.History.{kept_under};
ghost use Rattle.historical_bitmap.specs.View.{history_of};

use historical_bitmap::bitmap::Readable;
use historical_bitmap::bitmap::historical::CleanBitMap;
use std::ops::Range;

/// Returns how many bits of a version are set in a range, or `None` if that version is not kept.
pub fn count_in_version<const N: usize>(
    versions: &CleanBitMap<N>,
    number: u64,
    range: Range<u64>,
) -> Option<usize>
    ensures { result ≡ option_map
        (λ version. length (ones N (pruned_meaning N version) range.start range.end))
        (kept_under (history_of N versions.now) number) }
{
    let version = versions.at(number)?;
    Some(version.ones_iter_range(range).count())
}

#[cfg(test)]
mod tests {
    use super::*;
    use crate::checks::equal;
    use std::process::Abort;

    // Appends a byte and commits.
    fn with_byte(
        rt: &impl Abort,
        versions: CleanBitMap<8>,
        byte: u8,
        number: u64,
    ) -> CleanBitMap<8> {
        let mut edits = versions.into_dirty();
        assert!(rt; edits.len() < 1000);
        assert!(rt; edits.push_byte(byte).is_ok());
        match edits.commit(number) {
            Ok(versions) => versions,
            Err(_) => panic!(rt; "commit {number} failed"),
        }
    }

    #[test]
    fn counts_no_bit_of_a_later_version(rt: HostRuntime) {
        let versions = with_byte(&rt, CleanBitMap::new(rt.alloc()), 0x5d, 1);
        let versions = with_byte(&rt, versions, 0x03, 2);
        equal(&rt, count_in_version(&versions, 1, 2..16), Some(4));
        equal(&rt, count_in_version(&versions, 2, 2..16), Some(6));
        equal(&rt, count_in_version(&versions, 3, 2..16), None);
    }
}
