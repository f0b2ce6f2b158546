//! A past version of a bitmap, of which all chunks are read.

ghost use Rattle.std.specs.Prelude.{◌≡◌, IfOk};
ghost use Rattle.std.specs.Option.{option_map};
ghost use Rattle.bitmap_core.specs.Meaning.{pruned_meaning};
ghost use Rattle.bitmap_core.specs.Searches.{ones_count};
ghost use Rattle.historical_bitmap.specs.History.{kept_under};
ghost use Rattle.historical_bitmap.specs.View.{history_of};

use historical_bitmap::bitmap::Readable;
use historical_bitmap::bitmap::historical::CleanBitMap;
use std::alloc::AllocError;

/// Returns how many bits of a version are set, or `None` if that version is not kept.
pub fn population_of_version<const N: usize>(
    versions: &CleanBitMap<N>,
    number: u64,
) -> Result<Option<u64>, AllocError>
    ensures { IfOk result (λ count.
        count ≡ option_map (λ version. ones_count N (pruned_meaning N version) 0
        (pruned_meaning N version).len) (kept_under (history_of N versions.now) number)) }
{
    let Some(version) = versions.gathered(number)? else {
        return Ok(None);
    };
    Ok(Some(version.count_ones_range(0..version.len())))
}

#[cfg(test)]
mod tests {
    use super::*;
    use crate::checks::equal;
    use std::process::Abort;

    // Appends a byte and commits.
    fn with_byte(
        rt: &impl Abort,
        versions: CleanBitMap<8>,
        byte: u8,
        number: u64,
    ) -> CleanBitMap<8> {
        let mut edits = versions.into_dirty();
        assert!(rt; edits.len() < 1000);
        assert!(rt; edits.push_byte(byte).is_ok());
        match edits.commit(number) {
            Ok(versions) => versions,
            Err(_) => panic!(rt; "commit {number} failed"),
        }
    }

    #[test]
    fn counts_the_bits_of_each_version(rt: HostRuntime) {
        let versions = with_byte(&rt, CleanBitMap::new(rt.alloc()), 0x5d, 1);
        let versions = with_byte(&rt, versions, 0x03, 2);
        equal(&rt, population_of_version(&versions, 1), Ok(Some(5)));
        equal(&rt, population_of_version(&versions, 2), Ok(Some(7)));
        equal(&rt, population_of_version(&versions, 3), Ok(None));
    }
}
