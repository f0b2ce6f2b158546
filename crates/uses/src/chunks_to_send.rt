//! The number of chunks that bring a copy of a bitmap from one version to another.

ghost use Rattle.std.specs.Prelude.{◌≡◌, length};
ghost use Rattle.std.specs.Option.{option_map};
ghost use Rattle.historical_bitmap.specs.Changes.{changed_between};
ghost use Rattle.historical_bitmap.specs.View.{history_of};

use historical_bitmap::bitmap::historical::CleanBitMap;

/// Returns how many chunks differ between two versions, or `None` unless both are kept and `from` is at most `to`.
pub fn chunks_to_send<const N: usize>(
    versions: &CleanBitMap<N>,
    from: u64,
    to: u64,
) -> Option<usize>
    ensures { result ≡ option_map (λ chunks. length chunks)
        (changed_between N (history_of N versions.now) from to) }
{
    let changes = versions.changed_chunks(from, to)?;
    Some(changes.count())
}

#[cfg(test)]
mod tests {
    use super::*;
    use crate::checks::equal;
    use std::process::Abort;

    // Appends a byte and commits.
    fn with_byte(
        rt: &impl Abort,
        versions: CleanBitMap<1>,
        byte: u8,
        number: u64,
    ) -> CleanBitMap<1> {
        let mut edits = versions.into_dirty();
        assert!(rt; edits.len() < 1000);
        assert!(rt; edits.push_byte(byte).is_ok());
        match edits.commit(number) {
            Ok(versions) => versions,
            Err(_) => panic!(rt; "commit {number} failed"),
        }
    }

    #[test]
    fn counts_the_chunks_that_differ(rt: HostRuntime) {
        let versions = with_byte(&rt, CleanBitMap::new(rt.alloc()), 0x5d, 1);
        let versions = with_byte(&rt, versions, 0x03, 2);
        let versions = with_byte(&rt, versions, 0x00, 4);
        equal(&rt, chunks_to_send(&versions, 1, 4), Some(2));
        equal(&rt, chunks_to_send(&versions, 2, 2), Some(0));
        equal(&rt, chunks_to_send(&versions, 4, 1), None);
        equal(&rt, chunks_to_send(&versions, 1, 3), None);
    }
}
