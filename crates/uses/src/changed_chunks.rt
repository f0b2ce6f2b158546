//! The chunks in which two versions differ, and those that a batch would change.

ghost use Rattle.std.specs.Prelude.{◌≡◌, IfOk};
ghost use Rattle.historical_bitmap.specs.Changes.{changed};
ghost use Rattle.historical_bitmap.specs.View.{pending_of};

use historical_bitmap::bitmap::historical::{CleanBitMap, DirtyBitMap};
use std::alloc::{AllocError, Global};

/// Returns the indices of the chunks that a batch would change.
pub fn chunks_to_change<const N: usize>(
    alloc: Global,
    batch: &DirtyBitMap<N>,
) -> Result<Vec<usize>, AllocError>
    ensures { IfOk result (λ chunks.
        chunks.items ≡ changed N batch.now.current (pending_of N batch.now)) }
{
    batch.changed_chunks().collect(alloc)
}

/// Returns whether two versions have the same bytes in a chunk. If one of them is not kept, returns true.
pub fn same_chunk<const N: usize>(
    versions: &CleanBitMap<N>,
    from: u64,
    to: u64,
    chunk: usize,
) -> bool {
    if let Some(changes) = versions.changed_chunks(from, to) {
        for index in changes {
            if index == chunk {
                return false;
            }
        }
    }
    true
}

#[cfg(test)]
mod tests {
    use super::*;
    use crate::checks::equal;
    use std::process::Abort;

    // Fails unless exactly these chunks differ.
    fn expect_listed(
        rt: &impl Abort,
        alloc: Global,
        versions: &CleanBitMap<1>,
        from: u64,
        to: u64,
        wanted: &[usize],
    ) {
        let Some(changes) = versions.changed_chunks(from, to) else {
            panic!(rt; "a version is not kept");
        };
        let Ok(chunks) = changes.collect(alloc) else {
            panic!(rt; "out of memory");
        };
        let chunks: Vec<usize> = chunks;
        assert!(rt; chunks.as_slice() == wanted, "from {from} to {to}");
    }

    // Appends a byte and commits.
    fn with_byte(
        rt: &impl Abort,
        versions: CleanBitMap<1>,
        byte: u8,
        number: u64,
    ) -> CleanBitMap<1> {
        let mut edits = versions.into_dirty();
        assert!(rt; edits.len() < 1000);
        assert!(rt; edits.push_byte(byte).is_ok());
        match edits.commit(number) {
            Ok(versions) => versions,
            Err(_) => panic!(rt; "commit {number} failed"),
        }
    }

    // Writes a bit and commits.
    fn with_bit(
        rt: &impl Abort,
        versions: CleanBitMap<1>,
        bit: u64,
        value: bool,
        number: u64,
    ) -> CleanBitMap<1> {
        let mut edits = versions.into_dirty();
        assert!(rt; edits.pruned_chunks() == 0);
        assert!(rt; bit < edits.len());
        assert!(rt; edits.set_bit(bit, value).is_ok());
        match edits.commit(number) {
            Ok(versions) => versions,
            Err(_) => panic!(rt; "commit {number} failed"),
        }
    }

    #[test]
    fn lists_the_chunks_between_versions(rt: HostRuntime) {
        let alloc = rt.alloc();
        let versions = with_byte(&rt, CleanBitMap::new(alloc), 0x5d, 1);
        let versions = with_byte(&rt, versions, 0x03, 2);
        let versions = with_byte(&rt, versions, 0x00, 4);
        // The bit is set already, so no chunk differs.
        let versions = with_bit(&rt, versions, 0, true, 5);
        let versions = with_bit(&rt, versions, 9, false, 6);
        let versions = with_bit(&rt, versions, 9, true, 9);
        expect_listed(&rt, alloc, &versions, 1, 2, &[1]);
        expect_listed(&rt, alloc, &versions, 1, 4, &[1, 2]);
        expect_listed(&rt, alloc, &versions, 4, 5, &[]);
        expect_listed(&rt, alloc, &versions, 5, 6, &[1]);
        expect_listed(&rt, alloc, &versions, 5, 9, &[]);
        expect_listed(&rt, alloc, &versions, 1, 9, &[1, 2]);
        expect_listed(&rt, alloc, &versions, 9, 9, &[]);
        equal(&rt, same_chunk(&versions, 1, 6, 0), true);
    }
}
