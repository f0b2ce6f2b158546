//! A store of versions whose commits are indexed, so that each version is read at the cost of a search.

ghost use Rattle.std.specs.Prelude.{◌≡◌, ◌++◌, ◌∷◌, [], IfErr, IfOk, Some, length};
ghost use Rattle.std.specs.Option.{option_map};
ghost use Rattle.bitmap_core.specs.Meaning.{ones, pruned_meaning};
ghost use Rattle.bitmap_core.specs.PrunedBits.{pushed};
ghost use Rattle.historical_bitmap.specs.History.{from_number, kept_under, up_to_number};
ghost use Rattle.historical_bitmap.specs.View.{history_of};

use historical_bitmap::bitmap::Readable;
use historical_bitmap::bitmap::historical::CleanBitMap;
use std::alloc::{AllocError, Global};
use std::marker::Model;
use std::ops::Range;

/// Versions of flags, each kept under a number.
///
/// Their index belongs to the bitmap, which keeps it up to date. `drop_index` frees its memory: then versions are read without it,
/// until `restore_index` succeeds.
#[derive(Drop)]
pub struct VersionStore {
    versions: CleanBitMap<8>,
}

impl Model for VersionStore {
    ghost use Rattle.std.specs.Prelude.{⊤};
    ghost use Rattle.historical_bitmap.specs.View.{View};

    ghost Value = { View ⊤ };

    ghost view = { λ s. s.versions };
}

// Appends a flag, and keeps the result as version `number`. On an error the versions are returned unchanged.
fn appended(
    versions: CleanBitMap<8>,
    flag: bool,
    number: u64,
) -> Result<CleanBitMap<8>, CleanBitMap<8>>
    ensures kept { IfOk result
        (λ more. history_of 8 more
        ≡ history_of 8 versions ++ (number, pushed versions.current flag) ∷ []) }
    ensures unchanged { IfErr result (λ same. same ≡ versions) }
{
    if versions.len() == u64::MAX {
        return Err(versions);
    }
    let result = versions.apply_batch(number, |batch| -> Result<(), AllocError> {
        batch.push(flag)?;
        Ok(())
    });
    match result {
        Ok(more) => Ok(more),
        Err((same, _)) => Err(same),
    }
}

impl VersionStore {
    /// Returns a store of no flags and no versions.
    pub fn new(alloc: Global) -> Result<Self, AllocError>
        ensures { IfOk result (λ s. history_of 8 s ≡ []) }
    {
        match CleanBitMap::new(alloc).indexed() {
            Ok(versions) => Ok(VersionStore { versions }),
            Err((_, why)) => Err(why),
        }
    }

    /// Appends a flag, and keeps the result as version `number`.
    ///
    /// On an error the store is returned unchanged: the number is not above the last one, or memory or the length is exhausted.
    pub fn append(self, flag: bool, number: u64) -> Result<Self, Self>
        ensures kept { IfOk result
            (λ s. history_of 8 s ≡ history_of 8 self ++ (number, pushed self.current flag) ∷ []) }
        ensures unchanged { IfErr result (λ s. s ≡ self) }
    {
        match appended(self.versions, flag, number) {
            Ok(versions) => Ok(VersionStore { versions }),
            Err(versions) => Err(VersionStore { versions }),
        }
    }

    /// Rewinds to version `number`, and drops the later ones.
    ///
    /// On an error the store is returned unchanged: the version is not kept, or memory is exhausted.
    pub fn rewind(self, number: u64) -> Result<Self, Self>
        ensures back { IfOk result (λ s. kept_under (history_of 8 self) number ≡ Some s.current) }
        ensures kept { IfOk result (λ s. history_of 8 s ≡ up_to_number number (history_of 8 self)) }
        ensures unchanged { IfErr result (λ s. s ≡ self) }
    {
        match self.versions.rewind_to(number) {
            Ok(versions) => Ok(VersionStore { versions }),
            Err((versions, _)) => Err(VersionStore { versions }),
        }
    }

    /// Drops the index, which frees its memory.
    pub fn drop_index(self) -> Self
        ensures { result ≡ self }
    {
        VersionStore {
            versions: self.versions.without_index(),
        }
    }

    /// Makes the index anew, if it is absent. On an error the store is returned unchanged.
    pub fn restore_index(self) -> Result<Self, Self>
        ensures ok { IfOk result (λ s. s ≡ self) }
        ensures unchanged { IfErr result (λ s. s ≡ self) }
    {
        match self.versions.indexed() {
            Ok(versions) => Ok(VersionStore { versions }),
            Err((versions, _)) => Err(VersionStore { versions }),
        }
    }

    /// Drops the versions whose numbers are below `number`.
    pub fn drop_before(&mut self, number: u64)
        ensures { history_of 8 self.new ≡ from_number number (history_of 8 self.old) }
    {
        let _ = self.versions.prune_commits_before(number);
    }

    /// Returns how many flags of a version are set in a range, or `None` if that version is not kept.
    pub fn count(&self, number: u64, range: Range<u64>) -> Option<usize>
        ensures { result ≡ option_map
            (λ version. length (ones 8 (pruned_meaning 8 version) range.start range.end))
            (kept_under (history_of 8 self.now) number) }
    {
        let version = self.versions.at(number)?;
        Some(version.ones_iter_range(range).count())
    }
}

#[cfg(test)]
mod tests {
    use super::*;
    use crate::checks::equal;
    use std::process::Abort;

    // Returns the store, and fails the test if the call failed.
    fn stored<E: Drop>(rt: &impl Abort, returned: Result<VersionStore, E>) -> VersionStore {
        match returned {
            Ok(store) => store,
            Err(_) => panic!(rt; "the call failed"),
        }
    }

    #[test]
    fn counts_the_flags_of_each_version(rt: HostRuntime) {
        let store = stored(&rt, VersionStore::new(rt.alloc()));
        let store = stored(&rt, store.append(true, 1));
        let store = stored(&rt, store.append(false, 2));
        let mut store = stored(&rt, store.append(true, 5));
        equal(&rt, store.count(1, 0..9), Some(1));
        equal(&rt, store.count(2, 0..9), Some(1));
        equal(&rt, store.count(5, 0..9), Some(2));
        store.drop_before(2);
        equal(&rt, store.count(1, 0..9), None);
        equal(&rt, store.count(2, 0..9), Some(1));
    }

    #[test]
    fn rewinds_and_makes_the_index_anew(rt: HostRuntime) {
        let store = stored(&rt, VersionStore::new(rt.alloc()));
        let store = stored(&rt, store.append(true, 1));
        let store = stored(&rt, store.append(true, 2));
        let store = stored(&rt, store.rewind(1));
        equal(&rt, store.count(2, 0..9), None);
        let store = stored(&rt, store.append(false, 2));
        equal(&rt, store.count(2, 0..9), Some(1));
        let store = store.drop_index();
        equal(&rt, store.count(1, 0..9), Some(1));
        let store = stored(&rt, store.restore_index());
        equal(&rt, store.count(1, 0..9), Some(1));
        equal(&rt, store.count(2, 0..9), Some(1));
    }
}
