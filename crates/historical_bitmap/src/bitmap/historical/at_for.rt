//! Past states that are read in the way that costs least for the bits to be read.

ghost use Rattle.std.specs.Prelude.{◌≡◌, ◌-◌, ◌^◌, IfSome, None, Some};
ghost use Rattle.bitmap_bytes.specs.Chunk.{IsWidth};
ghost use Rattle.bitmap_core.specs.Meaning.{pruned_meaning};
ghost use Rattle.historical_bitmap.specs.History.{kept_under};
ghost use Rattle.historical_bitmap.specs.Past.{bitmap_of};
ghost use Rattle.historical_bitmap.specs.View.{history_of};

use crate::bitmap::historical::at::AtCommit;
use crate::bitmap::historical::commit_list::{SEARCH_IN_INDEX, entries_between};
use crate::bitmap::historical::gathered::Gathered;
use crate::bitmap::historical::{BitMap, Clean};
use bitmap_core::bitmap::Readable;
use bitmap_core::bitmap::prunable::Prunable;
use bitmap_core::chunk::chunk_width;
use std::marker::Model;

// A way in which a past state is read.
#[derive(Drop)]
enum Way<'a, const N: usize> {
    // By a search for each chunk.
    Searched(AtCommit<'a, N>),
    // With the chunks that later commits changed gathered first.
    Gathered(Gathered<'a, N>),
    // As a bitmap of its own.
    Built(Prunable<N>),
}

/// The bitmap at a kept commit, read in one of three ways: as an `AtCommit`, as a `Gathered`, or as
/// a bitmap of its own.
///
/// It is a `Readable`, and its methods do not allocate. `CleanBitMap::at_for` returns it.
///
/// # Memory
///
/// That of a `Gathered`, that of a bitmap of its own, or none.
///
/// # Complexity
///
/// That of the way in which it is read.
#[derive(Drop)]
pub struct PastBitMap<'a, const N: usize> {
    way: Way<'a, N>,
}

impl<'a, const N: usize> Model for PastBitMap<'a, N> {
    ghost use Rattle.bitmap_core.specs.PrunedBits.{PrunedBits};
    ghost use Rattle.historical_bitmap.specs.Past.{bitmap_of};

    ghost Value = { PrunedBits };

    ghost view = { λ p. bitmap_of p.way };
}

// Costs are estimates, as `SEARCH_IN_INDEX` is, and have its unit.

// The cost of gathering an entry, and of reading the version around its chunk.
const GATHERED_ENTRY: u64 = 16;

// The cost of undoing a record without entries.
const UNDONE_RECORD: u64 = 5;

// The cost of undoing an entry of a record.
const UNDONE_ENTRY: u64 = 1;

// The bits that are copied at the cost of one.
const COPIED_BITS: u64 = 1024;

// Returns the cost of building a version that retains so many bits, with so many later commits
// that have so many entries.
fn building_cost(retained: u64, later: u64, entries: u64) -> u64 {
    let records = later.saturating_mul(UNDONE_RECORD);
    let undone = records.saturating_add(entries.saturating_mul(UNDONE_ENTRY));
    undone.saturating_add(retained / COPIED_BITS)
}

impl<const N: usize> BitMap<N, Clean> {
    /// Returns the bitmap at commit `number`, for reads of about `bits` bits.
    ///
    /// Returns `None` if that commit is not kept. `u64::MAX` is never kept. It is the same state
    /// that `at`, `gathered` and `get_at_commit` return.
    ///
    /// For few bits, it reads as `at` does. For more, it reads as `gathered` does, or builds the
    /// version as `get_at_commit` does, if the time of that and of the reads is estimated to be
    /// less. `bits` changes the cost, and nothing else: any bits of the version may be read.
    ///
    /// # Memory
    ///
    /// Allocates what a `Gathered` has, or what `get_at_commit` allocates, or nothing. If an
    /// allocation fails, it reads as `at` does.
    ///
    /// # Complexity
    ///
    /// A search among the kept commits. If the estimated time of reading `bits` bits as `at` does
    /// is more than one step for each later commit, then also a visit of each later commit. If it
    /// gathers or builds, also the time of `gathered` or of `get_at_commit`, which is then
    /// estimated to be below that of reading the bits as `at` does.
    pub fn at_for(&self, number: u64, bits: u64) -> Option<PastBitMap<'_, N>>
        ensures value { result ≡ kept_under (history_of N self.now) number }
        ensures reserved { kept_under (history_of N self.now) (2 ^ 64 - 1) ≡ None }
        ensures width { IsWidth N }
    {
        let searched = self.at(number)?;
        let way = match self.cheaper_way(&searched, number, bits) {
            Some(way) => way,
            None => Way::Searched(searched),
        };
        Some(PastBitMap { way })
    }

    // Returns a way to read some bits of a version that is estimated to cost less than a search for
    // each chunk. Returns `None` if there is none, or if an allocation fails.
    fn cheaper_way(&self, version: &AtCommit<'_, N>, number: u64, bits: u64) -> Option<Way<'_, N>>
        requires { kept_under (history_of N self.now) number ≡ Some version.now }
        ensures { IfSome result (λ way. bitmap_of way ≡ version.now) }
    {
        let retained = version.len().saturating_sub(version.pruned_bits());
        let past = self.commits.past(number);
        let later = (self.commits.len() - past) as u64;
        let search = match self.commits.index() {
            Some(_) => SEARCH_IN_INDEX,
            None => later.saturating_add(1),
        };
        let searching = (bits.min(retained) / chunk_width::<N>()).saturating_mul(search);
        // The entries are counted only if that takes less than the searches.
        if searching <= later {
            return None;
        }
        let entries = entries_between(&self.commits, past, self.commits.len());
        let gathering = entries.saturating_mul(GATHERED_ENTRY);
        let building = building_cost(retained, later, entries);
        if searching <= gathering.min(building) {
            None
        } else if gathering <= building {
            self.gathered_way(number)
        } else {
            self.built_way(number)
        }
    }

    // Returns the bitmap at a commit with the chunks that later commits changed gathered, or `None`
    // if an allocation fails.
    fn gathered_way(&self, number: u64) -> Option<Way<'_, N>>
        ensures { IfSome result
            (λ way. kept_under (history_of N self.now) number ≡ Some (bitmap_of way)) }
    {
        match self.gathered(number) {
            Ok(Some(gathered)) => Some(Way::Gathered(gathered)),
            _ => None,
        }
    }

    // Returns the bitmap at a commit as a bitmap of its own, or `None` if an allocation fails.
    fn built_way(&self, number: u64) -> Option<Way<'_, N>>
        ensures { IfSome result
            (λ way. kept_under (history_of N self.now) number ≡ Some (bitmap_of way)) }
    {
        match self.get_at_commit(number) {
            Ok(Some(built)) => Some(Way::Built(built)),
            _ => None,
        }
    }
}

impl<'a, const N: usize> Readable<N> for PastBitMap<'a, N> {
    ghost meaning = { pruned_meaning N };

    fn complete_chunks(&self) -> usize {
        match &self.way {
            Way::Searched(version) => version.complete_chunks(),
            Way::Gathered(version) => version.complete_chunks(),
            Way::Built(version) => Readable::complete_chunks(version),
        }
    }

    fn get_chunk(&self, chunk: usize) -> [u8; N] {
        match &self.way {
            Way::Searched(version) => version.get_chunk(chunk),
            Way::Gathered(version) => version.get_chunk(chunk),
            Way::Built(version) => Readable::get_chunk(version, chunk),
        }
    }

    fn last_chunk(&self) -> ([u8; N], u64) {
        match &self.way {
            Way::Searched(version) => version.last_chunk(),
            Way::Gathered(version) => version.last_chunk(),
            Way::Built(version) => Readable::last_chunk(version),
        }
    }

    // The slices of the gathered or built bitmap, if there is one.
    fn chunks_around(&self, chunk: usize) -> (&[[u8; N]], usize) {
        match &self.way {
            Way::Searched(version) => version.chunks_around(chunk),
            Way::Gathered(version) => version.chunks_around(chunk),
            Way::Built(version) => Readable::chunks_around(version, chunk),
        }
    }

    fn pruned_chunks(&self) -> usize {
        match &self.way {
            Way::Searched(version) => version.pruned_chunks(),
            Way::Gathered(version) => version.pruned_chunks(),
            Way::Built(version) => Readable::pruned_chunks(version),
        }
    }

    fn len(&self) -> u64 {
        match &self.way {
            Way::Searched(version) => version.len(),
            Way::Gathered(version) => version.len(),
            Way::Built(version) => Readable::len(version),
        }
    }
}
