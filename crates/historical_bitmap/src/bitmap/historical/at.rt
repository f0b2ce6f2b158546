//! Past states that are read in place, without a bitmap of their own.

ghost use Rattle.std.specs.Prelude.{◌≡◌, ℕ, ◌-◌, ◌^◌, drop, [], IfErr, IfOk, IsOk, None, option_copied, option_map, slice_get};
ghost use Rattle.bitmap_bytes.specs.Chunk.{IsWidth};
ghost use Rattle.bitmap_core.specs.Meaning.{pruned_meaning, ShowsChunk};
ghost use Rattle.bitmap_core.specs.PrunedBits.{IsRetainedChunk};
ghost use Rattle.historical_bitmap.specs.History.{EntriesRise, first_kept as first_kept_of, IsLeftBy, kept_under, left_by, past_number, RiseInNumber};
ghost use Rattle.historical_bitmap.specs.View.{history_of};

use crate::bitmap::historical::commit_list::CommitList;
use crate::bitmap::historical::record::CommitDiff;
use crate::bitmap::historical::{BitMap, Clean, CleanBitMap};
use bitmap_core::bitmap::Readable;
use bitmap_core::chunk::{chunk_index, chunk_width};
use std::alloc::AllocError;
use std::marker::Model;

/// The bitmap at a kept commit, read in place: a chunk is searched for in the reverse records of later commits, then in the current bitmap.
///
/// It is a `Readable`, and its methods do not allocate. `CleanBitMap::at` returns it.
///
/// # Complexity
/// `len` and `pruned_chunks`: constant.
/// A read of a chunk if the bitmap is indexed: a search that visits at most 16 nodes of a trie, and then one that is logarithmic in the
/// kept commits that changed the chunk, however many other commits are kept.
/// Else: one binary search per reverse record past the commit, until one keeps the chunk.
///
/// To read a few bits, this is cheaper than the other ways. To read many bits of a state with many
/// commits after it, an index helps (`CleanBitMap::indexed`), or `CleanBitMap::gathered`: it makes one
/// pass over the later records first, and then each chunk costs at most one search. `get_at_commit`
/// also copies the current bitmap, and then each read takes constant time.
#[derive(Drop)]
pub struct AtCommit<'a, const N: usize> {
    of: &'a BitMap<N, Clean>,
    number: u64,
    // The position of the first commit past the number.
    past: usize,
    len: u64,
    pruned: usize,
}

impl<'a, const N: usize> Model for AtCommit<'a, N> {
    ghost use Rattle.std.specs.Prelude.{◌≡◌, drop};
    ghost use Rattle.bitmap_core.specs.PrunedBits.{PrunedBits};
    ghost use Rattle.historical_bitmap.specs.History.{IsLeftBy, left_by, past_number};

    ghost Value = { PrunedBits };

    ghost view = { λ a. left_by N a.number a.of.now.commits a.of.now.current };

    ghost invariant = { λ a. IsLeftBy N a.number a.of.now.commits a.of.now.current a.len a.pruned
        × (drop a.past a.of.now.commits ≡ past_number a.number a.of.now.commits) };
}

// Returns the first reverse record from a position on.
fn first_record<const N: usize>(commits: &CommitList<N>, first: usize) -> Option<&CommitDiff<N>>
    ensures { option_copied result
        ≡ option_map (λ commit. commit.1) (slice_get (drop first commits.now) 0) }
{
    if first >= commits.len() {
        return None;
    }
    let (_, record) = commits.commit(first);
    Some(record)
}

// Returns the old bytes of a chunk from the first record from a position on that keeps any.
fn first_kept<const N: usize>(
    commits: &CommitList<N>,
    first: usize,
    chunk: usize,
) -> Option<&[u8; N]>
    requires { EntriesRise (drop first commits.now) }
    ensures { option_copied result ≡ first_kept_of (drop first commits.now) chunk }
{
    for position in first..commits.len() {
        let (_, record) = commits.commit(position);
        if let Some(bytes) = record.kept(chunk) {
            return Some(bytes);
        }
    }
    None
}

// Returns the old bytes of a chunk from the first record past a number that keeps any: by a search in the index, if there is one.
// The first commit past the number is at position `past`.
fn kept_past<const N: usize>(
    commits: &CommitList<N>,
    number: u64,
    past: usize,
    chunk: usize,
) -> Option<&[u8; N]>
    requires width { IsWidth N }
    requires rise { RiseInNumber commits.now }
    requires past { drop past commits.now ≡ past_number number commits.now }
    requires entries { EntriesRise (past_number number commits.now) }
    ensures { option_copied result ≡ first_kept_of (past_number number commits.now) chunk }
{
    match commits.index() {
        Some(rows) => rows.next_past(chunk, number),
        None => first_kept(commits, past, chunk),
    }
}

impl<const N: usize> BitMap<N, Clean> {
    /// Adds an index of the kept commits, with which `at` finds a chunk of any of them without a search in each later reverse record.
    ///
    /// The bitmap is indexed from then on: commits, `rewind_to`, `prune_commits_before` and `clear_history` keep the index up to date,
    /// and a clone has a copy of it. So a commit of an indexed bitmap also allocates space in the index for it, and fails as a whole
    /// if that fails. Nothing else that a call returns depends on the index: an indexed bitmap equals the same one without.
    /// If the bitmap is indexed already, it is returned as it is.
    ///
    /// # Errors
    ///
    /// `AllocError` if an allocation fails, or if more than 2^31 - 1 chunks have old bytes in the kept records. The bitmap is returned unchanged
    /// with the error, without an index.
    ///
    /// # Memory
    ///
    /// Allocates the index: one entry per chunk whose old bytes a kept reverse record has, with these bytes and the number of the commit.
    /// The entries of a chunk are in a row of its own, and a trie has one key per row. Chunks that a commit added have no old bytes.
    /// Does not allocate if no commit is kept.
    ///
    /// # Complexity
    ///
    /// Per kept commit, constant; per entry of the kept reverse records, at most two searches, each of which visits at most 16 nodes. Amortized.
    pub fn indexed(mut self) -> Result<CleanBitMap<N>, (CleanBitMap<N>, AllocError)>
        ensures ok { IfOk result (λ b. b ≡ self.entry) }
        ensures unchanged { IfErr result (λ e. e.0 ≡ self.entry) }
        ensures none { self.entry.commits ≡ [] → IsOk result }
    {
        let _ = self.current.len();
        let alloc = self.state.allocator();
        match self.commits.add_index(alloc) {
            Ok(()) => Ok(self),
            Err(why) => Err((self, why)),
        }
    }

    /// Drops the index of the kept commits, if there is one. `at` reads without it from then on.
    ///
    /// # Memory
    ///
    /// Does not allocate. Frees the index.
    ///
    /// # Complexity
    ///
    /// Linear in the entries of the index.
    pub fn without_index(mut self) -> CleanBitMap<N>
        ensures { result ≡ self.entry }
    {
        self.commits.drop_index();
        self
    }

    /// Returns the bitmap at commit `number`, to be read in place, or `None` if that commit is not kept. `u64::MAX` is never kept.
    ///
    /// It is the same state that `get_at_commit` returns as a bitmap of its own. Does not allocate.
    ///
    /// # Complexity
    /// A search among the kept commits: logarithmic in them. `AtCommit` says what a read costs.
    ///
    /// # Examples
    /// The number of bits of a past state that are set in a range:
    ///
    /// ```
    /// ghost use Rattle.std.specs.Prelude.{◌≡◌, length};
    /// ghost use Rattle.std.specs.Option.{option_map};
    /// ghost use Rattle.bitmap_core.specs.Meaning.{ones, pruned_meaning};
    /// ghost use Rattle.historical_bitmap.specs.History.{kept_under};
    /// ghost use Rattle.historical_bitmap.specs.View.{history_of};
    ///
    /// use historical_bitmap::bitmap::Readable;
    /// use historical_bitmap::bitmap::historical::CleanBitMap;
    /// use std::ops::Range;
    ///
    /// /// Returns how many bits of a version are set in a range, or `None` if that version is not kept.
    /// pub fn count_in_version<const N: usize>(
    ///     versions: &CleanBitMap<N>,
    ///     number: u64,
    ///     range: Range<u64>,
    /// ) -> Option<usize>
    ///     ensures { result ≡ option_map (λ version. length (ones N (pruned_meaning N version) range.start range.end)) (kept_under (history_of N versions.now) number) }
    /// {
    ///     let version = versions.at(number)?;
    ///     Some(version.ones_iter_range(range).count())
    /// }
    /// ```
    pub fn at(&self, number: u64) -> Option<AtCommit<'_, N>>
        ensures value { result ≡ kept_under (history_of N self.now) number }
        ensures reserved { kept_under (history_of N self.now) (2 ^ 64 - 1) ≡ None }
        ensures width { IsWidth N }
    {
        let _ = self.current.len();
        if !self.commit_exists(number) {
            return None;
        }
        let past = self.commits.past(number);
        let (len, pruned) = self.extent_before(past);
        Some(AtCommit {
            of: self,
            number,
            past,
            len,
            pruned,
        })
    }

    // Returns the length and the number of pruned chunks that the commits before position `past`
    // left. If that is the position of the first commit past a number, they are those that the last
    // commit up to the number left.
    pub(crate) fn extent_before(&self, past: usize) -> (u64, usize)
        ensures { (number : ℕ) → drop past self.now.commits ≡ past_number number self.now.commits
            → IsLeftBy N number self.now.commits self.now.current result.0 result.1 }
    {
        match first_record(&self.commits, past) {
            Some(record) => (record.len(), record.pruned_chunks()),
            None => (self.current.len(), self.current.pruned_chunks()),
        }
    }

    // Returns a chunk that the last commit up to a number left. The first commit past the number is at position `past`.
    // Bits past the length at that commit may have any value.
    fn chunk_at(&self, number: u64, past: usize, chunk: usize) -> [u8; N]
        requires past { drop past self.now.commits ≡ past_number number self.now.commits }
        requires retained { IsRetainedChunk N
            (left_by N number self.now.commits self.now.current) chunk }
        ensures { ShowsChunk N (pruned_meaning N
            (left_by N number self.now.commits self.now.current)) chunk result }
    {
        let _ = self.current.len();
        let kept = kept_past(&self.commits, number, past, chunk);
        self.kept_or_current(number, chunk, kept)
    }

    // Returns that chunk: the old bytes from the first record past the number that keeps any, else the chunk of the current bitmap.
    pub(crate) fn kept_or_current(
        &self,
        number: u64,
        chunk: usize,
        kept: Option<&[u8; N]>,
    ) -> [u8; N]
        requires retained { IsRetainedChunk N
            (left_by N number self.now.commits self.now.current) chunk }
        requires kept { option_copied kept
            ≡ first_kept_of (past_number number self.now.commits) chunk }
        ensures { ShowsChunk N (pruned_meaning N
            (left_by N number self.now.commits self.now.current)) chunk result }
    {
        let _ = self.current.len();
        match kept {
            Some(bytes) => *bytes,
            None => *self.current.get_chunk(chunk),
        }
    }
}

impl<'a, const N: usize> Readable<N> for AtCommit<'a, N> {
    ghost meaning = { pruned_meaning N };

    fn complete_chunks(&self) -> usize {
        chunk_index::<N>(self.len)
    }

    fn get_chunk(&self, chunk: usize) -> [u8; N] {
        self.of.chunk_at(self.number, self.past, chunk)
    }

    fn last_chunk(&self) -> ([u8; N], u64) {
        let last = self.len - 1;
        let chunk = self
            .of
            .chunk_at(self.number, self.past, chunk_index::<N>(last));
        (chunk, last % chunk_width::<N>() + 1)
    }

    fn pruned_chunks(&self) -> usize {
        let _ = self.len();
        self.pruned
    }

    fn len(&self) -> u64 {
        self.len
    }
}
