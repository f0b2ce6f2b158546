//! Methods of a historical bitmap without pending edits, except those about commits.

ghost use Rattle.std.specs.Prelude.{◌≡◌, ℕ, ◌*◌, ◌/◌, ◌^◌, ◌<◌, ◌↔◌, ◌==◌, [], None, IfOk, IfErr, IsOk};
ghost use Rattle.bitmap_bytes.specs.Chunk.{IsWidth};
ghost use Rattle.bitmap_core.specs.PrunedBits.{bit_at, bit_len, chunk, IsRetained};
ghost use Rattle.historical_bitmap.specs.Pending.{unedited};
ghost use Rattle.historical_bitmap.specs.View.{marked_of, pending_of};
ghost use Rattle.historical_bitmap.specs.declared.bitmap.historical.error.Error.TheVariants.{PrunedChunksOverflow};

use crate::bitmap::historical::BitMap;
use crate::bitmap::historical::commit_list::CommitList;
use crate::bitmap::historical::error::Error;
use crate::bitmap::historical::pending::Dirty;
use crate::bitmap::historical::state::Clean;
use bitmap_core::bitmap::Prunable;
use std::alloc::Global;

impl<const N: usize> BitMap<N, Clean> {
    /// Returns an empty bitmap: no bits, no pruned chunks and no commits.
    ///
    /// `N`, the width of a chunk in bytes, has to be at least 1, and `8 * N` has to fit `u64`. Does not allocate; constant time.
    pub fn new(alloc: Global) -> Self
        requires width { IsWidth N }
        ensures { result ≡ record {
          current = record { pruned = 0; bits = [] };
          commits = [];
          last = None;
          state = tt;
        } }
    {
        Self::from_bitmap(alloc, Prunable::new(alloc))
    }

    /// Returns an empty bitmap, as `new` does, under the same conditions.
    ///
    /// Does not allocate; constant time.
    pub fn default(alloc: Global) -> Self
        requires width { IsWidth N }
        ensures { result ≡ record {
          current = record { pruned = 0; bits = [] };
          commits = [];
          last = None;
          state = tt;
        } }
    {
        Self::new(alloc)
    }

    /// Returns a bitmap with `pruned_chunks` pruned chunks, no retained bits and no commits. Its length is `8 * N * pruned_chunks` bits.
    ///
    /// `N`, the width of a chunk in bytes, has to be at least 1, and `8 * N` has to fit `u64`. Does not allocate; constant time.
    ///
    /// # Errors
    /// `PrunedChunksOverflow`, exactly if the length does not fit `u64`.
    pub fn new_with_pruned_chunks(alloc: Global, pruned_chunks: usize) -> Result<Self, Error>
        requires width { IsWidth N }
        ensures ok { IfOk result
            (λ b. b ≡ record {
              current = record { pruned = pruned_chunks; bits = [] };
              commits = [];
              last = None;
              state = tt;
            }) }
        ensures err { IfErr result (λ e. e ≡ PrunedChunksOverflow) }
        ensures exact { IsOk result ↔ (8 * N * pruned_chunks < 2 ^ 64) }
    {
        let current = Prunable::new_with_pruned_chunks(alloc, pruned_chunks)?;
        Ok(Self::from_bitmap(alloc, current))
    }

    /// Makes a historical bitmap of a bitmap, which becomes the current one. There are no commits and no last number.
    ///
    /// # Memory
    ///
    /// Does not allocate. Edits and commits of the result allocate from `alloc`.
    ///
    /// # Complexity
    ///
    /// Constant.
    pub fn from_bitmap(alloc: Global, bitmap: Prunable<N>) -> Self
        ensures { result ≡ record {
          current = bitmap.entry;
          commits = [];
          last = None;
          state = tt;
        } }
    {
        // The prover learns the width from this call.
        let _ = bitmap.len();
        BitMap {
            current: bitmap,
            commits: CommitList::new(alloc),
            last: None,
            state: Clean::new(alloc),
        }
    }

    /// Turns the bitmap into a batch with no pending edits: the pending bitmap is the current one, and no chunk is marked.
    ///
    /// Does not allocate; constant time.
    #[inline]
    pub fn into_dirty(self) -> BitMap<N, Dirty<N>>
        ensures value { result ≡ record {
          current = self.entry.current;
          commits = self.entry.commits;
          last = self.entry.last;
          state = unedited N self.entry.current;
        } }
        ensures pending { pending_of N result ≡ self.entry.current }
        ensures marks { marked_of N result ≡ [] }
    {
        let state = Dirty::new(self.state.allocator(), &self.current);
        BitMap {
            current: self.current,
            commits: self.commits,
            last: self.last,
            state,
        }
    }

    /// Returns the allocator from which edits and commits of the bitmap allocate.
    ///
    /// Does not allocate; constant time.
    pub fn allocator(&self) -> Global {
        self.state.allocator()
    }

    /// Returns the current bitmap.
    ///
    /// Does not allocate; constant time.
    pub fn current(&self) -> &Prunable<N>
        ensures { result.now ≡ self.now.current }
    {
        &self.current
    }

    /// Returns the length of the current bitmap in bits. Pruned bits count.
    ///
    /// Does not allocate; constant time.
    pub fn len(&self) -> u64
        ensures value { result ≡ bit_len N self.now.current }
        ensures width { IsWidth N }
        ensures bound { bit_len N self.now.current < 2 ^ 64 }
    {
        self.current.len()
    }

    /// Returns whether the length of the current bitmap is 0. A bitmap with pruned bits is not empty.
    ///
    /// Does not allocate; constant time.
    pub fn is_empty(&self) -> bool
        ensures { result ≡ (bit_len N self.now.current == 0) }
    {
        self.current.is_empty()
    }

    /// Returns the number of pruned chunks of the current bitmap.
    ///
    /// Does not allocate; constant time.
    pub fn pruned_chunks(&self) -> usize
        ensures { result ≡ self.now.current.pruned }
    {
        self.current.pruned_chunks()
    }

    /// Returns the bit of the current bitmap at the absolute position `bit`, which has to be retained.
    ///
    /// Does not allocate; constant time.
    pub fn get_bit(&self, bit: u64) -> bool
        requires { IsRetained N self.now.current bit }
        ensures { result ≡ bit_at N self.now.current bit }
    {
        self.current.get_bit(bit)
    }

    /// Returns the bytes of the chunk of the current bitmap that contains the absolute position `bit`, which has to be retained.
    ///
    /// Bits of the chunk past the length are zero. Does not allocate; constant time.
    pub fn get_chunk_containing(&self, bit: u64) -> &[u8; N]
        requires { IsRetained N self.now.current bit }
        ensures { result.now ≡ chunk N self.now.current (bit / (8 * N)) }
    {
        self.current.get_chunk_containing(bit)
    }
}
