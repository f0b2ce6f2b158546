//! Errors of historical bitmaps.

use bitmap_core::bitmap::prunable;
use std::alloc::AllocError;
use thiserror::Error as ErrorDerive;

/// The error of a constructor, which is `PrunedChunksOverflow`, or of a commit, which is any other.
#[derive(Clone, Copy, Debug, PartialEq, Eq, ErrorDerive)]
pub enum Error {
    /// The commit's number is not above the last number.
    #[error("commit number ({attempted}) is not above the previous one ({previous})")]
    NonMonotonicCommit {
        /// The last number: the number last committed or rewound to, even if its commit is not kept.
        previous: u64,
        /// The number of the commit that failed.
        attempted: u64,
    },

    /// The commit's number is `u64::MAX`, which is reserved.
    #[error("the commit number u64::MAX is reserved")]
    ReservedCommitNumber,

    /// The number of pruned bits does not fit `u64`.
    #[error("pruned_chunks * CHUNK_SIZE_BITS overflows u64")]
    PrunedChunksOverflow,

    /// An allocation failed.
    #[error("out of memory")]
    Memory(AllocError),
}

/// The error of `rewind_to`.
#[derive(Clone, Copy, Debug, PartialEq, Eq, ErrorDerive)]
pub enum RewindError {
    /// No commit is kept under the number.
    #[error("no commit is kept under that number")]
    NoSuchCommit,

    /// An allocation failed.
    #[error("out of memory")]
    Memory(AllocError),
}

impl From<AllocError> for Error {
    ghost use Rattle.std.specs.Prelude.{◌≡◌};
    ghost use Rattle.historical_bitmap.specs.declared.bitmap.historical.error.Error.TheVariants.{Memory};

    ghost from_gives = { λ e r. r ≡ Memory e };

    fn from(error: AllocError) -> Error {
        Error::Memory(error)
    }
}

impl From<prunable::Error> for Error {
    ghost use Rattle.std.specs.Prelude.{◌≡◌};
    ghost use Rattle.historical_bitmap.specs.declared.bitmap.historical.error.Error.TheVariants.{PrunedChunksOverflow};

    ghost from_gives = { λ _ r. r ≡ PrunedChunksOverflow };

    fn from(_error: prunable::Error) -> Error {
        Error::PrunedChunksOverflow
    }
}

/// The error of `apply_batch`.
#[derive(Debug, Drop)]
pub enum ApplyError<E> {
    /// The closure returned `Err` with this error. Nothing was committed.
    Batch(E),

    /// The commit failed with this error.
    Commit(Error),
}
