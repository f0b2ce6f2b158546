//! The error of the constructor `new_with_pruned_chunks`.

use thiserror::Error as ErrorDerive;

/// The error that `Prunable::new_with_pruned_chunks` returns.
#[derive(Clone, Copy, Debug, PartialEq, Eq, ErrorDerive)]
pub enum Error {
    /// The number of pruned bits does not fit `u64`.
    #[error("pruned_chunks * CHUNK_SIZE_BITS overflows u64")]
    PrunedChunksOverflow,
}
