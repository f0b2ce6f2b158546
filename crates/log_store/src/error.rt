//! Errors of stores.

use crate::device::DeviceError;
use historical_bitmap::bitmap::historical::Error;
use std::alloc::AllocError;
use thiserror::Error as ErrorDerive;

/// Why a call did not change a store.
#[derive(Clone, Copy, Debug, PartialEq, Eq, ErrorDerive)]
pub enum StoreError {
    /// An earlier call failed after it had begun to write. The store is read-only until it is opened again.
    #[error("the store is read-only until it is opened again")]
    ReadOnly,

    /// The number of a commit is reserved, or it is not above the last number. Nothing was written.
    #[error("{0}")]
    Number(Error),

    /// No commit is kept under the number of a rewind. Nothing was written.
    #[error("no commit is kept under this number")]
    NoSuchCommit,

    /// An allocation failed, or the entry is too long: its frame would have 2^56 bytes or more, or the log 2^64. Nothing was written.
    #[error("out of memory")]
    Memory(AllocError),

    /// The device failed or ran out of memory. The entry may be kept or not. The store is read-only from now on.
    #[error("the entry was not written: {0}")]
    Device(DeviceError),

    /// The entry is kept, and then an allocation failed. The store is read-only from now on, and has the entry when it is opened again.
    #[error("the entry is kept, and was not applied: out of memory")]
    NotApplied(AllocError),
}
