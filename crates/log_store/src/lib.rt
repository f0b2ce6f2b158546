//! A store: a historical bitmap whose commits are kept on a device.
#![tactic(auto)]

mod appending;
mod buffered;
mod compacting;
mod cutting;
mod device;
mod encoding;
mod error;
mod file;
mod gate;
mod laws;
mod memory;
mod opening;
mod reading;
mod recovering;
mod replacing;
mod setting;
mod store;
mod stored_log;
mod unfinished;
mod waiting;

pub use appending::append_synced;
pub use buffered::{BufferedBatch, BufferedStore};
pub use cutting::cut_synced;
pub use device::{Device, DeviceError};
pub use error::StoreError;
pub use file::{FileDevice, FileError};
pub use laws::{
    a_clear_goes_on, a_commit_goes_on, a_compaction_begins_no_state,
    a_compaction_if_grown_begins_no_state, a_compaction_is_opened, a_crash_is_opened,
    a_crash_keeps_what_is_kept, a_drop_goes_on, a_prefix_is_opened, a_rewind_goes_on,
    a_sequence_is_opened, a_sync_is_opened, any_prefix_is_a_torn_log, calls_are_a_sequence,
    calls_in_a_row, sequences_in_a_row, waiting_writes_nothing,
};
pub use memory::MemoryDevice;
pub use opening::{CreateError, OpenError};
pub use replacing::{Replaceable, replace_synced};
pub use setting::set_synced;
pub use store::{Store, StoreBatch};
pub use stored_log::StoredLog;
