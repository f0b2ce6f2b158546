//! The log of a historical bitmap: each call that changes what is kept as one entry, from which its state is made again.
//!
//! A historical bitmap is in memory, and a crash loses it. A program that needs it again keeps a log in a file: bytes that only grow. It changes
//! the bitmap by [`commit_logged`], [`rewind_logged`], [`drop_before_logged`], [`clear_logged`] and [`apply_delta_logged`]. Each of them makes its
//! change and appends the entry of the change to a [`Log`], or does neither. The program writes the bytes of the `Log` to its file when it wants
//! to. After a crash, any prefix of the file reads as the state after the last entry that is whole in it.
//!
//! The bytes of a log depend on its base and on the calls alone. So a replica that is sent the bytes has the same bitmap, with all its kept states.
//! If two logs have the same position and the same digest, they have the same entries, unless two inputs of the digest collide.
//!
//! The law [`a_log_goes_on`] says that a log with one more entry is the bytes of the log and the frame of the entry, and makes the state that the
//! entry makes of the state before. By the contracts of the calls, the log has exactly the state of the bitmap after each of them.
//!
//! # Examples
//!
//! A bitmap of events grows by one bit, which is committed and appended to the log:
//!
//! ```
//! ghost use Rattle.std.specs.Prelude.{◌≡◌, ◌+◌, ◌^◌, ◌<◌, OnErr, OnOk};
//! ghost use Rattle.bitmap_core.specs.PrunedBits.{bit_len, pushed};
//! ghost use Rattle.commit_log.specs.Entries.Entry.{Commit};
//! ghost use Rattle.commit_log.specs.Kept.{change_to};
//! ghost use Rattle.commit_log.specs.Logs.{appended};
//!
//! use commit_log::{Log, commit_logged};
//! use historical_bitmap::bitmap::historical::{CleanBitMap, Error};
//!
//! /// Appends an event as commit `number`, and the entry of the commit to the log. After an error both are unchanged.
//! pub fn record_event(
//!     events: CleanBitMap<32>,
//!     number: u64,
//!     happened: bool,
//!     log: &mut Log<32>,
//! ) -> (CleanBitMap<32>, Result<(), Error>)
//!     requires { bit_len 32 events.current + 1 < 2 ^ 64 }
//!     ensures recorded { OnOk result.1 (result.0.current ≡ pushed events.current happened) }
//!     ensures logged { OnOk result.1 (log.new ≡ appended log.old
//!         (Commit (change_to 32 number events.current result.0.current))) }
//!     ensures stays { OnErr result.1 (result.0 ≡ events) }
//!     ensures unlogged { OnErr result.1 (log.new ≡ log.old) }
//! {
//!     let mut batch = events.into_dirty();
//!     if let Err(error) = batch.try_push(happened) {
//!         return (batch.abort(), Err(Error::Memory(error)));
//!     }
//!     match commit_logged(batch, number, log) {
//!         Ok(events) => (events, Ok(())),
//!         Err((batch, error)) => (batch.abort(), Err(error)),
//!     }
//! }
//! ```
//!
//! The program then writes `log.bytes()` to its file, and calls `log.forget()`.
//!
//! # Format
//!
//! An entry is a tag of one byte, and its fields. A number has eight bytes, most significant byte first. `N` is the chunk size in bytes.
//!
//! | Tag | Entry | Fields |
//! |---|---|---|
//! | 1 | commit | its number, the length in bits and the number of pruned chunks after it, and for each chunk that differs its index and its `N` new bytes |
//! | 2 | rewind | the number of the commit |
//! | 3 | drop before | the first number that is not dropped |
//! | 5 | clear | none |
//!
//! A log begins with a base, which is no entry: the state before the first entry, as a bitmap and what is kept of it. It has the tag 4, a flag, the
//! last number, a count and the encoding of the bitmap. [`base_bytes`] encodes it and [`read_base`] reads it.
//!
//! The history of a bitmap is a log too: its base is the first kept state, and it has one commit for each later one. [`write_history`] writes it, and
//! [`read_history`] reads it. The law [`a_written_history_is_read`] says that what is read is what was written, and the law
//! [`a_begun_log_is_recovered`] that [`recover`] makes the same of it.
//!
//! The chunks of a commit are those that the bitmap retains after it, and that differ from the bitmap before it, ascending. Bits past the length
//! are zero. So each commit has one encoding: the law [`a_change_has_one_list`] says this.
//!
//! # Reading
//!
//! [`recover`] reads a log back. If a crash has cut a log off, it returns what the entries make that are whole in what is left: the law
//! [`any_prefix_recovers_a_state`] says that there is such a state for each prefix that has the base, and the law [`only_one_recovery`] that it
//! is the only one. If a log is damaged, the error has the position of the first damaged frame, and says what is damaged there.
//!
//! # Deltas
//!
//! A delta brings a replica from one kept state of a bitmap to a later one, without the states between them. [`delta`] writes it, and
//! [`apply_delta`] commits the later state of the replica, or changes nothing. It has the fields of a commit. In addition, it has a magic, the
//! version of the format, the width, the number, the length and the pruned count of the older state, a digest of the bytes that it replaces there,
//! and a digest of all bytes. The law [`a_replica_follows`] says that the two calls bring a replica at the older state to the newer one.
//!
//! A replica that has a log of its own applies a delta by [`apply_delta_logged`], which also appends the entry of the commit.
#![tactic(auto)]

mod apply;
mod base;
mod calls;
mod change;
mod check;
mod deltas;
mod digest;
mod entry;
mod error;
mod history;
mod laws;
mod log;
mod logged_delta;
mod reading;
mod recovery;
mod retained;
mod size;

pub use apply::apply_change;
pub use base::{BaseError, Past, base_bytes, from_base, read_base};
pub use calls::{clear_is_an_entry, commit_is_an_entry, drop_is_an_entry, rewind_is_an_entry};
pub use check::check_change;
pub use deltas::{DeltaError, apply_delta, delta};
pub use entry::{Change, DecodeError, Entry, push_chunk, read_entry};
pub use error::{ApplyError, EntryError};
pub use history::write_history;
pub use laws::{
    a_begun_log_is_recovered, a_change_has_one_list, a_change_makes_the_newer_state,
    a_compacted_log_makes_each_state, a_delta_makes_the_newer_state, a_history_has_one_state,
    a_log_goes_on, a_replica_follows, a_written_history_is_read, any_prefix_recovers_a_state,
    only_one_recovery, two_deltas_make_one,
};
pub use log::{Log, clear_logged, commit_logged, drop_before_logged, rewind_logged};
pub use logged_delta::apply_delta_logged;
pub use reading::{HistoryError, read_history};
pub use recovery::{Damage, RecoverError, Recovered, recover};
pub use size::history_size;
