//! Stores that are created, and opened again.

ghost use Rattle.std.specs.Prelude.{◌≡◌, ℕ, ◌<◌, [], ◌∷◌, ◌++◌, List, false, true, length, IfErr, IfOk, MatchResult, OnOk};
ghost use Rattle.bitmap_bytes.specs.Chunk.{IsWidth};
ghost use Rattle.commit_log.specs.Base.{Base};
ghost use Rattle.commit_log.specs.Entries.{Entry};
ghost use Rattle.commit_log.specs.History.{HasLog, IsHistory, history_bytes, history_place};
ghost use Rattle.commit_log.specs.Kept.{kept_of};
ghost use Rattle.commit_log.specs.Logs.{IsLog};
ghost use Rattle.log_store.specs.Device.{IsFailed};
ghost use Rattle.log_store.specs.Gate.{closed};
ghost use Rattle.log_store.specs.Moments.{IsAtRest, LeavesOnly};
ghost use Rattle.log_store.specs.Opened.{IsBegun, IsNewStore, IsPassing, LeavesUncreated, LeavesUnopened, Opens, OpensTo, empty_base};
ghost use Rattle.log_store.specs.Store.{IsStored, IsTornLog};

use crate::appending::append_synced;
use crate::device::{Device, DeviceError};
use crate::gate::{CLOSED, append_gated, first_and_rest, shut};
use crate::reading::read_at_rest;
use crate::recovering::{place_after, recover_left};
use crate::store::Store;
use crate::stored_log::StoredLog;
use commit_log::{Log, RecoverError};
use historical_bitmap::bitmap::historical::CleanBitMap;
use log_frames::Place;
use std::alloc::{AllocError, Global};
use thiserror::Error as ErrorDerive;

/// Why a store was not created.
#[derive(Clone, Copy, Debug, PartialEq, Eq, ErrorDerive)]
pub enum CreateError {
    /// The device has bytes. It was not written to.
    #[error("the device is not empty")]
    NotEmpty,

    /// An allocation for the log failed. The device was not written to.
    #[error("out of memory")]
    Memory(AllocError),

    /// The device failed or ran out of memory. It may have some first bytes of a log.
    #[error("{0}")]
    Device(DeviceError),
}

/// Why a store was not opened.
#[derive(Debug, Drop, ErrorDerive)]
pub enum OpenError {
    /// The bytes of the device are not recovered. The device was not written to.
    #[error("{0}")]
    Log(RecoverError),

    /// The device failed or ran out of memory.
    #[error("{0}")]
    Device(DeviceError),
}

// Returns the bytes of the log of a bitmap, with a closed gate after them, and the place after the log.
pub(crate) fn whole_log<const N: usize>(
    alloc: Global,
    bitmap: &CleanBitMap<N>,
) -> Result<(Vec<u8>, Place), AllocError>
    ensures bytes { IfOk result (λ log. log.0.items
        ≡ history_bytes N (kept_of N bitmap.now) ++ closed ∷ []) }
    ensures place { IfOk result (λ log. log.1 ≡ history_place N (kept_of N bitmap.now)) }
    // They are a log, which makes the bitmap again.
    ensures log { OnOk result (HasLog N (kept_of N bitmap.now)) }
    ensures ends { IsHistory (kept_of N bitmap.now) }
{
    let mut log = Log::begin(alloc, bitmap)?;
    let place = place_after(&log);
    let mut bytes = log.take();
    bytes.push(CLOSED)?;
    Ok((bytes, place))
}

// Writes bytes to an empty device, behind a gate.
fn write_first<D: Device>(device: &mut D, bytes: &[u8]) -> Result<(), DeviceError>
    ensures written { IsAtRest D.Device device.old → D.seen device.old ≡ []
        → OnOk result (IsAtRest D.Device device.new × (D.seen device.new ≡ bytes.now)) }
    ensures any_moment { IsAtRest D.Device device.old → D.seen device.old ≡ []
        → LeavesOnly D.Device device.old device.new (IsBegun bytes.now) }
    ensures works { D.behaves device.old → D.behaves device.new }
    ensures failed { D.behaves device.old
        → IfErr result (λ e. IsFailed e → D.faults device.old < D.faults device.new) }
{
    let Some((first, rest)) = first_and_rest(bytes) else {
        return Err(DeviceError::Memory(AllocError));
    };
    append_synced(device, &[CLOSED])?;
    append_gated(device, 0, first, rest)
}

// Returns whether there is a byte.
fn has_bytes(bytes: &[u8]) -> bool
    ensures none { result ≡ false → bytes.now ≡ [] }
    ensures some { result ≡ true → 0 < length bytes.now }
{
    !bytes.is_empty()
}

impl<const N: usize, D: Device> Store<N, D> {
    /// Begins a store with an empty bitmap on an empty device, and returns once its log is kept. `N` is at least 1, and `8N` fits `u64`.
    ///
    /// The device is at rest, as one that was not used since it was opened: a crash leaves what a read returns. If a crash cuts the call off, the
    /// device has the whole store, or bytes that begin with no header of a log: then [`open`](Store::open) reports `Header(Short)` or
    /// `Header(NotALog)`, nothing was acknowledged, and a store can be created on another device or once these bytes are removed.
    ///
    /// # Errors
    /// Returns the device with the first error that applies:
    ///
    /// - `Device` if the read of the device fails, also because it runs out of memory. The device was not written to.
    /// - `NotEmpty` if the device has bytes. It was not written to.
    /// - `Memory` if an allocation for the log fails. The device was not written to.
    /// - `Device` if a write or a sync of the device fails, also because it runs out of memory.
    ///
    /// # Memory
    /// Temporarily the bytes of the log, and what the calls of the device allocate.
    ///
    /// # Complexity
    /// One read, two appends, one byte set and three syncs of the device.
    pub fn create(alloc: Global, device: D) -> Result<Store<N, D>, (D, CreateError)>
        requires { IsWidth N }
        // The log has no entry, and is kept.
        ensures created { IsAtRest D.Device device → IfOk result (λ store.
            IsStored N D.Device empty_base [] 0 (kept_of N store.bitmap) store.log) }
        ensures written { IfOk result (λ store. store.log.is_read_only ≡ false) }
        ensures empty { IsAtRest D.Device device → OnOk result (D.seen device ≡ []) }
        ensures refused { IsAtRest D.Device device
            → IfErr result (λ e. LeavesUncreated D.Device device e.1 e.0) }
        // A crash at any moment of the call leaves the whole store, or no header of a log.
        ensures any_moment { IsAtRest D.Device device → D.seen device ≡ [] → MatchResult result
            (λ store. LeavesOnly D.Device device store.log.device (IsNewStore N))
            (λ e. LeavesOnly D.Device device e.0 (IsNewStore N)) }
    {
        let mut device = device;
        let bytes = match read_at_rest(alloc, &mut device) {
            Ok(bytes) => bytes,
            Err(error) => return Err((device, CreateError::Device(error))),
        };
        if has_bytes(&bytes) {
            return Err((device, CreateError::NotEmpty));
        }
        let bitmap = CleanBitMap::new(alloc);
        let (bytes, place) = match whole_log(alloc, &bitmap) {
            Ok(log) => log,
            Err(error) => return Err((device, CreateError::Memory(error))),
        };
        if let Err(error) = write_first(&mut device, &bytes) {
            return Err((device, CreateError::Device(error)));
        }
        let log = StoredLog {
            place,
            device,
            is_read_only: false,
        };
        Ok(Store { alloc, bitmap, log })
    }

    /// Opens the store of a device again, and cuts off the bytes of an entry that was not finished. `N` is at least 1, and `8N` fits `u64`.
    ///
    /// The device is at rest, as one after a restart: a crash leaves what a read returns. After a crash at any moment of any calls of a store, the
    /// bitmap is that after some first ones of the entries whose call had begun, and not fewer than those whose call had returned `Ok`.
    /// A crash may also cut this call off: the device is then opened as before.
    ///
    /// # Errors
    /// Returns the device with the first error that applies:
    ///
    /// - `Device` if the read of the device fails, also because it runs out of memory. The device was not written to.
    /// - `Log` with the error of [`recover`](commit_log::recover) if the bytes are not recovered. The device was not written to. So damage is
    ///   reported with its position, and is not cut off, unless it makes the first byte of a frame a closed gate: such a frame, and those after it,
    ///   are taken for one that was not finished. What a crash leaves is not damaged: the error is then that an allocation failed.
    /// - `Device` if another call of the device fails, also because it runs out of memory.
    ///
    /// # Memory
    /// As [`recover`](commit_log::recover), and temporarily all bytes of the device.
    ///
    /// # Complexity
    /// As [`recover`](commit_log::recover), or twice that if an entry was not finished, with one read, one byte set, one cut and two syncs of the
    /// device. If it has a log without a closed gate, one append and one sync.
    pub fn open(alloc: Global, device: D) -> Result<Store<N, D>, (D, OpenError)>
        requires { IsWidth N }
        ensures state { IsAtRest D.Device device → IfOk result (λ store.
            Opens N D.Device (D.seen device) (kept_of N store.bitmap) store.log) }
        ensures refused { IsAtRest D.Device device
            → IfErr result (λ e. LeavesUnopened N D.Device device e.1 e.0) }

        // From what a crash left of a log of which so many entries are kept: the state after these, or after these and some that follow.
        ensures opened { (base : Base) (entries : List Entry) (kept : ℕ)
            → IsAtRest D.Device device → IsLog N base entries
            → IsTornLog N base entries kept (D.seen device)
            → IfOk result (λ store. OpensTo N D.Device base entries kept
            (kept_of N store.bitmap) store.log) }
        // From it, the only errors are that an allocation or the device failed.
        ensures complete { (base : Base) (entries : List Entry) (kept : ℕ)
            → IsAtRest D.Device device → IsLog N base entries
            → IsTornLog N base entries kept (D.seen device) → IfErr result (λ e. IsPassing e.1) }
        // A crash at any moment of the call leaves no fewer entries.
        ensures any_moment { (base : Base) (entries : List Entry) (kept : ℕ)
            → IsAtRest D.Device device → IsLog N base entries
            → IsTornLog N base entries kept (D.seen device)
            → MatchResult result
            (λ store. LeavesOnly D.Device device store.log.device (IsTornLog N base entries kept))
            (λ e. LeavesOnly D.Device device e.0 (IsTornLog N base entries kept)) }
    {
        let mut device = device;
        let bytes = match read_at_rest(alloc, &mut device) {
            Ok(bytes) => bytes,
            Err(error) => return Err((device, OpenError::Device(error))),
        };
        let (bitmap, place) = match recover_left::<N>(alloc, &bytes) {
            Ok(found) => found,
            Err(error) => return Err((device, OpenError::Log(error))),
        };
        // The bytes of an entry that was not finished are gone before another one is written in their place.
        if let Err(error) = shut(&mut device, place.at, bytes.len() as u64) {
            return Err((device, OpenError::Device(error)));
        }
        let log = StoredLog {
            place,
            device,
            is_read_only: false,
        };
        Ok(Store { alloc, bitmap, log })
    }
}
