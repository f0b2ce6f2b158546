//! A log that is read back, whole or cut off by a crash.

ghost use Rattle.std.specs.Prelude.{◌≡◌, ◌≢◌, ◌⊎◌, ℕ, ◌+◌, ◌^◌, ◌<◌, ◌≤◌, Bool, false, List, [], length, take, IfOk, IfErr, IsErrOf, alloc_error};
ghost use Rattle.std.specs.Bool.{Decides};
ghost use Rattle.bitmap_bytes.specs.Chunk.{IsWidth};
ghost use Rattle.log_frames.specs.declared.frame.Place.{Place as LogPlace};
ghost use Rattle.log_frames.specs.declared.header.HeaderError.TheVariants.{Short};
ghost use Rattle.commit_log.specs.Base.{Base};
ghost use Rattle.commit_log.specs.Entries.{Entry as WrittenEntry};
ghost use Rattle.commit_log.specs.Kept.{Kept, kept_of};
ghost use Rattle.commit_log.specs.Logs.{IsLog, log_bytes, place_of, state_of};
ghost use Rattle.commit_log.specs.Recovered.{IsBodyError, IsMadeIn, IsPrefixOf, IsRecoverError, MakesNext, ReadsTo, Recovers};
ghost use Rattle.commit_log.specs.declared.base.BaseError.TheVariants.{Memory as BaseMemory};
ghost use Rattle.commit_log.specs.declared.recovery.Damage.TheVariants.{Base as BadBase};
ghost use Rattle.commit_log.specs.declared.recovery.RecoverError.TheVariants.{Damaged, Header, Memory, NoBase};

use crate::apply::apply_change;
use crate::base::{BaseError, from_base, read_base};
use crate::calls::{clear_is_an_entry, drop_is_an_entry, rewind_is_an_entry};
use crate::entry::{Entry, read_entry};
use crate::error::{ApplyError, EntryError};
use crate::log::Log;
use historical_bitmap::bitmap::historical::{CleanBitMap, RewindError};
use log_frames::{HeaderError, Place, Stop, next_frame, read_header};
use std::alloc::{AllocError, Global};
use thiserror::Error as ErrorDerive;

/// What a log was recovered to.
#[derive(Drop)]
pub struct Recovered<const N: usize> {
    /// The bitmap after the last entry, or the base if there is no entry.
    pub bitmap: CleanBitMap<N>,

    /// The log, to which further entries are appended. It has no bytes that are not taken, and its position is the number of good bytes.
    pub log: Log<N>,

    /// Whether there are bytes after the good ones. They have to be cut off before the next entry is written.
    pub torn: bool,
}

/// What is damaged at a position of a log, at which a frame begins. If several apply, the first one in this order is reported.
#[derive(Debug, Drop, ErrorDerive)]
pub enum Damage {
    /// The head of the frame is not one that was written for this position.
    #[error("the head of the frame is damaged")]
    Head,

    /// The digest of the frame is not that of its body and of the log before it.
    #[error("the digest of the frame is not that of its body")]
    Digest,

    /// The frame is the first one, and is whole. Its body has this error as a base. The error is not `Memory`.
    #[error("the first frame has no base: {0}")]
    Base(BaseError),

    /// The frame is a later one, and is whole. Its body has this error as an entry for the bitmap that the frames before it make.
    #[error("{0}")]
    Entry(EntryError),
}

/// Why a log was not recovered. The first error from the first byte on is reported.
#[derive(Debug, Drop, ErrorDerive)]
pub enum RecoverError {
    /// The bytes do not begin with the header of a log of this width.
    #[error("the bytes do not begin with the header of a log of this width")]
    Header(HeaderError),

    /// The header is whole, and the bytes end before the frame of the base does.
    #[error("the bytes end before the frame of the base does")]
    NoBase,

    /// The bytes before this position are good, and the frame there is damaged.
    #[error("the log is damaged at byte {at}: {damage}")]
    Damaged {
        /// The number of bytes before the frame.
        at: u64,

        /// What is damaged.
        damage: Damage,
    },

    /// An allocation failed.
    #[error("out of memory")]
    Memory(AllocError),
}

impl From<AllocError> for RecoverError {
    ghost use Rattle.std.specs.Prelude.{◌≡◌};
    ghost use Rattle.commit_log.specs.declared.recovery.RecoverError.TheVariants.{Memory};

    ghost from_gives = { λ e r. r ≡ Memory e };

    fn from(error: AllocError) -> RecoverError {
        RecoverError::Memory(error)
    }
}

// Returns the error of a log that is damaged at a position.
fn damaged(at: u64, damage: Damage) -> RecoverError
    ensures { result ≡ Damaged at damage }
{
    RecoverError::Damaged { at, damage }
}

// Applies the entry that a body encodes.
fn apply_entry<const N: usize>(
    bitmap: CleanBitMap<N>,
    body: &[u8],
) -> Result<CleanBitMap<N>, ApplyError>
    requires { 8 + N < 2 ^ 64 }
    ensures entry { IfOk result (λ b. MakesNext N (kept_of N bitmap.entry) body.now (kept_of N b)) }
    ensures error { IfErr result (IsBodyError N (kept_of N bitmap.entry) body.now) }
{
    match read_entry::<N>(body) {
        Ok(Entry::Commit(change)) => match apply_change(bitmap, &change) {
            Ok(bitmap) => Ok(bitmap),
            Err((_, error)) => Err(error),
        },
        Ok(Entry::Rewind(number)) => match rewind_is_an_entry(bitmap, number) {
            Ok(bitmap) => Ok(bitmap),
            Err((_, RewindError::Memory(error))) => Err(ApplyError::Memory(error)),
            Err((_, RewindError::NoSuchCommit)) => {
                Err(ApplyError::Entry(EntryError::NoSuchCommit))
            }
        },
        Ok(Entry::DropBefore(number)) => {
            let mut bitmap = bitmap;
            drop_is_an_entry(&mut bitmap, number);
            Ok(bitmap)
        }
        Ok(Entry::Clear) => {
            let mut bitmap = bitmap;
            clear_is_an_entry(&mut bitmap);
            Ok(bitmap)
        }
        Err(error) => Err(ApplyError::Entry(EntryError::Decode(error))),
    }
}

// Returns the error of a log whose base, in the frame at a position, was not read.
fn base_error(at: u64, error: BaseError) -> RecoverError
    ensures { (result ≡ Memory alloc_error)
        ⊎ ((result ≡ Damaged at (BadBase error)) × (error ≢ BaseMemory alloc_error)) }
{
    match error {
        BaseError::Memory(error) => RecoverError::Memory(error),
        other => damaged(at, Damage::Base(other)),
    }
}

// Reads the header and the base. Returns the bitmap that the base is, the place after it, and the bytes from there on.
fn read_start<const N: usize>(
    alloc: Global,
    bytes: &[u8],
) -> Result<(CleanBitMap<N>, Place, &[u8]), RecoverError>
    requires { IsWidth N }
    ensures state { IfOk result (λ found.
        ReadsTo N bytes.now (kept_of N found.0) found.1 found.2.now) }
    ensures end { IfOk result (λ found. found.1.at + length found.2.now ≡ length bytes.now) }
    ensures cause { IfErr result (IsRecoverError N bytes.now) }
{
    let (first, frames) = match read_header(bytes, N as u64) {
        Ok(found) => found,
        Err(error) => return Err(RecoverError::Header(error)),
    };
    let frame = match next_frame(first, frames) {
        Ok(frame) => frame,
        Err(Stop::Torn) => return Err(RecoverError::NoBase),
        Err(Stop::BadHead) => return Err(damaged(first.at, Damage::Head)),
        Err(Stop::BadDigest) => return Err(damaged(first.at, Damage::Digest)),
    };
    let (bits, past) = match read_base::<N>(alloc, frame.body) {
        Ok(base) => base,
        Err(error) => return Err(base_error(first.at, error)),
    };
    let bitmap = from_base(alloc, bits, past)?;
    Ok((bitmap, frame.next, frame.rest))
}

// Reads a log to the frame at which it ends.
fn read_all<const N: usize>(alloc: Global, bytes: &[u8]) -> Result<Recovered<N>, RecoverError>
    requires { IsWidth N }
    ensures state { IfOk result (λ found.
        Recovers N bytes.now (kept_of N found.bitmap) found.log.place found.torn) }
    ensures taken { IfOk result (λ found. found.log.bytes ≡ []) }
    ensures cause { IfErr result (IsRecoverError N bytes.now) }
{
    let (mut bitmap, mut place, mut rest) = read_start::<N>(alloc, bytes)?;
    loop {
        let frame = match next_frame(place, rest) {
            Ok(frame) => frame,
            Err(Stop::Torn) => break,
            Err(Stop::BadHead) => return Err(damaged(place.at, Damage::Head)),
            Err(Stop::BadDigest) => return Err(damaged(place.at, Damage::Digest)),
        };
        bitmap = match apply_entry(bitmap, frame.body) {
            Ok(bitmap) => bitmap,
            Err(ApplyError::Entry(error)) => return Err(damaged(place.at, Damage::Entry(error))),
            Err(ApplyError::Memory(error)) => return Err(RecoverError::Memory(error)),
        };
        place = frame.next;
        rest = frame.rest;
    }
    Ok(Recovered {
        bitmap,
        log: Log::after(alloc, Vec::new(alloc), place),
        torn: !rest.is_empty(),
    })
}

/// Reads a log back: returns the bitmap that its base and its entries make, and the place at which the next entry goes. `N` is at least 1, and
/// `8N` fits `u64`.
///
/// `bytes` is a log, or what a crash has left of one. The bytes after the last whole frame are left out if they are torn: if they end within a
/// frame, or if all of them are zero. So from a prefix of a log in which the base is whole, the result is the bitmap after the last entry whose
/// frame is whole in the prefix.
///
/// # Errors
/// Returns the first error from the first byte on. Nothing that was read is returned.
///
/// - `Header` if the bytes do not begin with the header of a log of this width. If there are fewer than 32 bytes, it is `Header(Short)`.
/// - `NoBase` if the bytes end before the frame of the base does.
/// - `Damaged` if a frame is damaged, or if its body is not a base or an entry that the bitmap accepts. The bytes before its position are good.
/// - `Memory` if an allocation fails. The entries after this point are not looked at.
///
/// A prefix of a log is never `Damaged`.
///
/// # Memory
/// Allocates at most 8 bytes per byte that is read and 64 bytes per chunk in these bytes, in the base or in the list of a commit, beside a few
/// kilobytes. So it is at most `8 + 64/N` bytes per byte that is read. This holds also if an error is returned. It is measured and not proved,
/// because contracts do not speak of the sizes of allocations. Pruned chunks take no memory by themselves, however many they are.
///
/// # Complexity
/// Linear in the bytes, and in what `apply_change` and `rewind_to` take for the entries.
pub fn recover<const N: usize>(alloc: Global, bytes: &[u8]) -> Result<Recovered<N>, RecoverError>
    requires { IsWidth N }
    // The bytes are those of a log, which makes this bitmap and ends at this place, and then a torn rest.
    ensures state { IfOk result (λ found.
        Recovers N bytes.now (kept_of N found.bitmap) found.log.place found.torn) }
    // The log has no bytes that are to be written.
    ensures taken { IfOk result (λ found. found.log.bytes ≡ []) }
    // How many bytes are good, and whether there are others.
    ensures good { IfOk result (λ found. found.log.place.at ≤ length bytes.now) }
    ensures torn { IfOk result (λ found. Decides found.torn
        (found.log.place.at < length bytes.now)) }

    // From a log: what all of its entries make.
    ensures whole { (base : Base) (entries : List WrittenEntry) → IsLog N base entries
        → bytes.now ≡ log_bytes N base entries → IfOk result (λ found.
        (kept_of N found.bitmap ≡ state_of N base entries)
        × (found.log.place ≡ place_of N base entries) × (found.torn ≡ false)) }
    // From a prefix of a log: what the entries make whose frames are whole in it.
    ensures prefix { (base : Base) (entries : List WrittenEntry) (m : ℕ)
        → IsPrefixOf N base entries m bytes.now → IfOk result (λ found.
        IsMadeIn N base entries m (kept_of N found.bitmap) found.log.place found.torn) }
    // From a prefix of a log, the only error is that an allocation failed.
    ensures complete { (base : Base) (entries : List WrittenEntry) (m : ℕ)
        → IsPrefixOf N base entries m bytes.now → IfErr result (λ e. e ≡ Memory alloc_error) }
    // The same holds for all bytes that recover to a state.
    ensures only_memory { (state : Kept) (place : LogPlace) (torn : Bool)
        → Recovers N bytes.now state place torn → IfErr result (λ e. e ≡ Memory alloc_error) }

    // From a prefix of a log in which the header or the base is not whole.
    ensures short { length bytes.now < 32 → IsErrOf result (Header Short) }
    ensures no_base { (base : Base) (entries : List WrittenEntry) (m : ℕ) → IsLog N base entries
        → 32 ≤ m → m < length (log_bytes N base [])
        → bytes.now ≡ take m (log_bytes N base entries) → IsErrOf result NoBase }

    // Which error it is, and why.
    ensures cause { IfErr result (IsRecoverError N bytes.now) }
{
    read_all(alloc, bytes)
}
