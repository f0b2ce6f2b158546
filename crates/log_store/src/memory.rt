//! A device in memory, of which a crash may tear a change that is not synced.

ghost use Rattle.std.specs.Prelude.{◌≡◌, ◌⊎◌, ◌<◌, ◌++◌, [], ◌∷◌, List, ℕ, None, Some, length, true, IfOk, OnOk, OnErr};
ghost use Rattle.std.specs.Option.{unwrap_or};
ghost use Rattle.std.proofs.Common.{inl};
ghost use Rattle.log_store.specs.Device.{Elapses, MayTear, Only, with_byte};
ghost use Rattle.log_store.specs.Past.{MayLeave, Since, kept_before, only_left};

use crate::device::{Device, DeviceError};
use std::alloc::{AllocError, Global};
use std::mem;

/// A device in memory, for tests, which meets the contract of [`Device`]: so a device can meet it.
///
/// It does tear: a crash may leave whatever the model allows of the changes since the last sync. It keeps each past content.
#[derive(Drop)]
pub struct MemoryDevice {
    alloc: Global,
    bytes: Vec<u8>,
    // The bytes at the last sync, if there was a change since.
    before: Option<Vec<u8>>,
    // Each past content, with the bytes at the last sync before it.
    past: Vec<(Vec<u8>, Option<Vec<u8>>)>,
}

impl MemoryDevice {
    /// Returns a device with these bytes, all of which are kept.
    ///
    /// Does not allocate.
    pub fn new(alloc: Global, bytes: Vec<u8>) -> MemoryDevice
        ensures bytes { result.bytes.items ≡ bytes.items }
        ensures kept { kept_before result.before ≡ None }
    {
        MemoryDevice {
            alloc,
            bytes,
            before: None,
            past: Vec::new(alloc),
        }
    }

    /// Returns the bytes, those that are not synced included.
    ///
    /// Does not allocate; constant time.
    pub fn bytes(&self) -> &[u8]
        ensures { result.now ≡ self.now.bytes.items }
    {
        &self.bytes
    }

    /// Returns whether all bytes are kept: there was no change since the last sync.
    ///
    /// Does not allocate; constant time.
    pub fn is_synced(&self) -> bool
        ensures { result ≡ true → kept_before self.now.before ≡ None }
    {
        self.before.is_none()
    }
}

// Returns a copy of the bytes that were kept before a change, if there is one.
fn copy(alloc: Global, before: &Option<Vec<u8>>) -> Result<Option<Vec<u8>>, AllocError>
    ensures { IfOk result (λ copied. kept_before copied ≡ kept_before before.now) }
{
    match before {
        Some(bytes) => Ok(Some(bytes.to_vec(alloc)?)),
        None => Ok(None),
    }
}

// Keeps a content among the past ones.
fn keep(
    alloc: Global,
    bytes: &[u8],
    before: &Option<Vec<u8>>,
    past: &mut Vec<(Vec<u8>, Option<Vec<u8>>)>,
) -> Result<(), AllocError>
    ensures ok { OnOk result ((v : _) × (v.0.items ≡ bytes.now)
        × (kept_before v.1 ≡ kept_before before.now)
        × (past.new.items ≡ past.old.items ++ v ∷ [])) }
    ensures err { OnErr result (past.new.items ≡ past.old.items) }
{
    let before = copy(alloc, before)?;
    past.push((bytes.to_vec(alloc)?, before))?;
    Ok(())
}

// Returns the bytes that were kept before a change, which were there if there was no change.
fn first_kept(before: Option<Vec<u8>>, bytes: Vec<u8>) -> Option<Vec<u8>>
    ensures { kept_before result ≡ Some (unwrap_or (kept_before before) bytes.items) }
{
    match before {
        Some(before) => Some(before),
        None => Some(bytes),
    }
}

// Replaces the byte at a position, if there is one.
fn set(bytes: &mut Vec<u8>, at: usize, byte: u8)
    ensures { at < length bytes.old.items → bytes.new.items ≡ with_byte at byte bytes.old.items }
{
    if at < bytes.len() {
        bytes[at] = byte;
    }
}

impl MemoryDevice {
    // Puts other bytes in the place of those that are there.
    fn change(&mut self, next: Vec<u8>) -> Result<(), AllocError>
        ensures bytes { OnOk result (self.new.bytes.items ≡ next.items) }
        ensures crash { let old = self.old in Only old.bytes.items
            (MayLeave (kept_before old.before) old.bytes.items) → (c : List ℕ)
            → MayLeave (kept_before self.new.before) self.new.bytes.items c
            → MayTear old.bytes.items next.items c }
        ensures time { let old = self.old in let new = self.new in
            Elapses (length old.past.items) (length new.past.items)
            (Since old.past.items old.before old.bytes.items)
            (Since new.past.items new.before new.bytes.items)
            (MayLeave (kept_before new.before) new.bytes.items) }
    {
        keep(self.alloc, &self.bytes, &self.before, &mut self.past)?;
        let bytes = mem::replace(&mut self.bytes, next);
        self.before = first_kept(self.before.take(), bytes);
        Ok(())
    }
}

impl Device for MemoryDevice {
    ghost behaves = { λ m. Unit {0} };

    ghost seen = { λ m. m.bytes.items };

    ghost may_leave = { λ m c. MayLeave (kept_before m.before) m.bytes.items c };

    ghost moment = { λ m. length m.past.items };

    ghost left_since = { λ m t c. Since m.past.items m.before m.bytes.items t c };

    ghost faults = { λ m. 0 };

    ghost counts_now = { λ m t c behaves le now. inl now };

    ghost only_now = { λ m c behaves left. only_left m.past.items m.before m.bytes.items c left };

    fn read_all(&mut self, alloc: Global) -> Result<Vec<u8>, DeviceError> {
        Ok(self.bytes.to_vec(alloc)?)
    }

    fn append(&mut self, bytes: &[u8]) -> Result<(), DeviceError> {
        let mut next = self.bytes.to_vec(self.alloc)?;
        next.extend_from_slice(bytes)?;
        Ok(self.change(next)?)
    }

    fn set_byte(&mut self, at: u64, byte: u8) -> Result<(), DeviceError> {
        let mut next = self.bytes.to_vec(self.alloc)?;
        set(&mut next, at as usize, byte);
        Ok(self.change(next)?)
    }

    fn cut_to(&mut self, len: u64) -> Result<(), DeviceError> {
        let mut next = self.bytes.to_vec(self.alloc)?;
        next.truncate(len as usize);
        Ok(self.change(next)?)
    }

    fn sync(&mut self) -> Result<(), DeviceError> {
        keep(self.alloc, &self.bytes, &self.before, &mut self.past)?;
        self.before = None;
        Ok(())
    }
}
