//! The log of a store on its device.

ghost use Rattle.std.specs.Prelude.{◌≡◌, ℕ, ◌+◌, ◌<◌, ◌++◌, ◌∷◌, [], List, false, length, IfErr, OnErr, OnOk};
ghost use Rattle.commit_log.specs.Accepted.{Accepts};
ghost use Rattle.commit_log.specs.Base.{Base};
ghost use Rattle.commit_log.specs.Entries.{Entry, FitsEntry, encode_entry};
ghost use Rattle.commit_log.specs.Kept.{Kept, after};
ghost use Rattle.commit_log.specs.Logs.{LogView};
ghost use Rattle.log_store.specs.Buffered.{IsWaiting};
ghost use Rattle.log_store.specs.Gate.{closed};
ghost use Rattle.log_store.specs.Store.{Becomes, Fails, FailsToAppend, IsAppendError, IsStored, Keeps, LeavesLog};

use crate::device::Device;
use crate::error::StoreError;
use crate::gate::{append_gated, first_and_rest};
use crate::waiting::Waiting;
use log_frames::Place;
use std::alloc::{AllocError, Global};

/// A log on a device, to whose end entries are appended.
#[derive(Drop)]
pub struct StoredLog<D: Device> {
    // The place after the last entry.
    pub(crate) place: Place,
    pub(crate) device: D,
    // Whether a call failed after it had begun to write. Nothing is written any more then.
    pub(crate) is_read_only: bool,
}

impl<D: Device> StoredLog<D> {
    // Appends the frames of entries behind one gate, and returns once they are kept. A closed gate is after the frames, and `next` is the place there.
    fn append_frames<const N: usize>(
        &mut self,
        frames: &[u8],
        next: Place,
    ) -> Result<(), StoreError>
        requires { self.now.is_read_only ≡ false }
        ensures kept { (base : Base) (begun more : List Entry) (kept : ℕ) (state made : Kept)
            (held : LogView) → IsStored N D.Device base begun kept state self.old
            → IsWaiting N base begun more made held
            → frames.now ≡ held.bytes ++ closed ∷ [] → next ≡ held.place
            → OnOk result (Becomes N D.Device base begun kept self.old more (kept + length more)
            made self.new) }
        ensures fails { (base : Base) (begun more : List Entry) (kept : ℕ) (state made : Kept)
            (held : LogView) → IsStored N D.Device base begun kept state self.old
            → IsWaiting N base begun more made held
            → frames.now ≡ held.bytes ++ closed ∷ [] → next ≡ held.place
            → OnErr result (FailsToAppend N D.Device base begun kept self.old more state
            self.new) }
        ensures place { OnOk result (self.new.place ≡ next) }
        ensures error { IfErr result IsAppendError }
        ensures log { IfErr result (λ e. LeavesLog D.Device self.old e self.new) }
        ensures stays { OnOk result (self.new.is_read_only ≡ false) }
    {
        let Some((first, rest)) = first_and_rest(frames) else {
            return Err(StoreError::Memory(AllocError));
        };
        if let Err(error) = append_gated(&mut self.device, self.place.at, first, rest) {
            self.is_read_only = true;
            return Err(StoreError::Device(error));
        }
        self.place = next;
        Ok(())
    }

    // Appends the entries that wait behind one gate, and returns once they are kept. They still wait then.
    pub(crate) fn append_all<const N: usize>(
        &mut self,
        waiting: &mut Waiting,
    ) -> Result<(), StoreError>
        ensures kept { (base : Base) (begun more : List Entry) (kept : ℕ) (state made : Kept)
            → IsStored N D.Device base begun kept state self.old
            → (self.old.is_read_only ≡ false → IsWaiting N base begun more made waiting.old)
            → OnOk result (Becomes N D.Device base begun kept self.old more (kept + length more)
            made self.new) }
        ensures fails { (base : Base) (begun more : List Entry) (kept : ℕ) (state made : Kept)
            → IsStored N D.Device base begun kept state self.old
            → (self.old.is_read_only ≡ false → IsWaiting N base begun more made waiting.old)
            → OnErr result (FailsToAppend N D.Device base begun kept self.old more state
            self.new) }
        ensures waits { waiting.new ≡ waiting.old }
        ensures place { OnOk result (self.new.place ≡ waiting.old.place) }
        ensures error { IfErr result IsAppendError }
        ensures log { IfErr result (λ e. LeavesLog D.Device self.old e self.new) }
        ensures written { OnOk result (self.old.is_read_only ≡ false) }
        ensures stays { OnOk result (self.new.is_read_only ≡ false) }
    {
        if self.is_read_only {
            return Err(StoreError::ReadOnly);
        }
        let end = waiting.end();
        let Ok(()) = waiting.close() else {
            return Err(StoreError::Memory(AllocError));
        };
        let appended = self.append_frames::<N>(waiting.bytes(), end.1);
        waiting.cut_back(end);
        appended
    }

    // Appends the frame of an entry's encoding, and returns once it is kept.
    pub(crate) fn append<const N: usize>(
        &mut self,
        alloc: Global,
        body: &[u8],
    ) -> Result<(), StoreError>
        requires { 0 < length body.now }
        ensures kept { (base : Base) (begun : List Entry) (kept : ℕ) (state : Kept) (e : Entry)
            → IsStored N D.Device base begun kept state self.old → FitsEntry N e
            → Accepts N state e → body.now ≡ encode_entry e
            → OnOk result (Keeps N D.Device base begun kept self.old e (after N state e) self.new) }
        ensures fails { (base : Base) (begun : List Entry) (kept : ℕ) (state : Kept) (e : Entry)
            → IsStored N D.Device base begun kept state self.old → FitsEntry N e
            → Accepts N state e → body.now ≡ encode_entry e
            → OnErr result (Fails N D.Device base begun kept self.old e state self.new) }
        ensures error { IfErr result IsAppendError }
        ensures log { IfErr result (λ e. LeavesLog D.Device self.old e self.new) }
        ensures written { OnOk result (self.old.is_read_only ≡ false) }
        ensures stays { OnOk result (self.new.is_read_only ≡ false) }
    {
        let mut waiting = Waiting::none(alloc, self.place);
        let Ok(()) = waiting.push::<N>(body) else {
            return Err(StoreError::Memory(AllocError));
        };
        self.append_all::<N>(&mut waiting)
    }
}
