//! Entries that wait in memory until they are written.

ghost use Rattle.std.specs.Prelude.{◌≡◌, ℕ, ◌+◌, ◌^◌, ◌<◌, ◌++◌, ◌∷◌, [], List, length, true, OnErr, OnOk};
ghost use Rattle.commit_log.specs.Accepted.{Accepts};
ghost use Rattle.commit_log.specs.Base.{Base};
ghost use Rattle.commit_log.specs.Entries.{Entry, FitsEntry, encode_entry};
ghost use Rattle.commit_log.specs.Kept.{Kept, after};
ghost use Rattle.commit_log.specs.Logs.{LogView, framed};
ghost use Rattle.log_store.specs.Buffered.{IsWaiting};
ghost use Rattle.log_store.specs.Gate.{closed};

use crate::gate::CLOSED;
use log_frames::{Place, push_frame};
use std::alloc::{AllocError, Global};
use std::marker::Model;

// The frames that are written together have fewer bytes than this, with a closed gate: the first byte of each length in them is 0, and not a closed gate.
const MOST: usize = 1 << 56;

/// The frames of entries that wait to be written after a log, and the place after them.
#[derive(Drop)]
pub struct Waiting {
    bytes: Vec<u8>,
    place: Place,
}

impl Model for Waiting {
    ghost use Rattle.commit_log.specs.Logs.{LogView};

    ghost Value = { LogView };

    ghost view = { λ waiting. record { bytes = waiting.bytes.items; place = waiting.place } };
}

impl Waiting {
    // Returns no entries, after a log that ends at a place.
    pub(crate) fn none(alloc: Global, place: Place) -> Waiting
        ensures { result ≡ record { bytes = []; place = place } }
    {
        Waiting {
            bytes: Vec::new(alloc),
            place,
        }
    }

    // Returns whether no entry waits.
    pub(crate) fn is_empty(&self) -> bool
        ensures { result ≡ true → self.now.bytes ≡ [] }
    {
        self.bytes.is_empty()
    }

    // Returns the frames.
    pub(crate) fn bytes(&self) -> &[u8]
        ensures { result.now ≡ self.now.bytes }
    {
        &self.bytes
    }

    // Returns the place after the frames.
    pub(crate) fn place(&self) -> Place
        ensures { result ≡ self.now.place }
    {
        self.place
    }

    // Appends the frame of a body.
    fn append(&mut self, body: &[u8]) -> Result<(), AllocError>
        requires { 0 < length body.now }
        ensures ok { OnOk result (self.new ≡ framed self.old body.now) }
        ensures few { OnOk result (length self.new.bytes + 1 < 2 ^ 56) }
        ensures err { OnErr result (self.new ≡ self.old) }
    {
        // The frame has 24 bytes more than its body, and the gate one.
        let len = self.bytes.len().saturating_add(body.len());
        if len.saturating_add(25) >= MOST {
            return Err(AllocError);
        }
        self.place = push_frame(&mut self.bytes, self.place, body)?;
        Ok(())
    }

    // Lets an entry wait, of which this is the encoding.
    pub(crate) fn push<const N: usize>(&mut self, body: &[u8]) -> Result<(), AllocError>
        requires { 0 < length body.now }
        ensures waits { (base : Base) (begun waiting : List Entry) (state : Kept) (e : Entry)
            → IsWaiting N base begun waiting state self.old → FitsEntry N e → Accepts N state e
            → body.now ≡ encode_entry e
            → OnOk result (IsWaiting N base begun (waiting ++ e ∷ []) (after N state e) self.new) }
        ensures ok { OnOk result (self.new ≡ framed self.old body.now) }
        ensures err { OnErr result (self.new ≡ self.old) }
    {
        self.append(body)
    }

    // Returns the number of bytes of the frames, and the place after them.
    pub(crate) fn end(&self) -> (usize, Place)
        ensures { result ≡ (length self.now.bytes, self.now.place) }
    {
        (self.bytes.len(), self.place)
    }

    // Removes the frames after an earlier end: what waits is what it was there.
    pub(crate) fn cut_back(&mut self, end: (usize, Place))
        ensures { (before : LogView) (more : List ℕ) → self.old.bytes ≡ before.bytes ++ more
            → end ≡ (length before.bytes, before.place) → self.new ≡ before }
    {
        self.bytes.truncate(end.0);
        self.place = end.1;
    }

    // Appends a closed gate to the frames, so that they can be written.
    pub(crate) fn close(&mut self) -> Result<(), AllocError>
        ensures ok { OnOk result (self.new
            ≡ record { bytes = self.old.bytes ++ closed ∷ []; place = self.old.place }) }
        ensures err { OnErr result (self.new ≡ self.old) }
    {
        self.bytes.push(CLOSED)?;
        Ok(())
    }

    // Removes all entries, once they are written. The capacity for them is kept.
    pub(crate) fn forget(&mut self)
        ensures { self.new ≡ record { bytes = []; place = self.old.place } }
    {
        self.bytes.clear();
    }
}
