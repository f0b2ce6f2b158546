//! A device in memory that can fail.

ghost use Rattle.std.specs.Prelude.{◌≡◌};

use log_store::{Device, DeviceError, Replaceable};
use std::alloc::{AllocError, Global};

/// A device in memory that fails at one call, if at all, and works again after it.
///
/// Nothing is proved of what it does: its contract is that of a device that does not behave as the model. The tests look at its bytes.
#[derive(Drop)]
pub struct FailingDevice {
    bytes: Vec<u8>,
    // The bytes of the second file, until it has the name.
    beside: Option<Vec<u8>>,
    // How many of the last bytes are not synced.
    unsynced: usize,
    // How many calls that change or sync something succeed before the one that fails, or `None` if none fails from now on.
    left: Option<usize>,
    // How many bytes an append that fails appends, and whether a cut, a byte or a rename that fails is made.
    torn: usize,
}

impl FailingDevice {
    /// Returns a device that has bytes, all of which are synced, and that does not fail.
    pub fn reliable(bytes: Vec<u8>) -> FailingDevice {
        FailingDevice {
            bytes,
            beside: None,
            unsynced: 0,
            left: None,
            torn: 0,
        }
    }

    /// Returns an empty device, of which the append, sync, cut, byte set or step of a replacement after the first `successes` fails. An append that
    /// fails appends at most `torn` bytes. A cut, a byte or a rename that fails is made all the same, unless `torn` is 0.
    pub fn new(alloc: Global, successes: usize, torn: usize) -> FailingDevice {
        FailingDevice::with_bytes(Vec::new(alloc), successes, torn)
    }

    /// Returns a device that fails in the same way and has bytes, all of which are synced.
    pub fn with_bytes(bytes: Vec<u8>, successes: usize, torn: usize) -> FailingDevice {
        FailingDevice {
            bytes,
            beside: None,
            unsynced: 0,
            left: Some(successes),
            torn,
        }
    }

    /// Returns the bytes.
    pub fn bytes(&self) -> &[u8] {
        &self.bytes
    }

    /// Returns how many of the last bytes are not synced.
    pub fn unsynced(&self) -> usize {
        self.unsynced
    }

    // Counts a call, and returns whether it is the one that fails.
    fn fails(&mut self) -> bool {
        match self.left {
            Some(0) => {
                self.left = None;
                true
            }
            Some(left) => {
                self.left = Some(left.saturating_sub(1));
                false
            }
            None => false,
        }
    }
}

impl Device for FailingDevice {
    ghost behaves = { λ device. ⊥ };

    ghost seen = { λ device. device.bytes.items };

    ghost may_leave = { λ device c. ⊥ };

    ghost moment = { λ device. 0 };

    ghost left_since = { λ device t c. ⊥ };

    ghost faults = { λ device. 0 };

    ghost counts_now = { λ device t c behaves le left. absurd behaves };

    ghost only_now = { λ device c behaves left. absurd behaves };

    fn read_all(&mut self, alloc: Global) -> Result<Vec<u8>, DeviceError> {
        Ok(self.bytes.to_vec(alloc)?)
    }

    fn append(&mut self, bytes: &[u8]) -> Result<(), DeviceError> {
        if self.fails() {
            let torn = bytes.len().min(self.torn);
            self.bytes.extend_from_slice(&bytes[..torn])?;
            return Err(DeviceError::Failed(None));
        }
        self.bytes.extend_from_slice(bytes)?;
        self.unsynced = self.unsynced.saturating_add(bytes.len());
        Ok(())
    }

    fn set_byte(&mut self, at: u64, byte: u8) -> Result<(), DeviceError> {
        let fails = self.fails();
        if !fails || self.torn > 0 {
            if let Some(place) = self.bytes.get_mut(at as usize) {
                *place = byte;
            }
        }
        if fails {
            return Err(DeviceError::Failed(None));
        }
        Ok(())
    }

    fn cut_to(&mut self, len: u64) -> Result<(), DeviceError> {
        let fails = self.fails();
        if !fails || self.torn > 0 {
            self.bytes.truncate(len as usize);
        }
        if fails {
            return Err(DeviceError::Failed(None));
        }
        Ok(())
    }

    fn sync(&mut self) -> Result<(), DeviceError> {
        if self.fails() {
            return Err(DeviceError::Failed(None));
        }
        self.unsynced = 0;
        Ok(())
    }
}

impl Replaceable for FailingDevice {
    ghost beside = { λ device. device.bytes.items };

    ghost beside_may_leave = { λ device c. ⊥ };

    ghost named_may_leave = { λ device c. ⊥ };

    fn write_beside(&mut self, bytes: &[u8]) -> Result<(), DeviceError> {
        if self.fails() {
            return Err(DeviceError::Failed(None));
        }
        self.beside = Some(bytes.to_vec(*self.bytes.allocator())?);
        Ok(())
    }

    fn sync_beside(&mut self) -> Result<(), DeviceError> {
        if self.fails() {
            return Err(DeviceError::Failed(None));
        }
        Ok(())
    }

    fn rename(&mut self) -> Result<(), DeviceError> {
        let fails = self.fails();
        if !fails || self.torn > 0 {
            if let Some(bytes) = self.beside.take() {
                self.bytes = bytes;
            }
        }
        if fails {
            return Err(DeviceError::Failed(None));
        }
        Ok(())
    }

    fn sync_folder(&mut self) -> Result<(), DeviceError> {
        if self.fails() {
            return Err(DeviceError::Failed(None));
        }
        Ok(())
    }
}
