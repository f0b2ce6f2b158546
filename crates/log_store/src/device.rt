//! A device that keeps bytes: what a read returns, what a crash may leave, and what is assumed of both.

ghost use Rattle.std.specs.Prelude.{◌≡◌, ◌<◌, ◌≤◌, ◌++◌, List, ℕ, length, take, IfOk, OnOk};
ghost use Rattle.log_store.specs.Device.{Elapses, HasCause, MayTear, Only, with_byte};

use std::alloc::{AllocError, Global};
use thiserror::Error as ErrorDerive;

/// Why a call of a device failed.
#[derive(Clone, Copy, Debug, PartialEq, Eq, ErrorDerive)]
pub enum DeviceError {
    /// An allocation failed.
    #[error("out of memory")]
    Memory(AllocError),

    /// The device failed. The number is that of the operating system's error, if it gave one.
    #[error("the device failed")]
    Failed(Option<i32>),
}

impl From<AllocError> for DeviceError {
    ghost use Rattle.std.specs.Prelude.{◌≡◌};
    ghost use Rattle.log_store.specs.declared.device.DeviceError.TheVariants.{Memory};

    ghost from_gives = { λ error e. e ≡ Memory error };

    fn from(error: AllocError) -> Self {
        DeviceError::Memory(error)
    }
}

/// A device that keeps bytes, which are appended to, cut at their end, and set one by one.
///
/// The contracts describe a model of a disk. What a crash may leave of a change that is not synced is the definition `MayTear`, and nowhere else: any
/// bytes may be where the device grew or was cut, and any blocks of a change may be kept, in any order. Of a second change before a sync, nothing is
/// said. Each contract holds only while the device behaves as the model. No contract can say that a real disk does: that is assumed.
pub trait Device {
    /// The device behaves as the model. Of a device that does not, nothing is said.
    ghost behaves: { Self → Type 0 };

    /// The bytes that a read returns.
    ghost seen: { Self → List ℕ };

    /// What a crash at this moment may leave.
    ghost may_leave: { Self → List ℕ → Type 0 };

    /// The moment, as a number that does not fall.
    ghost moment: { Self → ℕ };

    /// What a crash at some moment from that one on might have left, during a call or between two.
    ghost left_since: { Self → ℕ → List ℕ → Type 0 };

    /// The number of times that the device has failed.
    ghost faults: { Self → ℕ };

    /// Returns all bytes.
    ///
    /// # Errors
    /// `Memory` if an allocation fails, and `Failed` if the device does.
    fn read_all(&mut self, alloc: Global) -> Result<Vec<u8>, DeviceError>
        ensures bytes { behaves self.old → IfOk result (λ bytes. bytes.items ≡ seen self.old) }
        ensures seen { behaves self.old → seen self.new ≡ seen self.old }
        ensures crash { behaves self.old → (c : List ℕ) → may_leave self.new c
            → may_leave self.old c }
        ensures time { behaves self.old → Elapses (moment self.old) (moment self.new)
            (left_since self.old) (left_since self.new) (may_leave self.new) }
        ensures cause { behaves self.old → HasCause (faults self.old) (faults self.new) result }
        ensures behaves { behaves self.old → behaves self.new };

    /// Appends bytes. Until a sync, a crash may leave any bytes in their place, and fewer of them.
    ///
    /// # Errors
    /// `Memory` if an allocation fails, and `Failed` if the device does. Some of the bytes may then be appended.
    fn append(&mut self, bytes: &[u8]) -> Result<(), DeviceError>
        ensures written { behaves self.old
            → OnOk result (seen self.new ≡ seen self.old ++ bytes.now) }
        ensures crash { behaves self.old → Only (seen self.old) (may_leave self.old) → (c : List ℕ)
            → may_leave self.new c → MayTear (seen self.old) (seen self.old ++ bytes.now) c }
        ensures time { behaves self.old → Elapses (moment self.old) (moment self.new)
            (left_since self.old) (left_since self.new) (may_leave self.new) }
        ensures cause { behaves self.old → HasCause (faults self.old) (faults self.new) result }
        ensures behaves { behaves self.old → behaves self.new };

    /// Replaces the byte at position `at`, if there is one. Until a sync, a crash may leave the old byte or the new one.
    ///
    /// # Errors
    /// `Memory` if an allocation fails, and `Failed` if the device does. The byte may then be replaced.
    fn set_byte(&mut self, at: u64, byte: u8) -> Result<(), DeviceError>
        ensures written { behaves self.old → at < length (seen self.old)
            → OnOk result (seen self.new ≡ with_byte at byte (seen self.old)) }
        ensures crash { behaves self.old → Only (seen self.old) (may_leave self.old)
            → at < length (seen self.old) → (c : List ℕ) → may_leave self.new c
            → MayTear (seen self.old) (with_byte at byte (seen self.old)) c }
        ensures time { behaves self.old → Elapses (moment self.old) (moment self.new)
            (left_since self.old) (left_since self.new) (may_leave self.new) }
        ensures cause { behaves self.old → HasCause (faults self.old) (faults self.new) result }
        ensures behaves { behaves self.old → behaves self.new };

    /// Removes the bytes after the first `len`. Until a sync, a crash may leave any bytes in their place, and fewer of them.
    ///
    /// # Errors
    /// `Memory` if an allocation fails, and `Failed` if the device does. Some of the bytes may then be removed.
    fn cut_to(&mut self, len: u64) -> Result<(), DeviceError>
        ensures cut { behaves self.old → len ≤ length (seen self.old)
            → OnOk result (seen self.new ≡ take len (seen self.old)) }
        ensures crash { behaves self.old → Only (seen self.old) (may_leave self.old)
            → len ≤ length (seen self.old) → (c : List ℕ) → may_leave self.new c
            → MayTear (seen self.old) (take len (seen self.old)) c }
        ensures time { behaves self.old → Elapses (moment self.old) (moment self.new)
            (left_since self.old) (left_since self.new) (may_leave self.new) }
        ensures cause { behaves self.old → HasCause (faults self.old) (faults self.new) result }
        ensures behaves { behaves self.old → behaves self.new };

    /// Returns once the bytes are kept: a crash then leaves what a read returns.
    ///
    /// # Errors
    /// `Memory` if an allocation fails, and `Failed` if the device does. Nothing more is then kept than before.
    fn sync(&mut self) -> Result<(), DeviceError>
        ensures kept { behaves self.old → OnOk result (Only (seen self.old) (may_leave self.new)) }
        ensures seen { behaves self.old → seen self.new ≡ seen self.old }
        ensures crash { behaves self.old → (c : List ℕ) → may_leave self.new c
            → may_leave self.old c }
        ensures time { behaves self.old → Elapses (moment self.old) (moment self.new)
            (left_since self.old) (left_since self.new) (may_leave self.new) }
        ensures cause { behaves self.old → HasCause (faults self.old) (faults self.new) result }
        ensures behaves { behaves self.old → behaves self.new };

    /// This moment is one of those since an earlier one.
    ghost counts_now: { (device : Self) (t : ℕ) (c : List ℕ) → behaves device → t ≤ moment device
        → may_leave device c → left_since device t c };

    /// Since this moment there is no other.
    ghost only_now: { (device : Self) (c : List ℕ) → behaves device
        → left_since device (moment device) c → may_leave device c };
}
