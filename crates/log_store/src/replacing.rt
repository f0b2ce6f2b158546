//! A device whose bytes are replaced as a whole, so that a crash leaves the old bytes or the new ones.

ghost use Rattle.std.specs.Prelude.{◌≡◌, ◌⊎◌, ◌<◌, List, ℕ, IfErr, OnOk};
ghost use Rattle.log_store.specs.Device.{Elapses, HasCause, IsFailed, Only};
ghost use Rattle.log_store.specs.Moments.{IsAtRest, IsEither, LeavesOnly, Stays};

use crate::device::{Device, DeviceError};

/// A device whose bytes are a file with a name in a folder, and beside which a second file can be written that then takes the name.
///
/// The contracts describe a model of a folder. A file has the bytes that are synced, whatever its name is. A name that is given to another file may
/// lead to either of them after a crash, until the folder is synced.
pub trait Replaceable: Device {
    /// The bytes of the second file.
    ghost beside: { Self → List ℕ };

    /// What a crash at this moment may leave of the second file.
    ghost beside_may_leave: { Self → List ℕ → Type 0 };

    /// What a crash at this moment may leave of the file that has the name, if the folder is synced.
    ghost named_may_leave: { Self → List ℕ → Type 0 };

    /// Writes a second file with these bytes, in the place of one that there may be.
    ///
    /// # Errors
    /// `Memory` if an allocation fails, and `Failed` if the device does.
    fn write_beside(&mut self, bytes: &[u8]) -> Result<(), DeviceError>
        ensures written { Self.Device.behaves self.old → OnOk result (beside self.new ≡ bytes.now) }
        ensures stays { Self.Device.behaves self.old → Stays Self.Device self.old self.new }
        ensures cause { Self.Device.behaves self.old
            → HasCause (Self.Device.faults self.old) (Self.Device.faults self.new) result };

    /// Returns once the second file is kept.
    ///
    /// # Errors
    /// `Memory` if an allocation fails, and `Failed` if the device does.
    fn sync_beside(&mut self) -> Result<(), DeviceError>
        ensures kept { Self.Device.behaves self.old
            → OnOk result (Only (beside self.old) (beside_may_leave self.new)) }
        ensures beside { Self.Device.behaves self.old → beside self.new ≡ beside self.old }
        ensures stays { Self.Device.behaves self.old → Stays Self.Device self.old self.new }
        ensures cause { Self.Device.behaves self.old
            → HasCause (Self.Device.faults self.old) (Self.Device.faults self.new) result };

    /// Gives the name to the second file. Until the folder is synced, a crash may leave either file under it.
    ///
    /// # Errors
    /// `Memory` if an allocation fails, and `Failed` if the device does. The second file may then have the name.
    fn rename(&mut self) -> Result<(), DeviceError>
        ensures seen { Self.Device.behaves self.old
            → OnOk result (Self.Device.seen self.new ≡ beside self.old) }
        ensures crash { Self.Device.behaves self.old → (c : List ℕ)
            → Self.Device.may_leave self.new c
            → Self.Device.may_leave self.old c ⊎ beside_may_leave self.old c }
        ensures named { Self.Device.behaves self.old → OnOk result ((c : List ℕ)
            → named_may_leave self.new c → beside_may_leave self.old c) }
        ensures time { Self.Device.behaves self.old
            → Elapses (Self.Device.moment self.old) (Self.Device.moment self.new)
            (Self.Device.left_since self.old) (Self.Device.left_since self.new)
            (Self.Device.may_leave self.new) }
        ensures cause { Self.Device.behaves self.old
            → HasCause (Self.Device.faults self.old) (Self.Device.faults self.new) result }
        ensures behaves { Self.Device.behaves self.old → Self.Device.behaves self.new };

    /// Returns once the name is kept.
    ///
    /// # Errors
    /// `Memory` if an allocation fails, and `Failed` if the device does.
    fn sync_folder(&mut self) -> Result<(), DeviceError>
        ensures kept { Self.Device.behaves self.old → OnOk result ((c : List ℕ)
            → Self.Device.may_leave self.new c → named_may_leave self.old c) }
        ensures stays { Self.Device.behaves self.old → Stays Self.Device self.old self.new }
        ensures cause { Self.Device.behaves self.old
            → HasCause (Self.Device.faults self.old) (Self.Device.faults self.new) result };
}

/// Replaces all bytes of a device, and returns once the new ones are kept: from then on a crash leaves these.
///
/// A crash during the call leaves the old bytes or the new ones.
///
/// # Errors
/// Those of the calls of [`Replaceable`]. The bytes may then be replaced or not.
///
/// # Memory
/// What the calls of the device allocate.
///
/// # Complexity
/// One write and one sync of a second file, one rename, and one sync of the folder.
pub fn replace_synced<D: Replaceable>(device: &mut D, bytes: &[u8]) -> Result<(), DeviceError>
    ensures written { IsAtRest D.Device device.old → OnOk result (IsAtRest D.Device device.new
        × (D.Device.seen device.new ≡ bytes.now)) }

    // A crash at any moment of the call leaves the old bytes or the new ones.
    ensures any_moment { IsAtRest D.Device device.old → LeavesOnly D.Device device.old device.new
        (IsEither (D.Device.seen device.old) bytes.now) }

    // A device that behaves as the model does so afterwards, whatever the result is.
    ensures works { D.Device.behaves device.old → D.Device.behaves device.new }

    // The device is not blamed for what it did not do.
    ensures failed { D.Device.behaves device.old → IfErr result (λ e. IsFailed e
        → D.Device.faults device.old < D.Device.faults device.new) }
{
    device.write_beside(bytes)?;
    device.sync_beside()?;
    device.rename()?;
    device.sync_folder()
}
