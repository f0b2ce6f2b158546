//! Bytes that are appended to a device and kept.

ghost use Rattle.std.specs.Prelude.{◌≡◌, ◌<◌, ◌≤◌, ◌++◌, IfErr, OnOk};
ghost use Rattle.log_store.specs.Device.{IsFailed, MayTear};
ghost use Rattle.log_store.specs.Moments.{IsAtRest, LeavesOnly};

use crate::device::{Device, DeviceError};

/// Appends bytes to a device, and returns once they are kept: from then on a crash leaves all of them.
///
/// A crash during the call leaves all bytes that were there, and any bytes after them, no more than are appended.
///
/// # Errors
/// Those of [`append`](Device::append) and [`sync`](Device::sync). Some or all of the bytes may then be appended, and kept or not.
///
/// # Memory
/// What the calls of the device allocate.
///
/// # Complexity
/// One append and one sync of the device.
pub fn append_synced<D: Device>(device: &mut D, bytes: &[u8]) -> Result<(), DeviceError>
    ensures written { IsAtRest D.Device device.old → OnOk result (IsAtRest D.Device device.new
        × (D.seen device.new ≡ D.seen device.old ++ bytes.now)) }

    // A crash at any moment of the call leaves what was there, and any further bytes.
    ensures any_moment { IsAtRest D.Device device.old → LeavesOnly D.Device device.old device.new
        (MayTear (D.seen device.old) (D.seen device.old ++ bytes.now)) }

    // A device that behaves as the model does so afterwards, whatever the result is.
    ensures works { D.behaves device.old → D.behaves device.new }

    // The device is not blamed for what it did not do.
    ensures failed { D.behaves device.old
        → IfErr result (λ e. IsFailed e → D.faults device.old < D.faults device.new) }
    ensures faults { D.behaves device.old → D.faults device.old ≤ D.faults device.new }
{
    device.append(bytes)?;
    device.sync()
}
