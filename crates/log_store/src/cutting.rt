//! Bytes that are cut off the end of a device for good.

ghost use Rattle.std.specs.Prelude.{◌≡◌, ◌<◌, ◌≤◌, length, take, IfErr, OnOk};
ghost use Rattle.log_store.specs.Device.{IsFailed, MayTear};
ghost use Rattle.log_store.specs.Moments.{IsAtRest, LeavesOnly};

use crate::device::{Device, DeviceError};

/// Removes the bytes of a device after the first `len`, and returns once they are gone: from then on a crash leaves the first `len` bytes.
///
/// The device has at least `len` bytes. A crash during the call leaves them, and any bytes after them, no more than are removed.
///
/// # Errors
/// Those of [`cut_to`](Device::cut_to) and [`sync`](Device::sync). Some or all of the bytes may then be removed, for good or not.
///
/// # Memory
/// What the calls of the device allocate.
///
/// # Complexity
/// One cut and one sync of the device.
pub fn cut_synced<D: Device>(device: &mut D, len: u64) -> Result<(), DeviceError>
    ensures cut { IsAtRest D.Device device.old → len ≤ length (D.seen device.old)
        → OnOk result (IsAtRest D.Device device.new
        × (D.seen device.new ≡ take len (D.seen device.old))) }

    // A crash at any moment of the call leaves the first `len` bytes, and any bytes after them.
    ensures any_moment { IsAtRest D.Device device.old → len ≤ length (D.seen device.old)
        → LeavesOnly D.Device device.old device.new
        (MayTear (D.seen device.old) (take len (D.seen device.old))) }

    // A device that behaves as the model does so afterwards, whatever the result is.
    ensures works { D.behaves device.old → D.behaves device.new }

    // The device is not blamed for what it did not do.
    ensures failed { D.behaves device.old
        → IfErr result (λ e. IsFailed e → D.faults device.old < D.faults device.new) }
    ensures faults { D.behaves device.old → D.faults device.old ≤ D.faults device.new }
{
    device.cut_to(len)?;
    device.sync()
}
