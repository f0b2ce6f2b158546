//! A byte of a device that is set for good.

ghost use Rattle.std.specs.Prelude.{◌≡◌, ◌<◌, ◌≤◌, length, IfErr, OnOk};
ghost use Rattle.log_store.specs.Device.{IsFailed, MayTear, with_byte};
ghost use Rattle.log_store.specs.Moments.{IsAtRest, LeavesOnly};

use crate::device::{Device, DeviceError};

/// Replaces the byte at position `at` of a device, and returns once it is kept: from then on a crash leaves it.
///
/// The device has more than `at` bytes. A crash during the call leaves all bytes, the one at `at` as it was or as it will be.
///
/// # Errors
/// Those of [`set_byte`](Device::set_byte) and [`sync`](Device::sync). The byte may then be replaced, for good or not.
///
/// # Memory
/// What the calls of the device allocate.
///
/// # Complexity
/// One byte set and one sync of the device.
pub fn set_synced<D: Device>(device: &mut D, at: u64, byte: u8) -> Result<(), DeviceError>
    ensures written { IsAtRest D.Device device.old → at < length (D.seen device.old)
        → OnOk result (IsAtRest D.Device device.new
        × (D.seen device.new ≡ with_byte at byte (D.seen device.old))) }

    // A crash at any moment of the call leaves the old byte or the new one.
    ensures any_moment { IsAtRest D.Device device.old → at < length (D.seen device.old)
        → LeavesOnly D.Device device.old device.new
        (MayTear (D.seen device.old) (with_byte at byte (D.seen device.old))) }

    // A device that behaves as the model does so afterwards, whatever the result is.
    ensures works { D.behaves device.old → D.behaves device.new }

    // The device is not blamed for what it did not do.
    ensures failed { D.behaves device.old
        → IfErr result (λ e. IsFailed e → D.faults device.old < D.faults device.new) }
    ensures faults { D.behaves device.old → D.faults device.old ≤ D.faults device.new }
{
    device.set_byte(at, byte)?;
    device.sync()
}
