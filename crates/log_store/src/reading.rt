//! All bytes of a device that is at rest.

ghost use Rattle.std.specs.Prelude.{◌≡◌, ◌<◌, ◌≤◌, IfErr, IfOk};
ghost use Rattle.log_store.specs.Device.{IsFailed};
ghost use Rattle.log_store.specs.Moments.{IsAtRest, LeavesOnly};

use crate::device::{Device, DeviceError};
use std::alloc::Global;

// Returns all bytes of a device. A device at rest stays at rest, with the same bytes.
pub(crate) fn read_at_rest<D: Device>(alloc: Global, device: &mut D) -> Result<Vec<u8>, DeviceError>
    ensures bytes { IsAtRest D.Device device.old
        → IfOk result (λ bytes. bytes.items ≡ D.seen device.old) }
    ensures rests { IsAtRest D.Device device.old → IsAtRest D.Device device.new }
    ensures seen { IsAtRest D.Device device.old → D.seen device.new ≡ D.seen device.old }
    ensures any_moment { IsAtRest D.Device device.old
        → LeavesOnly D.Device device.old device.new (λ c. c ≡ D.seen device.old) }
    ensures works { D.behaves device.old → D.behaves device.new }
    ensures faults { D.behaves device.old → D.faults device.old ≤ D.faults device.new }
    ensures failed { D.behaves device.old
        → IfErr result (λ e. IsFailed e → D.faults device.old < D.faults device.new) }
{
    device.read_all(alloc)
}
