//! Bytes that are written behind a gate, so that a crash leaves all of them or none that is read.

ghost use Rattle.std.specs.Prelude.{◌≡◌, ℕ, ◌<◌, ◌≤◌, ◌++◌, ◌∷◌, [], List, length, ◌+◌, IfErr, IfSome, OnOk};
ghost use Rattle.log_store.specs.Device.{IsFailed};
ghost use Rattle.log_store.specs.Gate.{IsGated, IsShutting, closed};
ghost use Rattle.log_store.specs.Moments.{IsAtRest, LeavesOnly};

use crate::appending::append_synced;
use crate::cutting::cut_synced;
use crate::device::{Device, DeviceError};
use crate::setting::set_synced;

// A closed gate: the byte at a frame's first position until the frame is kept. No frame begins with it, since its length would be 2^56 or more.
pub(crate) const CLOSED: u8 = 165;

// Returns the first of some bytes, and the others.
pub(crate) fn first_and_rest(bytes: &[u8]) -> Option<(u8, &[u8])>
    ensures { IfSome result (λ parts. bytes.now ≡ parts.0 ∷ parts.1.now) }
{
    let [first, rest @ ..] = bytes else {
        return None;
    };
    Some((*first, rest))
}

// Puts a byte and further bytes in the place of the closed gate at the end of a device. The further bytes are kept before the gate is opened.
pub(crate) fn append_gated<D: Device>(
    device: &mut D,
    at: u64,
    first: u8,
    rest: &[u8],
) -> Result<(), DeviceError>
    ensures written { (good : List ℕ) → IsAtRest D.Device device.old
        → D.seen device.old ≡ good ++ closed ∷ [] → at ≡ length good
        → OnOk result (IsAtRest D.Device device.new
        × (D.seen device.new ≡ good ++ first ∷ rest.now)) }
    ensures any_moment { (good : List ℕ) → IsAtRest D.Device device.old
        → D.seen device.old ≡ good ++ closed ∷ [] → at ≡ length good
        → LeavesOnly D.Device device.old device.new (IsGated good first rest.now) }
    ensures works { D.behaves device.old → D.behaves device.new }
    ensures failed { D.behaves device.old
        → IfErr result (λ e. IsFailed e → D.faults device.old < D.faults device.new) }
    ensures faults { D.behaves device.old → D.faults device.old ≤ D.faults device.new }
{
    append_synced(device, rest)?;
    set_synced(device, at, first)
}

// Puts a closed gate in the place of the bytes of a device from `at` on. The device has `len` bytes.
pub(crate) fn shut<D: Device>(device: &mut D, at: u64, len: u64) -> Result<(), DeviceError>
    requires { at ≤ len }
    ensures shut { (good rest : List ℕ) → IsAtRest D.Device device.old
        → D.seen device.old ≡ good ++ rest → at ≡ length good → len ≡ length good + length rest
        → OnOk result (IsAtRest D.Device device.new
        × (D.seen device.new ≡ good ++ closed ∷ [])) }
    ensures any_moment { (good rest : List ℕ) → IsAtRest D.Device device.old
        → D.seen device.old ≡ good ++ rest → at ≡ length good → len ≡ length good + length rest
        → LeavesOnly D.Device device.old device.new (IsShutting good rest) }
    ensures works { D.behaves device.old → D.behaves device.new }
    ensures failed { D.behaves device.old
        → IfErr result (λ e. IsFailed e → D.faults device.old < D.faults device.new) }
    ensures faults { D.behaves device.old → D.faults device.old ≤ D.faults device.new }
{
    if at == len {
        return append_synced(device, &[CLOSED]);
    }
    set_synced(device, at, CLOSED)?;
    cut_synced(device, at + 1)
}
