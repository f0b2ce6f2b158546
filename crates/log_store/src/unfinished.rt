//! The bytes before a frame that was not finished.

ghost use Rattle.std.specs.Prelude.{◌≡◌, ◌≢◌, ℕ, ◌+◌, List, length, take, IfSome, IsNone, IsSome};
ghost use Rattle.log_store.specs.Gate.{IsBeforeGate, IsShut};

use crate::gate::CLOSED;
use log_frames::{Place, next_frame, read_header};

// Returns the bytes before a rest, which begins at this place, if the rest begins with a closed gate.
fn up_to_gate<'a>(bytes: &'a [u8], place: Place, rest: &[u8]) -> Option<&'a [u8]>
    requires { place.at + length rest.now ≡ length bytes.now }
    ensures some { IfSome result (λ good. good.now ≡ take place.at bytes.now) }
    ensures shut { IsSome result → IsShut rest.now }
    ensures none { IsNone result → IsShut rest.now → ⊥ }
{
    let [first, ..] = rest else {
        return None;
    };
    if *first != CLOSED {
        return None;
    }
    Some(&bytes[..place.at as usize])
}

// Returns the header and the whole frames that bytes begin with, if a closed gate follows them.
pub(crate) fn before_gate(bytes: &[u8], width: u64) -> Option<&[u8]>
    ensures found { IfSome result (λ good. IsBeforeGate width bytes.now good.now) }
    ensures none { IsNone result → (good : List ℕ) → IsBeforeGate width bytes.now good → ⊥ }
{
    let Ok((mut place, mut rest)) = read_header(bytes, width) else {
        return None;
    };
    loop {
        let frame = match next_frame(place, rest) {
            Ok(frame) => frame,
            Err(_) => return up_to_gate(bytes, place, rest),
        };
        place = frame.next;
        rest = frame.rest;
    }
}
