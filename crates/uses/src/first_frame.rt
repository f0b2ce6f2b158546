//! A log of two bodies is written, and the first body is read.

use log_frames::{next_frame, push_frame, push_header, read_header};
use std::alloc::{AllocError, Global};

/// Writes a log of two bodies, and returns whether the first one that is read has three bytes.
pub fn first_body_has_three_bytes(alloc: Global) -> Result<bool, AllocError> {
    let mut log = Vec::new(alloc);
    let place = push_header(&mut log, 32)?;
    let place = push_frame(&mut log, place, b"one")?;
    push_frame(&mut log, place, b"two")?;
    let Ok((place, frames)) = read_header(&log, 32) else {
        return Ok(false);
    };
    let Ok(frame) = next_frame(place, frames) else {
        return Ok(false);
    };
    Ok(frame.body.len() == 3)
}

#[cfg(test)]
mod tests {
    use super::*;
    use crate::checks::ok;

    #[test]
    fn reads_what_was_written(rt: HostRuntime) {
        assert!(rt; ok(&rt, first_body_has_three_bytes(rt.alloc())));
    }
}
