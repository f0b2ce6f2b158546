//! States and errors as they are printed.

use crate::bytes::push_hex;
use bitmap_core::bitmap::Prunable;
use bitmap_core::bitmap::codec::Write as WriteBytes;
use commit_log::{Damage, DeltaError, HistoryError, RecoverError, Recovered};
use historical_bitmap::bitmap::historical::CleanBitMap;
use std::alloc::{AllocError, Global};
use std::fmt::Write;

// Appends the encoding of a bitmap.
fn push_bits<const N: usize>(
    alloc: Global,
    out: &mut String,
    bits: &Prunable<N>,
) -> Result<(), AllocError> {
    let mut bytes = Vec::new(alloc);
    bits.write(&mut bytes)?;
    push_hex(out, &bytes)
}

/// Appends the last number or `-`, the current bitmap, and each kept number with its bitmap.
pub fn push_state<const N: usize>(
    alloc: Global,
    out: &mut String,
    bitmap: &CleanBitMap<N>,
) -> Result<(), AllocError> {
    match bitmap.last_number() {
        Some(number) => write!(out, "{number} ")?,
        None => out.push_str("- ")?,
    }
    push_bits(alloc, out, bitmap.current())?;
    for number in bitmap.commits() {
        if let Some(bits) = bitmap.get_at_commit(number)? {
            write!(out, " {number}:")?;
            push_bits(alloc, out, &bits)?;
        }
    }
    Ok(())
}

// Appends what is damaged.
fn push_damage(out: &mut String, damage: &Damage) -> Result<(), AllocError> {
    match damage {
        Damage::Head => out.push_str("Head"),
        Damage::Digest => out.push_str("Digest"),
        Damage::Base(error) => write!(out, "Base({error:?})"),
        Damage::Entry(error) => write!(out, "Entry({error:?})"),
    }
}

// Appends why a log was not recovered, in the words of docs/FORMATS.md.
fn push_recover_error(out: &mut String, error: &RecoverError) -> Result<(), AllocError> {
    match error {
        RecoverError::Header(error) => write!(out, "Header({error:?})"),
        RecoverError::NoBase => out.push_str("NoBase"),
        RecoverError::Damaged { at, damage } => {
            write!(out, "Damaged {{ at: {at}, ")?;
            push_damage(out, damage)?;
            out.push_str(" }")
        }
        RecoverError::Memory(_) => out.push_str("Memory"),
    }
}

/// Appends a line with what a log was recovered to: the number of good bytes, their digest, `torn` or `whole`, and the state; or the error.
pub fn push_recovered<const N: usize>(
    alloc: Global,
    out: &mut String,
    found: Result<Recovered<N>, RecoverError>,
) -> Result<(), AllocError> {
    match found {
        Ok(found) => {
            let rest = if found.torn { "torn" } else { "whole" };
            let at = found.log.position();
            let digest = found.log.digest();
            write!(out, "{at} {digest} {rest} ")?;
            push_state(alloc, out, &found.bitmap)?;
        }
        Err(error) => push_recover_error(out, &error)?,
    }
    out.push('\n')?;
    Ok(())
}

/// Appends a line with the state after a delta, or the error.
pub fn push_applied<const N: usize>(
    alloc: Global,
    out: &mut String,
    bitmap: &CleanBitMap<N>,
    error: Option<DeltaError>,
) -> Result<(), AllocError> {
    match error {
        None => {
            out.push_str("applied ")?;
            push_state(alloc, out, bitmap)?;
        }
        Some(error) => write!(out, "{error:?}")?,
    }
    out.push('\n')?;
    Ok(())
}

/// Appends a line with the state that a history was read as and the number of bytes after it, or the error.
pub fn push_read<const N: usize>(
    alloc: Global,
    out: &mut String,
    found: Result<(CleanBitMap<N>, usize), HistoryError>,
) -> Result<(), AllocError> {
    match found {
        Ok((bitmap, left)) => {
            write!(out, "{left} left ")?;
            push_state(alloc, out, &bitmap)?;
        }
        Err(error) => write!(out, "{error:?}")?,
    }
    out.push('\n')?;
    Ok(())
}
