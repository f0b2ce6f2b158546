//! Roots and proofs as they are printed.

use authenticated_history::AuthenticatedBitMap;
use conformance_authenticated::sha::Sha;
use std::alloc::{AllocError, Global};
use std::fmt::Write;

/// Appends a line with the current root, and one with each kept number and its root.
pub fn push_roots<const N: usize>(
    alloc: Global,
    map: &AuthenticatedBitMap<N, Sha>,
    out: &mut String,
) -> Result<(), AllocError> {
    let digits = hex::encode(alloc, map.root())?;
    writeln!(out, "current {digits}")?;
    for number in map.bits().commits() {
        if let Some(root) = map.root_at(number) {
            let digits = hex::encode(alloc, root)?;
            writeln!(out, "{number} {digits}")?;
        }
    }
    Ok(())
}

/// Appends a line with the encoding of a proof, or with `refused`.
pub fn push_proof(
    alloc: Global,
    proof: Option<Vec<u8>>,
    out: &mut String,
) -> Result<(), AllocError> {
    match proof {
        Some(bytes) => {
            let digits = hex::encode(alloc, &*bytes)?;
            writeln!(out, "{digits}")
        }
        None => out.push_str("refused\n"),
    }
}
