//! The lines of a script, run on authenticated bitmaps one after another.

ghost use Rattle.bitmap_bytes.specs.Chunk.{IsWidth};

use crate::batch::Batch;
use crate::command::{Command, command_of};
use crate::proofs::{proof_at, range_proof_at};
use crate::shown::{push_proof, push_roots};
use authenticated_history::AuthenticatedBitMap;
use conformance_authenticated::sha::Sha;
use historical_bitmap::bitmap::historical::{Error, RewindError};
use std::alloc::{AllocError, Global};
use std::io;

// A bitmap outside a batch or in one.
#[derive(Drop)]
enum Bits<const N: usize> {
    Clean(AuthenticatedBitMap<N, Sha>),
    Batch(Batch<N>),
}

// Commits a batch under a number, if it is allowed.
fn committed<const N: usize>(
    batch: Batch<N>,
    number: u64,
    out: &mut String,
) -> Result<Bits<N>, AllocError> {
    match batch.commit(number) {
        Ok(map) => Ok(Bits::Clean(map)),
        Err((_, Error::Memory(why))) => Err(why),
        Err((batch, _)) => {
            out.push_str("refused\n")?;
            Ok(Bits::Batch(batch))
        }
    }
}

// Rewinds to a version, if it is kept.
fn rewound<const N: usize>(
    map: AuthenticatedBitMap<N, Sha>,
    number: u64,
    out: &mut String,
) -> Result<Bits<N>, AllocError> {
    match map.rewind_to(number) {
        Ok(map) => Ok(Bits::Clean(map)),
        Err((_, RewindError::Memory(why))) => Err(why),
        Err((map, RewindError::NoSuchCommit)) => {
            out.push_str("refused\n")?;
            Ok(Bits::Clean(map))
        }
    }
}

// Runs a command outside a batch.
fn outside<const N: usize>(
    alloc: Global,
    map: AuthenticatedBitMap<N, Sha>,
    command: Command<N>,
    out: &mut String,
) -> Result<Bits<N>, AllocError> {
    let mut map = map;
    match command {
        Command::Begin => return Ok(Bits::Batch(Batch::begin(map))),
        Command::Rewind(number) => return rewound(map, number, out),
        Command::DropBefore(number) => {
            map.prune_commits_before(number);
        }
        Command::Clear => map.clear_history(),
        Command::Roots => push_roots(alloc, &map, out)?,
        Command::Prove(number, position) => {
            push_proof(alloc, proof_at(alloc, &map, number, position)?, out)?;
        }
        Command::ProveRange(number, first, count) => {
            let proof = range_proof_at(alloc, &map, number, first, count)?;
            push_proof(alloc, proof, out)?;
        }
        _ => out.push_str("refused\n")?,
    }
    Ok(Bits::Clean(map))
}

// Runs a command in a batch.
fn inside<const N: usize>(
    batch: Batch<N>,
    command: Command<N>,
    out: &mut String,
) -> Result<Bits<N>, AllocError> {
    let mut batch = batch;
    match command {
        Command::Abort => return Ok(Bits::Clean(batch.abort())),
        Command::Commit(number) => return committed(batch, number, out),
        Command::Edit(edit) => {
            if !batch.edit(edit)? {
                out.push_str("refused\n")?;
            }
        }
        _ => out.push_str("refused\n")?,
    }
    Ok(Bits::Batch(batch))
}

// Runs a line.
fn step<const N: usize>(
    alloc: Global,
    bits: Bits<N>,
    line: &str,
    out: &mut String,
) -> Result<Bits<N>, AllocError>
    requires { IsWidth N }
{
    match (bits, command_of(line)) {
        (_, Some(Command::New)) => {
            out.push_str("new\n")?;
            Ok(Bits::Clean(AuthenticatedBitMap::new(alloc, Sha)))
        }
        (Bits::Clean(map), Some(command)) => outside(alloc, map, command, out),
        (Bits::Batch(batch), Some(command)) => inside(batch, command, out),
        (bits, None) => {
            out.push_str("refused\n")?;
            Ok(bits)
        }
    }
}

/// Runs a script, and returns what it prints: `refused` for each line that is no command, or whose command is not allowed, and what `roots`,
/// `prove` and `prove-range` print.
pub fn run<const N: usize>(alloc: Global, script: &str) -> io::Result<String>
    requires { IsWidth N }
{
    let mut out = String::new(alloc);
    let mut bits = Bits::Clean(AuthenticatedBitMap::<N, Sha>::new(alloc, Sha));
    for line in script.lines() {
        bits = step(alloc, bits, line, &mut out)?;
    }
    Ok(out)
}
