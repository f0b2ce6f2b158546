//! The lines of a script, run on a bitmap and its log.

ghost use Rattle.bitmap_bytes.specs.Chunk.{IsWidth};

use crate::bytes::{decimal, from_hex, push_hex};
use crate::edits::edit;
use crate::shown::{push_applied, push_read, push_recovered, push_state};
use bitmap_core::bitmap::codec::RangeCfg;
use commit_log::{
    Log, apply_delta, clear_logged, commit_logged, delta, drop_before_logged, read_history,
    recover, rewind_logged, write_history,
};
use historical_bitmap::bitmap::historical::{CleanBitMap, DirtyBitMap};
use std::alloc::{AllocError, Global};
use std::io;

// A bitmap outside a batch or in one.
#[derive(Drop)]
enum Bits<const N: usize> {
    Clean(CleanBitMap<N>),
    Batch(DirtyBitMap<N>),
}

// The words of a line after its name.
type Words<'a> = (Option<&'a [u8]>, Option<&'a [u8]>);

// Appends what each prefix of a log is recovered to, if it is not what the prefix one byte shorter is recovered to.
fn push_prefixes<const N: usize>(
    alloc: Global,
    out: &mut String,
    bytes: &[u8],
) -> Result<(), AllocError>
    requires { IsWidth N }
{
    let mut last = String::new(alloc);
    for count in 0..=bytes.len() {
        let mut found = String::new(alloc);
        push_recovered(alloc, &mut found, recover::<N>(alloc, &bytes[..count]))?;
        if found.as_str() != last.as_str() {
            write!(out, "{count} ")?;
            out.push_str(found.as_str())?;
        }
        last = found;
    }
    Ok(())
}

// Appends what each copy of a log with one changed byte is recovered to, if it is not what the copy before is recovered to.
fn push_changes<const N: usize>(
    alloc: Global,
    out: &mut String,
    bytes: &mut [u8],
    mask: u8,
) -> Result<(), AllocError>
    requires { IsWidth N }
{
    let mut last = String::new(alloc);
    for index in 0..bytes.len() {
        let mut found = String::new(alloc);
        bytes[index] ^= mask;
        push_recovered(alloc, &mut found, recover::<N>(alloc, bytes))?;
        bytes[index] ^= mask;
        if found.as_str() != last.as_str() {
            write!(out, "{index} ")?;
            out.push_str(found.as_str())?;
        }
        last = found;
    }
    Ok(())
}

// Appends what bytes are read as, as a history of bitmaps with at most so many retained bits, and the number of bytes after it.
fn push_history<const N: usize>(
    alloc: Global,
    out: &mut String,
    bytes: &[u8],
    most: Option<u64>,
) -> Result<(), AllocError>
    requires { IsWidth N }
{
    let bits = most.map_or(RangeCfg::any(), RangeCfg::at_most);
    let mut rest = bytes;
    let found = match read_history::<N>(alloc, &mut rest, &bits, &RangeCfg::any()) {
        Ok(bitmap) => Ok((bitmap, rest.len())),
        Err(error) => Err(error),
    };
    push_read(alloc, out, found)
}

// Appends the bytes that a line asks for. Returns whether there is a line of this name.
fn push_bytes_of<const N: usize>(
    alloc: Global,
    bitmap: &CleanBitMap<N>,
    log: &Log<N>,
    name: &str,
    words: Words<'_>,
    out: &mut String,
) -> Result<bool, AllocError> {
    match (name, decimal(words.0), decimal(words.1)) {
        ("log", ..) => push_hex(out, log.bytes())?,
        ("history", ..) => {
            let mut bytes = Vec::new(alloc);
            write_history(bitmap, &mut bytes)?;
            push_hex(out, &bytes)?;
        }
        ("state", ..) => push_state(alloc, out, bitmap)?,
        ("delta", Some(from), Some(to)) => match delta(alloc, bitmap, from, to)? {
            Some(bytes) => push_hex(out, &bytes)?,
            None => out.push_str("none")?,
        },
        _ => return Ok(false),
    }
    out.push('\n')?;
    Ok(true)
}

// Appends what bytes are read as. Returns whether there is a line of this name.
fn push_reading<const N: usize>(
    alloc: Global,
    log: &Log<N>,
    name: &str,
    words: Words<'_>,
    out: &mut String,
) -> Result<bool, AllocError>
    requires { IsWidth N }
{
    match (name, words.0) {
        ("recover", Some(word)) => {
            let bytes = from_hex(alloc, word)?;
            push_recovered(alloc, out, recover::<N>(alloc, &bytes))?;
        }
        ("read", Some(word)) => {
            let bytes = from_hex(alloc, word)?;
            push_history::<N>(alloc, out, &bytes, decimal(words.1))?;
        }
        ("prefixes", _) => push_prefixes::<N>(alloc, out, log.bytes())?,
        ("changes", Some(word)) => {
            let mut bytes = log.bytes().to_vec(alloc)?;
            let mask = decimal(Some(word)).unwrap_or(0) % 256;
            push_changes::<N>(alloc, out, &mut bytes, mask as u8)?;
        }
        _ => return Ok(false),
    }
    Ok(true)
}

// Runs a line that changes what is kept, or begins a batch. The log has an entry for it afterwards if it is accepted.
fn change<const N: usize>(
    alloc: Global,
    bitmap: CleanBitMap<N>,
    log: &mut Log<N>,
    name: &str,
    words: Words<'_>,
    out: &mut String,
) -> Result<Bits<N>, AllocError> {
    match (name, decimal(words.0)) {
        ("begin", _) => return Ok(Bits::Batch(bitmap.into_dirty())),
        ("rewind", Some(number)) => return rewound(bitmap, log, number, out),
        _ => {}
    }
    let mut bitmap = bitmap;
    match (name, decimal(words.0)) {
        ("drop-before", Some(number)) => drop_before_logged(&mut bitmap, number, log)?,
        ("clear", _) => clear_logged(&mut bitmap, log)?,
        ("begin-log", _) => *log = Log::begin(alloc, &bitmap)?,
        _ => out.push_str("no such line\n")?,
    }
    Ok(Bits::Clean(bitmap))
}

// Rewinds to a number, with its entry.
fn rewound<const N: usize>(
    bitmap: CleanBitMap<N>,
    log: &mut Log<N>,
    number: u64,
    out: &mut String,
) -> Result<Bits<N>, AllocError> {
    match rewind_logged(bitmap, number, log) {
        Ok(bitmap) => Ok(Bits::Clean(bitmap)),
        Err((bitmap, _)) => {
            out.push_str("refused\n")?;
            Ok(Bits::Clean(bitmap))
        }
    }
}

// Begins anew with so many pruned chunks, and with a log of its own.
fn start<const N: usize>(
    alloc: Global,
    log: &mut Log<N>,
    chunks: u64,
) -> Result<Option<CleanBitMap<N>>, AllocError>
    requires { IsWidth N }
{
    let Ok(bitmap) = CleanBitMap::new_with_pruned_chunks(alloc, chunks as usize) else {
        return Ok(None);
    };
    *log = Log::begin(alloc, &bitmap)?;
    Ok(Some(bitmap))
}

// Runs a line outside a batch.
fn outside<const N: usize>(
    alloc: Global,
    bitmap: CleanBitMap<N>,
    log: &mut Log<N>,
    name: &str,
    words: Words<'_>,
    out: &mut String,
) -> Result<Bits<N>, AllocError>
    requires { IsWidth N }
{
    if push_bytes_of(alloc, &bitmap, log, name, words, out)?
        || push_reading(alloc, log, name, words, out)?
    {
        return Ok(Bits::Clean(bitmap));
    }
    match (name, words.0) {
        ("start", Some(word)) => {
            let begun = start(alloc, log, decimal(Some(word)).unwrap_or(0))?;
            Ok(Bits::Clean(begun.unwrap_or(bitmap)))
        }
        ("apply", Some(word)) => {
            let bytes = from_hex(alloc, word)?;
            let (bitmap, error) = match apply_delta(bitmap, &bytes) {
                Ok(bitmap) => (bitmap, None),
                Err((bitmap, error)) => (bitmap, Some(error)),
            };
            push_applied(alloc, out, &bitmap, error)?;
            Ok(Bits::Clean(bitmap))
        }
        _ => change(alloc, bitmap, log, name, words, out),
    }
}

// Runs a line in a batch.
fn inside<const N: usize>(
    alloc: Global,
    batch: DirtyBitMap<N>,
    log: &mut Log<N>,
    name: &str,
    words: Words<'_>,
    out: &mut String,
) -> Result<Bits<N>, AllocError> {
    match (name, decimal(words.0)) {
        ("abort", _) => return Ok(Bits::Clean(batch.abort())),
        ("commit", Some(number)) => match commit_logged(batch, number, log) {
            Ok(bitmap) => return Ok(Bits::Clean(bitmap)),
            Err((batch, _)) => {
                out.push_str("refused\n")?;
                return Ok(Bits::Batch(batch));
            }
        },
        _ => {}
    }
    let mut batch = batch;
    if edit(alloc, &mut batch, name, words)?.is_none() {
        out.push_str("refused\n")?;
    }
    Ok(Bits::Batch(batch))
}

// Runs a line.
fn step<const N: usize>(
    alloc: Global,
    bits: Bits<N>,
    log: &mut Log<N>,
    line: &[u8],
    out: &mut String,
) -> Result<Bits<N>, AllocError>
    requires { IsWidth N }
{
    let mut words = line.split(|byte| *byte == b' ');
    let name = words.next().and_then(|word| str::from_utf8(word).ok());
    let name = name.unwrap_or("");
    let words = (words.next(), words.next());
    match bits {
        Bits::Clean(bitmap) => outside(alloc, bitmap, log, name, words, out),
        Bits::Batch(batch) => inside(alloc, batch, log, name, words, out),
    }
}

/// Runs a script, and returns what it prints.
pub fn run<const N: usize>(alloc: Global, script: &[u8]) -> io::Result<String>
    requires { IsWidth N }
{
    let mut out = String::new(alloc);
    let bitmap = CleanBitMap::<N>::new(alloc);
    let mut log = Log::begin(alloc, &bitmap)?;
    let mut bits = Bits::Clean(bitmap);
    for line in script.split(|byte| *byte == b'\n') {
        if !line.is_empty() {
            bits = step(alloc, bits, &mut log, line, &mut out)?;
        }
    }
    Ok(out)
}
