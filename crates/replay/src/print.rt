//! Printing of replies, one line each.

use bitmap_core::bitmap::Prunable;
use bitmap_core::bitmap::codec::CodecError;
use bitmap_session::reply::{Refusal, Reply};
use std::io;
use std::io::Write;

fn write_refusal<W: Write>(out: &mut W, refusal: &Refusal) -> io::Result<()> {
    match refusal {
        Refusal::WrongMode => writeln!(out, "refused wrong-mode"),
        Refusal::OutOfBounds => writeln!(out, "refused out-of-bounds"),
        Refusal::Pruned => writeln!(out, "refused pruned"),
        Refusal::TooLong => writeln!(out, "refused too-long"),
        Refusal::NoRetainedBit => writeln!(out, "refused no-retained-bit"),
        Refusal::ReservedCommitNumber => writeln!(out, "refused reserved-commit-number"),
        Refusal::NonMonotonicCommit {
            previous,
            attempted,
        } => writeln!(out, "refused non-monotonic-commit {previous} {attempted}"),
        Refusal::PrunedChunksOverflow => writeln!(out, "refused pruned-chunks-overflow"),
        Refusal::Codec(CodecError::EndOfBuffer) => writeln!(out, "refused codec end-of-buffer"),
        Refusal::Codec(CodecError::InvalidLength(len)) => {
            writeln!(out, "refused codec invalid-length {len}")
        }
        Refusal::Codec(CodecError::Invalid(what, why)) => {
            writeln!(out, "refused codec invalid {what}: {why}")
        }
        Refusal::NoSuchCommit => writeln!(out, "refused no-such-commit"),
        Refusal::Codec(CodecError::OutOfMemory) | Refusal::NoMemory => {
            writeln!(out, "refused no-memory")
        }
    }
}

// Writes the number of pruned chunks, and the retained bits in order, or `-` if there are none.
fn write_bitmap<const N: usize, W: Write>(out: &mut W, bitmap: &Prunable<N>) -> io::Result<()> {
    let chunks = bitmap.pruned_chunks();
    write!(out, "{chunks} ")?;
    let first = bitmap.pruned_bits();
    if bitmap.len() == first {
        return out.write_all(b"-");
    }
    for position in first..bitmap.len() {
        let digit = if bitmap.get_bit(position) { b"1" } else { b"0" };
        out.write_all(digit)?;
    }
    Ok(())
}

fn write_positions<W: Write>(out: &mut W, positions: &[u64]) -> io::Result<()> {
    write!(out, "positions")?;
    for position in positions {
        write!(out, " {position}")?;
    }
    writeln!(out)
}

// Writes a word, and each byte as two hexadecimal digits.
fn write_bytes<W: Write>(out: &mut W, word: &str, bytes: &[u8]) -> io::Result<()> {
    write!(out, "{word} ")?;
    for byte in bytes {
        write!(out, "{byte:02x}")?;
    }
    writeln!(out)
}

/// Prints the line of one reply.
///
/// # Errors
///
/// Returns the errors of the writer as they are.
///
/// # Memory
///
/// Does not allocate itself.
///
/// # Complexity
///
/// Linear in the bytes of the line.
pub fn write_reply<const N: usize, W: Write>(out: &mut W, reply: &Reply<N>) -> io::Result<()> {
    match reply {
        Reply::Done => writeln!(out, "done"),
        Reply::Bit(bit) => {
            let digit = u8::from(*bit);
            writeln!(out, "bit {digit}")
        }
        Reply::Number(number) => writeln!(out, "number {number}"),
        Reply::Wide(number) => writeln!(out, "entries {number}"),
        Reply::Chunk(bytes) => write_bytes(out, "chunk", &bytes[..]),
        Reply::Maybe(Some(number)) => writeln!(out, "some {number}"),
        Reply::Positions(Some(positions)) => write_positions(out, positions.as_slice()),
        Reply::Bytes(Some(bytes)) => write_bytes(out, "bytes", bytes.as_slice()),
        Reply::Snapshot(Some(bitmap)) => {
            write!(out, "bitmap ")?;
            write_bitmap(out, bitmap)?;
            writeln!(out)
        }
        Reply::Read(bitmap, left) => {
            write!(out, "read ")?;
            write_bitmap(out, bitmap)?;
            writeln!(out, " {left}")
        }
        Reply::Maybe(None) | Reply::Positions(None) | Reply::Bytes(None) | Reply::Snapshot(None) =>
            writeln!(out, "none"),
        Reply::Refused(refusal) => write_refusal(out, refusal),
    }
}
