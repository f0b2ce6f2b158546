//! The errors of the program: how they are reported and explained.

use crate::script::LineError;
use std::alloc::AllocError;
use std::io;
use std::io::Write;

/// The message for a failed allocation outside a command.
pub const OUT_OF_MEMORY: &str = "replay: out of memory";

/// The exit status if the arguments are wrong or a line is not a command.
pub const WRONG_INPUT: u8 = 2;

/// The exit status if a file cannot be read or written, or an allocation outside a command fails.
pub const FAILED: u8 = 3;

/// Why a script was not run, or its replies were not printed.
#[derive(Drop)]
pub enum ProgramError<'a> {
    /// The script cannot be opened or read.
    CannotRead(io::Error),
    /// A line of the script is not a command. The index is counted from 0.
    NotACommand {
        index: usize,
        line: &'a [u8],
        reason: LineError,
    },
    /// An allocation outside a command failed.
    OutOfMemory,
    /// The replies cannot be printed.
    CannotWrite(io::Error),
}

impl<'a> From<AllocError> for ProgramError<'a> {
    fn from(_error: AllocError) -> ProgramError<'a> {
        ProgramError::OutOfMemory
    }
}

/// Converts an error of the reader or of the buffer that is read into.
pub fn read_error(error: io::Error) -> ProgramError<'static> {
    match error.kind() {
        io::ErrorKind::OutOfMemory => ProgramError::OutOfMemory,
        _ => ProgramError::CannotRead(error),
    }
}

/// Converts an error of the writer or of its buffer.
pub fn write_error(error: io::Error) -> ProgramError<'static> {
    match error.kind() {
        io::ErrorKind::OutOfMemory => ProgramError::OutOfMemory,
        _ => ProgramError::CannotWrite(error),
    }
}

// How many bytes of a line are printed.
const SHOWN: usize = 80;

// Prints a line of the script, with escapes for bytes that are not printable ASCII. Of a long line, the first bytes are printed.
fn print_line<E: Write>(err: &mut E, line: &[u8]) -> io::Result<()> {
    let len = line.len();
    let shown = &line[..len.min(SHOWN)];
    let text = shown.escape_ascii();
    if len > SHOWN {
        writeln!(err, "  {text}.. ({len} bytes)")
    } else {
        writeln!(err, "  {text}")
    }
}

// Prints what caused the error, if more is known than its first line says.
fn explain<E: Write>(error: &ProgramError, path: &str, err: &mut E) -> io::Result<()> {
    match error {
        ProgramError::CannotRead(cause) => writeln!(err, "  {path}: {cause}"),
        ProgramError::NotACommand { line, reason, .. } => {
            print_line(err, line)?;
            writeln!(err, "  {reason}")
        }
        ProgramError::CannotWrite(cause) => writeln!(err, "  {cause}"),
        ProgramError::OutOfMemory => Ok(()),
    }
}

// Prints the first line of an error, and returns the exit status.
fn print_error<E: Write>(error: &ProgramError, err: &mut E) -> u8 {
    match error {
        ProgramError::CannotRead(_) => {
            let _ = writeln!(err, "replay: cannot read the script");
            FAILED
        }
        ProgramError::NotACommand { index, .. } => {
            let line = *index as u128 + 1;
            let _ = writeln!(err, "replay: line {line} is not a command");
            WRONG_INPUT
        }
        ProgramError::OutOfMemory => {
            let _ = writeln!(err, "{OUT_OF_MEMORY}");
            FAILED
        }
        ProgramError::CannotWrite(_) => {
            let _ = writeln!(err, "replay: cannot write");
            FAILED
        }
    }
}

/// Prints an error to `err`, and returns the exit status.
///
/// `explained` is the path of the script if the error is explained, on up to two further lines. Errors of `err` are ignored.
///
/// Does not allocate; constant time.
pub fn report<E: Write>(error: ProgramError, explained: Option<&str>, err: &mut E) -> u8 {
    let status = print_error(&error, err);
    if let Some(path) = explained {
        let _ = explain(&error, path, err);
    }
    status
}
