//! The program: reads a script, checks it, runs it and prints the replies, or reports an error.

ghost use Rattle.std.specs.Prelude.{◌≡◌, drop, length, map, string_bytes, is_some, IfSome, OnSome};
ghost use Rattle.bitmap_bytes.specs.Chunk.{IsWidth};
ghost use Rattle.replay.specs.Explanations.{asks_explanations};
ghost use Rattle.replay.specs.Width.{IsOfferedWidth, offered_width};

use crate::error::{ProgramError, read_error, report, write_error};
use crate::output::Output;
use crate::print::write_reply;
use crate::script;
use crate::script::Line;
use bitmap_session::command::Command;
use bitmap_session::reply::Reply;
use bitmap_session::session::Session;
use std::alloc::{AllocError, Global};
use std::io;
use std::io::{Read, Write};

// The option that asks for explanations of errors.
const EXPLAIN: &str = "--explain";

/// The message for wrong arguments.
pub const USAGE: &str = "replay: usage: replay WIDTH SCRIPT, WIDTH one of 1, 3, 4, 8, 32";

/// Returns the arguments after the option `--explain`, or `None` if the first argument is not that option.
///
/// Does not allocate; constant time.
pub fn after_option(args: &[String]) -> Option<&[String]>
    ensures option { is_some result ≡ asks_explanations (map string_bytes args.now) }
    ensures others { IfSome result (λ others. others.now ≡ drop 1 args.now) }
{
    match args {
        [first, others @ ..] if first.as_str() == EXPLAIN => Some(others),
        _ => None,
    }
}

/// Returns the chunk width in bytes if there are exactly two arguments and the first is one of the five widths.
///
/// The widths are 1, 3, 4, 8 and 32, in decimal. Returns `None` otherwise.
///
/// Does not allocate; constant time.
pub fn read_width(args: &[String]) -> Option<u8>
    ensures exact { result ≡ offered_width (map string_bytes args.now) }
    ensures width { IfSome result IsOfferedWidth }
    ensures words { OnSome result (length args.now ≡ 2) }
{
    let [width, _] = args else {
        return None;
    };
    match width.as_str() {
        "1" => Some(1),
        "3" => Some(3),
        "4" => Some(4),
        "8" => Some(8),
        "32" => Some(32),
        _ => None,
    }
}

fn read_all<R: Read + Drop>(
    alloc: Global,
    script: Result<R, io::Error>,
) -> Result<Vec<u8>, ProgramError<'static>> {
    let mut text = Vec::new(alloc);
    let mut reader = script.map_err(read_error)?;
    reader.read_to_end(&mut text).map_err(read_error)?;
    Ok(text)
}

// Fails with the first line that is not a command. Does not allocate.
fn check_lines<const N: usize>(text: &[u8]) -> Result<(), ProgramError<'_>>
    requires width { IsWidth N }
{
    for (index, line) in text.split(|byte| *byte == b'\n').enumerate() {
        if !script::is_skipped(line)
            && let Err(reason) = Line::<N>::parse(line)
        {
            return Err(ProgramError::NotACommand {
                index,
                line,
                reason,
            });
        }
    }
    Ok(())
}

// How many commands are parsed, run and printed at a time.
const PART: usize = 4096;

// Runs commands, prints their replies to `output`, and drops both.
fn run_part<const N: usize>(
    session: &mut Session<N>,
    commands: &mut Vec<Command<N>>,
    replies: &mut Vec<Reply<N>>,
    output: &mut Output,
) -> Result<(), ProgramError<'static>> {
    session.run(commands.as_slice(), replies)?;
    commands.clear();
    for reply in replies.drain(..) {
        write_reply(output, &reply).map_err(write_error)?;
    }
    Ok(())
}

// Runs the commands of a script, and returns the printed replies. Holds the commands and replies of one part at a time.
fn run_commands<const N: usize>(alloc: Global, text: &[u8]) -> Result<Output, ProgramError<'static>>
    requires width { IsWidth N }
{
    let mut session = Session::<N>::new(alloc);
    let mut commands = Vec::new(alloc);
    let mut replies = Vec::new(alloc);
    let mut output = Output::new(alloc);
    for line in text.split(|byte| *byte == b'\n') {
        if !script::is_skipped(line)
            && let Ok(line) = Line::<N>::parse(line)
        {
            let command = line.into_command(alloc)?;
            commands.push(command).map_err(AllocError::from)?;
            if commands.len() >= PART {
                run_part(&mut session, &mut commands, &mut replies, &mut output)?;
            }
        }
    }
    run_part(&mut session, &mut commands, &mut replies, &mut output)?;
    Ok(output)
}

fn run_at<'a, const N: usize, W: Write>(
    alloc: Global,
    text: &'a [u8],
    out: &mut W,
) -> Result<(), ProgramError<'a>>
    requires width { IsWidth N }
{
    check_lines::<N>(text)?;
    let output = run_commands::<N>(alloc, text)?;
    output.print(out).map_err(write_error)
}

fn run_width<'a, W: Write>(
    alloc: Global,
    width: u8,
    text: &'a [u8],
    out: &mut W,
) -> Result<(), ProgramError<'a>>
    requires offered { IsOfferedWidth width }
{
    match width {
        1 => run_at::<1, W>(alloc, text, out),
        3 => run_at::<3, W>(alloc, text, out),
        4 => run_at::<4, W>(alloc, text, out),
        8 => run_at::<8, W>(alloc, text, out),
        32 => run_at::<32, W>(alloc, text, out),
        _ => unreachable!(),
    }
}

/// Runs a script with chunks of `width` bytes, and returns the exit status.
///
/// `width` is one of the five widths. `script` is the opened script, or the error of opening it. The replies are printed to
/// `out`. An error is printed to `err`, on one line. `explained` is the path of the script if further lines say what caused the
/// error.
///
/// | Status | Meaning |
/// |---|---|
/// | 0 | the script has run, which includes refused commands |
/// | 2 | a line is not a command; nothing has run |
/// | 3 | the script cannot be read, `out` cannot be written, or an allocation outside a command has failed |
///
/// Nothing is printed to `out` before all commands have run. If an error comes before, nothing is printed there.
///
/// # Memory
///
/// Allocates the script, and all that is printed to `out`. Commands run in parts of 4096, and only the commands and replies of one
/// part are held. The commands allocate as `Session::run` says.
///
/// # Complexity
///
/// Linear in the bytes of the script and of the output, besides the run of the commands.
pub fn run_script<R: Read + Drop, W: Write, E: Write>(
    alloc: Global,
    width: u8,
    script: Result<R, io::Error>,
    explained: Option<&str>,
    out: &mut W,
    err: &mut E,
) -> u8
    requires offered { IsOfferedWidth width }
{
    let text = match read_all(alloc, script) {
        Ok(text) => text,
        Err(error) => return report(error, explained, err),
    };
    match run_width(alloc, width, text.as_slice(), out) {
        Ok(()) => 0,
        Err(error) => report(error, explained, err),
    }
}
