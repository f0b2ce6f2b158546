//! Commands that a session runs, with the status and the outputs of their replies.

ghost use Rattle.std.specs.Prelude.{◌≡◌, Some, length};
ghost use Rattle.bitmap_bytes.specs.Chunk.{IsWidth};
ghost use Rattle.bitmap_session.specs.Abstraction.{value_of};
ghost use Rattle.bitmap_session.specs.Replies.ReplyValue.{Bytes};
ghost use Rattle.bitmap_c.specs.Calls.{Serves, ServesChunk};
ghost use Rattle.bitmap_c.specs.Logged.{ServesLogged, StepsLogged};
ghost use Rattle.bitmap_c.specs.Reports.{Reports, ReportsBit, ReportsBytes, ReportsChunk, ReportsEdit, ReportsEntries, ReportsNumber, ReportsPop, ReportsPrevious, bit_or, chunk_or, edit_reply_status, entries_or, number_or, previous_or, reply_status};

use crate::status::{DONE, NO_SUCH_COMMIT, NONE, WRONG_SIZE, edit_refusal_status, refusal_status};
use bitmap_session::command::Command;
use bitmap_session::reply::{Refusal, Reply};
use bitmap_session::session::Session;
use commit_log::Log;

// Returns the status of a reply to a call that needs that there is no batch, or reads the pending bitmap in one.
fn reply_status<const N: usize>(reply: &Reply<N>) -> u32
    ensures { result ≡ reply_status (value_of reply.now) }
{
    match reply {
        Reply::Refused(refusal) => refusal_status(refusal),
        Reply::Maybe(None) | Reply::Positions(None) | Reply::Snapshot(None) => NONE,
        Reply::Bytes(None) => NO_SUCH_COMMIT,
        _ => DONE,
    }
}

// Returns the status of a reply to a call that needs a batch.
fn edit_reply_status<const N: usize>(reply: &Reply<N>) -> u32
    ensures { result ≡ edit_reply_status (value_of reply.now) }
{
    match reply {
        Reply::Refused(refusal) => edit_refusal_status(refusal),
        _ => reply_status(reply),
    }
}

// Writes the bit of a reply.
#[inline(always)]
fn write_bit<const N: usize>(reply: &Reply<N>, bit: &mut u8)
    ensures { bit.new ≡ bit_or (value_of reply.now) bit.old }
{
    if let Reply::Bit(value) = reply {
        *bit = *value as u8;
    }
}

// Returns the status of a reply, and writes its bit.
#[inline(always)]
fn report_bit<const N: usize>(reply: &Reply<N>, bit: &mut u8) -> u32
    ensures status { result ≡ reply_status (value_of reply.now) }
    ensures bit { bit.new ≡ bit_or (value_of reply.now) bit.old }
{
    write_bit(reply, bit);
    reply_status(reply)
}

// Returns the status of a reply, and writes its number.
fn report_number<const N: usize>(reply: &Reply<N>, number: &mut u64) -> u32
    ensures status { result ≡ reply_status (value_of reply.now) }
    ensures number { number.new ≡ number_or (value_of reply.now) number.old }
{
    match reply {
        Reply::Number(value) | Reply::Maybe(Some(value)) => *number = *value,
        _ => {}
    }
    reply_status(reply)
}

// Returns the status of a reply, and writes its number of entries, or `u64::MAX` if it is above that.
fn report_entries<const N: usize>(reply: &Reply<N>, entries: &mut u64) -> u32
    ensures status { result ≡ reply_status (value_of reply.now) }
    ensures entries { entries.new ≡ entries_or (value_of reply.now) entries.old }
{
    if let Reply::Wide(value) = reply {
        *entries = (*value).min(u64::MAX as u128) as u64;
    }
    reply_status(reply)
}

// Returns the status of the reply to a commit, and writes the last number if it refuses a commit number that is not above it.
fn report_previous<const N: usize>(reply: &Reply<N>, previous: &mut u64) -> u32
    ensures status { result ≡ edit_reply_status (value_of reply.now) }
    ensures previous { previous.new ≡ previous_or (value_of reply.now) previous.old }
{
    if let Reply::Refused(Refusal::NonMonotonicCommit { previous: last, .. }) = reply {
        *previous = *last;
    }
    edit_reply_status(reply)
}

// Writes a chunk to a buffer of its size.
fn write_chunk<const N: usize>(chunk: &[u8; N], out: &mut [u8])
    requires size { length out.old ≡ N }
    ensures { out.new ≡ chunk.now }
{
    out.copy_from_slice(chunk);
}

// Returns the status of a reply, and writes its chunk.
fn report_chunk<const N: usize>(reply: &Reply<N>, out: &mut [u8]) -> u32
    requires size { length out.old ≡ N }
    ensures status { result ≡ reply_status (value_of reply.now) }
    ensures chunk { out.new ≡ chunk_or (value_of reply.now) out.old }
{
    if let Reply::Chunk(bytes) = reply {
        write_chunk(bytes, out);
    }
    reply_status(reply)
}

/// Writes the size of bytes, and the bytes if the buffer has this size. Returns whether it has.
#[tactic(auto, unfolding(crate::specs::Reports::ReportsBytes))]
pub fn copy_bytes(bytes: &[u8], out: &mut [u8], size: &mut usize) -> u32
    ensures { ReportsBytes result size.old size.new out.old out.new (Bytes (Some bytes.now)) }
{
    *size = bytes.len();
    if bytes.len() != out.len() {
        return WRONG_SIZE;
    }
    out.copy_from_slice(bytes);
    DONE
}

/// Returns the status of a reply, and writes the size of its bytes, and the bytes if the buffer has this size.
#[tactic(auto, unfolding(crate::specs::Reports::ReportsBytes))]
pub fn report_bytes<const N: usize>(reply: &Reply<N>, out: &mut [u8], size: &mut usize) -> u32
    ensures { ReportsBytes result size.old size.new out.old out.new (value_of reply.now) }
{
    match reply {
        Reply::Bytes(Some(bytes)) => copy_bytes(bytes.as_slice(), out, size),
        _ => reply_status(reply),
    }
}

/// Runs a command, and returns the status of its reply.
#[tactic(auto, unfolding(crate::specs::Calls::Serves, crate::specs::Reports::Reports))]
pub fn run<const N: usize>(session: &mut Session<N>, command: Command<N>) -> u32
    requires width { IsWidth N }
    ensures { Serves N session.old command.entry (Reports result) session.new }
{
    reply_status(&session.serve(&command))
}

// Runs a command, and appends its entry if there is a log. Returns the reply, which is that an allocation failed if the entry was not
// appended.
#[tactic(auto, unfolding(crate::specs::Logged::StepsLogged))]
fn serve_logged<const N: usize>(
    session: &mut Session<N>,
    log: &mut Option<Log<N>>,
    command: &Command<N>,
) -> Reply<N>
    requires width { IsWidth N }
    ensures { StepsLogged N session.old log.old command.now (value_of result)
        session.new log.new }
{
    match log {
        Some(log) => match session.serve_with_entry(command, log) {
            Ok(reply) => reply,
            Err(_) => Reply::Refused(Refusal::NoMemory),
        },
        None => session.serve(command),
    }
}

/// Runs `Commit` with its entry if there is a log, returns the status of its reply, and writes the last number if the reply has one.
#[tactic(auto, unfolding(crate::specs::Logged::ServesLogged, crate::specs::Reports::ReportsPrevious))]
pub fn run_commit<const N: usize>(
    session: &mut Session<N>,
    log: &mut Option<Log<N>>,
    number: u64,
    previous: &mut u64,
) -> u32
    requires width { IsWidth N }
    ensures { ServesLogged N session.old log.old (Command.Commit number)
        (ReportsPrevious result previous.old previous.new) session.new log.new }
{
    report_previous(
        &serve_logged(session, log, &Command::Commit(number)),
        previous,
    )
}

/// Runs a command with its entry if there is a log, and returns the status of its reply.
#[tactic(auto, unfolding(crate::specs::Logged::ServesLogged, crate::specs::Reports::Reports))]
pub fn run_logged<const N: usize>(
    session: &mut Session<N>,
    log: &mut Option<Log<N>>,
    command: Command<N>,
) -> u32
    requires width { IsWidth N }
    ensures { ServesLogged N session.old log.old command.entry (Reports result)
        session.new log.new }
{
    reply_status(&serve_logged(session, log, &command))
}

/// Runs a command with its entry if there is a log, returns the status of its reply, and writes its number.
#[tactic(auto, unfolding(crate::specs::Logged::ServesLogged, crate::specs::Reports::ReportsNumber))]
pub fn run_number_logged<const N: usize>(
    session: &mut Session<N>,
    log: &mut Option<Log<N>>,
    command: Command<N>,
    number: &mut u64,
) -> u32
    requires width { IsWidth N }
    ensures { ServesLogged N session.old log.old command.entry
        (ReportsNumber result number.old number.new) session.new log.new }
{
    report_number(&serve_logged(session, log, &command), number)
}

/// Runs `Entries` in place, returns the status of its reply, and writes the number of entries.
#[tactic(auto, unfolding(crate::specs::Calls::Serves, crate::specs::Reports::ReportsEntries))]
pub fn run_entries<const N: usize>(session: &Session<N>, entries: &mut u64) -> u32
    requires width { IsWidth N }
    ensures { Serves N session.now Command.Entries (ReportsEntries result entries.old entries.new)
        session.now }
{
    report_entries(&session.entries(), entries)
}

/// Runs `Chunk` in place if the buffer has the size of a chunk: returns the status of the reply, and writes its chunk.
#[tactic(auto, unfolding(crate::specs::Calls::Serves, crate::specs::Calls::ServesChunk, crate::specs::Reports::ReportsChunk))]
pub fn run_chunk<const N: usize>(session: &Session<N>, position: u64, out: &mut [u8]) -> u32
    requires width { IsWidth N }
    ensures { ServesChunk N (length out.old) session.now (Command.Chunk position)
        (ReportsChunk result out.old out.new) ((result ≡ WRONG_SIZE) × (out.new ≡ out.old))
        session.now }
{
    if out.len() != N {
        return WRONG_SIZE;
    }
    report_chunk(&session.chunk(position), out)
}

/// Runs `Push` in place, and returns the status of its reply.
#[tactic(auto, unfolding(crate::specs::Calls::Serves, crate::specs::Reports::ReportsEdit))]
pub fn run_push<const N: usize>(session: &mut Session<N>, bit: bool) -> u32
    requires width { IsWidth N }
    ensures { Serves N session.old (Command.Push bit) (ReportsEdit result) session.new }
{
    edit_reply_status(&session.push(bit))
}

/// Runs `PushByte` in place, and returns the status of its reply.
#[tactic(auto, unfolding(crate::specs::Calls::Serves, crate::specs::Reports::ReportsEdit))]
pub fn run_push_byte<const N: usize>(session: &mut Session<N>, byte: u8) -> u32
    requires width { IsWidth N }
    ensures { Serves N session.old (Command.PushByte byte) (ReportsEdit result) session.new }
{
    edit_reply_status(&session.push_byte(byte))
}

/// Runs `PushChunk` in place if the bytes have the size of a chunk, and returns the status of its reply.
#[tactic(auto, unfolding(crate::specs::Calls::Serves, crate::specs::Calls::ServesChunk, crate::specs::Reports::ReportsEdit))]
pub fn run_push_chunk<const N: usize>(session: &mut Session<N>, bytes: &[u8]) -> u32
    requires width { IsWidth N }
    ensures { ServesChunk N (length bytes.now) session.old (Command.PushChunk bytes.now)
        (ReportsEdit result) (result ≡ WRONG_SIZE) session.new }
{
    if bytes.len() != N {
        return WRONG_SIZE;
    }
    let mut chunk = [0; N];
    chunk.copy_from_slice(bytes);
    edit_reply_status(&session.push_chunk(&chunk))
}

/// Runs `Pop` in place, returns the status of its reply, and writes the bit.
#[tactic(auto, unfolding(crate::specs::Calls::Serves, crate::specs::Reports::ReportsPop))]
pub fn run_pop<const N: usize>(session: &mut Session<N>, bit: &mut u8) -> u32
    requires width { IsWidth N }
    ensures { Serves N session.old Command.Pop (ReportsPop result bit.old bit.new) session.new }
{
    let reply = session.pop();
    write_bit(&reply, bit);
    edit_reply_status(&reply)
}

/// Runs `Set` in place, and returns the status of its reply.
#[tactic(auto, unfolding(crate::specs::Calls::Serves, crate::specs::Reports::ReportsEdit))]
pub fn run_set<const N: usize>(session: &mut Session<N>, position: u64, bit: bool) -> u32
    requires width { IsWidth N }
    ensures { Serves N session.old (Command.Set position bit) (ReportsEdit result) session.new }
{
    edit_reply_status(&session.set(position, bit))
}

/// Runs `Prune` in place, and returns the status of its reply.
#[tactic(auto, unfolding(crate::specs::Calls::Serves, crate::specs::Reports::ReportsEdit))]
pub fn run_prune<const N: usize>(session: &mut Session<N>, position: u64) -> u32
    requires width { IsWidth N }
    ensures { Serves N session.old (Command.Prune position) (ReportsEdit result) session.new }
{
    edit_reply_status(&session.prune(position))
}

/// Runs `Abort`, and returns the status of its reply.
#[tactic(auto, unfolding(crate::specs::Calls::Serves, crate::specs::Reports::ReportsEdit))]
pub fn run_abort<const N: usize>(session: &mut Session<N>) -> u32
    requires width { IsWidth N }
    ensures { Serves N session.old Command.Abort (ReportsEdit result) session.new }
{
    edit_reply_status(&session.serve(&Command::Abort))
}

/// Runs `Get` in place, returns the status of its reply, and writes the bit.
#[tactic(auto, unfolding(crate::specs::Calls::Serves, crate::specs::Reports::ReportsBit))]
pub fn run_get<const N: usize>(session: &Session<N>, position: u64, bit: &mut u8) -> u32
    requires width { IsWidth N }
    ensures { Serves N session.now (Command.Get position) (ReportsBit result bit.old bit.new)
        session.now }
{
    report_bit(&session.get(position), bit)
}

/// Runs `Len` in place, returns the status of its reply, and writes the length.
#[tactic(auto, unfolding(crate::specs::Calls::Serves, crate::specs::Reports::ReportsNumber))]
pub fn run_len<const N: usize>(session: &Session<N>, len: &mut u64) -> u32
    requires width { IsWidth N }
    ensures { Serves N session.now Command.Len (ReportsNumber result len.old len.new) session.now }
{
    report_number(&session.len(), len)
}

/// Runs `PrunedChunks` in place, returns the status of its reply, and writes the number of chunks.
#[tactic(auto, unfolding(crate::specs::Calls::Serves, crate::specs::Reports::ReportsNumber))]
pub fn run_pruned_chunks<const N: usize>(session: &Session<N>, chunks: &mut u64) -> u32
    requires width { IsWidth N }
    ensures { Serves N session.now Command.PrunedChunks (ReportsNumber result chunks.old chunks.new)
        session.now }
{
    report_number(&session.pruned_chunks(), chunks)
}

/// Runs `Exists` in place, returns the status of its reply, and writes the bit.
#[tactic(auto, unfolding(crate::specs::Calls::Serves, crate::specs::Reports::ReportsBit))]
pub fn run_exists<const N: usize>(session: &Session<N>, number: u64, exists: &mut u8) -> u32
    requires width { IsWidth N }
    ensures { Serves N session.now (Command.Exists number) (ReportsBit result exists.old exists.new)
        session.now }
{
    report_bit(&session.exists(number), exists)
}

/// Runs `Latest` in place, returns the status of its reply, and writes the number.
#[tactic(auto, unfolding(crate::specs::Calls::Serves, crate::specs::Reports::ReportsNumber))]
pub fn run_latest<const N: usize>(session: &Session<N>, number: &mut u64) -> u32
    requires width { IsWidth N }
    ensures { Serves N session.now Command.Latest (ReportsNumber result number.old number.new)
        session.now }
{
    report_number(&session.latest(), number)
}

/// Runs `Earliest` in place, returns the status of its reply, and writes the number.
#[tactic(auto, unfolding(crate::specs::Calls::Serves, crate::specs::Reports::ReportsNumber))]
pub fn run_earliest<const N: usize>(session: &Session<N>, number: &mut u64) -> u32
    requires width { IsWidth N }
    ensures { Serves N session.now Command.Earliest (ReportsNumber result number.old number.new)
        session.now }
{
    report_number(&session.earliest(), number)
}

/// Runs `Encode` in place, returns the status of its reply, and writes the size of its bytes, and the bytes if the buffer has this size.
#[tactic(auto, unfolding(crate::specs::Calls::Serves))]
pub fn run_encode<const N: usize>(session: &Session<N>, out: &mut [u8], size: &mut usize) -> u32
    requires width { IsWidth N }
    ensures { Serves N session.now Command.Encode
        (ReportsBytes result size.old size.new out.old out.new) session.now }
{
    report_bytes(&session.encode(), out, size)
}

/// Runs `EncodeAt` in place, returns the status of its reply, and writes the size of its bytes, and the bytes if the buffer has this size.
#[tactic(auto, unfolding(crate::specs::Calls::Serves))]
pub fn run_encode_at<const N: usize>(
    session: &Session<N>,
    number: u64,
    out: &mut [u8],
    size: &mut usize,
) -> u32
    requires width { IsWidth N }
    ensures { Serves N session.now (Command.EncodeAt number)
        (ReportsBytes result size.old size.new out.old out.new) session.now }
{
    report_bytes(&session.encode_at(number), out, size)
}
