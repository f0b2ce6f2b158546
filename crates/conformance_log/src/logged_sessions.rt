//! Sessions with a log: what each command appends, and what is recovered from each prefix of the log.

use crate::checks::{equal, expect};
use bitmap_session::command::Command;
use bitmap_session::logged::{LoggedSession, RecoveredSession};
use bitmap_session::reply::{Refusal, Reply};
use bitmap_session::session::{ApplyDeltaError, LogError, SaveError, Session};
use commit_log::DeltaError;
use std::alloc::Global;
use std::process::Abort;

const THREE_BITS: [bool; 3] = [true, false, true];

const SEVEN_BITS: [bool; 7] = [true, false, true, true, false, false, true];

const EIGHT_BITS: [bool; 8] = [true, true, false, true, false, false, true, true];

// A session of one-byte chunks whose log has begun.
fn begun(rt: &impl Abort, alloc: Global) -> LoggedSession<1> {
    let Ok(session) = LoggedSession::begin(alloc, Session::new(alloc)) else {
        panic!(rt; "the log is not begun");
    };
    session
}

// Serves a command, and fails the test if it is an error.
fn serve(rt: &impl Abort, session: &mut LoggedSession<1>, command: &Command<1>) -> Reply<1> {
    let Ok(reply) = session.serve(command) else {
        panic!(rt; "the command is not served");
    };
    reply
}

// Begins a batch and appends these bits.
fn push_bits(rt: &impl Abort, session: &mut LoggedSession<1>, bits: &[bool]) {
    expect(
        rt,
        matches!(serve(rt, session, &Command::Begin), Reply::Done),
    );
    for bit in bits {
        expect(
            rt,
            matches!(serve(rt, session, &Command::Push(*bit)), Reply::Done),
        );
    }
}

// Whether the log of a session ends at this place.
fn ends_at(session: &LoggedSession<1>, position: u64, digest: u64) -> bool {
    session.position() == position && session.digest() == digest
}

// The worked log of docs/FORMATS.md, with the digest after each of its entries.
#[test]
fn worked_log(rt: HostRuntime) {
    let mut session = begun(&rt, rt.alloc());
    expect(&rt, ends_at(&session, 90, 0x210e45243dcc6fc5));
    push_bits(&rt, &mut session, &THREE_BITS);
    expect(&rt, ends_at(&session, 90, 0x210e45243dcc6fc5));
    expect(
        &rt,
        matches!(serve(&rt, &mut session, &Command::Commit(1)), Reply::Done),
    );
    expect(&rt, ends_at(&session, 148, 0x047d3edd96aca7ad));
    push_bits(&rt, &mut session, &EIGHT_BITS);
    expect(
        &rt,
        matches!(serve(&rt, &mut session, &Command::Commit(5)), Reply::Done),
    );
    expect(&rt, ends_at(&session, 215, 0xee3250713d159206));
    expect(
        &rt,
        matches!(serve(&rt, &mut session, &Command::Rewind(1)), Reply::Done),
    );
    expect(&rt, ends_at(&session, 248, 0x68ce0b476a18468b));
    let dropped = serve(&rt, &mut session, &Command::DropBefore(1));
    expect(&rt, matches!(dropped, Reply::Number(0)));
    expect(&rt, ends_at(&session, 281, 0x75872cd18716b0dc));
    expect(
        &rt,
        matches!(serve(&rt, &mut session, &Command::Clear), Reply::Done),
    );
    expect(&rt, session.digest() == 0x7356dd36b6d8bbf2);
    equal(&rt, session.bytes().len() as u64, session.position());
}

// A refused command and a read append nothing, and a start is an error.
#[test]
fn nothing_appended(rt: HostRuntime) {
    let mut session = begun(&rt, rt.alloc());
    let start = session.serve(&Command::Start(2));
    expect(&rt, matches!(start, Err(LogError::NoEntry)));
    let absent = serve(&rt, &mut session, &Command::Rewind(4));
    expect(&rt, matches!(absent, Reply::Refused(Refusal::NoSuchCommit)));
    let outside = serve(&rt, &mut session, &Command::Commit(4));
    expect(&rt, matches!(outside, Reply::Refused(Refusal::WrongMode)));
    push_bits(&rt, &mut session, &[true]);
    let reserved = serve(&rt, &mut session, &Command::Commit(u64::MAX));
    expect(
        &rt,
        matches!(reserved, Reply::Refused(Refusal::ReservedCommitNumber)),
    );
    for command in &[
        Command::Rewind(1),
        Command::DropBefore(1),
        Command::Clear,
        Command::Latest,
    ] {
        let refused = serve(&rt, &mut session, command);
        expect(&rt, matches!(refused, Reply::Refused(Refusal::WrongMode)));
    }
    expect(
        &rt,
        matches!(serve(&rt, &mut session, &Command::Len), Reply::Number(1)),
    );
    expect(
        &rt,
        matches!(serve(&rt, &mut session, &Command::Abort), Reply::Done),
    );
    expect(&rt, matches!(session.session().len(), Reply::Number(0)));
    expect(&rt, ends_at(&session, 90, 0x210e45243dcc6fc5));
}

// In a batch no log begins, and the session is returned as it was.
#[test]
fn no_log_in_a_batch(rt: HostRuntime) {
    let mut session = Session::<1>::new(rt.alloc());
    expect(&rt, matches!(session.serve(&Command::Begin), Reply::Done));
    expect(
        &rt,
        matches!(session.serve(&Command::Push(true)), Reply::Done),
    );
    let Err((mut session, error)) = LoggedSession::begin(rt.alloc(), session) else {
        panic!(rt; "a log begins in a batch");
    };
    expect(&rt, matches!(error, SaveError::InBatch));
    expect(&rt, matches!(session.len(), Reply::Number(1)));
    expect(
        &rt,
        matches!(session.serve(&Command::Commit(3)), Reply::Done),
    );
    let Ok(logged) = LoggedSession::begin(rt.alloc(), session) else {
        panic!(rt; "the log is not begun");
    };
    expect(&rt, matches!(logged.into_session().len(), Reply::Number(1)));
}

// The bytes are taken or forgotten, and the place stays.
#[test]
fn bytes_taken(rt: HostRuntime) {
    let mut session = begun(&rt, rt.alloc());
    let taken = session.take();
    equal(&rt, taken.len(), 90);
    equal(&rt, session.bytes().len(), 0);
    push_bits(&rt, &mut session, &THREE_BITS);
    expect(
        &rt,
        matches!(serve(&rt, &mut session, &Command::Commit(1)), Reply::Done),
    );
    equal(&rt, session.bytes().len(), 58);
    session.forget();
    equal(&rt, session.bytes().len(), 0);
    expect(&rt, ends_at(&session, 148, 0x047d3edd96aca7ad));
}

// The history of a session outside a batch.
fn saved(rt: &impl Abort, alloc: Global, session: &Session<1>) -> Vec<u8> {
    let mut bytes = Vec::new(alloc);
    expect(rt, session.save(&mut bytes).is_ok());
    bytes
}

// What a session keeps once its log has this many bytes.
#[derive(Drop)]
struct Moment {
    position: u64,
    history: Vec<u8>,
}

// The moment after a command that is served outside a batch or ends one.
fn moment_of(rt: &impl Abort, alloc: Global, session: &LoggedSession<1>) -> Moment {
    Moment {
        position: session.position(),
        history: saved(rt, alloc, session.session()),
    }
}

// Serves commands with an entry, and returns the moment after each of them.
fn each_moment(rt: &impl Abort, alloc: Global, session: &mut LoggedSession<1>) -> Vec<Moment> {
    let mut moments = Vec::new(alloc);
    expect(rt, moments.push(moment_of(rt, alloc, session)).is_ok());
    let commands = [
        Command::Commit(1),
        Command::Commit(5),
        Command::Commit(6),
        Command::DropBefore(5),
        Command::Rewind(5),
        Command::Commit(8),
        Command::Clear,
        Command::Commit(9),
    ];
    for command in &commands {
        if matches!(command, Command::Commit(_)) {
            push_bits(rt, session, &SEVEN_BITS);
        }
        let reply = serve(rt, session, command);
        expect(rt, !matches!(reply, Reply::Refused(_)));
        expect(rt, moments.push(moment_of(rt, alloc, session)).is_ok());
    }
    moments
}

// The last moment whose log has at most `len` bytes.
fn last_within(moments: &[Moment], len: u64) -> Option<&Moment> {
    let mut last = None;
    for moment in moments {
        if moment.position <= len {
            last = Some(moment);
        }
    }
    last
}

// Recovers a prefix of a log, and compares the session with the moment after the last entry that is whole in the prefix.
fn recovers(rt: &impl Abort, alloc: Global, prefix: &[u8], moments: &[Moment]) {
    let len = prefix.len() as u64;
    let (Ok(found), Some(last)) = (
        LoggedSession::<1>::recover(alloc, prefix),
        last_within(moments, len),
    ) else {
        panic!(rt; "a prefix is not recovered");
    };
    let RecoveredSession { session, torn } = found;
    equal(rt, session.position(), last.position);
    expect(rt, torn == (last.position < len));
    equal(rt, session.bytes().len(), 0);
    let history = saved(rt, alloc, session.session());
    expect(rt, history.as_slice() == last.history.as_slice());
}

// Each prefix of a log with its base recovers to the session after the last entry that is whole in it.
#[test]
fn each_prefix_recovered(rt: HostRuntime) {
    let mut session = begun(&rt, rt.alloc());
    let moments = each_moment(&rt, rt.alloc(), &mut session);
    let bytes = session.take();
    for len in 90..bytes.len() {
        if let Some(prefix) = bytes.as_slice().get(..len) {
            recovers(&rt, rt.alloc(), prefix, moments.as_slice());
        }
    }
    recovers(&rt, rt.alloc(), bytes.as_slice(), moments.as_slice());
    let base_cut_off = bytes.as_slice().get(..89).unwrap_or(&[]);
    expect(
        &rt,
        LoggedSession::<1>::recover(rt.alloc(), base_cut_off).is_err(),
    );
}

// A recovered session goes on with the log: its next entry follows the good bytes.
#[test]
fn recovered_session_goes_on(rt: HostRuntime) {
    let mut session = begun(&rt, rt.alloc());
    push_bits(&rt, &mut session, &THREE_BITS);
    expect(
        &rt,
        matches!(serve(&rt, &mut session, &Command::Commit(1)), Reply::Done),
    );
    let bytes = session.take();
    let Ok(found) = LoggedSession::<1>::recover(rt.alloc(), &bytes) else {
        panic!(rt; "the log is not recovered");
    };
    let RecoveredSession {
        session: mut again,
        torn,
    } = found;
    expect(&rt, !torn);
    push_bits(&rt, &mut again, &EIGHT_BITS);
    expect(
        &rt,
        matches!(serve(&rt, &mut again, &Command::Commit(5)), Reply::Done),
    );
    expect(&rt, ends_at(&again, 215, 0xee3250713d159206));
}

// A session of the commits 1 and 5 of the worked log, which has no log of its own.
fn worked_session(rt: &impl Abort, alloc: Global) -> Session<1> {
    let mut session = begun(rt, alloc);
    push_bits(rt, &mut session, &THREE_BITS);
    expect(
        rt,
        matches!(serve(rt, &mut session, &Command::Commit(1)), Reply::Done),
    );
    push_bits(rt, &mut session, &EIGHT_BITS);
    expect(
        rt,
        matches!(serve(rt, &mut session, &Command::Commit(5)), Reply::Done),
    );
    session.into_session()
}

// The delta between the commits of the worked log.
fn worked_delta(rt: &impl Abort, alloc: Global) -> Vec<u8> {
    let Ok(Some(bytes)) = worked_session(rt, alloc).delta(1, 5) else {
        panic!(rt; "there is no delta");
    };
    bytes
}

// A session with the log of commit 1 of the worked log.
fn worked_replica(rt: &impl Abort, alloc: Global) -> LoggedSession<1> {
    let mut session = begun(rt, alloc);
    push_bits(rt, &mut session, &THREE_BITS);
    expect(
        rt,
        matches!(serve(rt, &mut session, &Command::Commit(1)), Reply::Done),
    );
    expect(rt, ends_at(&session, 148, 0x047d3edd96aca7ad));
    session
}

// A replica that applies a delta has the log of the session that made the commit, and recovers to it.
#[test]
fn delta_applied(rt: HostRuntime) {
    let delta = worked_delta(&rt, rt.alloc());
    let mut replica = worked_replica(&rt, rt.alloc());
    expect(&rt, replica.apply_delta(&delta).is_ok());
    expect(&rt, ends_at(&replica, 215, 0xee3250713d159206));
    let Ok(found) = LoggedSession::<1>::recover(rt.alloc(), replica.bytes()) else {
        panic!(rt; "the log is not recovered");
    };
    expect(&rt, !found.torn);
    let kept = saved(&rt, rt.alloc(), &worked_session(&rt, rt.alloc()));
    let recovered = saved(&rt, rt.alloc(), found.session.session());
    expect(&rt, recovered.as_slice() == kept.as_slice());
}

// A delta that is refused leaves the session and its log, also in a batch.
#[test]
fn delta_refused(rt: HostRuntime) {
    let delta = worked_delta(&rt, rt.alloc());
    let mut replica = worked_replica(&rt, rt.alloc());
    let damaged = delta.as_slice().get(1..).unwrap_or(&[]);
    expect(
        &rt,
        matches!(
            replica.apply_delta(damaged),
            Err(ApplyDeltaError::Delta(DeltaError::NotADelta))
        ),
    );
    expect(
        &rt,
        matches!(serve(&rt, &mut replica, &Command::Begin), Reply::Done),
    );
    expect(
        &rt,
        matches!(replica.apply_delta(&delta), Err(ApplyDeltaError::InBatch)),
    );
    expect(
        &rt,
        matches!(serve(&rt, &mut replica, &Command::Abort), Reply::Done),
    );
    expect(&rt, ends_at(&replica, 148, 0x047d3edd96aca7ad));
    expect(&rt, matches!(replica.session().len(), Reply::Number(3)));
    expect(&rt, replica.apply_delta(&delta).is_ok());
    let again = replica.apply_delta(&delta);
    expect(
        &rt,
        matches!(again, Err(ApplyDeltaError::Delta(DeltaError::NotAtBase))),
    );
    expect(&rt, ends_at(&replica, 215, 0xee3250713d159206));
}

// A session and its log that are kept apart append what a session with a log does.
#[test]
fn parts_go_on(rt: HostRuntime) {
    let (mut session, mut log) = worked_replica(&rt, rt.alloc()).into_parts();
    equal(&rt, log.bytes().len(), 148);
    log.forget();
    let delta = worked_delta(&rt, rt.alloc());
    expect(
        &rt,
        session.apply_delta_with_entry(&delta, &mut log).is_ok(),
    );
    equal(
        &rt,
        (log.position(), log.digest(), log.bytes().len()),
        (215, 0xee3250713d159206, 67),
    );
    let rewound = session.serve_with_entry(&Command::Rewind(1), &mut log);
    expect(&rt, matches!(rewound, Ok(Reply::Done)));
    equal(
        &rt,
        (log.position(), log.digest()),
        (248, 0x68ce0b476a18468b),
    );
    let start = session.serve_with_entry(&Command::Start(0), &mut log);
    expect(&rt, matches!(start, Err(LogError::NoEntry)));
    equal(&rt, log.position(), 248);
}

// The log of a session that has no log yet is its history. In a batch none begins.
#[test]
fn log_begun_of_a_session(rt: HostRuntime) {
    let mut session = worked_session(&rt, rt.alloc());
    let Ok(log) = session.begin_log(rt.alloc()) else {
        panic!(rt; "the log is not begun");
    };
    let history = saved(&rt, rt.alloc(), &session);
    expect(&rt, log.bytes() == history.as_slice());
    expect(&rt, matches!(session.serve(&Command::Begin), Reply::Done));
    expect(
        &rt,
        matches!(session.begin_log(rt.alloc()), Err(SaveError::InBatch)),
    );
}

// Edits of many bits append nothing. The commit that follows has the entry of the same bits, set one by one.
#[test]
fn many_bits_edited(rt: HostRuntime) {
    let mut session = worked_replica(&rt, rt.alloc());
    expect(
        &rt,
        matches!(serve(&rt, &mut session, &Command::Begin), Reply::Done),
    );
    // After the three bits of commit 1 the eight further ones of commit 5 are appended in other ways.
    expect(&rt, session.push_bits(&[true, true, true, true]).is_ok());
    expect(&rt, session.extend_to(13).is_ok());
    expect(&rt, session.truncate(11).is_ok());
    expect(&rt, session.set_chunk(0, &[0x00]).is_ok());
    expect(&rt, session.set_range(3, 7, true).is_ok());
    expect(&rt, session.set_many(&[0, 2, 9, 10], true).is_ok());
    expect(&rt, session.set_many(&[5], false).is_ok());
    let outside = session.set_many(&[9, 11], true);
    expect(&rt, matches!(outside, Err((1, Refusal::OutOfBounds))));
    expect(&rt, ends_at(&session, 148, 0x047d3edd96aca7ad));
    expect(
        &rt,
        matches!(serve(&rt, &mut session, &Command::Commit(5)), Reply::Done),
    );
    expect(&rt, ends_at(&session, 215, 0xee3250713d159206));
    let outside = session.set_chunk(0, &[0x00]);
    expect(&rt, matches!(outside, Err(Refusal::WrongMode)));
}
