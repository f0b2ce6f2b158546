//! Scenarios for runs in which allocations fail.
//!
//! A tool runs each test many times, and makes another allocation fail in each run. A test ends early if its set-up fails.
//! After a failed call the test shows that what it was given is unchanged and can be used. As a plain test, no allocation fails.

mod logged_sessions;
mod sessions;

use crate::checked_calls::is_log;
use crate::checks::{equal, expect};
use crate::states::{
    batch_begun, both, is_after_five, is_after_one, is_both, is_newer, is_newer_log, is_older,
    is_older_log, logged_twice, older, older_logged,
};
use crate::worked_bytes::{DELTA, HISTORY, LOG};
use bitmap_core::bitmap::codec::RangeCfg;
use commit_log::{
    DeltaError, HistoryError, Log, RecoverError, Recovered, apply_delta, apply_delta_logged,
    clear_logged, commit_logged, delta, drop_before_logged, read_history, recover, rewind_logged,
    write_history,
};
use historical_bitmap::bitmap::historical::{CleanBitMap, DirtyBitMap, Error, RewindError};
use std::alloc::{AllocError, Global};
use std::process::Abort;

// The digest of the worked history as a log.
const HISTORY_DIGEST: u64 = 0xf81be0e7abbebbc4;

// The batch of commit 5 and the log before it are as they were.
fn check_begun(rt: &impl Abort, batch: &DirtyBitMap<1>, log: &Log<1>) {
    equal(rt, batch.len(), 11);
    equal(
        rt,
        (batch.retained_bytes(0), batch.retained_bytes(1)),
        (Some([0x5d]), Some([0x06])),
    );
    expect(rt, is_log(log, &LOG[..148], 0x047d3edd96aca7ad));
}

// The state after commit 5.
fn check_five(rt: &impl Abort, map: &CleanBitMap<1>, log: &Log<1>) {
    expect(rt, is_after_five(map));
    expect(rt, is_log(log, &LOG[..215], 0xee3250713d159206));
}

// After a failed commit the batch and the log are unchanged, and the batch can be committed or aborted.
#[test]
fn commit_appended(rt: HostRuntime) {
    let Some((batch, mut log)) = batch_begun(&rt, rt.alloc()) else {
        return;
    };
    match commit_logged(batch, 5, &mut log) {
        Ok(map) => check_five(&rt, &map, &log),
        Err((batch, why)) => {
            expect(&rt, why == Error::Memory(AllocError));
            check_begun(&rt, &batch, &log);
            match commit_logged(batch, 5, &mut log) {
                Ok(map) => check_five(&rt, &map, &log),
                Err((batch, why)) => {
                    expect(&rt, why == Error::Memory(AllocError));
                    check_begun(&rt, &batch, &log);
                    expect(&rt, is_after_one(&batch.abort(), &[1]));
                }
            }
        }
    }
}

// The state after the rewind.
fn check_rewound(rt: &impl Abort, map: &CleanBitMap<1>, log: &Log<1>) {
    expect(rt, is_after_one(map, &[1]));
    expect(rt, is_log(log, &LOG[..248], 0x68ce0b476a18468b));
}

// After a failed rewind the bitmap has all its commits, and the log has no entry of it.
#[test]
fn rewind_appended(rt: HostRuntime) {
    let Some((map, mut log)) = logged_twice(&rt, rt.alloc()) else {
        return;
    };
    match rewind_logged(map, 1, &mut log) {
        Ok(map) => check_rewound(&rt, &map, &log),
        Err((map, why)) => {
            expect(&rt, why == RewindError::Memory(AllocError));
            check_five(&rt, &map, &log);
            match rewind_logged(map, 1, &mut log) {
                Ok(map) => check_rewound(&rt, &map, &log),
                Err((map, why)) => {
                    expect(&rt, why == RewindError::Memory(AllocError));
                    check_five(&rt, &map, &log);
                }
            }
        }
    }
}

// The bitmap of the worked history, and a log that begins with it, or `None` if an allocation fails.
fn history_logged(rt: &impl Abort, alloc: Global) -> Option<(CleanBitMap<3>, Log<3>)> {
    let map = both(rt, alloc)?;
    let log = Log::begin(alloc, &map).ok()?;
    Some((map, log))
}

// The bitmap and its log are as they were.
fn check_both(rt: &impl Abort, map: &CleanBitMap<3>, log: &Log<3>) {
    expect(rt, is_both(map));
    expect(rt, is_log(log, HISTORY, HISTORY_DIGEST));
}

// The log has one more entry, and recovers to the bitmap, which has these kept numbers.
fn check_appended(
    rt: &impl Abort,
    alloc: Global,
    map: &CleanBitMap<3>,
    log: &Log<3>,
    numbers: &[u64],
) {
    expect(rt, is_newer(map, numbers));
    expect(rt, log.bytes().starts_with(HISTORY));
    equal(rt, log.position(), log.bytes().len() as u64);
    if let Ok(found) = recover::<3>(alloc, log.bytes()) {
        expect(rt, is_newer(&found.bitmap, numbers) && !found.torn);
        equal(rt, found.log.digest(), log.digest());
    }
}

#[test]
fn drop_appended(rt: HostRuntime) {
    let Some((mut map, mut log)) = history_logged(&rt, rt.alloc()) else {
        return;
    };
    let failed = drop_before_logged(&mut map, 9, &mut log).is_err()
        && {
            check_both(&rt, &map, &log);
            drop_before_logged(&mut map, 9, &mut log).is_err()
        };
    if failed {
        check_both(&rt, &map, &log);
    } else {
        equal(&rt, log.position(), 203);
        check_appended(&rt, rt.alloc(), &map, &log, &[9]);
    }
}

#[test]
fn clear_appended(rt: HostRuntime) {
    let Some((mut map, mut log)) = history_logged(&rt, rt.alloc()) else {
        return;
    };
    let failed = clear_logged(&mut map, &mut log).is_err()
        && {
            check_both(&rt, &map, &log);
            clear_logged(&mut map, &mut log).is_err()
        };
    if failed {
        check_both(&rt, &map, &log);
    } else {
        equal(&rt, log.position(), 195);
        check_appended(&rt, rt.alloc(), &map, &log, &[]);
    }
}

#[test]
fn log_begun(rt: HostRuntime) {
    let Some(map) = both(&rt, rt.alloc()) else {
        return;
    };
    for _ in 0..2 {
        if let Ok(log) = Log::begin(rt.alloc(), &map) {
            expect(&rt, is_log(&log, HISTORY, HISTORY_DIGEST));
        }
        expect(&rt, is_both(&map));
    }
}

// A log of two commits and a rewind is recovered.
fn check_recovered(rt: &impl Abort, found: &Recovered<1>) {
    expect(rt, is_after_one(&found.bitmap, &[1]) && !found.torn);
    expect(rt, found.log.bytes().is_empty());
    equal(
        rt,
        (found.log.position(), found.log.digest()),
        (248, 0x68ce0b476a18468b),
    );
}

// A failed recovery is out of memory, and not damage.
#[test]
fn log_recovered(rt: HostRuntime) {
    for _ in 0..2 {
        match recover::<1>(rt.alloc(), &LOG[..248]) {
            Ok(found) => check_recovered(&rt, &found),
            Err(why) => expect(&rt, matches!(why, RecoverError::Memory(AllocError))),
        }
    }
}

// A base with bits, and a commit that prunes a chunk.
#[test]
fn history_recovered(rt: HostRuntime) {
    for _ in 0..2 {
        match recover::<3>(rt.alloc(), HISTORY) {
            Ok(found) => {
                expect(&rt, is_both(&found.bitmap) && !found.torn);
                equal(&rt, found.log.digest(), HISTORY_DIGEST);
            }
            Err(why) => expect(&rt, matches!(why, RecoverError::Memory(AllocError))),
        }
    }
}

// Some bytes, or `None` if an allocation fails.
fn copied(alloc: Global, bytes: &[u8]) -> Option<Vec<u8>> {
    let mut out = Vec::new(alloc);
    out.extend_from_slice(bytes).ok()?;
    Some(out)
}

// After a failure the vector has the bytes that it had, and no part of the history.
#[test]
fn history_written(rt: HostRuntime) {
    let Some(map) = both(&rt, rt.alloc()) else {
        return;
    };
    let Some(mut out) = copied(rt.alloc(), b"before") else {
        return;
    };
    let failed = write_history(&map, &mut out).is_err()
        && {
            expect(&rt, out.as_slice() == b"before".as_slice());
            write_history(&map, &mut out).is_err()
        };
    let after: &[u8] = if failed { b"" } else { HISTORY };
    expect(&rt, out.strip_prefix(b"before") == Some(after));
    expect(&rt, is_both(&map));
}

// The worked history and four bytes after it, or `None` if an allocation fails.
fn history_and_rest(alloc: Global) -> Option<Vec<u8>> {
    let mut bytes = copied(alloc, HISTORY)?;
    bytes.extend_from_slice(b"rest").ok()?;
    Some(bytes)
}

// After a failure no byte of the input is taken.
#[test]
fn history_read(rt: HostRuntime) {
    let Some(bytes) = history_and_rest(rt.alloc()) else {
        return;
    };
    let any = RangeCfg::any();
    for _ in 0..2 {
        let mut from = bytes.as_slice();
        match read_history::<3>(rt.alloc(), &mut from, &any, &any) {
            Ok(map) => expect(&rt, is_both(&map) && from == b"rest".as_slice()),
            Err(why) => {
                expect(&rt, matches!(why, HistoryError::Memory(AllocError)));
                expect(&rt, from == bytes.as_slice());
            }
        }
    }
}

#[test]
fn delta_written(rt: HostRuntime) {
    let Some(map) = both(&rt, rt.alloc()) else {
        return;
    };
    for _ in 0..2 {
        if let Ok(found) = delta(rt.alloc(), &map, 2, 9) {
            expect(
                &rt,
                found.is_some_and(|bytes| bytes.as_slice() == DELTA.as_slice()),
            );
        }
        expect(&rt, is_both(&map));
    }
}

// A failed delta hands back the replica as it was.
#[test]
fn delta_applied(rt: HostRuntime) {
    let Some(map) = older(&rt, rt.alloc()) else {
        return;
    };
    match apply_delta(map, DELTA) {
        Ok(map) => expect(&rt, is_both(&map)),
        Err((map, why)) => {
            expect(&rt, why == DeltaError::Memory(AllocError));
            expect(&rt, is_older(&map));
            match apply_delta(map, DELTA) {
                Ok(map) => expect(&rt, is_both(&map)),
                Err((map, why)) => {
                    expect(&rt, why == DeltaError::Memory(AllocError));
                    expect(&rt, is_older(&map));
                }
            }
        }
    }
}

// The replica is at the older state, and its log has no entry of the delta.
fn check_older(rt: &impl Abort, map: &CleanBitMap<3>, log: &Log<3>) {
    expect(rt, is_older(map) && is_older_log(log));
}

// The replica is at the newer state, and its log has the entry of the delta.
fn check_newer(rt: &impl Abort, map: &CleanBitMap<3>, log: &Log<3>) {
    expect(rt, is_both(map) && is_newer_log(log));
}

// After a failed delta the replica and its log are as they were, and the delta can be applied again.
#[test]
fn delta_appended(rt: HostRuntime) {
    let Some((map, mut log)) = older_logged(&rt, rt.alloc()) else {
        return;
    };
    match apply_delta_logged(map, DELTA, &mut log) {
        Ok(map) => check_newer(&rt, &map, &log),
        Err((map, why)) => {
            expect(&rt, why == DeltaError::Memory(AllocError));
            check_older(&rt, &map, &log);
            match apply_delta_logged(map, DELTA, &mut log) {
                Ok(map) => check_newer(&rt, &map, &log),
                Err((map, why)) => {
                    expect(&rt, why == DeltaError::Memory(AllocError));
                    check_older(&rt, &map, &log);
                }
            }
        }
    }
}
