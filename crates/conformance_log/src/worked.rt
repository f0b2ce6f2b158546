//! The worked log, history and delta of docs/FORMATS.md: what is written has these bytes, and what is read from them is what the page says.

use crate::checked_calls::{had_bits, is_log, keeps};
use crate::checks::{equal, expect, ok};
use crate::states::{
    both, is_after_five, is_after_one, is_both, is_newer, is_newer_log, is_older, is_older_log,
    logged_once, logged_twice, older, older_logged,
};
use crate::worked_bytes::{DELTA, HISTORY, LOG};
use bitmap_core::bitmap::codec::RangeCfg;
use commit_log::{
    Change, DeltaError, EntryError, HistoryError, Log, RecoverError, Recovered, apply_change,
    apply_delta, apply_delta_logged, clear_logged, delta, drop_before_logged, history_size,
    read_history, recover, rewind_logged, write_history,
};
use historical_bitmap::bitmap::historical::CleanBitMap;
use log_frames::{HeaderError, Place, push_frame};
use std::alloc::Global;
use std::hash::{DefaultHasher, Hasher};
use std::process::Abort;
use test_support::compare::has_bits;

// Whether a log was recovered to so many good bytes, and whether others were left.
fn ends_at<const N: usize>(found: &Recovered<N>, good: u64, torn: bool) -> bool {
    found.log.position() == good && found.log.bytes().is_empty() && found.torn == torn
}

// Whether a bitmap is that of the worked log after the base.
fn is_empty(map: &CleanBitMap<1>) -> bool {
    has_bits(map.current(), 0, b"") && map.last_number().is_none() && keeps(map, &[])
}

#[test]
fn log_written(rt: HostRuntime) {
    let begun = ok(
        &rt,
        Log::<1>::begin(rt.alloc(), &CleanBitMap::new(rt.alloc())),
    );
    expect(&rt, is_log(&begun, &LOG[..90], 0x210e45243dcc6fc5));
    let Some((map, log)) = logged_once(&rt, rt.alloc()) else {
        panic!(rt; "out of memory");
    };
    expect(&rt, is_after_one(&map, &[1]));
    expect(&rt, is_log(&log, &LOG[..148], 0x047d3edd96aca7ad));
    let Some((map, mut log)) = logged_twice(&rt, rt.alloc()) else {
        panic!(rt; "out of memory");
    };
    expect(&rt, is_after_five(&map));
    expect(&rt, is_log(&log, &LOG[..215], 0xee3250713d159206));
    let mut map = ok(&rt, rewind_logged(map, 1, &mut log));
    expect(&rt, is_log(&log, &LOG[..248], 0x68ce0b476a18468b));
    ok(&rt, drop_before_logged(&mut map, 1, &mut log));
    expect(&rt, is_log(&log, &LOG[..281], 0x75872cd18716b0dc));
    expect(&rt, is_after_one(&map, &[1]));
    ok(&rt, clear_logged(&mut map, &mut log));
    expect(&rt, is_log(&log, LOG, 0x7356dd36b6d8bbf2));
    expect(&rt, is_after_one(&map, &[]));
}

// The first 90 bytes, of which further ones are torn up to the end of commit 1.
#[test]
fn base_recovered(rt: HostRuntime) {
    let found = ok(&rt, recover::<1>(rt.alloc(), &LOG[..90]));
    expect(&rt, is_empty(&found.bitmap) && ends_at(&found, 90, false));
    let found = ok(&rt, recover::<1>(rt.alloc(), &LOG[..91]));
    expect(&rt, is_empty(&found.bitmap) && ends_at(&found, 90, true));
    let found = ok(&rt, recover::<1>(rt.alloc(), &LOG[..147]));
    expect(&rt, is_empty(&found.bitmap) && ends_at(&found, 90, true));
}

#[test]
fn commits_recovered(rt: HostRuntime) {
    let found = ok(&rt, recover::<1>(rt.alloc(), &LOG[..148]));
    expect(
        &rt,
        is_after_one(&found.bitmap, &[1]) && ends_at(&found, 148, false),
    );
    expect(&rt, had_bits(&found.bitmap, 1, 0, b"101"));
    let found = ok(&rt, recover::<1>(rt.alloc(), &LOG[..215]));
    expect(
        &rt,
        is_after_five(&found.bitmap) && ends_at(&found, 215, false),
    );
}

// The clear is the last entry.
#[test]
fn clear_recovered(rt: HostRuntime) {
    let found = ok(&rt, recover::<1>(rt.alloc(), &LOG[..305]));
    expect(
        &rt,
        is_after_one(&found.bitmap, &[1]) && ends_at(&found, 281, true),
    );
    expect(&rt, had_bits(&found.bitmap, 1, 0, b"101"));
    let found = ok(&rt, recover::<1>(rt.alloc(), LOG));
    expect(
        &rt,
        is_after_one(&found.bitmap, &[]) && ends_at(&found, 306, false),
    );
    equal(&rt, found.log.digest(), 0x7356dd36b6d8bbf2);
}

#[test]
fn history_written(rt: HostRuntime) {
    let Some(map) = both(&rt, rt.alloc()) else {
        panic!(rt; "out of memory");
    };
    expect(&rt, is_both(&map));
    let mut out = Vec::new(rt.alloc());
    let place = ok(&rt, write_history(&map, &mut out));
    expect(&rt, out.as_slice() == HISTORY.as_slice());
    equal(&rt, (place.at, place.digest), (170, 0xf81be0e7abbebbc4));
    equal(&rt, history_size(&map), Some(170));
}

#[test]
fn history_read(rt: HostRuntime) {
    let any = RangeCfg::any();
    let mut from: &[u8] = HISTORY;
    let map = ok(&rt, read_history::<3>(rt.alloc(), &mut from, &any, &any));
    expect(&rt, is_both(&map) && from.is_empty());
}

#[test]
fn delta_written(rt: HostRuntime) {
    let Some(map) = both(&rt, rt.alloc()) else {
        panic!(rt; "out of memory");
    };
    let bytes = ok(&rt, delta(rt.alloc(), &map, 2, 9));
    expect(
        &rt,
        bytes.is_some_and(|bytes| bytes.as_slice() == DELTA.as_slice()),
    );
}

// At the older state the delta leads to the newer one, also if the older state is not kept.
#[test]
fn delta_applied(rt: HostRuntime) {
    let Some(map) = older(&rt, rt.alloc()) else {
        panic!(rt; "out of memory");
    };
    expect(&rt, is_older(&map));
    let map = ok(&rt, apply_delta(map, DELTA));
    expect(&rt, is_both(&map));
    let Some(mut map) = older(&rt, rt.alloc()) else {
        panic!(rt; "out of memory");
    };
    map.clear_history();
    let map = ok(&rt, apply_delta(map, DELTA));
    expect(&rt, is_newer(&map, &[9]));
}

// A replica whose log begins with the older state appends the entry of the commit, as the worked history has it.
#[test]
fn delta_logged(rt: HostRuntime) {
    let Some((map, mut log)) = older_logged(&rt, rt.alloc()) else {
        panic!(rt; "out of memory");
    };
    expect(&rt, is_older_log(&log));
    let map = ok(&rt, apply_delta_logged(map, DELTA, &mut log));
    expect(&rt, is_both(&map) && is_newer_log(&log));
    let found = ok(&rt, recover::<3>(rt.alloc(), log.bytes()));
    expect(&rt, is_both(&found.bitmap) && ends_at(&found, 170, false));
}

// Bytes that are no delta from the older state leave it and its log as they are.
fn check_not_logged(rt: &impl Abort, alloc: Global, bytes: &[u8], error: DeltaError) {
    let Some((map, mut log)) = older_logged(rt, alloc) else {
        panic!(rt; "out of memory");
    };
    let Err((map, why)) = apply_delta_logged(map, bytes, &mut log) else {
        panic!(rt; "the bytes are applied");
    };
    expect(rt, why == error);
    expect(rt, is_older(&map) && is_older_log(&log));
}

// The worked delta with another byte at one place, and the digest of its bytes.
fn delta_with(rt: &impl Abort, alloc: Global, place: usize, byte: u8) -> Vec<u8> {
    let mut bytes = Vec::new(alloc);
    ok(rt, bytes.extend_from_slice(&DELTA[..102]));
    if let Some(old) = bytes.get_mut(place) {
        *old = byte;
    }
    let mut hasher = DefaultHasher::new();
    hasher.write(&bytes);
    ok(rt, bytes.extend_from_slice(&hasher.finish().to_be_bytes()));
    bytes
}

// Each error of a delta: of the bytes, of the older state, and of the change.
#[test]
fn delta_not_logged(rt: HostRuntime) {
    check_not_logged(&rt, rt.alloc(), &DELTA[..87], DeltaError::Short);
    check_not_logged(&rt, rt.alloc(), &DELTA[..109], DeltaError::BadDigest);
    for (place, byte, error) in [
        (7, b'B', DeltaError::NotADelta),
        (15, 2, DeltaError::Version(2)),
        (23, 4, DeltaError::Width(4)),
        (31, 1, DeltaError::NotAtBase),
        (63, 2, DeltaError::Change(EntryError::Number)),
        (71, 16, DeltaError::Change(EntryError::Length)),
        (98, 9, DeltaError::Change(EntryError::Chunks)),
    ] {
        let bytes = delta_with(&rt, rt.alloc(), place, byte);
        check_not_logged(&rt, rt.alloc(), &bytes, error);
    }
}

// The error of reading a log of width 1.
fn error_of(alloc: Global, bytes: &[u8]) -> Option<RecoverError> {
    recover::<1>(alloc, bytes).err()
}

#[test]
fn log_cut_off_before_the_base(rt: HostRuntime) {
    expect(
        &rt,
        matches!(
            error_of(rt.alloc(), &LOG[..31]),
            Some(RecoverError::Header(HeaderError::Short))
        ),
    );
    for bytes in [&LOG[..32], &LOG[..89]] {
        expect(
            &rt,
            matches!(error_of(rt.alloc(), bytes), Some(RecoverError::NoBase)),
        );
    }
}

#[test]
fn history_cut_off(rt: HostRuntime) {
    let any = RangeCfg::any();
    for bytes in [&HISTORY[..98], &HISTORY[..99], &HISTORY[..169]] {
        let mut from = bytes;
        let why = read_history::<3>(rt.alloc(), &mut from, &any, &any).err();
        expect(&rt, matches!(why, Some(HistoryError::Short)));
        equal(&rt, from.len(), bytes.len());
    }
}

// A replica that is at the newer state already, and one without a commit, stay as they are.
#[test]
fn delta_refused(rt: HostRuntime) {
    let Some(map) = both(&rt, rt.alloc()) else {
        panic!(rt; "out of memory");
    };
    let Err((map, why)) = apply_delta(map, DELTA) else {
        panic!(rt; "the delta is applied twice");
    };
    expect(&rt, why == DeltaError::NotAtBase && is_both(&map));
    let Err((map, why)) = apply_delta(CleanBitMap::<3>::new(rt.alloc()), DELTA) else {
        panic!(rt; "the delta is applied to a new bitmap");
    };
    expect(
        &rt,
        why == DeltaError::NotAtBase && map.last_number().is_none(),
    );
}

// A change that prunes 2^60 chunks and leaves no bit, from the state after commit 1.
const LONG_PRUNE: Change<'static> = Change {
    number: 2,
    len: 1 << 63,
    pruned: 1 << 60,
    chunks: &[],
};

// The same as the entry of a commit.
const LONG_PRUNE_BODY: &[u8; 25] = b"\
    \x01\
    \x00\x00\x00\x00\x00\x00\x00\x02\
    \x80\x00\x00\x00\x00\x00\x00\x00\
    \x10\x00\x00\x00\x00\x00\x00\x00";

// Whether a bitmap is that after this change.
fn is_pruned(map: &CleanBitMap<1>) -> bool {
    map.len() == 1 << 63
        && keeps(map, &[1, 2])
        && had_bits(map, 1, 0, b"101")
        && had_bits(map, 2, 1 << 60, b"")
}

// A pruned count far past the end takes neither memory nor time by itself, and neither does the rewind.
#[test]
fn long_prune_applied(rt: HostRuntime) {
    let Some((map, _)) = logged_once(&rt, rt.alloc()) else {
        panic!(rt; "out of memory");
    };
    let map = ok(&rt, apply_change(map, &LONG_PRUNE));
    expect(&rt, is_pruned(&map));
    let map = ok(&rt, map.rewind_to(1));
    expect(&rt, is_after_one(&map, &[1]));
}

#[test]
fn long_prune_recovered(rt: HostRuntime) {
    let mut bytes = Vec::new(rt.alloc());
    ok(&rt, bytes.extend_from_slice(&LOG[..148]));
    let place = Place {
        at: 148,
        digest: 0x047d3edd96aca7ad,
    };
    let place = ok(&rt, push_frame(&mut bytes, place, LONG_PRUNE_BODY));
    let found = ok(&rt, recover::<1>(rt.alloc(), &bytes));
    expect(&rt, is_pruned(&found.bitmap) && ends_at(&found, 197, false));
    equal(&rt, found.log.digest(), place.digest);
    let mut log = found.log;
    let map = ok(&rt, rewind_logged(found.bitmap, 1, &mut log));
    expect(&rt, is_after_one(&map, &[1]));
    equal(&rt, log.position(), 230);
    ok(&rt, bytes.extend_from_slice(log.bytes()));
    let found = ok(&rt, recover::<1>(rt.alloc(), &bytes));
    expect(
        &rt,
        is_after_one(&found.bitmap, &[1]) && ends_at(&found, 230, false),
    );
}
