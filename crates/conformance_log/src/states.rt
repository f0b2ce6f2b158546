//! The states of the worked bytes: how they are made, and how they are compared. What allocates returns `None` if an allocation fails.

use crate::checked_calls::{
    had_bits, keeps, try_commit, try_commit_logged, try_prune_to_bit, try_push_digits,
    try_set_chunk,
};
use crate::worked_bytes::HISTORY;
use commit_log::Log;
use historical_bitmap::bitmap::historical::{CleanBitMap, DirtyBitMap};
use std::alloc::Global;
use std::process::Abort;
use test_support::compare::has_bits;

// The bits of the worked log after commit 5. Those after commit 1 are its first three.
const ELEVEN: &[u8] = b"10111010011";

// The bits of the worked history under 2, and those that it retains under 9.
const OLDER: &[u8] = b"100000010000000011111111010000001000000000000011101100";

const NEWER: &[u8] = b"00000000100000000000001010110000000000000000000011100101";

/// Returns the bitmap after commit 1 of the worked log, and the log up to there.
pub fn logged_once(rt: &impl Abort, alloc: Global) -> Option<(CleanBitMap<1>, Log<1>)> {
    let map = CleanBitMap::<1>::new(alloc);
    let mut log = Log::begin(alloc, &map).ok()?;
    let mut batch = map.into_dirty();
    try_push_digits(rt, &mut batch, b"101").ok()?;
    let map = try_commit_logged(rt, batch, 1, &mut log).ok()?;
    Some((map, log))
}

/// Returns the batch of commit 5 of the worked log, and the log before it.
pub fn batch_begun(rt: &impl Abort, alloc: Global) -> Option<(DirtyBitMap<1>, Log<1>)> {
    let (map, log) = logged_once(rt, alloc)?;
    let mut batch = map.into_dirty();
    try_push_digits(rt, &mut batch, b"11010011").ok()?;
    Some((batch, log))
}

/// Returns the bitmap after commit 5 of the worked log, and the log up to there.
pub fn logged_twice(rt: &impl Abort, alloc: Global) -> Option<(CleanBitMap<1>, Log<1>)> {
    let (batch, mut log) = batch_begun(rt, alloc)?;
    let map = try_commit_logged(rt, batch, 5, &mut log).ok()?;
    Some((map, log))
}

/// Returns whether a bitmap is that of the worked log after commit 1, with these kept numbers.
pub fn is_after_one(map: &CleanBitMap<1>, numbers: &[u64]) -> bool {
    has_bits(map.current(), 0, b"101") && map.last_number() == Some(1) && keeps(map, numbers)
}

/// Returns whether a bitmap is that of the worked log after commit 5.
pub fn is_after_five(map: &CleanBitMap<1>) -> bool {
    has_bits(map.current(), 0, ELEVEN)
        && map.last_number() == Some(5)
        && keeps(map, &[1, 5])
        && had_bits(map, 1, 0, b"101")
        && had_bits(map, 5, 0, ELEVEN)
}

/// Returns the bitmap of the worked history after commit 2.
pub fn older(rt: &impl Abort, alloc: Global) -> Option<CleanBitMap<3>> {
    let mut batch = CleanBitMap::<3>::new(alloc).into_dirty();
    try_push_digits(rt, &mut batch, OLDER).ok()?;
    try_commit(rt, batch, 2).ok()
}

/// Returns the bitmap of the worked history after commit 2, and a log that begins with it.
pub fn older_logged(rt: &impl Abort, alloc: Global) -> Option<(CleanBitMap<3>, Log<3>)> {
    let map = older(rt, alloc)?;
    let log = Log::begin(alloc, &map).ok()?;
    Some((map, log))
}

/// Returns the bitmap of the worked history.
pub fn both(rt: &impl Abort, alloc: Global) -> Option<CleanBitMap<3>> {
    let mut batch = older(rt, alloc)?.into_dirty();
    try_set_chunk(rt, &mut batch, 1, &[0x00, 0x01, 0x40]).ok()?;
    batch.extend_to(72).ok()?;
    try_push_digits(rt, &mut batch, b"11100101").ok()?;
    try_prune_to_bit(rt, &mut batch, 24).ok()?;
    try_commit(rt, batch, 9).ok()
}

/// Returns whether a bitmap is that of the worked history after commit 2.
pub fn is_older(map: &CleanBitMap<3>) -> bool {
    has_bits(map.current(), 0, OLDER)
        && map.last_number() == Some(2)
        && keeps(map, &[2])
        && had_bits(map, 2, 0, OLDER)
}

/// Returns whether a bitmap is at the newer state of the worked history, with these kept numbers.
pub fn is_newer(map: &CleanBitMap<3>, numbers: &[u64]) -> bool {
    has_bits(map.current(), 1, NEWER) && map.last_number() == Some(9) && keeps(map, numbers)
}

/// Returns whether a bitmap is that of the worked history.
pub fn is_both(map: &CleanBitMap<3>) -> bool {
    is_newer(map, &[2, 9]) && had_bits(map, 2, 0, OLDER) && had_bits(map, 9, 1, NEWER)
}

/// Returns whether a log begins with the worked history after commit 2, and has no entry. The digest is worked out by hand.
pub fn is_older_log(log: &Log<3>) -> bool {
    log.bytes().len() == 99 && log.position() == 99 && log.digest() == 0x5d5bb04d7efaea63
}

/// Returns whether a log has one entry after that, which is the entry of commit 9 in the worked history. The digest is worked out by hand.
pub fn is_newer_log(log: &Log<3>) -> bool {
    log.bytes().get(99..162) == HISTORY.as_slice().get(99..162)
        && log.bytes().len() == 170
        && log.position() == 170
        && log.digest() == 0x9994a89b2c0a452d
}
