//! Sessions that make many edits of a batch at once, and read the pending bitmap in place.

use crate::checks::{equal, expect};
use crate::commands::{is_done, len, run_one};
use bitmap_core::bitmap::Readable;
use bitmap_session::command::Command;
use bitmap_session::reply::{Refusal, Reply};
use bitmap_session::session::Session;
use std::alloc::Global;
use std::process::Abort;

// A session in a batch, whose pending bitmap has `zeros` zeros.
fn batch_of_zeros(rt: &impl Abort, alloc: Global, zeros: u64) -> Session<3> {
    let mut session = Session::<3>::new(alloc);
    expect(rt, is_done(rt, alloc, &mut session, Command::Begin));
    expect(rt, session.extend_to(zeros).is_ok());
    session
}

// The number of set bits of the pending bitmap, if there is a batch.
fn pending_ones(session: &Session<3>) -> Option<u64> {
    let bitmap = session.pending()?;
    // The prover learns the bounds of the width from this call.
    let _ = Readable::len(bitmap);
    Some(bitmap.count_ones_range(0..u64::MAX))
}

// The first set position of the pending bitmap from one on, and the first zero from there on.
fn next_run(session: &Session<3>, from: u64) -> Option<(u64, u64)> {
    let bitmap = session.pending()?;
    let start = bitmap.next_one(from)?;
    let end = bitmap.next_zero(start)?;
    Some((start, end))
}

// The reason why a call is refused, if it is one of these.
fn is_out_of_bounds(reply: &Result<(), Refusal>) -> bool {
    matches!(reply, Err(Refusal::OutOfBounds))
}

fn is_pruned(reply: &Result<(), Refusal>) -> bool {
    matches!(reply, Err(Refusal::Pruned))
}

fn is_wrong_mode(reply: &Result<(), Refusal>) -> bool {
    matches!(reply, Err(Refusal::WrongMode))
}

// Zeros in five chunks of 24 bits, a range of ones in three of them, two chunks replaced, and an end cut off, worked out by hand.
#[test]
fn a_hundred_bits_in_five_chunks(rt: HostRuntime) {
    let mut session = batch_of_zeros(&rt, rt.alloc(), 100);
    equal(&rt, pending_ones(&session), Some(0));
    expect(&rt, session.set_range(10, 60, true).is_ok());
    equal(&rt, pending_ones(&session), Some(50));
    equal(&rt, next_run(&session, 0), Some((10, 60)));
    // The ones of the second chunk are now at 24 to 27 and at 44 to 47.
    expect(&rt, session.set_chunk(1, &[0x0f, 0, 0xf0]).is_ok());
    equal(&rt, pending_ones(&session), Some(34));
    equal(&rt, next_run(&session, 0), Some((10, 28)));
    equal(&rt, next_run(&session, 28), Some((44, 60)));
    // The last chunk has four bits below the length.
    expect(&rt, session.set_chunk(4, &[0xff; 3]).is_ok());
    equal(&rt, pending_ones(&session), Some(38));
    expect(&rt, session.truncate(50).is_ok());
    equal(&rt, pending_ones(&session), Some(24));
    expect(&rt, session.push_bits(&[true; 27]).is_ok());
    equal(&rt, pending_ones(&session), Some(51));
    equal(&rt, len(&rt, rt.alloc(), &mut session), Some(77));
    expect(&rt, session.extend_to(76).is_ok());
    equal(&rt, len(&rt, rt.alloc(), &mut session), Some(77));
    expect(
        &rt,
        is_done(&rt, rt.alloc(), &mut session, Command::Commit(1)),
    );
    expect(&rt, session.pending().is_none());
    let ones = run_one(&rt, rt.alloc(), &mut session, Command::Ones(40, 48));
    expect(
        &rt,
        matches!(&ones, Reply::Positions(Some(found)) if found.as_slice() == [44, 45, 46, 47].as_slice()),
    );
}

// Outside a batch each of these calls is refused, and there is no pending bitmap.
#[test]
fn edits_outside_a_batch(rt: HostRuntime) {
    let mut session = Session::<3>::new(rt.alloc());
    expect(&rt, is_wrong_mode(&session.set_chunk(0, &[0; 3])));
    expect(&rt, is_wrong_mode(&session.set_range(0, 0, true)));
    expect(&rt, is_wrong_mode(&session.truncate(0)));
    expect(&rt, is_wrong_mode(&session.extend_to(0)));
    expect(&rt, is_wrong_mode(&session.push_bits(&[])));
    expect(
        &rt,
        matches!(
            session.set_many(&[0, 1], true),
            Err((0, Refusal::WrongMode))
        ),
    );
    expect(&rt, session.set_many(&[], true).is_ok());
    expect(&rt, session.pending().is_none());
}

// Sixty bits, of which the first chunk is pruned. Each refused call leaves them as they were.
#[test]
fn refusals_of_positions(rt: HostRuntime) {
    let mut session = batch_of_zeros(&rt, rt.alloc(), 60);
    expect(
        &rt,
        is_done(&rt, rt.alloc(), &mut session, Command::Prune(24)),
    );
    expect(&rt, is_pruned(&session.set_chunk(0, &[0xff; 3])));
    expect(&rt, is_out_of_bounds(&session.set_chunk(3, &[0xff; 3])));
    expect(&rt, is_pruned(&session.set_range(23, 60, true)));
    expect(&rt, is_out_of_bounds(&session.set_range(24, 61, true)));
    expect(&rt, is_out_of_bounds(&session.set_range(23, 61, true)));
    expect(&rt, is_pruned(&session.truncate(23)));
    expect(&rt, is_out_of_bounds(&session.truncate(61)));
    equal(&rt, pending_ones(&session), Some(0));
    equal(&rt, len(&rt, rt.alloc(), &mut session), Some(60));
    // Empty ranges are not refused, wherever they are.
    expect(&rt, session.set_range(0, 0, true).is_ok());
    expect(&rt, session.set_range(99, 7, true).is_ok());
    equal(&rt, pending_ones(&session), Some(0));
    // The first and the last chunk, and the first and the last position.
    expect(&rt, session.set_chunk(1, &[0x81; 3]).is_ok());
    expect(&rt, session.set_chunk(2, &[0x81; 3]).is_ok());
    equal(&rt, pending_ones(&session), Some(9));
    expect(&rt, session.set_range(24, 60, true).is_ok());
    equal(&rt, pending_ones(&session), Some(36));
    expect(&rt, session.truncate(60).is_ok());
    expect(&rt, session.truncate(24).is_ok());
    equal(&rt, pending_ones(&session), Some(0));
    equal(&rt, len(&rt, rt.alloc(), &mut session), Some(24));
}

// The positions of a list are set up to the first that is refused.
#[test]
fn positions_up_to_the_first_that_is_refused(rt: HostRuntime) {
    let mut session = batch_of_zeros(&rt, rt.alloc(), 80);
    expect(
        &rt,
        matches!(
            session.set_many(&[79, 0, 30, 80, 3], true),
            Err((3, Refusal::OutOfBounds))
        ),
    );
    equal(&rt, pending_ones(&session), Some(3));
    equal(&rt, next_run(&session, 1), Some((30, 31)));
    expect(&rt, session.set_many(&[3, 30, 31, 3], true).is_ok());
    equal(&rt, pending_ones(&session), Some(5));
    expect(&rt, session.set_many(&[0, 31], false).is_ok());
    equal(&rt, pending_ones(&session), Some(3));
    equal(&rt, next_run(&session, 0), Some((3, 4)));
}

// At the greatest length that is a multiple of 24, fifteen bits can be appended, and not sixteen.
#[test]
fn bits_up_to_the_greatest_length(rt: HostRuntime) {
    let mut session = Session::<3>::new(rt.alloc());
    let start = Command::Start(768_614_336_404_564_650);
    expect(&rt, is_done(&rt, rt.alloc(), &mut session, start));
    expect(&rt, is_done(&rt, rt.alloc(), &mut session, Command::Begin));
    expect(
        &rt,
        matches!(session.push_bits(&[true; 16]), Err(Refusal::TooLong)),
    );
    equal(&rt, pending_ones(&session), Some(0));
    expect(&rt, session.push_bits(&[true; 15]).is_ok());
    equal(&rt, pending_ones(&session), Some(15));
    equal(&rt, len(&rt, rt.alloc(), &mut session), Some(u64::MAX));
    expect(&rt, session.extend_to(u64::MAX).is_ok());
    expect(&rt, session.truncate(u64::MAX - 5).is_ok());
    expect(&rt, session.extend_to(u64::MAX).is_ok());
    equal(&rt, pending_ones(&session), Some(10));
    equal(&rt, len(&rt, rt.alloc(), &mut session), Some(u64::MAX));
}
