//! A log is read back after a restart, also if a crash has cut off its last entry.

ghost use Rattle.std.specs.Prelude.{◌≡◌, ◌≤◌, List, ℕ, length, take, IfOk, IfErr, alloc_error};
ghost use Rattle.commit_log.specs.Base.{Base};
ghost use Rattle.commit_log.specs.Entries.{Entry};
ghost use Rattle.commit_log.specs.Kept.{kept_of};
ghost use Rattle.commit_log.specs.Logs.{IsLog, log_bytes, state_of};
ghost use Rattle.commit_log.specs.Recovered.{IsPrefixOf};
ghost use Rattle.commit_log.specs.declared.recovery.RecoverError.TheVariants.{Memory};

use commit_log::{Log, RecoverError, recover};
use historical_bitmap::bitmap::historical::CleanBitMap;
use std::alloc::Global;

/// Reads the bytes of a log file. Returns the bitmap with its kept commits, and the log to which it goes on.
///
/// The number of good bytes is the position of the log: the program cuts the file off there before it appends to it.
pub fn reopen(alloc: Global, file: &[u8]) -> Result<(CleanBitMap<32>, Log<32>), RecoverError>
    ensures whole { (base : Base) (entries : List Entry) → IsLog 32 base entries
        → file.now ≡ log_bytes 32 base entries
        → IfOk result (λ found. kept_of 32 found.0 ≡ state_of 32 base entries) }
    ensures good { IfOk result (λ found. found.1.place.at ≤ length file.now) }
    ensures complete { (base : Base) (entries : List Entry) (m : ℕ)
        → IsPrefixOf 32 base entries m file.now → IfErr result (λ e. e ≡ Memory alloc_error) }
{
    match recover(alloc, file) {
        Ok(found) => Ok((found.bitmap, found.log)),
        Err(error) => Err(error),
    }
}

#[cfg(test)]
mod tests {
    use super::*;
    use crate::checks::{equal, ok};
    use crate::logged_event::record_event;
    use std::process::Abort;

    // Records an event, and appends its entry to the file.
    fn write_event(
        rt: &impl Abort,
        events: CleanBitMap<32>,
        number: u64,
        log: &mut Log<32>,
        file: &mut Vec<u8>,
    ) -> CleanBitMap<32> {
        assert!(rt; events.len() < 1000);
        let (events, recorded) = record_event(events, number, true, log);
        ok(rt, recorded);
        ok(rt, file.extend_from_slice(log.bytes()));
        log.forget();
        events
    }

    #[test]
    fn leaves_out_an_entry_that_was_cut_off(rt: HostRuntime) {
        let events = CleanBitMap::<32>::new(rt.alloc());
        let mut log = ok(&rt, Log::begin(rt.alloc(), &events));
        let mut file = log.take();
        let events = write_event(&rt, events, 1, &mut log, &mut file);
        let good = file.len();
        let events = write_event(&rt, events, 2, &mut log, &mut file);
        equal(&rt, log.position(), file.len() as u64);

        let (same, end) = ok(&rt, reopen(rt.alloc(), &file));
        equal(
            &rt,
            (same.len(), same.latest_commit()),
            (events.len(), Some(2)),
        );
        equal(&rt, end.digest(), log.digest());

        file.truncate(file.len().saturating_sub(1));
        let (older, mut end) = ok(&rt, reopen(rt.alloc(), &file));
        equal(&rt, (older.len(), older.latest_commit()), (1, Some(1)));
        equal(&rt, end.position(), good as u64);

        file.truncate(good);
        let _ = write_event(&rt, older, 7, &mut end, &mut file);
        let (newer, _) = ok(&rt, reopen(rt.alloc(), &file));
        equal(&rt, (newer.len(), newer.latest_commit()), (2, Some(7)));
    }
}
