//! A bit is appended and committed, and the entry of the commit is appended to a log.

ghost use Rattle.std.specs.Prelude.{◌≡◌, ◌+◌, ◌^◌, ◌<◌, OnErr, OnOk};
ghost use Rattle.bitmap_core.specs.PrunedBits.{bit_len, pushed};
ghost use Rattle.commit_log.specs.Entries.Entry.{Commit};
ghost use Rattle.commit_log.specs.Kept.{change_to};
ghost use Rattle.commit_log.specs.Logs.{appended};

use commit_log::{Log, commit_logged};
use historical_bitmap::bitmap::historical::{CleanBitMap, Error};

/// Appends an event as commit `number`, and the entry of the commit to the log. After an error both are unchanged.
pub fn record_event(
    events: CleanBitMap<32>,
    number: u64,
    happened: bool,
    log: &mut Log<32>,
) -> (CleanBitMap<32>, Result<(), Error>)
    requires { bit_len 32 events.current + 1 < 2 ^ 64 }
    ensures recorded { OnOk result.1 (result.0.current ≡ pushed events.current happened) }
    ensures logged { OnOk result.1 (log.new ≡ appended log.old
        (Commit (change_to 32 number events.current result.0.current))) }
    ensures stays { OnErr result.1 (result.0 ≡ events) }
    ensures unlogged { OnErr result.1 (log.new ≡ log.old) }
{
    let mut batch = events.into_dirty();
    if let Err(error) = batch.try_push(happened) {
        return (batch.abort(), Err(Error::Memory(error)));
    }
    match commit_logged(batch, number, log) {
        Ok(events) => (events, Ok(())),
        Err((batch, error)) => (batch.abort(), Err(error)),
    }
}
