//! A log of events that keeps the latest ones.

ghost use Rattle.std.specs.Prelude.{◌≡◌, ◌+◌, ◌-◌, ◌/◌, ◌^◌, ◌<◌, OnOk, OnErr};
ghost use Rattle.bitmap_core.specs.PrunedBits.{bit_len, pruned_to, pushed};

use bitmap_core::bitmap::Prunable;
use std::alloc::AllocError;

/// Appends an event, and prunes the chunks that end before the last 1024 bits. On an error the log is unchanged.
pub fn append(log: &mut Prunable<8>, event: bool) -> Result<(), AllocError>
    requires { bit_len 8 log.old + 1 < 2 ^ 64 }
    ensures ok { OnOk result
        (log.new ≡ pruned_to 8 (pushed log.old event)
        ((bit_len 8 (pushed log.old event) - 1024) / 64)) }
    ensures err { OnErr result (log.new ≡ log.old) }
{
    log.push(event)?;
    log.prune_to_bit(log.len().saturating_sub(1024));
    Ok(())
}

#[cfg(test)]
mod tests {
    use super::*;
    use crate::checks::equal;
    use std::alloc::Global;

    // Returns a log of events that did not happen.
    fn quiet_log(alloc: Global, events: u64) -> Result<Prunable<8>, AllocError> {
        let mut log = Prunable::<8>::new(alloc);
        log.extend_to(events)?;
        Ok(log)
    }

    #[test]
    fn keeps_the_last_1024(rt: HostRuntime) -> Result<(), AllocError> {
        let mut log = quiet_log(rt.alloc(), 1087)?;
        assert!(rt; log.len() < 2000);
        append(&mut log, true)?;
        equal(&rt, (log.len(), log.pruned_bits()), (1088, 64));
        Ok(())
    }
}
