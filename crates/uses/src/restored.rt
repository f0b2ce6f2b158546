//! Flags that are rewound to a checkpoint.

ghost use Rattle.std.specs.Prelude.{◌≡◌, None, Some, Err, OnErr, OnOk};
ghost use Rattle.historical_bitmap.specs.History.{kept_under};
ghost use Rattle.historical_bitmap.specs.View.{history_of};
ghost use Rattle.historical_bitmap.specs.declared.bitmap.historical.error.RewindError.TheVariants.{NoSuchCommit};

use historical_bitmap::bitmap::historical::{CleanBitMap, RewindError};

/// Rewinds flags to a checkpoint. On an error they are unchanged.
pub fn restored(flags: CleanBitMap<8>, checkpoint: u64) -> (CleanBitMap<8>, Result<(), RewindError>)
    ensures back { OnOk result.1
        (kept_under (history_of 8 flags) checkpoint ≡ Some result.0.current) }
    ensures stay { OnErr result.1 (result.0 ≡ flags) }
    ensures unknown { kept_under (history_of 8 flags) checkpoint ≡ None
        → result.1 ≡ Err NoSuchCommit }
{
    match flags.rewind_to(checkpoint) {
        Ok(flags) => (flags, Ok(())),
        Err((flags, why)) => (flags, Err(why)),
    }
}

#[cfg(test)]
mod tests {
    use super::*;
    use crate::checks::{equal, ok};

    #[test]
    fn are_back_or_stay(rt: HostRuntime) {
        let mut flags = CleanBitMap::<8>::new(rt.alloc()).into_dirty();
        ok(&rt, flags.push(true));
        let mut flags = ok(&rt, flags.commit(1)).into_dirty();
        assert!(rt; flags.len() < u64::MAX);
        ok(&rt, flags.push(false));
        let flags = ok(&rt, flags.commit(2));
        let (flags, outcome) = restored(flags, 1);
        assert!(rt; outcome.is_ok() && flags.len() == 1);
        let (flags, outcome) = restored(flags, 2);
        equal(&rt, outcome, Err(RewindError::NoSuchCommit));
        equal(&rt, flags.len(), 1);
    }
}
