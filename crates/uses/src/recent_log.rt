//! A bitmap with a pruned prefix.

use bitmap_core::bitmap::Prunable;
use std::alloc::{AllocError, Global};

/// Returns a log whose first chunk is pruned. Its length is still 34, and its first retained position is 32.
pub fn recent(alloc: Global) -> Result<Prunable<4>, AllocError> {
    let mut log = Prunable::<4>::new(alloc);
    log.push_chunk(&[1, 2, 3, 4])?;
    log.push(true)?;
    log.push(true)?;
    log.prune_to_bit(33);
    log.set_bit(32, false);
    Ok(log)
}

#[cfg(test)]
mod tests {
    use super::*;
    use crate::checks::equal;

    #[test]
    fn keeps_its_positions(rt: HostRuntime) -> Result<(), AllocError> {
        let log = recent(rt.alloc())?;
        equal(&rt, (log.len(), log.pruned_bits()), (34, 32));
        Ok(())
    }
}
