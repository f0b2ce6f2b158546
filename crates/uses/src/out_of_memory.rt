//! A failed allocation that is handled: the bitmap is unchanged, and is used further.

ghost use Rattle.std.specs.Prelude.{◌≡◌, ◌+◌, ◌-◌, ◌^◌, ◌<◌, ◌++◌, ◌∷◌, [], length, slice_set, OnOk, OnErr};

use bitmap_core::bitmap::BitMap;
use std::alloc::AllocError;

/// Appends an outcome. If the allocation fails, it replaces the last outcome instead.
pub fn note(outcomes: &mut BitMap<8>, outcome: bool) -> Result<(), AllocError>
    requires some { 0 < length outcomes.old }
    requires space { length outcomes.old + 1 < 2 ^ 64 }
    ensures ok { OnOk result (outcomes.new ≡ outcomes.old ++ outcome ∷ []) }
    ensures err { OnErr result
        (outcomes.new ≡ slice_set outcomes.old (length outcomes.old - 1) outcome) }
{
    let noted = outcomes.push(outcome);
    if noted.is_err() {
        outcomes.set(outcomes.len() - 1, outcome);
    }
    noted
}

#[cfg(test)]
mod tests {
    use super::*;
    use crate::checks::equal;

    #[test]
    fn appends_the_outcome(rt: HostRuntime) -> Result<(), AllocError> {
        let mut outcomes = BitMap::<8>::ones(rt.alloc(), 64)?;
        note(&mut outcomes, false)?;
        equal(&rt, (outcomes.len(), outcomes.get(64)), (65, false));
        Ok(())
    }
}
