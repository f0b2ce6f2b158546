//! Two bitmaps that are committed under one number, or neither is.

ghost use Rattle.std.specs.Prelude.{◌≡◌, ◌++◌, ◌∷◌, [], IfErr, IfOk};
ghost use Rattle.historical_bitmap.specs.View.{history_of, pending_of};

use historical_bitmap::bitmap::historical::{CleanBitMap, DirtyBitMap, Error};

/// Commits two batches under one number. On an error neither is committed, and both are returned unchanged.
pub fn commit_both(
    one: DirtyBitMap<8>,
    two: DirtyBitMap<8>,
    number: u64,
) -> Result<(CleanBitMap<8>, CleanBitMap<8>), (DirtyBitMap<8>, DirtyBitMap<8>, Error)>
    ensures first { IfOk result
        (λ both. history_of 8 both.0 ≡ history_of 8 one ++ (number, pending_of 8 one) ∷ []) }
    ensures second { IfOk result
        (λ both. history_of 8 both.1 ≡ history_of 8 two ++ (number, pending_of 8 two) ∷ []) }
    ensures first_unchanged { IfErr result (λ e. e.0 ≡ one) }
    ensures second_unchanged { IfErr result (λ e. e.1 ≡ two) }
{
    let one = match one.prepare(number) {
        Ok(one) => one,
        Err((one, why)) => return Err((one, two, why)),
    };
    match two.prepare(number) {
        Ok(two) => Ok((one.commit(), two.commit())),
        Err((two, why)) => Err((one.into_dirty(), two, why)),
    }
}

#[cfg(test)]
mod tests {
    use super::*;
    use crate::checks::{equal, ok};

    #[test]
    fn commits_both_or_neither(rt: HostRuntime) {
        let mut one = CleanBitMap::<8>::new(rt.alloc()).into_dirty();
        ok(&rt, one.try_push(true));
        let two = ok(
            &rt,
            CleanBitMap::<8>::new(rt.alloc()).into_dirty().commit(5),
        )
        .into_dirty();
        // The second bitmap has a commit under number 5 already.
        let Err((one, two, why)) = commit_both(one, two, 5) else {
            panic!(rt; "5 is committed twice");
        };
        equal(
            &rt,
            why,
            Error::NonMonotonicCommit {
                previous: 5,
                attempted: 5,
            },
        );
        equal(&rt, (one.len(), one.last_number()), (1, None));
        let Ok((one, two)) = commit_both(one, two, 6) else {
            panic!(rt; "6 is refused");
        };
        equal(&rt, (one.len(), one.latest_commit()), (1, Some(6)));
        equal(&rt, (two.len(), two.latest_commit()), (0, Some(6)));
    }
}
