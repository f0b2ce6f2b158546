//! Applying a batch: begun, edited by a closure, and committed or aborted.

use crate::bitmap::historical::{ApplyError, BitMap, Clean, CleanBitMap, DirtyBitMap};
use private::Batches;

mod private {
    use crate::bitmap::historical::ApplyError;

    // A clean value whose batches have type `D`. It exists since the bound of a closure may name a type parameter, but no const one.
    pub trait Batches<const N: usize, D: Drop>: Drop + Sized {
        ghost use Rattle.std.specs.Prelude.{ℕ, Result};
        ghost use Rattle.historical_bitmap.specs.declared.bitmap.historical.error.ApplyError.{ApplyError};

        // A batch is the value with no edit pending.
        ghost is_begun: { ℕ → Self → D → Type 0 };

        // What `finish` returns for the batch that a closure left, the closure's result, and a number.
        ghost batch_gives: { {E : Type 0} → ℕ → D → Result (Unit {0}) E → ℕ
            → Result Self (Self × ApplyError E) → Type 0 };

        // Begins a batch.
        fn begin(self) -> D
            ensures { is_begun N self result };

        // Commits the batch that a closure left if the closure returned `Ok`, else aborts it.
        fn finish<E>(
            left: D,
            answer: Result<(), E>,
            number: u64,
        ) -> Result<Self, (Self, ApplyError<E>)>
            ensures { batch_gives N left answer number result };
    }
}

impl<const N: usize> Batches<N, DirtyBitMap<N>> for CleanBitMap<N> {
    ghost use Rattle.historical_bitmap.specs.Batch.{BatchGives, IsBegun};

    ghost is_begun = { IsBegun };

    ghost batch_gives = { BatchGives };

    fn begin(self) -> DirtyBitMap<N> {
        self.into_dirty()
    }

    fn finish<E>(
        left: DirtyBitMap<N>,
        answer: Result<(), E>,
        number: u64,
    ) -> Result<CleanBitMap<N>, (CleanBitMap<N>, ApplyError<E>)> {
        if let Err(why) = answer {
            return Err((left.abort(), ApplyError::Batch(why)));
        }
        match left.commit(number) {
            Ok(clean) => Ok(clean),
            Err((left, why)) => Err((left.abort(), ApplyError::Commit(why))),
        }
    }
}

impl<const N: usize> BitMap<N, Clean> {
    ghost use Rattle.historical_bitmap.specs.Batch.{AcceptsBegun, IsApplied};

    /// Edits the bitmap with a closure, and commits the result as commit `number` if the closure returns `Ok`.
    ///
    /// The closure takes `&mut DirtyBitMap<N>`. It is called once, on `into_dirty` of the value, which must meet the closure's `requires`.
    /// It may replace that value by another dirty bitmap. The one that it leaves is committed.
    /// `number` is compared with the last number of that one.
    ///
    /// # Errors
    ///
    /// - `ApplyError::Batch` with the closure's error if the closure returns one;
    /// - `ApplyError::Commit` with the error of `commit` if that fails.
    ///
    /// With either, it also returns what `abort` makes of the bitmap that the closure left.
    ///
    /// # Memory
    ///
    /// What the closure allocates, and then as `commit`.
    ///
    /// # Complexity
    ///
    /// That of the closure, and then of `commit` or `abort`.
    ///
    /// # Examples
    ///
    /// ```
    /// ghost use Rattle.std.specs.Prelude.{◌≡◌, ◌+◌, ◌^◌, ◌<◌, ◌++◌, ◌∷◌, [], true, false, IfErr, IfOk, OnOk};
    /// ghost use Rattle.bitmap_core.specs.PrunedBits.{bit_len, pushed};
    /// ghost use Rattle.historical_bitmap.specs.Batch.{aborted};
    /// ghost use Rattle.historical_bitmap.specs.View.{history_of, pending_of};
    ///
    /// use historical_bitmap::bitmap::historical::{ApplyError, CleanBitMap};
    /// use std::alloc::AllocError;
    ///
    /// /// Appends two bits, and commits. After an error the bitmap is unchanged.
    /// pub fn append_two(
    ///     bitmap: CleanBitMap<4>,
    ///     number: u64,
    /// ) -> Result<CleanBitMap<4>, (CleanBitMap<4>, ApplyError<AllocError>)>
    ///     requires { bit_len 4 bitmap.current + 2 < 2 ^ 64 }
    ///     ensures current { IfOk result (λ b. b.current ≡ pushed (pushed bitmap.current true) false) }
    ///     ensures history { IfOk result (λ b. history_of 4 b ≡ history_of 4 bitmap ++ (number, b.current) ∷ []) }
    ///     ensures refused { IfErr result (λ e. e.0 ≡ bitmap) }
    /// {
    ///     bitmap.apply_batch(
    ///         number,
    ///         |batch| -> Result<(), AllocError>
    ///             requires { bit_len 4 (pending_of 4 batch.now) + 2 < 2 ^ 64 }
    ///             ensures bits { OnOk result (pending_of 4 batch.exit.now ≡ pushed (pushed (pending_of 4 batch.entry.now) true) false) }
    ///             ensures others { aborted batch.exit.now ≡ aborted batch.entry.now }
    ///         {
    ///             batch.push(true)?.push(false)?;
    ///             Ok(())
    ///         },
    ///     )
    /// }
    /// ```
    pub fn apply_batch<D: Drop, E, F: FnOnce(&mut D) -> Result<(), E>>(
        self,
        number: u64,
        edit: F,
    ) -> Result<CleanBitMap<N>, (CleanBitMap<N>, ApplyError<E>)>
    where
        CleanBitMap<N>: Batches<N, D>,
        requires accepts { AcceptsBegun (⟦<CleanBitMap<N> as Batches<N, D>>⟧.is_begun N self)
            (F.pre edit) }
        ensures applied { IsApplied (⟦<CleanBitMap<N> as Batches<N, D>>⟧.is_begun N self.entry)
            (F.post edit) (λ left answer.
            ⟦<CleanBitMap<N> as Batches<N, D>>⟧.batch_gives N left answer number result) }
    {
        let mut batch = self.begin();
        let answer = edit(&mut batch);
        Batches::finish(batch, answer, number)
    }
}
