//! The states of a historical bitmap.

ghost use Rattle.std.specs.Prelude.{◌≡◌, IfOk};

use crate::bitmap::historical::pending::Dirty;
use std::alloc::{AllocError, Global};
use std::marker::Model;

mod private {
    use std::alloc::AllocError;

    pub trait Sealed: Drop + Sized {
        // Returns an equal state.
        fn copied(&self) -> Result<Self, AllocError>
            ensures { IfOk result (λ copy. copy ≡ self.now) };
    }
}

/// A state of a historical bitmap: `Clean` or `Dirty<N>`.
///
/// The trait is sealed: no other type implements it.
pub trait State: private::Sealed {
    ghost use Rattle.std.specs.Prelude.{ℕ};
    ghost use Rattle.bitmap_core.specs.PrunedBits.{PrunedBits};

    /// The invariant that relates a state to the current bitmap. Its first argument is the width of a chunk in bytes.
    ghost fits: { ℕ → PrunedBits → Self → Type 0 };
}

/// The state without pending edits.
#[derive(Debug, Drop)]
pub struct Clean {
    alloc: Global,
}

impl Model for Clean {
    ghost use Rattle.std.specs.Prelude.{⊤};

    ghost Value = { ⊤ };

    ghost view = { λ _. tt };
}

impl Clean {
    // Returns the state without pending edits. Does not allocate.
    pub(crate) fn new(alloc: Global) -> Self {
        Clean { alloc }
    }

    // Returns the allocator of the bitmap.
    pub(crate) fn allocator(&self) -> Global {
        self.alloc
    }
}

impl private::Sealed for Clean {
    fn copied(&self) -> Result<Self, AllocError> {
        Ok(Clean { alloc: self.alloc })
    }
}

impl State for Clean {
    ghost fits = { λ _ _ _. Unit {0} };
}

impl<const N: usize> private::Sealed for Dirty<N> {
    fn copied(&self) -> Result<Self, AllocError> {
        self.duplicate()
    }
}

impl<const N: usize> State for Dirty<N> {
    ghost use Rattle.historical_bitmap.specs.Pending.{PendingFits};

    ghost fits = { PendingFits };
}
