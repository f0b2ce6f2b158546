//! A batch whose digests follow its bitmap, as a commit requires.

use crate::command::Edit;
use crate::edits::make_edit;
use authenticated_history::{AuthenticatedBitMap, DirtyAuthenticatedBitMap};
use conformance_authenticated::sha::Sha;
use historical_bitmap::bitmap::historical::Error;
use std::alloc::AllocError;
use std::marker::Model;

/// A batch of an authenticated bitmap.
#[derive(Drop)]
pub struct Batch<const N: usize> {
    batch: DirtyAuthenticatedBitMap<N, Sha>,
}

impl<const N: usize> Model for Batch<N> {
    ghost use Rattle.sha2.specs.Sha256.{sha256};
    ghost use Rattle.historical_bitmap.specs.Pending.{PendingEdits};
    ghost use Rattle.historical_bitmap.specs.View.{View};
    ghost use Rattle.authenticated_history.specs.Versions.{Follows};

    ghost Value = { View PendingEdits };

    ghost view = { λ v. v.batch.bits };

    ghost invariant = { λ v. Follows sha256 N v.batch.bits v.batch.digests };
}

impl<const N: usize> Batch<N> {
    /// Returns a batch with no pending edits.
    pub fn begin(map: AuthenticatedBitMap<N, Sha>) -> Self {
        Batch {
            batch: map.into_dirty(),
        }
    }

    /// Makes an edit. Returns whether the batch allows it. If not, nothing changes.
    pub fn edit(&mut self, edit: Edit<N>) -> Result<bool, AllocError> {
        make_edit(self.batch.edits(), edit)
    }

    /// Keeps the pending bitmap under a number. Returns the batch with the error if that fails.
    pub fn commit(self, number: u64) -> Result<AuthenticatedBitMap<N, Sha>, (Self, Error)> {
        match self.batch.commit(number) {
            Ok(map) => Ok(map),
            Err((batch, why)) => Err((Batch { batch }, why)),
        }
    }

    /// Drops the pending edits.
    pub fn abort(self) -> AuthenticatedBitMap<N, Sha> {
        self.batch.abort()
    }
}
