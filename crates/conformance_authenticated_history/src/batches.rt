//! Batches that are aborted or refused.

use crate::checked_calls::{commit, push, push_chunk};
use crate::known::{NO_BITS, ONE_CHUNK, VERSION_1};
use authenticated_history::AuthenticatedBitMap;
use conformance_authenticated::sha::Sha;
use historical_bitmap::bitmap::historical::{Error, RewindError};

#[test]
fn an_aborted_batch_leaves_the_root(rt: HostRuntime) {
    let mut batch = AuthenticatedBitMap::new(rt.alloc(), Sha).into_dirty();
    push_chunk(&rt, &mut batch, &[0, 0, 0, 0]);
    let map = batch.abort();
    assert!(rt; map.root() == NO_BITS);
    let mut batch = map.into_dirty();
    push_chunk(&rt, &mut batch, &[0, 0, 0, 0]);
    let mut batch = commit(&rt, batch, 7).into_dirty();
    push(&rt, &mut batch, true);
    let map = batch.abort();
    assert!(rt; map.root() == ONE_CHUNK && map.root_at(7) == Some(ONE_CHUNK));
}

#[test]
fn a_refused_number_leaves_the_batch(rt: HostRuntime) {
    let mut batch = AuthenticatedBitMap::new(rt.alloc(), Sha).into_dirty();
    push_chunk(&rt, &mut batch, &[0, 0, 0, 0]);
    let mut batch = commit(&rt, batch, 7).into_dirty();
    push_chunk(&rt, &mut batch, &[1, 1, 1, 1]);
    push_chunk(&rt, &mut batch, &[2, 2, 2, 2]);
    match batch.commit(7) {
        Ok(_) => panic!(rt; "7 is not above 7"),
        Err((batch, why)) => {
            assert!(rt;
                why == Error::NonMonotonicCommit {
                    previous: 7,
                    attempted: 7
                }
            );
            let map = commit(&rt, batch, 8);
            assert!(rt; map.root() == VERSION_1 && map.root_at(7) == Some(ONE_CHUNK));
        }
    }
}

#[test]
fn a_number_that_is_not_kept_leaves_the_bitmap(rt: HostRuntime) {
    let mut batch = AuthenticatedBitMap::new(rt.alloc(), Sha).into_dirty();
    push_chunk(&rt, &mut batch, &[0, 0, 0, 0]);
    match commit(&rt, batch, 7).rewind_to(6) {
        Ok(_) => panic!(rt; "6 is not kept"),
        Err((map, why)) => {
            assert!(rt; why == RewindError::NoSuchCommit);
            assert!(rt; map.root() == ONE_CHUNK && map.root_at(7) == Some(ONE_CHUNK));
        }
    }
}
