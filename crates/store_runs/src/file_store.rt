//! A store in a file: it is opened, it takes commits, and it drops old ones.

use crate::Failure;
use crate::changes::edit;
use log_store::{FileDevice, Store};
use std::fs;

/// A bitmap with all its versions in a file. Its chunks have eight bytes.
pub type FileStore<'a> = Store<8, FileDevice<'a>>;

/// Opens the store in a file, or creates the file with an empty one. Fails if another process has it open, or if it is damaged.
pub fn open_or_create<'a>(rt: &'a HostRuntime, path: &str) -> Result<FileStore<'a>, Failure> {
    if fs::exists(rt, path)? {
        let device = FileDevice::open(rt, path)?;
        return Store::open(rt.alloc(), device).map_err(|error| Failure::Open(error.1));
    }
    let device = FileDevice::create(rt, path)?;
    Store::create(rt.alloc(), device).map_err(|error| Failure::Create(error.1))
}

/// Edits the bitmap, and commits it under a number. When it returns `Ok`, the commit is on the disk.
pub fn commit<'a>(store: FileStore<'a>, number: u64) -> Result<FileStore<'a>, Failure> {
    let mut batch = store.into_batch();
    edit(&mut batch.batch, number)?;
    batch
        .commit(number)
        .map_err(|error| Failure::Store(error.1))
}

/// Drops the commits before a number, and makes the file as short as the others allow.
pub fn keep_from(store: &mut FileStore<'_>, number: u64) -> Result<(), Failure> {
    store.drop_before(number)?;
    store.compact()?;
    Ok(())
}
