//! A store on a file of the operating system.

use crate::checks::{expect, ok};
use crate::run::push_digits;
use log_store::{BufferedStore, FileDevice, FileError, Store};
use std::path::PathBuf;
use std::process::Abort;
use std::{env, fs};
use test_support::compare::has_bits;

// A store whose chunks have one byte.
type FileStore<'a> = Store<1, FileDevice<'a>>;

// Returns the path of the file of a test.
fn path_of(abort: &impl Abort, rt: &HostRuntime, name: &str) -> PathBuf {
    let mut path = ok(abort, env::temp_dir(rt));
    ok(abort, path.push(name));
    path
}

// Commits the bitmap with these bits appended.
fn commit<'a>(rt: &impl Abort, store: FileStore<'a>, number: u64, digits: &[u8]) -> FileStore<'a> {
    let mut batch = store.into_batch();
    push_digits(rt, &mut batch.batch, digits);
    match batch.commit(number) {
        Ok(store) => store,
        Err(_) => panic!(rt; "{number}"),
    }
}

// Opens a file that a store has open.
fn expect_locked(abort: &impl Abort, rt: &HostRuntime, path: &str) {
    expect(
        abort,
        FileDevice::open(rt, path).err() == Some(FileError::Locked),
    );
}

// Opens the store of a file.
fn open<'a>(abort: &impl Abort, rt: &'a HostRuntime, path: &str) -> FileStore<'a> {
    let device = ok(abort, FileDevice::open(rt, path));
    ok(abort, Store::open(rt.alloc(), device))
}

// A store is created on a new file, which is locked meanwhile, and opened again with the commits that were kept.
#[test]
fn kept_in_a_file(rt: HostRuntime) {
    let path = path_of(&rt, &rt, "mortarpink_kept_in_a_file");
    let _ = fs::remove_file(&rt, path.as_str());
    let device = ok(&rt, FileDevice::create(&rt, path.as_str()));
    expect(&rt, FileDevice::create(&rt, path.as_str()).is_err());
    expect_locked(&rt, &rt, path.as_str());
    let store = ok(&rt, FileStore::create(rt.alloc(), device));
    let store = commit(&rt, store, 1, b"101");
    let store = commit(&rt, store, 5, b"11010011");
    drop(store);
    let store = open(&rt, &rt, path.as_str());
    expect(&rt, has_bits(store.bitmap().current(), 0, b"10111010011"));
    let Ok(store) = store.rewind_to(1) else {
        panic!(rt; "the rewind failed")
    };
    drop(store);
    let store = open(&rt, &rt, path.as_str());
    expect(&rt, has_bits(store.bitmap().current(), 0, b"101"));
    expect(&rt, store.bitmap().last_number() == Some(1));
    drop(store);
    ok(&rt, fs::remove_file(&rt, path.as_str()));
}

// Commits the bitmap with these bits appended. The commit waits.
fn wait<'a>(
    rt: &impl Abort,
    store: BufferedStore<1, FileDevice<'a>>,
    number: u64,
    digits: &[u8],
) -> BufferedStore<1, FileDevice<'a>> {
    let mut batch = store.into_batch();
    push_digits(rt, &mut batch.batch, digits);
    match batch.commit(number) {
        Ok(store) => store,
        Err(_) => panic!(rt; "{number}"),
    }
}

// What waits is in the file once it is synced, and not before.
#[test]
fn synced_in_a_file(rt: HostRuntime) {
    let path = path_of(&rt, &rt, "mortarpink_synced_in_a_file");
    let _ = fs::remove_file(&rt, path.as_str());
    let device = ok(&rt, FileDevice::create(&rt, path.as_str()));
    let store = ok(&rt, FileStore::create(rt.alloc(), device)).into_buffered();
    let before = ok(&rt, fs::read(&rt, path.as_str())).len();
    let store = wait(&rt, store, 1, b"101");
    let mut store = wait(&rt, store, 5, b"11010011");
    expect(&rt, ok(&rt, fs::read(&rt, path.as_str())).len() == before);
    let waiting = store.waiting_bytes();
    ok(&rt, store.sync());
    let after = ok(&rt, fs::read(&rt, path.as_str())).len();
    expect(&rt, after.checked_sub(before) == Some(waiting));
    drop(wait(&rt, store, 6, b"1"));
    let store = open(&rt, &rt, path.as_str());
    expect(&rt, has_bits(store.bitmap().current(), 0, b"10111010011"));
    expect(&rt, store.bitmap().last_number() == Some(5));
    drop(store);
    ok(&rt, fs::remove_file(&rt, path.as_str()));
}

// What a crash may leave behind the closed gate of a file is cut off.
#[test]
fn torn_file_is_opened(rt: HostRuntime) {
    let path = path_of(&rt, &rt, "mortarpink_torn_file");
    let _ = fs::remove_file(&rt, path.as_str());
    let device = ok(&rt, FileDevice::create(&rt, path.as_str()));
    let store = ok(&rt, FileStore::create(rt.alloc(), device));
    drop(commit(&rt, store, 1, b"101"));
    let mut bytes = ok(&rt, fs::read(&rt, path.as_str()));
    let whole = bytes.len();
    ok(&rt, bytes.resize(whole.saturating_add(100), 255));
    ok(&rt, fs::write(&rt, path.as_str(), bytes));
    let store = open(&rt, &rt, path.as_str());
    expect(&rt, has_bits(store.bitmap().current(), 0, b"101"));
    drop(store);
    expect(&rt, ok(&rt, fs::read(&rt, path.as_str())).len() == whole);
    ok(&rt, fs::remove_file(&rt, path.as_str()));
}

// Returns the path of the second file of a replacement.
fn path_beside(abort: &impl Abort, rt: &HostRuntime, path: &str) -> String {
    let mut beside = ok(abort, String::from_str(rt.alloc(), path));
    ok(abort, beside.push_str(".new"));
    beside
}

// A compaction gives the file the history of the bitmap, and the store goes on with it. What an earlier compaction has left is written anew.
#[test]
fn compacted_in_a_file(rt: HostRuntime) {
    let path = path_of(&rt, &rt, "mortarpink_compacted_in_a_file");
    let beside = path_beside(&rt, &rt, path.as_str());
    let _ = fs::remove_file(&rt, path.as_str());
    ok(
        &rt,
        fs::write(&rt, beside.as_str(), "what a crash has left"),
    );
    let device = ok(&rt, FileDevice::create(&rt, path.as_str()));
    let store = ok(&rt, FileStore::create(rt.alloc(), device));
    let store = commit(&rt, store, 1, b"101");
    let store = commit(&rt, store, 2, b"1111");
    let Ok(mut store) = store.rewind_to(1) else {
        panic!(rt; "the rewind failed")
    };
    let before = ok(&rt, fs::read(&rt, path.as_str())).len();
    ok(&rt, store.compact());
    expect(&rt, ok(&rt, fs::read(&rt, path.as_str())).len() < before);
    expect(&rt, !ok(&rt, fs::exists(&rt, beside.as_str())));
    expect_locked(&rt, &rt, path.as_str());
    drop(commit(&rt, store, 3, b"0"));
    let store = open(&rt, &rt, path.as_str());
    expect(&rt, has_bits(store.bitmap().current(), 0, b"1010"));
    expect(&rt, store.bitmap().commit_exists(1));
    expect(&rt, store.bitmap().last_number() == Some(3));
    drop(store);
    ok(&rt, fs::remove_file(&rt, path.as_str()));
}

// A compaction that cannot write its file leaves the log, and the store is read-only until it is opened again.
#[test]
fn failed_compaction_leaves_the_file(rt: HostRuntime) {
    let path = path_of(&rt, &rt, "mortarpink_failed_compaction");
    let beside = path_beside(&rt, &rt, path.as_str());
    let _ = fs::remove_file(&rt, path.as_str());
    let _ = fs::remove_dir(&rt, beside.as_str());
    ok(&rt, fs::create_dir(&rt, beside.as_str()));
    let device = ok(&rt, FileDevice::create(&rt, path.as_str()));
    let store = ok(&rt, FileStore::create(rt.alloc(), device));
    let mut store = commit(&rt, store, 1, b"101");
    expect(&rt, store.compact().is_err());
    expect(&rt, store.is_read_only());
    drop(store);
    let store = open(&rt, &rt, path.as_str());
    expect(&rt, has_bits(store.bitmap().current(), 0, b"101"));
    drop(store);
    ok(&rt, fs::remove_dir(&rt, beside.as_str()));
    ok(&rt, fs::remove_file(&rt, path.as_str()));
}
