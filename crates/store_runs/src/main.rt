//! Makes commits to a store in a file, and prints what the file then has: `store_runs PATH COUNT`.
//!
//! A program for tests. `tools/crash_store.py` kills it, and compares what a run without commits prints of the file with what was acknowledged.
#![tactic(auto)]

mod changes;
mod file_store;

use crate::file_store::{FileStore, commit, keep_from, open_or_create};
use bitmap_core::bitmap::Prunable;
use bitmap_core::bitmap::codec::Write as WriteBytes;
use log_store::{CreateError, FileError, OpenError, StoreError};
use std::alloc::AllocError;
use std::fmt::Write as WriteText;
use std::io::Write;
use std::num::ParseIntError;
use std::process::ExitCode;
use std::{env, io};
use thiserror::Error as ErrorDerive;

// Why the program fails.
#[derive(Debug, Drop, ErrorDerive)]
pub(crate) enum Failure {
    #[error("usage: store_runs PATH COUNT")]
    Usage,
    #[error("the count is no number: {0}")]
    Count(#[from] ParseIntError),
    #[error("{0}")]
    Memory(#[from] AllocError),
    #[error("{0}")]
    System(#[from] io::Error),
    #[error("the file was not opened: {0}")]
    File(#[from] FileError),
    #[error("the store was not created: {0}")]
    Create(CreateError),
    #[error("the store was not opened: {0}")]
    Open(OpenError),
    #[error("{0}")]
    Store(#[from] StoreError),
}

// Prints a line, at once.
fn print_line(rt: &HostRuntime, word: &str, number: u64) -> Result<(), Failure> {
    println!(rt; "{word} {number}")?;
    Ok(rt.stdout().flush()?)
}

// Makes so many commits. Before each fifth one, old commits are dropped, and the file is compacted. Prints each change once it is kept.
fn run<'a>(rt: &HostRuntime, store: FileStore<'a>, count: u64) -> Result<FileStore<'a>, Failure> {
    let mut store = store;
    let mut last = store.bitmap().last_number().unwrap_or(0);
    print_line(rt, "last", last)?;
    for _ in 0..count {
        last = last.saturating_add(1);
        if last % 5 == 0 {
            keep_from(&mut store, last.saturating_sub(3))?;
            print_line(rt, "drop", last.saturating_sub(3))?;
        }
        store = commit(store, last)?;
        print_line(rt, "commit", last)?;
    }
    Ok(store)
}

// Prints a word, and the encoding of a bitmap in hexadecimal digits.
fn print_bits(
    rt: &HostRuntime,
    word: &str,
    number: u64,
    bits: &Prunable<8>,
) -> Result<(), Failure> {
    let mut bytes = Vec::new(rt.alloc());
    bits.write(&mut bytes)?;
    let mut digits = String::new(rt.alloc());
    for byte in &bytes {
        write!(digits, "{byte:02x}")?;
    }
    Ok(println!(rt; "{word} {number} {digits}")?)
}

// Prints the current bitmap with the last number, and each kept number with its bitmap.
fn show(rt: &HostRuntime, store: &FileStore<'_>) -> Result<(), Failure> {
    let bitmap = store.bitmap();
    print_bits(
        rt,
        "current",
        bitmap.last_number().unwrap_or(0),
        bitmap.current(),
    )?;
    for number in bitmap.commits() {
        if let Some(bits) = bitmap.get_at_commit(number)? {
            print_bits(rt, "kept", number, &bits)?;
        }
    }
    Ok(())
}

// Runs what the arguments say.
fn run_words(rt: &HostRuntime) -> Result<(), Failure> {
    let words: Vec<String> = env::args(rt)?.skip(1).collect(rt.alloc())?;
    let [path, count] = words.as_slice() else {
        return Err(Failure::Usage);
    };
    let count = count.as_str().parse::<u64>()?;
    show(rt, &run(rt, open_or_create(rt, path.as_str())?, count)?)
}

fn main(rt: HostRuntime) -> ExitCode {
    match run_words(&rt) {
        Ok(()) => ExitCode::SUCCESS,
        Err(error) => {
            let _ = eprintln!(rt; "store_runs: {error} ({error:?})");
            ExitCode::FAILURE
        }
    }
}
