//! Runs a script on authenticated bitmaps, and prints the roots and the proofs that the script asks for: `root_runs WIDTH PATH`.
//!
//! A program for tests. `tools/check_roots.py` writes the scripts, and compares what is printed with a second computation of roots and proofs.
#![tactic(auto)]

mod batch;
mod command;
mod edits;
mod machine;
mod proofs;
mod shown;

use crate::machine::run;
use std::alloc::Global;
use std::io::Write;
use std::process::ExitCode;
use std::{env, fs, io};

// Runs a script with chunks of so many bytes. Returns what it prints.
fn run_at(alloc: Global, width: &str, script: &str) -> io::Result<String> {
    match width {
        "1" => run::<1>(alloc, script),
        "3" => run::<3>(alloc, script),
        "8" => run::<8>(alloc, script),
        "32" => run::<32>(alloc, script),
        _ => Err(io::Error::from(io::ErrorKind::InvalidInput)),
    }
}

// Runs the script that the arguments name, and prints the output.
fn run_words(rt: &HostRuntime) -> io::Result<()> {
    let words: Vec<String> = env::args(rt)?.skip(1).collect(rt.alloc())?;
    let [width, path] = words.as_slice() else {
        return Err(io::Error::from(io::ErrorKind::InvalidInput));
    };
    let script = fs::read_to_string(rt, path.as_str())?;
    let printed = run_at(rt.alloc(), width.as_str(), script.as_str())?;
    let mut out = rt.stdout();
    out.write_all(printed.as_bytes())?;
    out.flush()
}

fn main(rt: HostRuntime) -> ExitCode {
    match run_words(&rt) {
        Ok(()) => ExitCode::SUCCESS,
        Err(error) => {
            let _ = eprintln!(rt; "root_runs: {error}");
            ExitCode::from(3)
        }
    }
}
