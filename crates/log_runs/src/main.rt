//! Runs a script on a bitmap and its log, and prints the bytes and states that the script asks for.
//!
//! A program for tests. `tools/check_logs.py` writes the scripts, and compares what is printed with another reader and writer of the formats.
#![tactic(auto)]

mod bytes;
mod edits;
mod machine;
mod shown;

use crate::machine::run;
use std::alloc::Global;
use std::fs::File;
use std::io::{Read, Write};
use std::process::ExitCode;
use std::{env, io};

// Reads a whole file.
fn read_all<R: Read + Drop>(alloc: Global, file: io::Result<R>) -> io::Result<Vec<u8>> {
    let mut bytes = Vec::new(alloc);
    let mut reader = file?;
    reader.read_to_end(&mut bytes)?;
    Ok(bytes)
}

// Runs a script with chunks of so many bytes. Returns what it prints.
fn run_at(alloc: Global, width: &str, script: &[u8]) -> io::Result<String> {
    match width {
        "1" => run::<1>(alloc, script),
        "3" => run::<3>(alloc, script),
        "8" => run::<8>(alloc, script),
        "32" => run::<32>(alloc, script),
        _ => Err(io::Error::from(io::ErrorKind::InvalidInput)),
    }
}

// Runs the script that the arguments name, and prints the output.
fn run_words(rt: &HostRuntime) -> io::Result<()> {
    let words: Vec<String> = env::args(rt)?.skip(1).collect(rt.alloc())?;
    let [width, path] = words.as_slice() else {
        return Err(io::Error::from(io::ErrorKind::InvalidInput));
    };
    let script = read_all(rt.alloc(), File::open(rt, path.as_str()))?;
    let printed = run_at(rt.alloc(), width.as_str(), script.as_slice())?;
    let mut out = rt.stdout();
    out.write_all(printed.as_bytes())?;
    out.flush()
}

fn main(rt: HostRuntime) -> ExitCode {
    match run_words(&rt) {
        Ok(()) => ExitCode::SUCCESS,
        Err(error) => {
            let _ = eprintln!(rt; "log_runs: {error}");
            ExitCode::from(3)
        }
    }
}
