//! Runs one call of a bitmap many times, so that another program can time it. `bench/run` makes tables of all calls.
#![tactic(auto)]

mod batches;
mod call;
mod edits;
mod growth;
mod historical;
mod kept;
mod logs;
mod past;
mod program;
mod pruned;
mod reads;
mod searches;

use crate::program::RunError;
use std::process::ExitCode;
use std::{env, io};

// The arguments after the program's name.
fn read_words(rt: &HostRuntime) -> Result<Vec<String>, io::Error> {
    Ok(env::args(rt)?.skip(1).collect(rt.alloc())?)
}

fn run(rt: &HostRuntime) -> Result<(), RunError> {
    let words = read_words(rt).map_err(|_| RunError::Usage)?;
    let sum = program::run(rt.alloc(), words.as_slice())?;
    println!(rt; "{sum}").map_err(|_| RunError::CannotWrite)
}

fn main(rt: HostRuntime) -> ExitCode {
    let Err(error) = run(&rt) else {
        return ExitCode::from(0);
    };
    let _ = rt.eprintln(error.text());
    ExitCode::from(error.status())
}
