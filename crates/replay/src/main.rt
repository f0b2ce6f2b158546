//! Runs a script of commands on a bitmap and prints the replies.
#![tactic(auto)]

mod error;
mod output;
mod print;
mod program;
mod script;
#[cfg(test)]
mod tests;

use std::fs::File;
use std::process::ExitCode;
use std::{env, io};

// Returns the arguments after the program's name.
fn read_words(rt: &HostRuntime) -> Result<Vec<String>, io::Error> {
    Ok(env::args(rt)?.skip(1).collect(rt.alloc())?)
}

// Returns the exit status if the arguments cannot be read. Arguments that are not UTF-8 count as wrong arguments.
fn end_without_words(rt: &HostRuntime, cause: io::Error) -> ExitCode {
    if cause.kind() == io::ErrorKind::OutOfMemory {
        let _ = rt.eprintln(error::OUT_OF_MEMORY);
        return ExitCode::from(error::FAILED);
    }
    let _ = rt.eprintln(program::USAGE);
    ExitCode::from(error::WRONG_INPUT)
}

fn main(rt: HostRuntime) -> ExitCode {
    let words = match read_words(&rt) {
        Ok(words) => words,
        Err(error) => return end_without_words(&rt, error),
    };
    let after = program::after_option(words.as_slice());
    let args = after.unwrap_or(words.as_slice());
    let Some(width) = program::read_width(args) else {
        let _ = rt.eprintln(program::USAGE);
        return ExitCode::from(error::WRONG_INPUT);
    };
    let path = args[1].as_str();
    let explained = after.is_some().then_some(path);
    let script = File::open(&rt, path);
    let status = program::run_script(
        rt.alloc(),
        width,
        script,
        explained,
        &mut rt.stdout(),
        &mut rt.stderr(),
    );
    ExitCode::from(status)
}
