//! Tests of the program with readers and writers that fail.

use crate::program::{read_width, run_script};
use std::alloc::{AllocError, Global};
use std::io;
use std::io::{Read, Write};
use std::process::Abort;

const SCRIPT: &[u8] = b"begin\npush 1\ncommit 1\nlen\n";

const PRINTED: &[u8] = b"done\ndone\ndone\nnumber 1\n";

// A reader whose every read fails.
#[derive(Drop)]
struct Broken;

impl Read for Broken {
    fn read(&mut self, _buf: &mut [u8]) -> io::Result<usize> {
        Err(io::Error::from(io::ErrorKind::ConnectionReset))
    }
}

// A writer that keeps the bytes that it is given, up to `space` of them, and then fails.
#[derive(Drop)]
struct Limited {
    written: Vec<u8>,
    space: usize,
}

impl Write for Limited {
    fn write(&mut self, buf: &[u8]) -> io::Result<usize> {
        let count = buf.len().min(self.space);
        if count == 0 {
            return Err(io::Error::from(io::ErrorKind::StorageFull));
        }
        self.written.extend_from_slice(&buf[..count])?;
        self.space -= count;
        Ok(count)
    }

    fn flush(&mut self) -> io::Result<()> {
        Ok(())
    }
}

// Runs a script with chunks of four bytes. Fails the test unless the status is `status`, and the error's line is `line`.
fn check_run<R: Read + Drop, W: Write>(
    rt: &impl Abort,
    alloc: Global,
    script: Result<R, io::Error>,
    out: &mut W,
    status: u8,
    line: &[u8],
) {
    let mut err = Vec::new(alloc);
    let returned = run_script(alloc, 4, script, None, out, &mut err);
    assert_eq!(rt; returned, status);
    assert!(rt; err.as_slice() == line);
}

// A reader that fails after all lines but one: nothing is printed.
#[test]
fn reader_that_fails(rt: HostRuntime) {
    let mut out = Vec::new(rt.alloc());
    let script = SCRIPT.chain(Broken);
    let line = b"replay: cannot read the script\n";
    check_run(&rt, rt.alloc(), Ok(script), &mut out, 3, line);
    assert!(rt; out.is_empty());
}

// An opening that fails: nothing is printed.
#[test]
fn opening_that_fails(rt: HostRuntime) {
    let mut out = Vec::new(rt.alloc());
    let opened = Err::<&[u8], io::Error>(io::Error::from(io::ErrorKind::OutOfMemory));
    let line = b"replay: out of memory\n";
    check_run(&rt, rt.alloc(), opened, &mut out, 3, line);
    let opened = Err::<&[u8], io::Error>(io::Error::from(io::ErrorKind::NotFound));
    let line = b"replay: cannot read the script\n";
    check_run(&rt, rt.alloc(), opened, &mut out, 3, line);
    assert!(rt; out.is_empty());
}

// A writer that fails at each byte of the output, and one that does not fail.
#[test]
fn writer_that_fails(rt: HostRuntime) {
    for space in 0..PRINTED.len() {
        let mut out = Limited {
            written: Vec::new(rt.alloc()),
            space,
        };
        let line = b"replay: cannot write\n";
        check_run(&rt, rt.alloc(), Ok(SCRIPT), &mut out, 3, line);
        assert!(rt; out.written.as_slice() == &PRINTED[..space]);
    }
    let mut out = Vec::new(rt.alloc());
    check_run(&rt, rt.alloc(), Ok(SCRIPT), &mut out, 0, b"");
    assert!(rt; out.as_slice() == PRINTED);
}

// Appends a line so many times.
fn append(text: &mut Vec<u8>, line: &[u8], times: usize) -> Result<(), AllocError> {
    for _ in 0..times {
        text.extend_from_slice(line)?;
    }
    Ok(())
}

// A batch that goes on from one part of 4096 commands to the next: two parts and one command. What is printed has two blocks, and
// the writer may fail in the second one.
#[test]
fn parts_of_a_script(rt: HostRuntime) -> Result<(), AllocError> {
    let mut script = Vec::new(rt.alloc());
    append(&mut script, b"begin\n", 1)?;
    append(&mut script, b"push 1\n", 4096)?;
    append(&mut script, b"chunk 0\n", 4095)?;
    append(&mut script, b"len\n", 1)?;
    let mut printed = Vec::new(rt.alloc());
    append(&mut printed, b"done\n", 4097)?;
    append(&mut printed, b"chunk ffffffff\n", 4095)?;
    append(&mut printed, b"number 4096\n", 1)?;
    let mut out = Vec::new(rt.alloc());
    check_run(&rt, rt.alloc(), Ok(script.as_slice()), &mut out, 0, b"");
    assert!(rt; out.as_slice() == printed.as_slice());
    let mut out = Limited {
        written: Vec::new(rt.alloc()),
        space: 70000,
    };
    let line = b"replay: cannot write\n";
    check_run(&rt, rt.alloc(), Ok(script.as_slice()), &mut out, 3, line);
    assert!(rt; printed.starts_with(out.written.as_slice()));
    assert_eq!(rt; out.written.len(), 70000);
    Ok(())
}

// A line past the first part that is not a command: no command runs, and nothing is printed.
#[test]
fn line_past_the_first_part(rt: HostRuntime) -> Result<(), AllocError> {
    let mut script = Vec::new(rt.alloc());
    append(&mut script, b"len\n", 4097)?;
    append(&mut script, b"lem\n", 1)?;
    let mut out = Vec::new(rt.alloc());
    let line = b"replay: line 4098 is not a command\n";
    check_run(&rt, rt.alloc(), Ok(script.as_slice()), &mut out, 2, line);
    assert!(rt; out.is_empty());
    Ok(())
}

// The width that is read from these words.
fn width_of(alloc: Global, words: &[&str]) -> Result<Option<u8>, AllocError> {
    let mut args = Vec::new(alloc);
    for word in words {
        args.push(String::from_str(alloc, word)?)?;
    }
    Ok(read_width(args.as_slice()))
}

// The five widths, and words that are not one of them and a script.
#[test]
fn widths_read(rt: HostRuntime) -> Result<(), AllocError> {
    for (word, width) in [("1", 1), ("3", 3), ("4", 4), ("8", 8), ("32", 32)] {
        assert_eq!(rt; width_of(rt.alloc(), &[word, "script"])?, Some(width));
        assert_eq!(rt; width_of(rt.alloc(), &[word])?, None);
        assert_eq!(rt; width_of(rt.alloc(), &[word, "script", "more"])?, None);
    }
    for word in ["", "0", "2", "7", "9", "64", "01", "+1", "1 ", "four"] {
        assert_eq!(rt; width_of(rt.alloc(), &[word, "script"])?, None);
    }
    assert_eq!(rt; width_of(rt.alloc(), &[])?, None);
    Ok(())
}
